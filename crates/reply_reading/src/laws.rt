//! Laws of what responses are read as, each as the contract of a function that does nothing.
ghost use Rattle.reply_reading.specs.Laws.{OneReading, RepliesReadAgain};

use api_paths::one_transaction;
use nquads::{
    documents_read_again, is_refused_or_read, one_first_bad_line, one_reading as one_document,
};
use results_json::{one_table_reading, one_truth_reading, tables_read_again, truths_read_again};

/// A response to a call is read as one thing, want of memory apart.
pub fn one_reading()
    ensures { OneReading }
{
    one_transaction();
    one_document();
    one_first_bad_line();
    is_refused_or_read();
    one_table_reading();
    one_truth_reading();
}

/// The response that is written of a reply, which fits a call and grants what was asked, is read as that
/// reply, where its terms are valid. In a form that leaves the graphs off, quads are read without them,
/// and equal neighbours once.
pub fn replies_read_again()
    ensures { RepliesReadAgain }
{
    documents_read_again();
    tables_read_again();
    truths_read_again();
}
