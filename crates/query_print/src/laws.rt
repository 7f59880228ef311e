ghost use Rattle.query_print.specs.Laws.{ParsedAreWellFormed, PrintedAreReadAgain, WellFormedWhereRead};

use query_grammar::meaning_is_built;
use query_tokens::parted_tokens;

/// A query that a text in UTF-8 gives is well formed.
pub fn parsed_queries_are_well_formed()
    ensures { ParsedAreWellFormed }
{
    meaning_is_built();
}

/// The text that is printed of a well-formed query is read as that query.
pub fn printed_queries_are_read_again()
    ensures { PrintedAreReadAgain }
{
    parted_tokens();
}

/// A query is well formed exactly where some text in UTF-8 gives it.
pub fn well_formed_where_read()
    ensures { WellFormedWhereRead }
{
    parted_tokens();
    parsed_queries_are_well_formed();
}
