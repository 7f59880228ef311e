ghost use Rattle.results_json.specs.Laws.{OneTableReading, OneTruthReading, TablesReadAgain, TruthsReadAgain};

/// A text has one answer of `read_rows`, want of memory apart.
pub fn one_table_reading()
    ensures { OneTableReading }
{}

/// A text has one answer of `read_truth`, want of memory apart.
pub fn one_truth_reading()
    ensures { OneTruthReading }
{}

/// What is written of a table is read as that table, where its names are distinct, each row has one
/// place for each of them, and its terms are valid.
pub fn tables_read_again()
    ensures { TablesReadAgain }
{}

/// What is written of a truth value is read as that truth value.
pub fn truths_read_again()
    ensures { TruthsReadAgain }
{}
