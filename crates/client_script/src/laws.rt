//! Laws of the definitions, each as the contract of a function that does nothing.
ghost use Rattle.client_script.specs.Laws.{CommandsAreValid, CurrentIsLastBegun, OneCommand};

use nquads_line::{lines_are_valid, one_line_reading};
use query_text::{one_query, parsed_queries_are_well_formed};

/// A line stands for at most one command.
pub fn one_command()
    ensures { OneCommand }
{
    one_line_reading();
    one_query();
}

/// What the command of a line holds meets the grammars.
pub fn commands_are_valid()
    ensures { CommandsAreValid }
{
    lines_are_valid();
    parsed_queries_are_well_formed();
}

/// The current transaction is the one that was last begun, and neither committed nor rolled back with
/// success since.
pub fn current_is_last_begun()
    ensures { CurrentIsLastBegun }
{}
