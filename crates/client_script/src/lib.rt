//! The script of a client of the interface: what its lines ask for, which calls they make, and what
//! is printed for the answers.
//!
//! Nothing here speaks to a server: a [`Script`] reads commands from a source, [`Command::next_call`] says
//! what is done at a command, and the writers append what is printed.
#![tactic(auto)]

mod action;
mod command;
mod input;
mod laws;
mod line;
mod printing;
mod script;
mod verb;

pub use action::{Action, txn_after};
pub use command::Command;
pub use laws::{commands_are_valid, current_is_last_begun, one_command};
pub use line::read_command;
pub use printing::{print_bad_line, print_refusal, print_reply};
pub use script::{Script, ScriptFault};
