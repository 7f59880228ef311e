//! The client of the interface: one exchange of a call for its answer, and a whole script of them.
//!
//! [`run_script`] carries the theorem of the client: which requests it writes for which script and
//! responses, what it prints, and when it ends with which cause.
#![tactic(auto)]

mod calling;
mod end;
mod laws;
mod run;
mod turn;

pub use calling::{exchange, is_host};
pub use end::ClientEnd;
pub use laws::{
    answered_or_not, answers_are_printed, one_run, refusals_are_got, replies_are_printed,
    written_replies_are_got,
};
pub use run::run_script;
