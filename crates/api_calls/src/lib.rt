//! What a request asks of the server, and why it is refused, as values.
//!
//! The types alone, with the entries that a call makes, for whoever reads requests, answers them or
//! speaks of sessions.
#![tactic(auto)]

mod call;
mod fault;

pub use call::Call;
pub use fault::{Allow, ApiFault};
