//! Conflicts of SERIALIZABLE transactions: what committed entries changed, and what a transaction has
//! observed.
//!
//! A contract sees a [`CommitLog`] as the list of its kept places, each with its delta, and the
//! greatest number given to `trim`; an [`Observed`] as its list of patterns.
#![tactic(auto)]

mod log;
mod logged;
mod observed;
mod search;

pub use log::CommitLog;
pub use observed::Observed;
