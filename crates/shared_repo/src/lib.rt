//! A repository that several callers share, each by a pass of its own.
//!
//! Whoever makes an entry waits for the turn, so the entries of all callers are one journal. A pass
//! knows that journal up to the last entry that it made or saw in its turn. Nothing is copied for the
//! journal, which takes no memory.
#![tactic(auto)]

mod calls;
mod ends;
mod kinds;
mod laws;
mod repo;
mod shared;
mod state;

pub use laws::states_cross_threads;
pub use repo::{Repo, RepoPass};
pub use state::SharedState;
