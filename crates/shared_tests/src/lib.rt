//! Tests of shared repositories over their public calls: worked histories of two passes, and threads
//! whose entries are replayed by a repository for one caller.
#![tactic(auto)]

mod acts;
mod pair;
mod quads;
mod query;
mod replay;
mod threads;
#[cfg(test)]
mod worked;

pub use acts::{Act, Answer};
pub use pair::{Case, Seat, play};
pub use quads::Observed;
pub use query::query_with_a_write_between;
pub use replay::is_replayed;
pub use threads::{Crew, Heard, work_by};
