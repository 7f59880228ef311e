//! Tests of the lock over its public calls: threads that write by turns into a value which stores its
//! entries, and into one which doesn't.
#![tactic(auto)]

mod diary;
mod diary_threads;
mod tally;
mod tally_threads;
#[cfg(test)]
mod tests;

pub use diary::{Diary, Note};
pub use diary_threads::write_by;
pub use tally::{Gift, Tally};
pub use tally_threads::give_by;
