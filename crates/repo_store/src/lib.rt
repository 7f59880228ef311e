//! A repository as a whole: a store for one caller that keeps its journal, and the answers of reads,
//! which take neither a store nor a lock.
#![tactic(auto)]

mod answers;
mod laws;
mod listing;
mod local;
mod names;
mod size;
mod sole;

pub use answers::answer;
pub use laws::{first_step_is_next, next_step_stays, pinned_is_answered};
pub use local::LocalRepo;
pub use sole::SoleRepo;
