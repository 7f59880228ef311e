//! What is left of a house when all doors have stopped.
use crate::door_end::DoorEnd;
use shared_repo::RepoPass;

/// How much a repository held when it was closed.
#[derive(Clone, Copy, Debug, PartialEq, Eq, Drop)]
pub struct RepoCount {
    /// The quads of the committed content.
    pub quads: u64,
    /// The accepted commits.
    pub commits: u64,
    /// The entries of the journal.
    pub entries: u64,
}

/// What came of the doors, in order, and for each repository a pass that has seen its whole journal, and
/// how much it held.
#[derive(Drop)]
pub struct HouseEnd {
    pub doors: Vec<DoorEnd>,
    pub closing: Vec<RepoPass>,
    pub counts: Vec<RepoCount>,
}
