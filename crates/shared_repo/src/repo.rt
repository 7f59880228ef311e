use crate::state::SharedState;
use journal_lock::{JournalLock, Pass};

/// The right to make entries in a shared repository under one seat number.
pub type RepoPass = Pass<SharedState>;

/// A repository that several callers share.
#[derive(Drop)]
pub struct Repo {
    pub(crate) lock: JournalLock<SharedState>,
}
