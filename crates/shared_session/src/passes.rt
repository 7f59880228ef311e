use shared_repo::RepoPass;

/// The passes of one worker, one for each repository of a house, in the order of the names.
#[derive(Drop)]
pub struct Passes {
    pub list: Vec<RepoPass>,
}
