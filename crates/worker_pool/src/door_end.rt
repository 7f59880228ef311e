//! How the work at a door ended.
use session::SessionReport;

/// Why a worker stopped.
#[derive(Clone, Copy, Debug, PartialEq, Eq, Drop)]
pub enum DoorStop {
    /// The door has no more connections.
    Closed,
    /// The door failed.
    DoorFault,
    /// No memory was found for one more report.
    Memory,
}

/// What a worker did at its door: a report of each connection, in order, and why it stopped.
#[derive(Drop)]
pub struct DoorEnd {
    pub reports: Vec<SessionReport>,
    pub stop: DoorStop,
}

/// What comes next at a door.
#[derive(Drop)]
pub(crate) enum Next {
    /// A connection was served.
    Served(SessionReport),
    /// There are no more.
    Shut,
    /// The door failed.
    Broken,
}
