//! Where a worker may be held up.

/// What a worker has come to.
#[derive(Clone, Copy, Debug, PartialEq, Eq, Drop)]
pub enum GateMark {
    /// The entries of a request are made, and its answer is not yet computed.
    Pinned { worker: u32, request: u64 },
    /// The response to a request was written.
    Written { worker: u32, request: u64 },
}

/// A place that each request of a session passes. It promises nothing.
pub trait Gate {
    /// Lets a worker pass, perhaps after a while.
    fn enter(&self, mark: GateMark);
}

/// A gate that holds nobody up.
#[derive(Clone, Copy, Debug, Drop)]
pub struct OpenGate;

impl Gate for OpenGate {
    fn enter(&self, mark: GateMark) {
        let _ = mark;
    }
}
