//! What a session reports.
use journal::Mark;

/// How a session ended.
#[derive(Clone, Copy, Debug, PartialEq, Eq, Drop)]
pub enum SessionEnd {
    /// The stream ended between two requests, or a request closed the connection.
    Done,
    /// A frame was refused.
    Refused,
    /// The source failed.
    ReadFault,
    /// The sink failed.
    WriteFault,
    /// As many requests were answered as a session may have.
    Limit,
    /// No memory was found.
    Memory,
}

/// How a request was answered.
#[derive(Clone, Copy, Debug, PartialEq, Eq, Drop)]
pub enum Outcome {
    /// By the reply to its entries.
    Answered,
    /// It is no call, by its form.
    FormRefused,
    /// The journal was full before all its entries were made.
    JournalFull,
    /// No memory was found.
    NoMemory,
}

/// A request that was answered: how many entries it made, and how it was answered.
#[derive(Clone, Copy, Debug, PartialEq, Eq, Drop)]
pub struct Turn {
    pub marks: u32,
    pub outcome: Outcome,
}

/// A session that has ended: its turns in order, and where their entries stand, turn by turn.
#[derive(Debug, Drop)]
pub struct SessionReport {
    pub end: SessionEnd,
    pub turns: Vec<Turn>,
    pub marks: Vec<Mark>,
}
