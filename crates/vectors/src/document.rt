use nquads::{DataFault, Kind};

/// What reading a document gives.
#[derive(Clone, Copy, Debug, PartialEq, Eq)]
pub enum Expected {
    /// The document is read: the canonical lines of its quads, in its order, as N-Quads.
    Lines(&'static str),
    /// The document is refused by its first bad line.
    Refused(DataFault),
}

/// A document, and what reading it gives.
#[derive(Clone, Copy, Debug, PartialEq, Eq)]
pub struct Document {
    /// What the document shows, for the message of a test.
    pub what: &'static str,
    /// The format that it is read as.
    pub kind: Kind,
    /// Its bytes, which need not be UTF-8.
    pub bytes: &'static [u8],
    /// What reading it gives.
    pub expected: Expected,
}
