//! Responses that are written without memory.
use journal::Txn;

/// What is answered without memory.
#[derive(Clone, Copy, Debug)]
pub enum Short {
    /// This transaction was begun.
    Begun(Txn),
    /// A transaction was committed.
    Committed,
    /// Anything else is done.
    Done,
    /// The transaction that is named is not open.
    NoTransaction,
    /// As many transactions are open as may be.
    TooManyOpen,
    /// More would be kept than may be.
    TooLarge,
    /// The journal has as many entries as it may have.
    JournalFull,
    /// No memory was found.
    OutOfMemory,
}
