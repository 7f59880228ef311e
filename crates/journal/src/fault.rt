use rdf_term::Memory;
use std::alloc::{AllocError, AllocFailed};
use thiserror::Error;

/// Why a call of a repository made no entry.
#[derive(Clone, Copy, Debug, PartialEq, Eq, Error)]
pub enum StoreFault {
    /// The journal has as many entries as it may have.
    #[error("the journal is full")]
    JournalFull,
    /// No memory was found.
    #[error("no memory was found")]
    Memory,
}

/// The journal has as many entries as it may have.
#[derive(Clone, Copy, Debug, PartialEq, Eq)]
pub struct JournalFull;

impl From<JournalFull> for StoreFault {
    ghost use Rattle.std.specs.Prelude.{◌≡◌};
    ghost use Rattle.journal.specs.declared.fault.StoreFault.{StoreFault};

    ghost from_gives = { λ _ fault. fault ≡ StoreFault.JournalFull };

    fn from(_: JournalFull) -> StoreFault {
        StoreFault::JournalFull
    }
}

impl From<Memory> for StoreFault {
    ghost use Rattle.std.specs.Prelude.{◌≡◌};
    ghost use Rattle.journal.specs.declared.fault.StoreFault.{StoreFault};

    ghost from_gives = { λ _ fault. fault ≡ StoreFault.Memory };

    fn from(_: Memory) -> StoreFault {
        StoreFault::Memory
    }
}

impl From<AllocError> for StoreFault {
    ghost use Rattle.std.specs.Prelude.{◌≡◌};
    ghost use Rattle.journal.specs.declared.fault.StoreFault.{StoreFault};

    ghost from_gives = { λ _ fault. fault ≡ StoreFault.Memory };

    fn from(_: AllocError) -> StoreFault {
        StoreFault::Memory
    }
}

impl<T: Drop> From<AllocFailed<T>> for StoreFault {
    ghost use Rattle.std.specs.Prelude.{◌≡◌};
    ghost use Rattle.journal.specs.declared.fault.StoreFault.{StoreFault};

    ghost from_gives = { λ _ fault. fault ≡ StoreFault.Memory };

    fn from(_: AllocFailed<T>) -> StoreFault {
        StoreFault::Memory
    }
}
