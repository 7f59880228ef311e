ghost use Rattle.std.specs.Prelude.{◌≡◌, ◌↔◌, IsTrue};
ghost use Rattle.std.specs.Cmp.{partial_equiv_from_equiv};
ghost use Rattle.nquads.specs.Faults.{cause_number, fault_line, same_fault, fault_laws};
ghost use Rattle.nquads.specs.declared.fault.DataFault.TheVariants.{Memory as NoMemory};

use std::alloc::AllocError;
use thiserror::Error;

/// Why a document is refused. Lines are counted from 1; a number above 2^64 - 1 reads 2^64 - 1.
#[derive(Clone, Copy, Debug, Error)]
pub enum DataFault {
    /// The line of this number is no line of the grammar.
    #[error("bad line {0}")]
    BadLine(u64),
    /// The line of this number is one, but a part of a term in it has over 65,535 bytes.
    #[error("long line {0}")]
    TooLong(u64),
    /// No memory was found.
    #[error("no memory")]
    Memory,
}

impl DataFault {
    /// A number that no other cause has.
    fn cause(self) -> u8
        ensures { result ≡ cause_number self }
    {
        match self {
            DataFault::BadLine(_) => 0,
            DataFault::TooLong(_) => 1,
            DataFault::Memory => 2,
        }
    }

    /// The number of the line, and 0 where there is none.
    fn line(self) -> u64
        ensures { result ≡ fault_line self }
    {
        match self {
            DataFault::BadLine(number) => number,
            DataFault::TooLong(number) => number,
            DataFault::Memory => 0,
        }
    }
}

impl PartialEq for DataFault {
    ghost eq = { same_fault };

    ghost laws = { partial_equiv_from_equiv fault_laws };

    fn eq(&self, other: &DataFault) -> bool
        ensures value { result ≡ same_fault self.now other.now }
        ensures same { IsTrue result ↔ (self.now ≡ other.now) }
    {
        (self.cause() == other.cause()) & (self.line() == other.line())
    }
}

impl Eq for DataFault {
    ghost laws = { fault_laws };
}

impl From<AllocError> for DataFault {
    ghost from_gives = { λ _ e. e ≡ NoMemory };

    fn from(_: AllocError) -> DataFault {
        DataFault::Memory
    }
}
