ghost use Rattle.std.specs.Prelude.{◌≡◌, ◌↔◌, IsTrue};
ghost use Rattle.std.specs.Cmp.{partial_equiv_from_equiv};
ghost use Rattle.nquads_line.specs.Faults.{line_fault_number, same_line_fault, line_fault_laws, term_fault_number, same_term_fault, term_fault_laws};
ghost use Rattle.nquads_line.specs.declared.fault.LineFault.TheVariants.{Memory as NoMemory};

use rdf_term::Memory;
use std::alloc::AllocError;
use thiserror::Error;

/// Why a line gives no quad.
#[derive(Clone, Copy, Debug)]
pub enum LineFault {
    /// It is no line of the grammar.
    Bad,
    /// It is one, and a part of a term has more than 65,535 bytes in UTF-8.
    TooLong,
    /// No memory was found.
    Memory,
}

impl LineFault {
    /// A number that no other fault has.
    fn number(self) -> u8
        ensures { result ≡ line_fault_number self }
    {
        match self {
            LineFault::Bad => 0,
            LineFault::TooLong => 1,
            LineFault::Memory => 2,
        }
    }
}

impl PartialEq for LineFault {
    ghost eq = { same_line_fault };

    ghost laws = { partial_equiv_from_equiv line_fault_laws };

    fn eq(&self, other: &LineFault) -> bool
        ensures value { result ≡ same_line_fault self.now other.now }
        ensures same { IsTrue result ↔ (self.now ≡ other.now) }
    {
        self.number() == other.number()
    }
}

impl Eq for LineFault {
    ghost laws = { line_fault_laws };
}

impl From<Memory> for LineFault {
    ghost from_gives = { λ _ e. e ≡ NoMemory };

    fn from(_e: Memory) -> LineFault {
        LineFault::Memory
    }
}

impl From<AllocError> for LineFault {
    ghost from_gives = { λ _ e. e ≡ NoMemory };

    fn from(_e: AllocError) -> LineFault {
        LineFault::Memory
    }
}

/// Why a text gives no term.
#[derive(Clone, Copy, Debug, Error)]
pub enum TermTextFault {
    /// It is no term of the grammar.
    #[error("the text is no term")]
    BadTerm,
    /// It is one, and a part of it has more than 65,535 bytes in UTF-8.
    #[error("a part of the term is too long")]
    TooLong,
    /// No memory was found.
    #[error("no memory")]
    Memory,
}

impl TermTextFault {
    /// A number that no other fault has.
    fn number(self) -> u8
        ensures { result ≡ term_fault_number self }
    {
        match self {
            TermTextFault::BadTerm => 0,
            TermTextFault::TooLong => 1,
            TermTextFault::Memory => 2,
        }
    }
}

impl PartialEq for TermTextFault {
    ghost eq = { same_term_fault };

    ghost laws = { partial_equiv_from_equiv term_fault_laws };

    fn eq(&self, other: &TermTextFault) -> bool
        ensures value { result ≡ same_term_fault self.now other.now }
        ensures same { IsTrue result ↔ (self.now ≡ other.now) }
    {
        self.number() == other.number()
    }
}

impl Eq for TermTextFault {
    ghost laws = { term_fault_laws };
}
