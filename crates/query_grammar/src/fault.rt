ghost use Rattle.std.specs.Prelude.{◌≡◌};
ghost use Rattle.query_grammar.specs.declared.fault.QueryFault.TheVariants.{Memory as NoQueryMemory};
ghost use Rattle.query_grammar.specs.declared.fault.Stop.TheVariants.{Memory as NoMemory};
ghost use Rattle.query_grammar.specs.Answers.{fault_at};

use rdf_term::Memory;
use thiserror::Error;

/// Why a token is refused.
#[derive(Clone, Copy, Debug)]
pub enum Kind {
    BadAt,
    Unsupported,
    UnknownPrefix,
}

/// Why a text is no query. Each fault but the last one has the byte at which the first refused token
/// begins, or the length of the text where its end is refused.
#[derive(Clone, Copy, Debug, PartialEq, Eq, Error)]
pub enum QueryFault {
    /// The token can't stand there.
    #[error("bad query at {0}")]
    BadAt(usize),
    /// SPARQL 1.1 has what stands there, and the profile hasn't.
    #[error("unsupported at {0}")]
    Unsupported(usize),
    /// The prefix wasn't declared.
    #[error("unknown prefix at {0}")]
    UnknownPrefix(usize),
    /// No memory was found.
    #[error("out of memory")]
    Memory,
}

/// Where the reading of a text stops.
#[derive(Debug, Drop)]
pub enum Stop {
    /// At the token that begins at this byte, or at the end of the text.
    Refused(usize, Kind),
    /// No memory was found.
    Memory,
}

impl From<Memory> for QueryFault {
    ghost from_gives = { λ _ e. e ≡ NoQueryMemory };

    fn from(_: Memory) -> QueryFault {
        QueryFault::Memory
    }
}

/// The fault of this kind at a byte.
pub fn fault_at(kind: Kind, at: usize) -> QueryFault
    ensures { result ≡ fault_at kind at }
{
    match kind {
        Kind::BadAt => QueryFault::BadAt(at),
        Kind::Unsupported => QueryFault::Unsupported(at),
        Kind::UnknownPrefix => QueryFault::UnknownPrefix(at),
    }
}

impl From<Memory> for Stop {
    ghost from_gives = { λ _ e. e ≡ NoMemory };

    fn from(_: Memory) -> Stop {
        Stop::Memory
    }
}
