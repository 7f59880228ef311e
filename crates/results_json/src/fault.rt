ghost use Rattle.std.specs.Prelude.{◌≡◌};
ghost use Rattle.results_json.specs.declared.fault.ResultFault.TheVariants.{Memory as NoMemory};

use rdf_term::Memory;
use thiserror::Error;

/// Why a text gives no table or no truth value.
#[derive(Clone, Copy, Debug, PartialEq, Eq, Error)]
pub enum ResultFault {
    /// It is no JSON text.
    #[error("no JSON")]
    NotJson,
    /// It is JSON of another shape.
    #[error("bad shape")]
    BadShape,
    /// It is a table but for the row of this number, from 0, which is the first that holds an object
    /// that is no term.
    #[error("bad term in row {0}")]
    BadTerm(u64),
    /// No memory was found.
    #[error("no memory")]
    Memory,
}

impl From<Memory> for ResultFault {
    ghost from_gives = { λ _ e. e ≡ NoMemory };

    fn from(_: Memory) -> ResultFault {
        ResultFault::Memory
    }
}
