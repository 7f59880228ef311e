ghost use Rattle.std.specs.Prelude.{◌≡◌};
ghost use Rattle.bgp_eval.specs.declared.fault.EvalFault.TheVariants.{Memory as NoMemory};

use rdf_term::Memory;
use thiserror::Error;

/// Why a query has no answer.
#[derive(Clone, Copy, Debug, PartialEq, Eq, Error)]
pub enum EvalFault {
    /// There are more solutions than were allowed.
    #[error("too many rows")]
    TooManyRows,
    /// No memory was found.
    #[error("out of memory")]
    Memory,
}

impl From<Memory> for EvalFault {
    ghost from_gives = { λ _ e. e ≡ NoMemory };

    fn from(_: Memory) -> EvalFault {
        EvalFault::Memory
    }
}
