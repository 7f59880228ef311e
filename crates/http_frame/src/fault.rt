ghost use Rattle.std.specs.Prelude.{◌≡◌};
ghost use Rattle.http_frame.specs.declared.fault.FrameFault.TheVariants.{ReadFault, Memory};

use rdf_io::Failed;
use std::alloc::AllocError;
use thiserror::Error;

/// Why no further request is read. Where several refusals hold, the earlier one here is answered.
#[derive(Clone, Copy, Debug, PartialEq, Eq, Drop, Error)]
pub enum FrameFault {
    /// The stream begins with no head of a request within the limits.
    #[error("bad head")]
    BadHead,
    /// A request of version 1.1 has no Host field, or several (RFC 9112, section 3.2).
    #[error("bad host")]
    BadHost,
    /// The head says nothing of its body that holds together: it has a length and a transfer coding,
    /// several lengths, one that is no decimal number, or a transfer coding in version 1.0. Or a chunked
    /// body breaks its grammar.
    #[error("bad body")]
    BadBody,
    /// The body has a transfer coding other than `chunked` (RFC 9112, section 6.1).
    #[error("unsupported transfer coding")]
    Coding,
    /// The body is longer than 16,777,216 bytes.
    #[error("body too long")]
    BodyTooLong,
    /// The stream ended inside the body.
    #[error("truncated body")]
    Truncated,
    /// The source failed.
    #[error("the source failed")]
    ReadFault,
    /// No memory was found.
    #[error("no memory")]
    Memory,
}

impl From<AllocError> for FrameFault {
    ghost from_gives = { λ _ e. e ≡ Memory };

    fn from(_: AllocError) -> FrameFault {
        FrameFault::Memory
    }
}

impl From<rdf_term::Memory> for FrameFault {
    ghost from_gives = { λ _ e. e ≡ Memory };

    fn from(_: rdf_term::Memory) -> FrameFault {
        FrameFault::Memory
    }
}

impl From<Failed> for FrameFault {
    ghost from_gives = { λ _ e. e ≡ ReadFault };

    fn from(_: Failed) -> FrameFault {
        FrameFault::ReadFault
    }
}
