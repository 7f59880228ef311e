//! What is got by a call, and why nothing is.
ghost use Rattle.std.specs.Prelude.{◌≡◌};
ghost use Rattle.reply_reading.specs.declared.got.ReplyFault.TheVariants.{Memory as NoMemory};

use journal::Reply;
use rdf_term::{Bytes, Memory};

/// What is got by a call.
#[derive(Debug)]
pub enum Got {
    /// The reply.
    Reply(Reply),
    /// A refusal: its status, and the bytes of its body.
    Refused(u16, Bytes),
}

// By hand, since a derived drop is expanded down to each text wherever it is let go.
impl Drop for Got {
    fn drop(self) {
        match self {
            Got::Reply(reply) => drop(reply),
            Got::Refused(_, body) => drop(body),
        }
    }
}

/// Why nothing is got.
#[derive(Clone, Copy, Debug, PartialEq, Eq)]
pub enum ReplyFault {
    /// The response grants what was asked, but has no reply to the call: its body is refused at the line or
    /// the row of this number, counted from 1, or at none, which is 0.
    BadReply(u64),
    /// No memory was found.
    Memory,
}

impl From<Memory> for ReplyFault {
    ghost from_gives = { λ _ fault. fault ≡ NoMemory };

    fn from(_: Memory) -> ReplyFault {
        ReplyFault::Memory
    }
}
