//! Bodies whose framing says where they end.
ghost use Rattle.std.specs.Prelude.{◌≡◌, ℕ, List};
ghost use Rattle.http_frame.specs.Answers.{TakesWithin};
ghost use Rattle.http_frame.specs.Faults.{FaultsFor, SoundFor};
ghost use Rattle.http_frame.specs.Streams.{IsStream};

use crate::buffer::Buffer;
use crate::chunked_body::take_chunked;
use crate::fault::FrameFault;
use crate::fields::Octets;
use crate::framing::Framing;
use crate::length_body::take_length;
use rdf_io::Source;
use std::alloc::Global;

/// Takes a body off the stream. A chunked one may have `most` bytes, and one of a length has that.
pub fn take_body<S: Source>(
    alloc: Global,
    buffer: &mut Buffer,
    source: &mut S,
    framing: Framing,
    most: usize,
) -> Result<Octets, FrameFault>
    ensures body { (b : List ℕ) → IsStream buffer.old (S.left source.old) b
        → TakesWithin most framing b buffer.new (S.left source.new) result }
    ensures cause { FaultsFor (S.faults source.old) (S.faults source.new) result }
    ensures sound { SoundFor (S.sound source.old) (S.sound source.new) result }
{
    match framing {
        Framing::Length(count) => take_length(alloc, buffer, source, count),
        Framing::Chunked => take_chunked(alloc, buffer, source, most),
    }
}
