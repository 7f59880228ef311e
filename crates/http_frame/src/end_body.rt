//! Bodies that end where the stream does (RFC 9112, section 6.3).
ghost use Rattle.std.specs.Prelude.{◌≡◌, ℕ, List, [], ◌++◌, OnOk};
ghost use Rattle.http_frame.specs.ResponseAnswers.{TakesToEnd};
ghost use Rattle.http_frame.specs.Faults.{FaultsFor, SoundFor};
ghost use Rattle.http_frame.specs.Streams.{IsStream};

use crate::buffer::Buffer;
use crate::chunked_body::hold;
use crate::fault::FrameFault;
use crate::fields::Octets;
use rdf_io::Source;
use std::alloc::{AllocError, Global};

/// Takes all bytes that are held.
fn take_held(buffer: &mut Buffer, body: &mut Vec<u8>) -> Result<(), AllocError>
    ensures grown { OnOk result (body.new.items ≡ body.old.items ++ buffer.old) }
    ensures taken { OnOk result (buffer.new ≡ []) }
{
    body.extend_from_slice(buffer.as_slice())?;
    buffer.consume(buffer.as_slice().len());
    Ok(())
}

/// Takes all bytes up to the end of the stream, unless there are more than `most`.
pub fn take_to_end<S: Source>(
    alloc: Global,
    buffer: &mut Buffer,
    source: &mut S,
    most: usize,
) -> Result<Octets, FrameFault>
    ensures body { (b : List ℕ) → IsStream buffer.old (S.left source.old) b
        → TakesToEnd most b buffer.new (S.left source.new) result }
    ensures cause { FaultsFor (S.faults source.old) (S.faults source.new) result }
    ensures sound { SoundFor (S.sound source.old) (S.sound source.new) result }
{
    let mut body = Vec::new(alloc);
    'read: loop {
        match hold(buffer, source) {
            Ok(true) => {}
            Ok(false) => return Ok(Octets::from_vec(body)),
            Err(_) => return Err(FrameFault::ReadFault),
        }
        if buffer.as_slice().len() > most - body.len() {
            return Err(FrameFault::BodyTooLong);
        }
        match take_held(buffer, &mut body) {
            Ok(()) => {}
            Err(_) => return Err(FrameFault::Memory),
        }
    }
}
