//! Chunked bodies.
ghost use Rattle.std.specs.Prelude.{◌≡◌, ℕ, ◌≤◌, ◌<◌, ◌∷◌, List, [], length, Some, true, false, IfOk, OnErr, IsOk};
ghost use Rattle.rdf_io.specs.Causes.{HasCause};
ghost use Rattle.http_frame.specs.Answers.{TakesWithin};
ghost use Rattle.http_frame.specs.Faults.{FaultsFor, SoundFor};
ghost use Rattle.http_frame.specs.Places.{step, IsPlace, IsStep, IsTurn, behind_data};
ghost use Rattle.http_frame.specs.Streams.{IsStream, KeepsStream, Holds};
ghost use Rattle.http_frame.specs.declared.chunk.Place.TheVariants.{Data};
ghost use Rattle.http_frame.specs.declared.framing.Framing.TheVariants.{Chunked};

use crate::buffer::Buffer;
use crate::chunk::{Place, Step, next_step};
use crate::fault::FrameFault;
use crate::fields::Octets;
use rdf_io::{Failed, Source};
use std::alloc::{AllocError, Global};

/// Sees that a byte is held, or answers that the stream has ended.
pub fn hold<S: Source>(buffer: &mut Buffer, source: &mut S) -> Result<bool, Failed>
    ensures stream { KeepsStream buffer.old (S.left source.old) buffer.new (S.left source.new) }
    ensures some { IfOk result (Holds buffer.new (S.left source.new)) }
    ensures none { OnErr result (buffer.new ≡ []) }
    ensures cause { HasCause (S.faults source.old) (S.faults source.new) result }
    ensures sound { S.sound source.old → IsOk result × S.sound source.new }
{
    if buffer.as_slice().len() > 0 {
        return Ok(true);
    }
    match buffer.fill(source) {
        Ok(count) => Ok(count > 0),
        Err(failed) => Err(failed),
    }
}

/// Where the bytes of a chunk lead that are taken at once.
fn behind_data(left: usize, part: usize) -> Place
    ensures { result ≡ behind_data left part }
{
    if part < left {
        Place::Data(left - part)
    } else {
        Place::DataReturn
    }
}

/// Takes as many bytes of a chunk as are held.
fn take_data(
    buffer: &mut Buffer,
    body: &mut Vec<u8>,
    left: usize,
    room: usize,
) -> Result<Step, AllocError>
    requires held { 0 < length buffer.old }
    requires place { 0 < left }
    ensures { IfOk result (IsTurn (Data left) room buffer.old buffer.new body.old.items body.new.items) }
{
    let held = buffer.as_slice();
    let part = left.min(held.len());
    body.extend_from_slice(&held[..part])?;
    buffer.consume(part);
    Ok(Step::Next(behind_data(left, part), room))
}

/// Takes one byte of a chunked body.
fn take_byte(buffer: &mut Buffer, place: Place, room: usize) -> Step
    requires held { 0 < length buffer.old }
    requires place { IsPlace place }
    ensures step { (byte : ℕ) × (buffer.old ≡ byte ∷ buffer.new) × (result ≡ step place room byte) }
    ensures reached { IsStep place room result }
{
    let byte = buffer.as_slice()[0];
    buffer.consume(1);
    next_step(place, room, byte)
}

/// Follows a chunked body: the bytes of a chunk as many as are held, and else one byte.
fn turn(
    buffer: &mut Buffer,
    body: &mut Vec<u8>,
    place: Place,
    room: usize,
) -> Result<Step, AllocError>
    requires held { 0 < length buffer.old }
    requires place { IsPlace place }
    ensures { IfOk result (IsTurn place room buffer.old buffer.new body.old.items body.new.items) }
{
    match place {
        Place::Data(left) => take_data(buffer, body, left, room),
        _ => Ok(take_byte(buffer, place, room)),
    }
}

/// Takes a chunked body of no more than `most` bytes off the stream. It costs one pass over its bytes and one copy of those that the
/// chunks carry, however they come.
pub fn take_chunked<S: Source>(
    alloc: Global,
    buffer: &mut Buffer,
    source: &mut S,
    most: usize,
) -> Result<Octets, FrameFault>
    ensures body { (b : List ℕ) → IsStream buffer.old (S.left source.old) b
        → TakesWithin most Chunked b buffer.new (S.left source.new) result }
    ensures cause { FaultsFor (S.faults source.old) (S.faults source.new) result }
    ensures sound { SoundFor (S.sound source.old) (S.sound source.new) result }
{
    let mut body = Vec::new(alloc);
    let mut place = Place::Size(0, 0);
    let mut room = most;
    'read: loop {
        match hold(buffer, source) {
            Ok(true) => {}
            Ok(false) => return Err(FrameFault::Truncated),
            Err(_) => return Err(FrameFault::ReadFault),
        }
        match turn(buffer, &mut body, place, room) {
            Ok(Step::Next(next, left)) => {
                place = next;
                room = left;
            }
            Ok(Step::Done) => return Ok(Octets::from_vec(body)),
            Ok(Step::Broken) => return Err(FrameFault::BadBody),
            Ok(Step::Long) => return Err(FrameFault::BodyTooLong),
            Err(_) => return Err(FrameFault::Memory),
        }
    }
}
