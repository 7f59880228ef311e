//! Bodies of a known length.
ghost use Rattle.std.specs.Prelude.{◌≡◌, ℕ, ◌+◌, ◌≤◌, ◌<◌, List, [], ◌++◌, length, take, IfOk, IsOk, OnOk, OnErr};
ghost use Rattle.std.specs.Io.KnownBytes.{Keeps};
ghost use Rattle.rdf_io.specs.Causes.{HasCause};
ghost use Rattle.http_frame.specs.Answers.{TakesBody};
ghost use Rattle.http_frame.specs.Faults.{FaultsFor, SoundFor};
ghost use Rattle.http_frame.specs.Streams.{IsStream, Fills};
ghost use Rattle.http_frame.specs.declared.framing.Framing.TheVariants.{Length};

use crate::buffer::{Buffer, read_behind};
use crate::fault::FrameFault;
use crate::fields::Octets;
use rdf_io::{Failed, Source};
use std::alloc::{AllocError, Global};

/// The room that is made at first for a body that has not come yet. A peer that only announces a body
/// costs no more than this.
const FIRST_ROOM: usize = 16_384;

/// Cuts the first bytes of a body off those that are held.
fn held_part(alloc: Global, buffer: &mut Buffer, count: usize) -> Result<Vec<u8>, AllocError>
    ensures same { IfOk result (λ body. body.items ++ buffer.new ≡ buffer.old) }
    ensures most { IfOk result (λ body. length body.items ≤ count) }
    ensures all { IfOk result (λ body. length body.items < count → buffer.new ≡ []) }
{
    let held = buffer.as_slice();
    let part = count.min(held.len());
    let body = held[..part].to_vec(alloc)?;
    buffer.consume(part);
    Ok(body)
}

/// Makes room behind the first `at` bytes of a body: as much again, until the body has its length.
fn make_room(body: &mut Vec<u8>, at: usize, count: usize) -> Result<(), AllocError>
    requires came { at ≤ length body.old.items }
    requires short { at < count }
    requires most { length body.old.items ≤ count }
    ensures came { OnOk result (take at body.new.items ≡ take at body.old.items) }
    ensures room { OnOk result (at < length body.new.items) }
    ensures most { OnOk result (length body.new.items ≤ count) }
{
    if at < body.len() {
        return Ok(());
    }
    let more = at.max(FIRST_ROOM).min(count - at);
    body.resize(at + more, 0)
}

/// Reads into a body behind its first `at` bytes.
fn read_into<S: Source>(source: &mut S, body: &mut Vec<u8>, at: usize) -> Result<usize, Failed>
    requires { at < length body.old.items }
    ensures ok { IfOk result (λ n. Fills (take at body.old.items) (S.left source.old) (take (at + n) body.new.items) (S.left source.new) n) }
    ensures bound { IfOk result (λ n. at + n ≤ length body.new.items) }
    ensures len { length body.new.items ≡ length body.old.items }
    ensures err_source { OnErr result (Keeps (S.left source.old) (S.left source.new)) }
    ensures cause { HasCause (S.faults source.old) (S.faults source.new) result }
    ensures sound { S.sound source.old → IsOk result × S.sound source.new }
{
    read_behind(source, body, at)
}

/// Reads the rest of a body into its place.
fn read_rest<S: Source>(
    source: &mut S,
    mut body: Vec<u8>,
    count: usize,
) -> Result<Octets, FrameFault>
    requires { length body.items ≤ count }
    ensures body { (b : List ℕ) → IsStream body.items (S.left source.old) b
        → TakesBody (Length count) b [] (S.left source.new) result }
    ensures cause { FaultsFor (S.faults source.old) (S.faults source.new) result }
    ensures sound { SoundFor (S.sound source.old) (S.sound source.new) result }
{
    let mut at = body.len();
    'read: while at < count {
        match make_room(&mut body, at, count) {
            Ok(()) => {}
            Err(_) => return Err(FrameFault::Memory),
        }
        match read_into(source, &mut body, at) {
            Ok(more) => {
                if more == 0 {
                    return Err(FrameFault::Truncated);
                }
                at += more;
            }
            Err(_) => return Err(FrameFault::ReadFault),
        }
    }
    Ok(Octets::from_vec(body))
}

/// Takes a body of `count` bytes off the stream.
pub fn take_length<S: Source>(
    alloc: Global,
    buffer: &mut Buffer,
    source: &mut S,
    count: usize,
) -> Result<Octets, FrameFault>
    ensures body { (b : List ℕ) → IsStream buffer.old (S.left source.old) b
        → TakesBody (Length count) b buffer.new (S.left source.new) result }
    ensures cause { FaultsFor (S.faults source.old) (S.faults source.new) result }
    ensures sound { SoundFor (S.sound source.old) (S.sound source.new) result }
{
    let body = match held_part(alloc, buffer, count) {
        Ok(body) => body,
        Err(_) => return Err(FrameFault::Memory),
    };
    if body.len() == count {
        return Ok(Octets::from_vec(body));
    }
    match read_rest(source, body, count) {
        Ok(body) => Ok(body),
        Err(fault) => Err(fault),
    }
}
