//! The bytes of a script, which come from a source, up to the end of a line.
ghost use Rattle.std.specs.Prelude.{◌≡◌, true, false, ℕ, ◌+◌, ◌-◌, ◌≤◌, ◌<◌, List, [], ◌++◌, length, take, drop, IfOk, IfSome, IfNone, IsOk, OnErr};
ghost use Rattle.std.specs.Io.KnownBytes.{Keeps, ReadConsumes};
ghost use Rattle.rdf_io.specs.Causes.{HasCause};
ghost use Rattle.client_script.specs.Inputs.{KeepsStream};
ghost use Rattle.client_script.specs.Waits.{Fills, IsFirstLf, Waits, has_lf};

use rdf_io::{Failed, Source};
use std::alloc::{AllocError, Global};
use std::marker::Model;

/// The most bytes that are held: those of the longest line and its end.
pub const ROOM: usize = 1_048_577;

/// Bytes of a script that are not yet used. Contracts see them as their list.
#[derive(Drop)]
pub struct Input {
    bytes: Vec<u8>,
    start: usize,
    len: usize,
}

impl Model for Input {
    ghost use Rattle.std.specs.Prelude.{◌≡◌, ℕ, ◌+◌, ◌≤◌, List, length, take, drop};

    ghost Value = { List ℕ };

    ghost view = { λ s. take s.len (drop s.start s.bytes.items) };

    ghost invariant = { λ s. record { room : s.start + s.len ≤ 1048577; size : length s.bytes.items ≡ 1048577 } };
}

/// How the wait for the end of a line ended.
#[derive(Clone, Copy)]
pub enum Wait {
    /// At an LF, which stands at this place.
    Ended(usize),
    /// With a full buffer without one.
    Full,
    /// At the end of the source without one.
    Over,
}

/// Reads into the bytes from `at` on.
fn read_at<S: Source>(source: &mut S, bytes: &mut [u8], at: usize) -> Result<usize, Failed>
    requires { at ≤ length bytes.old }
    ensures before { take at bytes.new ≡ take at bytes.old }
    ensures bound { IfOk result (λ n. at + n ≤ length bytes.new) }
    ensures bytes { ReadConsumes (S.left source.old) (S.left source.new) result (drop at bytes.new) }
    ensures cause { HasCause (S.faults source.old) (S.faults source.new) result }
    ensures sound { S.sound source.old → IsOk result × S.sound source.new }
{
    source.read(&mut bytes[at..])
}

/// Moves the range to the front.
fn move_front(bytes: &mut [u8], start: usize, len: usize)
    requires { start + len ≤ length bytes.old }
    ensures { take len bytes.new ≡ take len (drop start bytes.old) }
{
    if start > 0 {
        bytes.copy_within(start..start + len, 0);
    }
}

/// Reads behind the first `at` bytes, which are held.
fn read_behind<S: Source>(source: &mut S, bytes: &mut [u8], at: usize) -> Result<usize, Failed>
    requires { at < length bytes.old }
    ensures ok { IfOk result (λ n. Fills (take at bytes.old) (S.left source.old) (take (at + n) bytes.new) (S.left source.new) n) }
    ensures bound { IfOk result (λ n. at + n ≤ length bytes.new) }
    ensures err { OnErr result (take at bytes.new ≡ take at bytes.old) }
    ensures err_source { OnErr result (Keeps (S.left source.old) (S.left source.new)) }
    ensures cause { HasCause (S.faults source.old) (S.faults source.new) result }
    ensures sound { S.sound source.old → IsOk result × S.sound source.new }
{
    match read_at(source, bytes, at) {
        Ok(count) => Ok(count),
        Err(failed) => Err(failed),
    }
}

/// Moves the range to the front, and reads behind it.
fn refill<S: Source>(
    source: &mut S,
    bytes: &mut [u8],
    start: usize,
    len: usize,
) -> Result<usize, Failed>
    requires range { start + len ≤ length bytes.old }
    requires room { len < length bytes.old }
    ensures ok { IfOk result (λ n. Fills (take len (drop start bytes.old)) (S.left source.old) (take (len + n) bytes.new) (S.left source.new) n) }
    ensures bound { IfOk result (λ n. len + n ≤ length bytes.new) }
    ensures err { OnErr result (take len bytes.new ≡ take len (drop start bytes.old)) }
    ensures err_source { OnErr result (Keeps (S.left source.old) (S.left source.new)) }
    ensures cause { HasCause (S.faults source.old) (S.faults source.new) result }
    ensures sound { S.sound source.old → IsOk result × S.sound source.new }
{
    move_front(bytes, start, len);
    match read_behind(source, bytes, len) {
        Ok(count) => Ok(count),
        Err(failed) => Err(failed),
    }
}

/// The place of the first LF, of which none stands in the first `seen` bytes.
fn lf_from(bytes: &[u8], seen: usize) -> Option<usize>
    requires bound { seen ≤ length bytes.now }
    requires none { has_lf (take seen bytes.now) ≡ false }
    ensures found { IfSome result (IsFirstLf bytes.now) }
    ensures none { IfNone result (has_lf bytes.now ≡ false) }
{
    for place in seen..bytes.len() {
        if bytes[place] == b'\n' {
            return Some(place);
        }
    }
    None
}

impl Input {
    /// Nothing is held, and all the room is there.
    pub fn new(alloc: Global) -> Result<Input, AllocError>
        ensures { IfOk result (λ b. b ≡ []) }
    {
        Ok(Input {
            bytes: vec![in alloc; 0; ROOM]?,
            start: 0,
            len: 0,
        })
    }

    /// The bytes that are held.
    pub fn as_slice(&self) -> &[u8]
        ensures value { result.now ≡ self.now }
        ensures room { length self.now ≤ 1048577 }
    {
        &self.bytes[self.start..self.start + self.len]
    }

    /// Drops the first bytes.
    pub fn consume(&mut self, count: usize)
        requires { count ≤ length self.old }
        ensures { self.new ≡ drop count self.old }
    {
        self.start += count;
        self.len -= count;
    }

    /// Takes more bytes of the source, and answers how many: 0 exactly at its end.
    fn fill<S: Source>(&mut self, source: &mut S) -> Result<usize, Failed>
        requires { length self.old < 1048577 }
        ensures ok { IfOk result (λ n. Fills self.old (S.left source.old) self.new (S.left source.new) n) }
        ensures err { OnErr result (self.new ≡ self.old) }
        ensures err_source { OnErr result (Keeps (S.left source.old) (S.left source.new)) }
        ensures cause { HasCause (S.faults source.old) (S.faults source.new) result }
        ensures sound { S.sound source.old → IsOk result × S.sound source.new }
    {
        let result = refill(source, &mut self.bytes, self.start, self.len);
        self.start = 0;
        let count = result?;
        self.len += count;
        Ok(count)
    }

    /// Takes bytes of the source until an LF is held, the buffer is full or the source ended. Each byte
    /// is looked at once.
    pub fn await_line<S: Source>(&mut self, source: &mut S) -> Result<Wait, Failed>
        ensures stream { KeepsStream self.old (S.left source.old) self.new (S.left source.new) }
        ensures wait { IfOk result (Waits self.new (S.left source.new)) }
        ensures cause { HasCause (S.faults source.old) (S.faults source.new) result }
        ensures sound { S.sound source.old → IsOk result × S.sound source.new }
    {
        let mut seen = 0;
        'wait: loop {
            if let Some(place) = lf_from(self.as_slice(), seen) {
                return Ok(Wait::Ended(place));
            }
            seen = self.as_slice().len();
            if seen >= ROOM {
                return Ok(Wait::Full);
            }
            match self.fill(source) {
                Ok(count) => {
                    if count == 0 {
                        return Ok(Wait::Over);
                    }
                }
                Err(failed) => return Err(failed),
            }
        }
    }
}
