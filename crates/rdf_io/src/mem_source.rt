ghost use Rattle.std.specs.Prelude.{◌≡◌, ℕ, ◌+◌, ◌^◌, ◌≤◌, ◌<◌, ◌↔◌, min, List, length, take, drop, Some, IsErr, IsOk, OnErr, OnOk, IfOk, Contains, []};
ghost use Rattle.std.specs.Io.{ReadsAtMost};
ghost use Rattle.std.specs.Io.KnownBytes.{ReadConsumes};
ghost use Rattle.rdf_io.specs.Causes.{HasCause, one_more};
ghost use Rattle.rdf_io.specs.Memory.{SourceState, most_given};

use crate::{Failed, Source};
use rdf_term::Bytes;
use std::marker::Model;

/// A source in memory, for tests: its bytes, how many of them each call gives at most, and which calls
/// fail. Calls are numbered from 0.
#[derive(Drop)]
pub struct MemSource {
    bytes: Bytes,
    at: usize,
    cuts: Vec<usize>,
    fails: Vec<u64>,
    calls: u64,
    count: u64,
}

impl Model for MemSource {
    ghost Value = { SourceState };

    ghost view = { λ s. record {
      rest = drop s.at s.bytes.items;
      cuts = s.cuts.items;
      fails = s.fails.items;
      calls = s.calls;
      count = s.count;
    } };

    ghost invariant = { λ s. s.at ≤ length s.bytes.items };
}

impl MemSource {
    /// A source of these bytes. Call n gives at most `cuts[n]` of them, and at least one while there
    /// are any; past the end of `cuts` a call gives all that fit. The calls whose numbers stand in
    /// `fails` fail, and no others.
    pub fn new(bytes: Bytes, cuts: Vec<usize>, fails: Vec<u64>) -> MemSource
        ensures { result ≡ record {
          rest = bytes.items;
          cuts = cuts.items;
          fails = fails.items;
          calls = 0;
          count = 0;
        } }
    {
        MemSource {
            bytes,
            at: 0,
            cuts,
            fails,
            calls: 0,
            count: 0,
        }
    }

    /// How many calls failed.
    pub fn faults(&self) -> u64
        ensures { result ≡ self.now.count }
    {
        self.count
    }
}

/// How many of the bytes that fit the call of this number gives.
fn most_given(cuts: &[usize], number: u64, fit: usize) -> usize
    ensures { result ≡ most_given cuts.now number fit }
{
    match cuts.get(number as usize) {
        Some(most) => (*most).max(1).min(fit),
        None => fit,
    }
}

/// Copies the first `count` bytes to the front of `buf`.
fn give(rest: &[u8], count: usize, buf: &mut [u8])
    requires { count ≤ min (length rest.now) (length buf.old) }
    ensures { take count buf.new ≡ take count rest.now }
{
    buf[..count].copy_from_slice(&rest[..count]);
}

impl Source for MemSource {
    ghost left = { λ s. Some s.rest };

    ghost faults = { λ s. s.count };

    ghost sound = { λ s. s.fails ≡ [] };

    fn read(&mut self, buf: &mut [u8]) -> Result<usize, Failed>
        ensures bound { ReadsAtMost result buf.new }
        ensures bytes { ReadConsumes (Some self.old.rest) (Some self.new.rest) result buf.new }
        ensures cause { HasCause self.old.count self.new.count result }
        ensures sound { self.old.fails ≡ [] → IsOk result × (self.new.fails ≡ []) }

        // It fails at exactly these calls, and a failed one changes the counts alone.
        ensures fails { IsErr result ↔ Contains self.old.fails self.old.calls }
        ensures calls { self.new.calls ≡ one_more self.old.calls }
        ensures failed { OnErr result (self.new ≡ record self.old { calls = self.new.calls; count = one_more self.old.count }) }
        ensures read { OnOk result (self.new ≡ record self.old { rest = self.new.rest; calls = self.new.calls }) }
        ensures given { IfOk result (λ n. n ≡ most_given self.old.cuts self.old.calls (min (length self.old.rest) (length buf.old))) }
    {
        let number = self.calls;
        self.calls = number.saturating_add(1);
        if self.fails.contains(&number) {
            self.count = self.count.saturating_add(1);
            return Err(Failed);
        }
        let rest = &self.bytes.as_slice()[self.at..];
        let count = most_given(&self.cuts, number, rest.len().min(buf.len()));
        give(rest, count, buf);
        self.at += count;
        Ok(count)
    }
}
