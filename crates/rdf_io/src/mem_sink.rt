ghost use Rattle.std.specs.Prelude.{◌≡◌, ◌≤◌, ◌↔◌, ◌++◌, [], length, true, false, Some, IsErr, OnErr, OnOk, IfOk, Contains};
ghost use Rattle.std.specs.Io.KnownBytes.{Keeps};
ghost use Rattle.rdf_io.specs.Causes.{HasCause, WritesPart, one_more};
ghost use Rattle.rdf_io.specs.Memory.{SinkState};

use crate::{Failed, Sink};
use rdf_term::Bytes;
use std::alloc::Global;
use std::marker::Model;

/// A sink in memory, for tests: it takes whole pieces, and the calls whose numbers are listed fail.
/// Writes and flushes are numbered together, from 0. A write for which there is no memory fails too.
#[derive(Drop)]
pub struct MemSink {
    bytes: Bytes,
    fails: Vec<u64>,
    calls: u64,
    count: u64,
}

impl Model for MemSink {
    ghost Value = { SinkState };

    ghost view = { λ s. record {
      got = s.bytes.items;
      fails = s.fails.items;
      calls = s.calls;
      count = s.count;
    } };
}

impl MemSink {
    /// A sink that took nothing yet.
    pub fn new(alloc: Global, fails: Vec<u64>) -> MemSink
        ensures { result ≡ record {
          got = [];
          fails = fails.items;
          calls = 0;
          count = 0;
        } }
    {
        MemSink {
            bytes: Bytes::new(alloc),
            fails,
            calls: 0,
            count: 0,
        }
    }

    /// The bytes that the sink took.
    pub fn taken(&self) -> &[u8]
        ensures { result.now ≡ self.now.got }
    {
        self.bytes.as_slice()
    }

    /// How many calls failed.
    pub fn faults(&self) -> u64
        ensures { result ≡ self.now.count }
    {
        self.count
    }

    /// Counts this call, and says whether it is one that fails.
    fn fails_now(&mut self) -> bool
        ensures got { self.new ≡ record self.old { calls = self.new.calls; count = self.new.count } }
        ensures calls { self.new.calls ≡ one_more self.old.calls }
        ensures fails { result ≡ true ↔ Contains self.old.fails self.old.calls }
        ensures later { self.old.count ≤ self.new.count }
        ensures failed { result ≡ true → self.new.count ≡ one_more self.old.count }
        ensures kept { result ≡ false → self.new.count ≡ self.old.count }
    {
        let number = self.calls;
        self.calls = number.saturating_add(1);
        let failing = self.fails.contains(&number);
        if failing {
            self.count = self.count.saturating_add(1);
        }
        failing
    }
}

impl Sink for MemSink {
    ghost taken = { λ s. Some s.got };

    ghost faults = { λ s. s.count };

    fn write(&mut self, piece: &[u8]) -> Result<usize, Failed>
        ensures bytes { WritesPart (Some self.old.got) (Some self.new.got) result piece.now }
        ensures cause { HasCause self.old.count self.new.count result }

        // It fails at these calls and without memory, and takes nothing then.
        ensures fails { Contains self.old.fails self.old.calls → IsErr result }
        ensures calls { self.new.calls ≡ one_more self.old.calls }
        ensures rules { self.new.fails ≡ self.old.fails }
        ensures whole { IfOk result (λ n. n ≡ length piece.now) }
        ensures failed { OnErr result (self.new.got ≡ self.old.got) }

        // A fault is counted once, as a call and as a fault, and changes nothing else.
        ensures fault { OnErr result (self.new ≡ record self.old { calls = one_more self.old.calls; count = one_more self.old.count }) }
        ensures taken { OnOk result (self.new ≡ record self.old { got = self.old.got ++ piece.now; calls = one_more self.old.calls }) }
    {
        if self.fails_now() {
            return Err(Failed);
        }
        if self.bytes.append(piece).is_err() {
            self.count = self.count.saturating_add(1);
            return Err(Failed);
        }
        Ok(piece.len())
    }

    fn flush(&mut self) -> Result<(), Failed>
        ensures bytes { Keeps (Some self.old.got) (Some self.new.got) }
        ensures cause { HasCause self.old.count self.new.count result }
        ensures fails { IsErr result ↔ Contains self.old.fails self.old.calls }
        ensures calls { self.new.calls ≡ one_more self.old.calls }
        ensures rules { self.new.fails ≡ self.old.fails }
        ensures fault { OnErr result (self.new ≡ record self.old { calls = one_more self.old.calls; count = one_more self.old.count }) }
        ensures flushed { OnOk result (self.new ≡ record self.old { calls = one_more self.old.calls }) }
    {
        if self.fails_now() {
            Err(Failed)
        } else {
            Ok(())
        }
    }
}
