ghost use Rattle.std.specs.Prelude.{◌≡◌, ◌≤◌, ◌↔◌, [], length, map, slice_get, option_copied, true, false, Some, None, IsErr, IfOk, OnErr, Contains};
ghost use Rattle.rdf_io.specs.Causes.{HasCause, one_more};
ghost use Rattle.rdf_io.specs.Doors.{GivesFirst, StartsEmpty, HandsBack, with_broken};
ghost use Rattle.rdf_io.specs.Memory.{DialState, IsUnused, told_of, got_of, at_most_one, is_out, count_given};

use crate::door::with_broken;
use crate::{Dial, Failed, MemSink, MemSource};
use rdf_term::Text;
use std::marker::Model;

/// A dial in memory, for tests: it gives its one link, whatever the address, and the dials whose
/// numbers are listed fail. Dials are numbered from 0.
#[derive(Drop)]
pub struct MemDial {
    /// The link, where it was not given yet.
    rest: Option<(MemSource, MemSink)>,
    /// The link, where it was handed back.
    back: Option<(MemSource, MemSink)>,
    fails: Vec<u64>,
    calls: u64,
    faults: u64,
    broken_sources: u64,
    broken_sinks: u64,
}

impl Model for MemDial {
    ghost use Rattle.std.specs.Prelude.{◌≡◌, IfSome, None};
    ghost use Rattle.rdf_io.specs.Memory.{DialState, IsUnused};

    ghost Value = { DialState };

    ghost view = { λ d. record {
      rest = d.rest;
      back = d.back;
      fails = d.fails.items;
      calls = d.calls;
      faults = d.faults;
      broken_sources = d.broken_sources;
      broken_sinks = d.broken_sinks;
    } };

    ghost invariant = { λ d. IfSome d.rest (λ l. IsUnused l × (d.back ≡ None)) };
}

impl MemDial {
    /// A dial with this link, on whose ends nothing was called yet. The dials whose numbers stand in
    /// `fails` fail, and no others.
    pub fn new(link: (MemSource, MemSink), fails: Vec<u64>) -> MemDial
        requires { IsUnused link }
        ensures { result ≡ record {
          rest = Some link;
          back = None;
          fails = fails.items;
          calls = 0;
          faults = 0;
          broken_sources = 0;
          broken_sinks = 0;
        } }
    {
        MemDial {
            rest: Some(link),
            back: None,
            fails,
            calls: 0,
            faults: 0,
            broken_sources: 0,
            broken_sinks: 0,
        }
    }

    /// What the sink of the link handed back at this place, from 0, took, where there is one.
    pub fn taken(&self, n: usize) -> Option<&[u8]>
        ensures bytes { option_copied result ≡ slice_get (map got_of (at_most_one self.now.back)) n }
        ensures none { result ≡ None ↔ length (at_most_one self.now.back) ≤ n }
    {
        if n > 0 {
            return None;
        }
        match &self.back {
            None => None,
            Some(link) => Some(link.1.taken()),
        }
    }

    /// Counts this dial, and says whether it is one that fails.
    fn fails_now(&mut self) -> bool
        ensures counts { self.new ≡ record self.old { calls = one_more self.old.calls; faults = self.new.faults } }
        ensures fails { result ≡ true ↔ Contains self.old.fails self.old.calls }
        ensures later { self.old.faults ≤ self.new.faults }
        ensures failed { result ≡ true → self.new.faults ≡ one_more self.old.faults }
        ensures kept { result ≡ false → self.new.faults ≡ self.old.faults }
    {
        let number = self.calls;
        self.calls = number.saturating_add(1);
        let failing = self.fails.contains(&number);
        if failing {
            self.faults = self.faults.saturating_add(1);
        }
        failing
    }

    /// The link, which is out then.
    fn lend(&mut self) -> (MemSource, MemSink)
        requires { count_given self.old.rest ≡ 0 }
        ensures rest { self.old.rest ≡ Some result }
        ensures unused { IsUnused result }
        ensures none { self.old.back ≡ None }
        ensures link { self.new ≡ record self.old { rest = None } }
    {
        match self.rest.take() {
            Some(link) => link,
            None => unreachable!(),
        }
    }
}

impl Dial for MemDial {
    type In = MemSource;

    type Out = MemSink;

    ghost links = { λ d. Some (map told_of (at_most_one d.rest)) };

    ghost backs = { λ d. Some (map got_of (at_most_one d.back)) };

    ghost out = { λ d. is_out d.rest d.back };

    ghost faults = { λ d. d.faults };

    ghost given = { λ d. count_given d.rest };

    ghost broken_sources = { λ d. d.broken_sources };

    ghost broken_sinks = { λ d. d.broken_sinks };

    fn dial(&mut self, address: &Text) -> Result<(MemSource, MemSink), Failed>
        requires none { count_given self.old.rest ≡ 0 }
        ensures given { IfOk result (λ _. (is_out self.new.rest self.new.back ≡ true) × (count_given self.new.rest ≡ 1)) }
        ensures sound { IfOk result (λ l. (l.0.count ≡ 0) × (l.1.count ≡ 0)) }
        ensures first { IfOk result (λ l. GivesFirst (Some (map told_of (at_most_one self.old.rest))) (Some (map told_of (at_most_one self.new.rest))) (Some l.0.rest) (l.0.fails ≡ [])) }
        ensures empty { IfOk result (λ l. StartsEmpty (Some (map got_of (at_most_one self.old.back))) (Some l.1.got)) }
        ensures fault { OnErr result ((is_out self.new.rest self.new.back ≡ is_out self.old.rest self.old.back) × (Some (map told_of (at_most_one self.new.rest)) ≡ Some (map told_of (at_most_one self.old.rest))) × (count_given self.new.rest ≡ count_given self.old.rest)) }
        ensures cause { HasCause self.old.faults self.new.faults result }
        ensures backs { Some (map got_of (at_most_one self.new.back)) ≡ Some (map got_of (at_most_one self.old.back)) }
        ensures broken { (self.new.broken_sources ≡ self.old.broken_sources) × (self.new.broken_sinks ≡ self.old.broken_sinks) }

        // It fails at exactly these dials, and a failed one changes the counts alone.
        ensures fails { IsErr result ↔ Contains self.old.fails self.old.calls }
        ensures failed { OnErr result (self.new ≡ record self.old { calls = one_more self.old.calls; faults = one_more self.old.faults }) }

        // Every other dial gives the link as it was handed in.
        ensures link { IfOk result (λ l. (self.old.rest ≡ Some l) × (self.new ≡ record self.old { rest = None; calls = one_more self.old.calls })) }
    {
        let _ = address;
        if self.fails_now() {
            return Err(Failed);
        }
        Ok(self.lend())
    }

    fn give_back(&mut self, input: MemSource, output: MemSink)
        requires out { is_out self.old.rest self.old.back ≡ true }
        ensures back { is_out self.new.rest self.new.back ≡ false }
        ensures links { Some (map told_of (at_most_one self.new.rest)) ≡ Some (map told_of (at_most_one self.old.rest)) }
        ensures backs { HandsBack (Some (map got_of (at_most_one self.old.back))) (Some (map got_of (at_most_one self.new.back))) (Some output.got) }
        ensures counts { (count_given self.new.rest ≡ count_given self.old.rest) × (self.new.faults ≡ self.old.faults) }
        ensures sources { self.new.broken_sources ≡ with_broken input.count self.old.broken_sources }
        ensures sinks { self.new.broken_sinks ≡ with_broken output.count self.old.broken_sinks }

        // The link is kept as it is handed back.
        ensures kept { self.new ≡ record self.old { back = Some (input, output); broken_sources = self.new.broken_sources; broken_sinks = self.new.broken_sinks } }
    {
        self.broken_sources = with_broken(input.faults(), self.broken_sources);
        self.broken_sinks = with_broken(output.faults(), self.broken_sinks);
        self.back = Some((input, output));
    }
}
