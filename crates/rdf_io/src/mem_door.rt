ghost use Rattle.std.specs.Prelude.{◌≡◌, ◌+◌, ◌≤◌, ◌<◌, ◌↔◌, ◌∷◌, ◌++◌, [], length, take, drop, map, slice_get, option_copied, All, true, false, Some, None, Ok, IsErr, IfSome, OnErr, Contains};
ghost use Rattle.rdf_io.specs.Causes.{HasCause, one_more};
ghost use Rattle.rdf_io.specs.Doors.{OnLink, GivesFirst, StartsEmpty, HandsBack, with_broken};
ghost use Rattle.rdf_io.specs.Memory.{DoorState, IsUnused, told_of, got_of};

use crate::door::with_broken;
use crate::{Door, Failed, MemSink, MemSource};
use rdf_term::Bytes;
use std::alloc::Global;
use std::marker::Model;
use std::mem;

/// A door in memory, for tests: it gives its links in their order, and the accepts whose numbers are
/// listed fail. Accepts are numbered from 0.
#[derive(Drop)]
pub struct MemDoor {
    /// All links; the one that is out leaves an empty one in its place.
    links: Vec<(MemSource, MemSink)>,
    /// How many were handed back.
    done: usize,
    /// The place of the next one to be given.
    next: usize,
    fails: Vec<u64>,
    calls: u64,
    given: u64,
    ends: u64,
    faults: u64,
    broken_sources: u64,
    broken_sinks: u64,
}

impl Model for MemDoor {
    ghost use Rattle.std.specs.Prelude.{◌≤◌, ◌+◌, length, take, drop, All, nat_lt};
    ghost use Rattle.rdf_io.specs.Memory.{DoorState, IsUnused};

    ghost Value = { DoorState };

    ghost view = { λ d. record {
      rest = drop d.next d.links.items;
      back = take d.done d.links.items;
      out = nat_lt d.done d.next;
      fails = d.fails.items;
      calls = d.calls;
      given = d.given;
      ends = d.ends;
      faults = d.faults;
      broken_sources = d.broken_sources;
      broken_sinks = d.broken_sinks;
    } };

    ghost invariant = { λ d. (d.done ≤ d.next) × (d.next ≤ d.done + 1) × (d.next ≤ length d.links.items) × All IsUnused (drop d.next d.links.items) };
}

/// Takes the link at a place, and leaves an empty one there.
fn lend(links: &mut [(MemSource, MemSink)], place: usize, alloc: Global) -> (MemSource, MemSink)
    requires { place < length links.old }
    ensures link { drop place links.old ≡ result ∷ drop (place + 1) links.old }
    ensures count { length links.new ≡ length links.old }
    ensures before { take place links.new ≡ take place links.old }
    ensures after { drop (place + 1) links.new ≡ drop (place + 1) links.old }
{
    let source = MemSource::new(Bytes::new(alloc), Vec::new(alloc), Vec::new(alloc));
    let sink = MemSink::new(alloc, Vec::new(alloc));
    mem::replace(&mut links[place], (source, sink))
}

/// Puts a link into its place.
fn restore(links: &mut [(MemSource, MemSink)], place: usize, link: (MemSource, MemSink))
    requires { place < length links.old }
    ensures count { length links.new ≡ length links.old }
    ensures before { take (place + 1) links.new ≡ take place links.old ++ link ∷ [] }
    ensures after { drop (place + 1) links.new ≡ drop (place + 1) links.old }
{
    links[place] = link;
}

impl MemDoor {
    /// A door with these links, on whose ends nothing was called yet. The accepts whose numbers stand
    /// in `fails` fail, and no others.
    pub fn new(links: Vec<(MemSource, MemSink)>, fails: Vec<u64>) -> MemDoor
        requires { All IsUnused links.items }
        ensures { result ≡ record {
          rest = links.items;
          back = [];
          out = false;
          fails = fails.items;
          calls = 0;
          given = 0;
          ends = 0;
          faults = 0;
          broken_sources = 0;
          broken_sinks = 0;
        } }
    {
        MemDoor {
            links,
            done: 0,
            next: 0,
            fails,
            calls: 0,
            given: 0,
            ends: 0,
            faults: 0,
            broken_sources: 0,
            broken_sinks: 0,
        }
    }

    /// What the sink of the link handed back at this place, from 0, took, where there is one.
    pub fn taken(&self, n: usize) -> Option<&[u8]>
        ensures bytes { option_copied result ≡ slice_get (map got_of self.now.back) n }
        ensures none { result ≡ None ↔ length self.now.back ≤ n }
    {
        if n < self.done {
            Some(self.links[n].1.taken())
        } else {
            None
        }
    }

    /// Counts this accept, and says whether it is one that fails.
    fn fails_now(&mut self) -> bool
        ensures counts { self.new ≡ record self.old { calls = one_more self.old.calls; faults = self.new.faults } }
        ensures fails { result ≡ true ↔ Contains self.old.fails self.old.calls }
        ensures later { self.old.faults ≤ self.new.faults }
        ensures failed { result ≡ true → self.new.faults ≡ one_more self.old.faults }
        ensures kept { result ≡ false → self.new.faults ≡ self.old.faults }
    {
        let number = self.calls;
        self.calls = number.saturating_add(1);
        let failing = self.fails.contains(&number);
        if failing {
            self.faults = self.faults.saturating_add(1);
        }
        failing
    }

    /// The next link, which is out then.
    fn next_link(&mut self) -> Option<(MemSource, MemSink)>
        requires { self.old.out ≡ false }
        ensures rest { IfSome result (λ l. self.old.rest ≡ l ∷ self.new.rest) }
        ensures unused { IfSome result IsUnused }
        ensures link { IfSome result (λ _. self.new ≡ record self.old { rest = self.new.rest; out = true }) }
        ensures none { result ≡ None → (self.old.rest ≡ []) × (self.new ≡ self.old) }
    {
        if self.next == self.links.len() {
            return None;
        }
        let alloc = *self.links.allocator();
        let link = lend(&mut self.links, self.next, alloc);
        self.next += 1;
        Some(link)
    }

    /// Keeps the link that was out.
    fn keep(&mut self, link: (MemSource, MemSink))
        requires { self.old.out ≡ true }
        ensures { self.new ≡ record self.old { back = self.old.back ++ link ∷ []; out = false } }
    {
        restore(&mut self.links, self.done, link);
        self.done = self.next;
    }
}

impl Door for MemDoor {
    type In = MemSource;

    type Out = MemSink;

    ghost links = { λ d. Some (map told_of d.rest) };

    ghost backs = { λ d. Some (map got_of d.back) };

    ghost out = { λ d. d.out };

    ghost faults = { λ d. d.faults };

    ghost given = { λ d. d.given };

    ghost ends = { λ d. d.ends };

    ghost broken_sources = { λ d. d.broken_sources };

    ghost broken_sinks = { λ d. d.broken_sinks };

    fn accept(&mut self) -> Result<Option<(MemSource, MemSink)>, Failed>
        requires back { self.old.out ≡ false }
        ensures given { OnLink result (λ _. (self.new.out ≡ true) × (self.new.given ≡ one_more self.old.given) × (self.new.ends ≡ self.old.ends)) }
        ensures sound { OnLink result (λ l. (l.0.count ≡ 0) × (l.1.count ≡ 0)) }
        ensures first { OnLink result (λ l. GivesFirst (Some (map told_of self.old.rest)) (Some (map told_of self.new.rest)) (Some l.0.rest) (l.0.fails ≡ [])) }
        ensures empty { OnLink result (λ l. StartsEmpty (Some (map got_of self.old.back)) (Some l.1.got)) }
        ensures none { result ≡ Ok None → (self.new.out ≡ false) × (Some (map told_of self.new.rest) ≡ Some (map told_of self.old.rest)) × (self.new.given ≡ self.old.given) × (self.new.ends ≡ one_more self.old.ends) }
        ensures fault { OnErr result ((self.new.out ≡ false) × (Some (map told_of self.new.rest) ≡ Some (map told_of self.old.rest)) × (self.new.given ≡ self.old.given) × (self.new.ends ≡ self.old.ends)) }
        ensures cause { HasCause self.old.faults self.new.faults result }
        ensures backs { Some (map got_of self.new.back) ≡ Some (map got_of self.old.back) }
        ensures broken { (self.new.broken_sources ≡ self.old.broken_sources) × (self.new.broken_sinks ≡ self.old.broken_sinks) }

        // It fails at exactly these accepts, and a failed one changes the counts alone.
        ensures fails { IsErr result ↔ Contains self.old.fails self.old.calls }
        ensures failed { OnErr result (self.new ≡ record self.old { calls = one_more self.old.calls; faults = one_more self.old.faults }) }

        // Every other accept gives the next link as it was handed in, and none once all were given.
        ensures next { OnLink result (λ l. (self.old.rest ≡ l ∷ self.new.rest) × (self.new ≡ record self.old { rest = self.new.rest; out = true; calls = one_more self.old.calls; given = one_more self.old.given })) }
        ensures end { result ≡ Ok None → (self.old.rest ≡ []) × (self.new ≡ record self.old { calls = one_more self.old.calls; ends = one_more self.old.ends }) }
    {
        if self.fails_now() {
            return Err(Failed);
        }
        match self.next_link() {
            Some(link) => {
                self.given = self.given.saturating_add(1);
                Ok(Some(link))
            }
            None => {
                self.ends = self.ends.saturating_add(1);
                Ok(None)
            }
        }
    }

    fn give_back(&mut self, input: MemSource, output: MemSink)
        requires out { self.old.out ≡ true }
        ensures back { self.new.out ≡ false }
        ensures links { Some (map told_of self.new.rest) ≡ Some (map told_of self.old.rest) }
        ensures backs { HandsBack (Some (map got_of self.old.back)) (Some (map got_of self.new.back)) (Some output.got) }
        ensures counts { (self.new.given ≡ self.old.given) × (self.new.faults ≡ self.old.faults) × (self.new.ends ≡ self.old.ends) }
        ensures sources { self.new.broken_sources ≡ with_broken input.count self.old.broken_sources }
        ensures sinks { self.new.broken_sinks ≡ with_broken output.count self.old.broken_sinks }

        // The link as it is handed back is kept behind those handed back before.
        ensures kept { self.new ≡ record self.old { back = self.old.back ++ (input, output) ∷ []; out = false; broken_sources = self.new.broken_sources; broken_sinks = self.new.broken_sinks } }
    {
        self.broken_sources = with_broken(input.faults(), self.broken_sources);
        self.broken_sinks = with_broken(output.faults(), self.broken_sinks);
        self.keep((input, output));
    }
}
