ghost use Rattle.std.specs.Prelude.{◌≡◌, ℕ, Bool, true, false, List, Option, IfOk, OnErr};
ghost use Rattle.rdf_io.specs.Causes.{HasCause};
ghost use Rattle.rdf_io.specs.Doors.{Link, GivesFirst, StartsEmpty, HandsBack, with_broken};

use crate::{Failed, Sink, Source};
use rdf_term::Text;

/// How a client comes to its connection. It gives one link, which is handed back.
pub trait Dial {
    type In: Source + Drop;

    type Out: Sink + Drop;

    /// The link that it has yet to give, where it tells it.
    ghost links: { Self → Option (List Link) };

    /// What the sink of the link handed back took, where it tells it.
    ghost backs: { Self → Option (List (List ℕ)) };

    /// The link is out.
    ghost out: { Self → Bool };

    /// How often the dial failed.
    ghost faults: { Self → ℕ };

    /// How many links it gave.
    ghost given: { Self → ℕ };

    /// How many links were handed back whose source had failed.
    ghost broken_sources: { Self → ℕ };

    /// How many links were handed back whose sink had failed.
    ghost broken_sinks: { Self → ℕ };

    /// The connection to an address, HOST:PORT. It is asked for until it was given.
    fn dial(&mut self, address: &Text) -> Result<(Self::In, Self::Out), Failed>
        requires none { given self.old ≡ 0 }
        ensures given { IfOk result (λ _. (out self.new ≡ true) × (given self.new ≡ 1)) }
        ensures sound { IfOk result (λ l. (Self.In.faults l.0 ≡ 0) × (Self.Out.faults l.1 ≡ 0)) }
        ensures first { IfOk result (λ l. GivesFirst (links self.old) (links self.new) (Self.In.left l.0) (Self.In.sound l.0)) }
        ensures empty { IfOk result (λ l. StartsEmpty (backs self.old) (Self.Out.taken l.1)) }
        ensures fault { OnErr result ((out self.new ≡ out self.old) × (links self.new ≡ links self.old) × (given self.new ≡ given self.old)) }
        ensures cause { HasCause (faults self.old) (faults self.new) result }
        ensures backs { backs self.new ≡ backs self.old }
        ensures broken { (broken_sources self.new ≡ broken_sources self.old) × (broken_sinks self.new ≡ broken_sinks self.old) };

    /// Takes back the link that is out.
    fn give_back(&mut self, input: Self::In, output: Self::Out)
        requires out { out self.old ≡ true }
        ensures back { out self.new ≡ false }
        ensures links { links self.new ≡ links self.old }
        ensures backs { HandsBack (backs self.old) (backs self.new) (Self.Out.taken output) }
        ensures counts { (given self.new ≡ given self.old) × (faults self.new ≡ faults self.old) }
        ensures sources { broken_sources self.new ≡ with_broken (Self.In.faults input) (broken_sources self.old) }
        ensures sinks { broken_sinks self.new ≡ with_broken (Self.Out.faults output) (broken_sinks self.old) };
}
