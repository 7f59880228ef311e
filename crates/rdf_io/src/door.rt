ghost use Rattle.std.specs.Prelude.{◌≡◌, ◌+◌, ℕ, Bool, true, false, List, Option, None, Ok, OnErr};
ghost use Rattle.rdf_io.specs.Causes.{HasCause, one_more};
ghost use Rattle.rdf_io.specs.Doors.{Link, OnLink, GivesFirst, StartsEmpty, HandsBack, with_broken};

use crate::{Failed, Sink, Source};

/// Where connections come from. It gives one at a time: each is handed back before the next is
/// asked for.
pub trait Door {
    type In: Source + Drop;

    type Out: Sink + Drop;

    /// The links that it has yet to give, where it tells them.
    ghost links: { Self → Option (List Link) };

    /// What the sinks of the links handed back took, where it tells it.
    ghost backs: { Self → Option (List (List ℕ)) };

    /// A link is out.
    ghost out: { Self → Bool };

    /// How often the door failed.
    ghost faults: { Self → ℕ };

    /// How many links it gave.
    ghost given: { Self → ℕ };

    /// How often it answered that there is none.
    ghost ends: { Self → ℕ };

    /// How many links were handed back whose source had failed.
    ghost broken_sources: { Self → ℕ };

    /// How many links were handed back whose sink had failed.
    ghost broken_sinks: { Self → ℕ };

    /// The next connection, or none where no more come.
    fn accept(&mut self) -> Result<Option<(Self::In, Self::Out)>, Failed>
        requires back { out self.old ≡ false }
        ensures given { OnLink result (λ _. (out self.new ≡ true) × (given self.new ≡ one_more (given self.old)) × (ends self.new ≡ ends self.old)) }
        ensures sound { OnLink result (λ l. (Self.In.faults l.0 ≡ 0) × (Self.Out.faults l.1 ≡ 0)) }
        ensures first { OnLink result (λ l. GivesFirst (links self.old) (links self.new) (Self.In.left l.0) (Self.In.sound l.0)) }
        ensures empty { OnLink result (λ l. StartsEmpty (backs self.old) (Self.Out.taken l.1)) }
        ensures none { result ≡ Ok None → (out self.new ≡ false) × (links self.new ≡ links self.old) × (given self.new ≡ given self.old) × (ends self.new ≡ one_more (ends self.old)) }
        ensures fault { OnErr result ((out self.new ≡ false) × (links self.new ≡ links self.old) × (given self.new ≡ given self.old) × (ends self.new ≡ ends self.old)) }
        ensures cause { HasCause (faults self.old) (faults self.new) result }
        ensures backs { backs self.new ≡ backs self.old }
        ensures broken { (broken_sources self.new ≡ broken_sources self.old) × (broken_sinks self.new ≡ broken_sinks self.old) };

    /// Takes back the link that is out.
    fn give_back(&mut self, input: Self::In, output: Self::Out)
        requires out { out self.old ≡ true }
        ensures back { out self.new ≡ false }
        ensures links { links self.new ≡ links self.old }
        ensures backs { HandsBack (backs self.old) (backs self.new) (Self.Out.taken output) }
        ensures counts { (given self.new ≡ given self.old) × (faults self.new ≡ faults self.old) × (ends self.new ≡ ends self.old) }
        ensures sources { broken_sources self.new ≡ with_broken (Self.In.faults input) (broken_sources self.old) }
        ensures sinks { broken_sinks self.new ≡ with_broken (Self.Out.faults output) (broken_sinks self.old) };
}

/// The count of the broken ones after one with so many faults.
pub(crate) fn with_broken(faults: u64, count: u64) -> u64
    ensures { result ≡ with_broken faults count }
{
    if faults > 0 {
        count.saturating_add(1)
    } else {
        count
    }
}
