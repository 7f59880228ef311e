//! What a thread has of a lock: its pass, and the value while it has the turn.
ghost use Rattle.std.specs.Prelude.{◌≡◌};

use crate::Journaled;
use crate::table::LockSeat;
use std::snapshot::Snapshot;

/// The right to take turns under one seat number, and what was seen by it.
#[derive(Drop)]
pub struct Pass<V: Journaled> {
    pub(crate) number: u32,
    pub(crate) seat: LockSeat<V>,
}

/// The value that a lock lent. It can't be dropped: it has to be given back.
pub struct Held<V: Journaled> {
    pub(crate) value: V,
    // The pass as the take left it. It takes no memory.
    pub(crate) at: Snapshot<Pass<V>>,
}

impl<V: Journaled> Pass<V> {
    ghost use Rattle.journal_lock.specs.Passes.{seat_of};

    /// The seat number, which each entry that is added by this pass carries.
    pub fn seat(&self) -> u32
        ensures { result ≡ seat_of self.now }
    {
        self.number
    }
}

impl<V: Journaled> Held<V> {
    ghost use Rattle.std.specs.Borrow.{Lends, sem};
    ghost use Rattle.journal_lock.specs.contracts.pass.Held.{the_row};
    ghost use Rattle.journal_lock.specs.Passes.{lent, with_lent};

    /// The value, which the holder may change.
    pub fn value(&mut self) -> &mut V
        ensures value { result.now ≡ lent self.old }
        ensures* writes_back { sem 𝓛 (Lends (the_row V.row V.Entry.row) V.row self.entry result
            (λ w. with_lent self.old w)) }
    {
        &mut self.value
    }
}
