//! The table of words and slots under the lock, and its rule.
//!
//! Word 0 is the turn: 0 where it is free, and else one more than the number of the pass that has it.
//! Word 1 is the number of entries. The one slot has the value, while no pass does.
ghost use Rattle.std.specs.Prelude.{◌≡◌};

use crate::Journaled;
use atomic_table::{Seat, Table, TableRule};
use std::alloc::Global;
use std::collections::LinkedList;
use std::marker::PhantomData;
use std::snapshot::Snapshot;

/// The word of the turn.
pub(crate) const TURN: usize = 0;

/// The word with the number of entries.
pub(crate) const COUNT: usize = 1;

/// The list that a pass had seen when it was taken in, with its number. No value of it is made.
pub struct OldList<E> {
    pub number: u64,
    pub seen: LinkedList<E>,
}

/// What a seat of the table knows. No value of it is made.
pub struct View<E, F> {
    /// The number of its pass.
    pub number: u64,
    /// The entries that it has seen.
    pub seen: LinkedList<E>,
    /// What the lock was made with, or none where the view is spent.
    pub fixed: Option<F>,
    /// It is the view of a pass.
    pub live: bool,
    /// It has the turn.
    pub holds: bool,
    /// It makes the passes, while the lock is made.
    pub makes: bool,
    /// How many it made.
    pub made: u64,
    /// It takes in the passes, while the lock is closed.
    pub closes: bool,
    /// What the passes had seen that it took in, the last one first.
    pub olds: LinkedList<OldList<E>>,
}

/// What a lock is made with: its first value, and the number of its passes.
#[derive(Drop)]
pub struct Origin<V> {
    pub value: Snapshot<V>,
    pub seats: u32,
}

/// The rule that every step keeps: `Kept` of the specs.
pub struct LockRule<V> {
    value: PhantomData<V>,
}

impl<V: Journaled> TableRule<Option<V>, View<V::Entry, Snapshot<V>>, Origin<V>> for LockRule<V> {
    ghost use Rattle.journal_lock.specs.Rule.{Kept, maker};

    ghost holds = { λ key s. Kept V.entries V.fixed (λ o. V.fixed o.value) V.number key.value key.seats s };

    ghost first = { λ key. maker key.value key.seats };
}

pub type LockTable<V> = Table<
    Option<V>,
    View<<V as Journaled>::Entry, Snapshot<V>>,
    Origin<V>,
    LockRule<V>,
    Global,
>;

pub type LockSeat<V> = Seat<Option<V>, View<<V as Journaled>::Entry, Snapshot<V>>>;
