//! How a lock is made, and how it is closed.
ghost use Rattle.std.specs.Prelude.{◌≡◌, ◌<◌, false, [], Some, IfOk, vec_len, vec_capacity, nat_eq};
ghost use Rattle.std.specs.List.{IsDistinct};
ghost use Rattle.journal_lock.specs.Rule.{AllAmong};
ghost use Rattle.journal_lock.specs.Passes.{seen, fixed_of, has_turn, seats_of, origin_of, told_of, AreIdle, AreNew, IsMakerOf, IsCloserOf, EachHasAll, seats_in, olds_of};

use crate::Journaled;
use crate::lock::JournalLock;
use crate::pass::Pass;
use crate::plays::{EnterCloser, GatherPass, LeaveWitness, MakePass, SeeWhole};
use crate::table::{COUNT, LockSeat, Origin};
use atomic_table::Table;
use rdf_term::Memory;
use std::alloc::Global;
use std::snapshot::Snapshot;
use std::sync::atomic::AtomicU64;

impl<V: Journaled + Drop> JournalLock<V> {
    /// A lock round a value that stands for the empty list, and its passes, at least one. Without
    /// memory the value is dropped.
    pub fn new(
        alloc: Global,
        value: V,
        seats: u32,
    ) -> Result<(JournalLock<V>, Vec<Pass<V>>), Memory>
        requires empty { V.entries value ≡ [] }
        requires some { 0 < seats }
        ensures passes { IfOk result (λ r. AreIdle r.0 r.1.items) }
        ensures new { IfOk result (λ r. AreNew 0 r.1.items) }
        ensures count { IfOk result (λ r. vec_len r.1 ≡ seats) }
        ensures seats { IfOk result (λ r. seats_of r.0 ≡ seats) }
        ensures fixed { IfOk result (λ r. V.fixed (origin_of r.0) ≡ V.fixed value) }
    {
        let mut passes = Vec::with_capacity(alloc, seats as usize)?;
        let (lock, maker) = Self::with_maker(alloc, value, seats)?;
        lock.make_passes(maker, &mut passes);
        Ok((lock, passes))
    }

    /// A lock, and the seat that makes its passes.
    fn with_maker(
        alloc: Global,
        value: V,
        seats: u32,
    ) -> Result<(JournalLock<V>, LockSeat<V>), Memory>
        requires empty { V.entries value ≡ [] }
        requires some { 0 < seats }
        ensures maker { IfOk result (λ r. IsMakerOf r.0 r.1) }
        ensures seats { IfOk result (λ r. seats_of r.0 ≡ seats) }
        ensures fixed { IfOk result (λ r. V.fixed (origin_of r.0) ≡ V.fixed value) }
    {
        let origin = Origin {
            value: Snapshot::of(&value),
            seats,
        };
        let mut slots = Vec::with_capacity(alloc, 1)?;
        slots.push_reserved(Some(value));
        match Table::new(alloc, &[0, 0], slots, &origin) {
            Ok((table, maker)) => {
                let sleepers = AtomicU64::new(0);
                Ok((
                    JournalLock {
                        table,
                        seats,
                        sleepers,
                    },
                    maker,
                ))
            }
            Err(_) => Err(Memory),
        }
    }

    /// Makes all passes. The seat that made them is then let go.
    fn make_passes(&self, mut maker: LockSeat<V>, passes: &mut Vec<Pass<V>>)
        requires maker { IsMakerOf self.now maker }
        requires room { (vec_len passes.old ≡ 0) × (passes.old.items ≡ []) × (vec_capacity passes.old ≡ seats_of self.now) }
        ensures passes { AreIdle self.now passes.new.items }
        ensures new { AreNew 0 passes.new.items }
        ensures count { vec_len passes.new ≡ seats_of self.now }
    {
        for number in 0..self.seats {
            let seat = self.table.shared.split_seat::<MakePass>(&mut maker);
            passes.push_reserved(Pass { number, seat });
        }
    }

    /// Ends the lock. It needs all its passes, as many as there are seats, of which none has the turn.
    /// It gives the value, and a pass that has seen the whole list, for which the value stands.
    ///
    /// What each given pass has seen is a first part of that list, and past it there is no entry with
    /// its seat number. The seat numbers differ, and each entry carries one of them.
    pub fn close(self, passes: Vec<Pass<V>>) -> (V, Pass<V>)
        requires passes { AreIdle self passes.items }
        requires all { vec_len passes ≡ seats_of self }
        ensures value { V.entries result.0 ≡ seen result.1 }
        ensures fixed { V.fixed result.0 ≡ V.fixed (origin_of self) }
        ensures idle { has_turn result.1 ≡ false }
        ensures told { fixed_of result.1 ≡ Some (told_of self) }
        ensures prefixes { EachHasAll V.number passes.items (seen result.1) }
        ensures differ { IsDistinct nat_eq (seats_in passes.items) }
        ensures among { AllAmong V.number (seats_in passes.items) (seen result.1) }
    {
        let number = self.seats;
        let shared = &self.table.shared;
        let (_, mut seat) = shared.load_new_seat::<EnterCloser>(COUNT);
        self.gather(&mut seat, passes);
        shared.load::<SeeWhole>(&mut seat, COUNT);
        let last = shared.split_seat::<LeaveWitness>(&mut seat);
        let JournalLock {
            table,
            seats: _,
            sleepers: _,
        } = self;
        let mut closed = table.close_with(seat);
        let value = closed.take(0);
        closed.free();
        let Some(value) = value else { unreachable!() };
        (value, Pass { number, seat: last })
    }

    /// Takes in the passes, from the last one to the first.
    fn gather(&self, seat: &mut LockSeat<V>, mut passes: Vec<Pass<V>>)
        requires seat { IsCloserOf self.now [] seat.old }
        requires passes { AreIdle self.now passes.items }
        ensures { IsCloserOf self.now (olds_of passes.items) seat.new }
    {
        while let Some(pass) = passes.pop() {
            let Pass {
                seat: other,
                number: _,
            } = pass;
            self.table.shared.join_seat::<GatherPass>(seat, other);
        }
    }
}
