//! The turn is taken and given back.
ghost use Rattle.std.specs.Prelude.{◌≡◌, ◌<◌, ◌^◌, ◌∷◌, ◌++◌, [], true, false, length, Some, IfSome, IfNone};
ghost use Rattle.journal_lock.specs.Passes.{seen, seat_of, origin_of, has_turn, lent, IsPassOf, IsSamePass, IsUnchanged, IsHeldOf, GoesOn};

use crate::Journaled;
use crate::lock::JournalLock;
use crate::pass::{Held, Pass};
use crate::plays::{AddEntry, Adding, FreeTurn, TakeTurn};
use crate::table::{COUNT, TURN};
use std::marker::Brand;
use std::snapshot::Snapshot;
use std::sync::Wait;

impl<V: Journaled + Drop> JournalLock<V> {
    /// Waits for the turn, and lends the value, which stands for the pass's new list. That begins with
    /// its old one, and past it has no entry with the pass's seat number.
    pub fn take<R: Wait>(&self, rt: &R, pass: &mut Pass<V>) -> Held<V>
        requires pass { IsPassOf self.now pass.old }
        requires idle { has_turn pass.old ≡ false }
        ensures pass { IsPassOf self.now pass.new }
        ensures seat { IsSamePass pass.old pass.new }
        ensures turn { has_turn pass.new ≡ true }
        ensures held { IsHeldOf pass.new result }
        ensures list { GoesOn V.number pass.old pass.new }
        ensures value { V.entries (lent result) ≡ seen pass.new }
        ensures fixed { V.fixed (lent result) ≡ V.fixed (origin_of self.now) }
    {
        let mut tries = 0u64;
        for _ in rt.forever() {
            if let Some(held) = self.try_take(pass) {
                return held;
            }
            self.wait(rt, tries);
            tries = tries.saturating_add(1);
        }
        unreachable!()
    }

    /// Takes the turn and the value, where the turn is free.
    fn try_take(&self, pass: &mut Pass<V>) -> Option<Held<V>>
        requires pass { IsPassOf self.now pass.old }
        requires idle { has_turn pass.old ≡ false }
        ensures none { IfNone result (IsUnchanged pass.old pass.new) }
        ensures pass { IfSome result (λ h. IsPassOf self.now pass.new) }
        ensures seat { IfSome result (λ h. IsSamePass pass.old pass.new) }
        ensures turn { IfSome result (λ h. has_turn pass.new ≡ true) }
        ensures held { IfSome result (λ h. IsHeldOf pass.new h) }
        ensures list { IfSome result (λ h. GoesOn V.number pass.old pass.new) }
        ensures value { IfSome result (λ h. V.entries (lent h) ≡ seen pass.new) }
        ensures fixed { IfSome result (λ h. V.fixed (lent h) ≡ V.fixed (origin_of self.now)) }
    {
        let turn = u64::from(pass.number) + 1;
        let shared = &self.table.shared;
        if shared.compare_exchange::<TakeTurn>(&mut pass.seat, TURN, 0, turn) != 0 {
            return None;
        }
        let Some(value) = shared.exchange(&mut pass.seat, 0, None) else {
            unreachable!()
        };
        let at = Snapshot::of(&*pass);
        Some(Held { value, at })
    }

    /// Gives the turn back with no entry more. It needs a value that stands for the list which it
    /// stood for at the take.
    pub fn give(&self, pass: &mut Pass<V>, held: Held<V>)
        requires pass { IsPassOf self.now pass.old }
        requires turn { has_turn pass.old ≡ true }
        requires held { IsHeldOf pass.old held }
        requires value { V.entries (lent held) ≡ seen pass.old }
        requires fixed { V.fixed (lent held) ≡ V.fixed (origin_of self.now) }
        ensures pass { IsPassOf self.now pass.new }
        ensures seat { IsSamePass pass.old pass.new }
        ensures idle { has_turn pass.new ≡ false }
        ensures list { seen pass.new ≡ seen pass.old }
    {
        let Held { value, at } = held;
        drop(at);
        self.put_back(pass, value);
    }

    /// Gives the turn back with one entry more, and answers the entry's place. It needs a value that
    /// stands for the list at the take with this entry behind it, an entry that carries the pass's
    /// seat number, and a list of fewer than 2^62 entries.
    pub fn give_with(&self, pass: &mut Pass<V>, held: Held<V>, entry: &V::Entry) -> u64
        requires pass { IsPassOf self.now pass.old }
        requires turn { has_turn pass.old ≡ true }
        requires held { IsHeldOf pass.old held }
        requires value { V.entries (lent held) ≡ seen pass.old ++ entry.now ∷ [] }
        requires fixed { V.fixed (lent held) ≡ V.fixed (origin_of self.now) }
        requires entry { V.number entry.now ≡ seat_of pass.old }
        requires room { length (seen pass.old) < 2 ^ 62 }
        ensures pass { IsPassOf self.now pass.new }
        ensures seat { IsSamePass pass.old pass.new }
        ensures idle { has_turn pass.new ≡ false }
        ensures list { seen pass.new ≡ seen pass.old ++ entry.now ∷ [] }
        ensures place { result ≡ length (seen pass.old) }
    {
        let Held { value, at } = held;
        drop(at);
        let place = self.add_entry::<Brand>(pass, entry);
        self.put_back(pass, value);
        place
    }

    /// Adds the entry to the list, and answers its place. The value isn't back yet.
    fn add_entry<B: Adding<V::Entry>>(&self, pass: &mut Pass<V>, entry: &V::Entry) -> u64
        requires pass { IsPassOf self.now pass.old }
        requires turn { has_turn pass.old ≡ true }
        requires entry { (V.number entry.now ≡ seat_of pass.old) × (B.added ≡ entry.now ∷ []) }
        requires room { length (seen pass.old) < 2 ^ 62 }
        ensures pass { IsPassOf self.now pass.new }
        ensures seat { IsSamePass pass.old pass.new }
        ensures turn { has_turn pass.new ≡ true }
        ensures list { seen pass.new ≡ seen pass.old ++ entry.now ∷ [] }
        ensures place { result ≡ length (seen pass.old) }
    {
        let _ = entry;
        self.table
            .shared
            .fetch_add::<AddEntry<B>>(&mut pass.seat, COUNT, 1)
    }

    /// Puts the value back, frees the turn, and wakes a pass that waits for it.
    fn put_back(&self, pass: &mut Pass<V>, value: V)
        requires pass { IsPassOf self.now pass.old }
        requires turn { has_turn pass.old ≡ true }
        requires value { V.entries value ≡ seen pass.old }
        requires fixed { V.fixed value ≡ V.fixed (origin_of self.now) }
        ensures pass { IsPassOf self.now pass.new }
        ensures seat { IsSamePass pass.old pass.new }
        ensures idle { has_turn pass.new ≡ false }
        ensures list { seen pass.new ≡ seen pass.old }
    {
        let shared = &self.table.shared;
        let was = shared.exchange(&mut pass.seat, 0, Some(value));
        drop(was);
        let _ = shared.swap::<FreeTurn>(&mut pass.seat, TURN, 0);
        self.wake();
    }
}
