ghost use Rattle.std.specs.Prelude.{◌≡◌, ◌↔◌, ◌<◌, ◌≤◌, ◌^◌, [], length, IfOk, IfErr, OnOk, OnErr};
ghost use Rattle.journal.specs.Journal.{entry_of};
ghost use Rattle.iso_txn.specs.Repository.{AreAllowed, IsFull, with_entry};
ghost use Rattle.shared_repo.specs.States.{IsSound};

use crate::calls::Call;
use iso_txn::RepoState;
use journal::{Limits, Noted, legal_in_turn};
use journal_lock::Journaled;
use quad_index::Orders;
use rdf_term::Memory;
use std::alloc::Global;
use std::marker::Model;

/// The state of a repository under its lock. Contracts see it as the repository, whose journal is
/// legal.
#[derive(Drop)]
pub struct SharedState {
    pub(crate) state: RepoState,
}

impl Model for SharedState {
    ghost use Rattle.iso_txn.specs.Repository.{Repository};
    ghost use Rattle.shared_repo.specs.States.{IsSound};

    ghost Value = { Repository };

    ghost view = { λ it. it.state };

    ghost invariant = { λ it. IsSound it.state };
}

impl Journaled for SharedState {
    ghost use Rattle.journal.specs.declared.limits.Limits.{Limits};

    type Entry = Noted;

    ghost Fixed = { Limits };

    ghost entries = { λ it. it.journal };

    ghost fixed = { λ it. it.limits };

    ghost number = { λ e. e.seat };
}

impl SharedState {
    /// A repository whose journal has no entry.
    pub(crate) fn new(alloc: Global, orders: &Orders, limits: Limits) -> Result<SharedState, Memory>
        requires some { 1 ≤ length orders.now }
        requires few { length orders.now ≤ 6 }
        requires limits { AreAllowed limits }
        ensures limits { IfOk result (λ repo. repo.limits ≡ limits) }
        ensures journal { IfOk result (λ repo. repo.journal ≡ []) }
    {
        legal_in_turn();
        let state = RepoState::new(alloc, orders, limits)?;
        Ok(SharedState { state })
    }

    /// The repository itself, whose journal is legal.
    pub(crate) fn into_state(self) -> RepoState
        ensures state { result ≡ self }
        ensures sound { IsSound result }
    {
        self.state
    }

    /// Makes the one entry of a call under this seat number. On a fault all stays as it was.
    pub(crate) fn enter<C: Call>(
        &mut self,
        seat: u32,
        call: &C,
        target: &mut C::Target,
    ) -> Result<C::Answer, C::Fault>
        requires { C.needs call.now target.old seat self.old }
        ensures journal { OnOk result (self.new ≡ with_entry self.old (entry_of seat (C.does call.now))) }
        ensures room { OnOk result (length self.old.journal < self.old.limits.places) }
        ensures answer { IfOk result (λ it. C.answers call.now target.old target.new seat self.new (length self.old.journal) it) }
        ensures fault { OnErr result (self.new ≡ self.old) }
        ensures full { IfErr result (λ fault. C.is_full fault ↔ IsFull self.old) }
        ensures target { OnErr result (target.new ≡ target.old) }
        ensures sound { IsSound self.new }
    {
        legal_in_turn();
        call.run(&mut self.state, seat, target)
    }
}
