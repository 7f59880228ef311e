//! How a repository is made, and how it is closed.
ghost use Rattle.std.specs.Prelude.{◌≡◌, ◌<◌, ◌≤◌, IsTrue, length, vec_len, nat_eq, IfOk};
ghost use Rattle.std.specs.List.{IsDistinct};
ghost use Rattle.journal_lock.specs.Passes.{seats_in, seen};
ghost use Rattle.journal_lock.specs.Rule.{AllAmong};
ghost use Rattle.journal.specs.Journal.{judged};
ghost use Rattle.journal.specs.Serial.{is_all_serializable};
ghost use Rattle.journal.specs.SerialLaws.{SerialAgrees};
ghost use Rattle.iso_txn.specs.Repository.{AreAllowed};
ghost use Rattle.shared_repo.specs.Passes.{AreFirst, ArePasses, EachEnds, IsLeft, limits_of, passes_of};
ghost use Rattle.shared_repo.specs.States.{IsSound};

use crate::repo::{Repo, RepoPass};
use crate::state::SharedState;
use iso_txn::RepoState;
use journal::{Limits, legal_in_turn, serial_journal_agrees};
use journal_lock::JournalLock;
use quad_index::Orders;
use rdf_term::Memory;
use std::alloc::Global;

impl Repo {
    /// A repository whose journal has no entry, with its content kept in these orders, one to six, and its
    /// passes, at least one.
    pub fn new(
        alloc: Global,
        orders: &Orders,
        limits: Limits,
        seats: u32,
    ) -> Result<(Repo, Vec<RepoPass>), Memory>
        requires some { 1 ≤ length orders.now }
        requires few { length orders.now ≤ 6 }
        requires limits { AreAllowed limits }
        requires seats { 0 < seats }
        ensures passes { IfOk result (λ it. AreFirst it.0 0 it.1.items) }
        ensures own { IfOk result (λ it. ArePasses it.0 it.1.items) }
        ensures count { IfOk result (λ it. vec_len it.1 ≡ seats) }
        ensures seats { IfOk result (λ it. passes_of it.0 ≡ seats) }
        ensures limits { IfOk result (λ it. limits_of it.0 ≡ limits) }
    {
        legal_in_turn();
        let state = SharedState::new(alloc, orders, limits)?;
        let (lock, passes) = JournalLock::new(alloc, state, seats)?;
        Ok((Repo { lock }, passes))
    }

    /// Ends a repository. It needs all its passes. It gives the state, and a pass that has seen the whole
    /// journal, for which the state stands.
    ///
    /// What each given pass has seen is a first part of that journal, and past it there is no entry with
    /// its seat number. The seat numbers differ, and each entry carries one of them. Where all accepted
    /// Begins are SERIALIZABLE, the serial journal agrees with the journal.
    pub fn close(self, passes: Vec<RepoPass>) -> (RepoState, RepoPass)
        requires passes { ArePasses self passes.items }
        requires all { vec_len passes ≡ passes_of self }
        ensures journal { result.0.journal ≡ seen result.1 }
        ensures limits { result.0.limits ≡ limits_of self }
        ensures sound { IsSound result.0 }
        ensures left { IsLeft self result.1 }
        ensures ends { EachEnds passes.items (seen result.1) }
        ensures differ { IsDistinct nat_eq (seats_in passes.items) }
        ensures among { AllAmong (λ e. e.seat) (seats_in passes.items) (seen result.1) }
        ensures serial { IsTrue (is_all_serializable (judged (limits_of self) (seen result.1))) → SerialAgrees (limits_of self) (seen result.1) }
    {
        serial_journal_agrees();
        let Repo { lock } = self;
        let (state, pass) = lock.close(passes);
        (state.into_state(), pass)
    }
}
