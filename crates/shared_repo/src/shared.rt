//! The calls of a shared repository.
ghost use Rattle.std.specs.Prelude.{◌≡◌, ◌↔◌, ◌+◌, ◌<◌, ◌++◌, [], true, List, Some, IfOk, IfErr, OnOk, OnErr};
ghost use Rattle.query_model.specs.Solutions.{lookups_of};
ghost use Rattle.journal_lock.specs.Passes.{IsSamePass, seat_of, seen};
ghost use Rattle.journal.specs.declared.entry.Entry.{Entry};
ghost use Rattle.journal.specs.declared.op.Op.TheVariants as op;
ghost use Rattle.journal.specs.declared.fault.StoreFault.TheVariants as faults;
ghost use Rattle.journal.specs.declared.ask.Ask.TheVariants as asks;
ghost use Rattle.journal.specs.declared.level.Level.TheVariants as levels;
ghost use Rattle.journal.specs.declared.reply.Reply.TheVariants as replies;
ghost use Rattle.journal.specs.Alone.{ReadsAsIfAlone};
ghost use Rattle.journal.specs.Journal.{entry_of, reply_at};
ghost use Rattle.iso_txn.specs.Repository.{IsFull};
ghost use Rattle.repo_store.specs.Stores.{IsNextStep, IsPinnedAt, answered, is_of_other_seats};
ghost use Rattle.shared_repo.specs.Lists.{Adds, Goes};
ghost use Rattle.shared_repo.specs.Passes.{IsPass, as_seen, limits_of, with_journal};

use crate::calls::Call;
use crate::kinds::{Begin, Commit, Names, Pin, Ping, Rollback, Step, Write};
use crate::repo::{Repo, RepoPass};
use change_set::Changes;
use iso_txn::Pinned;
use journal::{Ask, JournalFull, Level, NamesOp, Reply, StoreFault, Txn};
use query_model::Query;
use repo_store::next_step_stays;
use std::sync::Wait;

impl Repo {
    /// Waits for the turn, makes the one entry of a call under the pass's seat number, and answers the
    /// entry's place. On a fault the turn is given back with no entry.
    fn make<R: Wait, C: Call>(
        &self,
        rt: &R,
        pass: &mut RepoPass,
        call: &C,
        target: &mut C::Target,
    ) -> Result<(u64, C::Answer), C::Fault>
        requires pass { IsPass self.now pass.old }
        requires needs { (more : List Entry) → is_of_other_seats (seat_of pass.old) more ≡ true → C.needs call.now target.old (seat_of pass.old) (with_journal self.now (seen pass.old ++ more)) }
        ensures pass { IsPass self.now pass.new }
        ensures seat { IsSamePass pass.old pass.new }
        ensures entered { IfOk result (λ it. Adds (limits_of self.now) (seat_of pass.old) (seen pass.old) (seen pass.new) (C.does call.now) it.0) }
        ensures answer { IfOk result (λ it. C.answers call.now target.old target.new (seat_of pass.old) (as_seen self.now pass.new) it.0 it.1) }
        ensures fault { OnErr result (Goes (seat_of pass.old) (seen pass.old) (seen pass.new) []) }
        ensures full { IfErr result (λ fault. C.is_full fault ↔ IsFull (as_seen self.now pass.new)) }
        ensures target { OnErr result (target.new ≡ target.old) }
    {
        let seat = pass.seat();
        let entry = call.entry(seat);
        let mut held = self.lock.take(rt, pass);
        match held.value().enter(seat, call, target) {
            Ok(answer) => {
                let place = self.lock.give_with(pass, held, &entry);
                Ok((place, answer))
            }
            Err(fault) => {
                self.lock.give(pass, held);
                Err(fault)
            }
        }
    }

    /// Begins a transaction. The reply is `Begun` with the entry's place and the level, or `TooManyOpen`
    /// where as many transactions are open as the limits allow.
    pub fn begin<R: Wait>(
        &self,
        rt: &R,
        pass: &mut RepoPass,
        level: Level,
    ) -> Result<(u64, Reply), StoreFault>
        requires { IsPass self.now pass.old }
        ensures pass { IsPass self.now pass.new }
        ensures seat { IsSamePass pass.old pass.new }
        ensures entered { IfOk result (λ it. Adds (limits_of self.now) (seat_of pass.old) (seen pass.old) (seen pass.new) (op.Begin level) it.0) }
        ensures reply { IfOk result (λ it. reply_at (limits_of self.now) (seen pass.new) it.0 ≡ Some it.1) }
        ensures fault { OnErr result (Goes (seat_of pass.old) (seen pass.old) (seen pass.new) []) }
        ensures full { IfErr result (λ fault. (fault ≡ faults.JournalFull) ↔ IsFull (as_seen self.now pass.new)) }
    {
        self.make(rt, pass, &Begin { level }, &mut ())
    }

    /// Changes the content, in a transaction or in none. Without a transaction and at NONE the changes
    /// are committed at once, and the reply is `TooLarge` where the content with them is past a limit.
    pub fn write<R: Wait>(
        &self,
        rt: &R,
        pass: &mut RepoPass,
        txn: Option<Txn>,
        changes: &Changes,
    ) -> Result<(u64, Reply), StoreFault>
        requires { IsPass self.now pass.old }
        ensures pass { IsPass self.now pass.new }
        ensures seat { IsSamePass pass.old pass.new }
        ensures entered { IfOk result (λ it. Adds (limits_of self.now) (seat_of pass.old) (seen pass.old) (seen pass.new) (op.Write txn changes.now) it.0) }
        ensures reply { IfOk result (λ it. reply_at (limits_of self.now) (seen pass.new) it.0 ≡ Some it.1) }
        ensures fault { OnErr result (Goes (seat_of pass.old) (seen pass.old) (seen pass.new) []) }
        ensures full { IfErr result (λ fault. (fault ≡ faults.JournalFull) ↔ IsFull (as_seen self.now pass.new)) }
    {
        self.make(rt, pass, &Write { txn, changes }, &mut ())
    }

    /// Commits the changes of a transaction and ends it. Where the reply is `TooLarge` or `Conflict`, the
    /// transaction stays open with its changes. A SERIALIZABLE transaction whose commit is done read as
    /// if it ran alone.
    pub fn commit<R: Wait>(
        &self,
        rt: &R,
        pass: &mut RepoPass,
        txn: Txn,
    ) -> Result<(u64, Reply), StoreFault>
        requires pass { IsPass self.now pass.old }
        ensures pass { IsPass self.now pass.new }
        ensures seat { IsSamePass pass.old pass.new }
        ensures entered { IfOk result (λ it. Adds (limits_of self.now) (seat_of pass.old) (seen pass.old) (seen pass.new) (op.Commit txn) it.0) }
        ensures reply { IfOk result (λ it. reply_at (limits_of self.now) (seen pass.new) it.0 ≡ Some it.1) }
        ensures alone { IfOk result (λ it. txn.level ≡ levels.Serializable → it.1 ≡ replies.Done → ReadsAsIfAlone (limits_of self.now) (seen pass.new) txn it.0) }
        ensures fault { OnErr result (Goes (seat_of pass.old) (seen pass.old) (seen pass.new) []) }
        ensures full { IfErr result (λ fault. (fault ≡ faults.JournalFull) ↔ IsFull (as_seen self.now pass.new)) }
    {
        self.make(rt, pass, &Commit { txn }, &mut ())
    }

    /// Ends a transaction without its changes. Those at NONE are committed and stay. It takes no memory.
    pub fn rollback<R: Wait>(
        &self,
        rt: &R,
        pass: &mut RepoPass,
        txn: Txn,
    ) -> Result<(u64, Reply), JournalFull>
        requires pass { IsPass self.now pass.old }
        ensures pass { IsPass self.now pass.new }
        ensures seat { IsSamePass pass.old pass.new }
        ensures entered { IfOk result (λ it. Adds (limits_of self.now) (seat_of pass.old) (seen pass.old) (seen pass.new) (op.Rollback txn) it.0) }
        ensures reply { IfOk result (λ it. reply_at (limits_of self.now) (seen pass.new) it.0 ≡ Some it.1) }
        ensures fault { OnErr result (Goes (seat_of pass.old) (seen pass.old) (seen pass.new) []) }
        ensures full { OnErr result (IsFull (as_seen self.now pass.new)) }
    {
        self.make(rt, pass, &Rollback { txn }, &mut ())
    }

    /// Asks whether a transaction is open. It takes no memory.
    pub fn ping<R: Wait>(
        &self,
        rt: &R,
        pass: &mut RepoPass,
        txn: Txn,
    ) -> Result<(u64, Reply), JournalFull>
        requires pass { IsPass self.now pass.old }
        ensures pass { IsPass self.now pass.new }
        ensures seat { IsSamePass pass.old pass.new }
        ensures entered { IfOk result (λ it. Adds (limits_of self.now) (seat_of pass.old) (seen pass.old) (seen pass.new) (op.Ping txn) it.0) }
        ensures reply { IfOk result (λ it. reply_at (limits_of self.now) (seen pass.new) it.0 ≡ Some it.1) }
        ensures fault { OnErr result (Goes (seat_of pass.old) (seen pass.old) (seen pass.new) []) }
        ensures full { OnErr result (IsFull (as_seen self.now pass.new)) }
    {
        self.make(rt, pass, &Ping { txn }, &mut ())
    }

    /// Asks or changes the namespaces, which belong to no transaction. A new prefix is `TooLarge` where as
    /// many are there as the limits allow.
    pub fn names<R: Wait>(
        &self,
        rt: &R,
        pass: &mut RepoPass,
        names: &NamesOp,
    ) -> Result<(u64, Reply), StoreFault>
        requires pass { IsPass self.now pass.old }
        ensures pass { IsPass self.now pass.new }
        ensures seat { IsSamePass pass.old pass.new }
        ensures entered { IfOk result (λ it. Adds (limits_of self.now) (seat_of pass.old) (seen pass.old) (seen pass.new) (op.Names names.now) it.0) }
        ensures reply { IfOk result (λ it. reply_at (limits_of self.now) (seen pass.new) it.0 ≡ Some it.1) }
        ensures fault { OnErr result (Goes (seat_of pass.old) (seen pass.old) (seen pass.new) []) }
        ensures full { IfErr result (λ fault. (fault ≡ faults.JournalFull) ↔ IsFull (as_seen self.now pass.new)) }
    {
        self.make(rt, pass, &Names { names }, &mut ())
    }

    /// Reads, in a transaction or in none. What `answer` makes of what is pinned and of the ask is the
    /// reply at the place, and no later call of anyone changes what is pinned.
    pub fn pin<R: Wait>(
        &self,
        rt: &R,
        pass: &mut RepoPass,
        txn: Option<Txn>,
        ask: &Ask,
    ) -> Result<(u64, Pinned), StoreFault>
        requires pass { IsPass self.now pass.old }
        ensures pass { IsPass self.now pass.new }
        ensures seat { IsSamePass pass.old pass.new }
        ensures entered { IfOk result (λ it. Adds (limits_of self.now) (seat_of pass.old) (seen pass.old) (seen pass.new) (op.Read txn ask.now) it.0) }
        ensures pinned { IfOk result (λ it. IsPinnedAt (as_seen self.now pass.new) it.0 (entry_of (seat_of pass.old) (op.Read txn ask.now)) it.1) }
        ensures answer { IfOk result (λ it. reply_at (limits_of self.now) (seen pass.new) it.0 ≡ Some (answered it.1 ask.now)) }
        ensures fault { OnErr result (Goes (seat_of pass.old) (seen pass.old) (seen pass.new) []) }
        ensures full { IfErr result (λ fault. (fault ≡ faults.JournalFull) ↔ IsFull (as_seen self.now pass.new)) }
    {
        self.make(rt, pass, &Pin { txn, ask }, &mut ())
    }

    /// Makes one step of a query in a READ_COMMITTED transaction, which adds what it sees to what is
    /// pinned. The steps of a query are numbered from 0, as many as `lookups_of` tells, and follow one
    /// another among the entries of the pass, whatever other passes enter between them; the first one takes
    /// what `Pinned::empty` gives. What `answer` makes of what is pinned behind the last one is the reply at
    /// its place. On a fault what is pinned stays as it was.
    pub fn step<R: Wait>(
        &self,
        rt: &R,
        pass: &mut RepoPass,
        txn: Txn,
        query: &Query,
        number: u32,
        pinned: &mut Pinned,
    ) -> Result<u64, StoreFault>
        requires pass { IsPass self.now pass.old }
        requires next { IsNextStep (as_seen self.now pass.old) (seat_of pass.old) txn query.now number pinned.old }
        ensures pass { IsPass self.now pass.new }
        ensures seat { IsSamePass pass.old pass.new }
        ensures entered { IfOk result (λ it. Adds (limits_of self.now) (seat_of pass.old) (seen pass.old) (seen pass.new) (op.Step txn query.now number) it) }
        ensures pinned { IfOk result (λ place. IsPinnedAt (as_seen self.now pass.new) place (entry_of (seat_of pass.old) (op.Step txn query.now number)) pinned.new) }
        ensures answer { IfOk result (λ place. number + 1 ≡ lookups_of query.now → reply_at (limits_of self.now) (seen pass.new) place ≡ Some (answered pinned.new (asks.Query query.now))) }
        ensures next { OnOk result (number + 1 < lookups_of query.now → IsNextStep (as_seen self.now pass.new) (seat_of pass.old) txn query.now (number + 1) pinned.new) }
        ensures unpinned { OnErr result (pinned.new ≡ pinned.old) }
        ensures fault { OnErr result (Goes (seat_of pass.old) (seen pass.old) (seen pass.new) []) }
        ensures full { IfErr result (λ fault. (fault ≡ faults.JournalFull) ↔ IsFull (as_seen self.now pass.new)) }
    {
        next_step_stays();
        let step = Step { txn, query, number };
        match self.make(rt, pass, &step, pinned) {
            Ok((place, ())) => Ok(place),
            Err(fault) => Err(fault),
        }
    }
}
