ghost use Rattle.std.specs.Prelude.{◌≡◌, ◌<◌, ◌≤◌, ◌+◌, [], length, Some, IfOk, OnOk, OnErr};
ghost use Rattle.journal.specs.declared.op.Op.TheVariants as op;
ghost use Rattle.journal.specs.Alone.{ReadsAsIfAlone};
ghost use Rattle.journal.specs.declared.ask.Ask.TheVariants as asks;
ghost use Rattle.journal.specs.Journal.{entry_of, reply_at};
ghost use Rattle.journal.specs.declared.level.Level.TheVariants as levels;
ghost use Rattle.query_model.specs.Solutions.{lookups_of};
ghost use Rattle.iso_txn.specs.Repository.{AreAllowed, IsFull, with_entry};
ghost use Rattle.repo_store.specs.Stores.{IsEntered, IsNextStep, IsPinnedAt, answered};

use change_set::Changes;
use iso_txn::{Pinned, RepoState};
use journal::{
    Ask, Level, Limits, NamesOp, Reply, StoreFault, Txn, done_commit_reads_as_if_alone,
    each_entry_is_judged_once, reply_at_the_end,
};
use quad_index::Orders;
use query_model::Query;
use rdf_term::Memory;
use std::alloc::Global;
use std::marker::Model;

/// The number of the one seat of a repository for one caller.
pub(crate) const SEAT: u32 = 0;

/// A repository for one caller. Contracts see it as its limits and its journal, which takes no memory.
///
/// Each call makes one entry under the seat number 0 and answers its place, and the reply there. Where
/// the journal is full, and without memory, there is no entry, and all stays as it was.
#[derive(Drop)]
pub struct SoleRepo {
    state: RepoState,
}

impl Model for SoleRepo {
    ghost use Rattle.iso_txn.specs.Repository.{Repository};

    ghost Value = { Repository };

    ghost view = { λ it. it.state };
}

impl SoleRepo {
    /// A repository whose journal has no entry, with its content kept in these orders, one to six.
    pub fn new(alloc: Global, orders: &Orders, limits: Limits) -> Result<SoleRepo, Memory>
        requires some { 1 ≤ length orders.now }
        requires few { length orders.now ≤ 6 }
        requires limits { AreAllowed limits }
        ensures limits { IfOk result (λ repo. repo.limits ≡ limits) }
        ensures journal { IfOk result (λ repo. repo.journal ≡ []) }
    {
        Ok(SoleRepo {
            state: RepoState::new(alloc, orders, limits)?,
        })
    }

    /// Begins a transaction. The reply is `Begun` with the entry's place and the level, or `TooManyOpen`
    /// where as many transactions are open as the limits allow.
    pub fn begin(&mut self, level: Level) -> Result<(u64, Reply), StoreFault>
        ensures entered { IfOk result (λ it. IsEntered self.old self.new (entry_of 0 (op.Begin level)) it.0 it.1) }
        ensures fault { OnErr result (self.new ≡ self.old) }
        ensures full { IsFull self.old → result ≡ Err StoreFault.JournalFull }
        ensures room { result ≡ Err StoreFault.JournalFull → IsFull self.old }
    {
        reply_at_the_end();
        let place = self.state.length();
        let reply = self.state.begin(SEAT, level)?;
        Ok((place, reply))
    }

    /// Changes the content, in a transaction or in none. Without a transaction and at NONE the changes
    /// are committed at once, and the reply is `TooLarge` where the content with them is past a limit.
    pub fn write(&mut self, txn: Option<Txn>, changes: &Changes) -> Result<(u64, Reply), StoreFault>
        ensures entered { IfOk result (λ it. IsEntered self.old self.new (entry_of 0 (op.Write txn changes.now)) it.0 it.1) }
        ensures fault { OnErr result (self.new ≡ self.old) }
        ensures full { IsFull self.old → result ≡ Err StoreFault.JournalFull }
        ensures room { result ≡ Err StoreFault.JournalFull → IsFull self.old }
    {
        reply_at_the_end();
        let place = self.state.length();
        let reply = self.state.write(SEAT, txn, changes)?;
        Ok((place, reply))
    }

    /// Commits the changes of a transaction and ends it. Where the reply is `TooLarge` or `Conflict`, the
    /// transaction stays open with its changes. A SERIALIZABLE transaction whose commit is done read as
    /// if it ran alone.
    pub fn commit(&mut self, txn: Txn) -> Result<(u64, Reply), StoreFault>
        ensures entered { IfOk result (λ it. IsEntered self.old self.new (entry_of 0 (op.Commit txn)) it.0 it.1) }
        ensures alone { IfOk result (λ it. txn.level ≡ levels.Serializable → it.1 ≡ Reply.Done → ReadsAsIfAlone self.new.limits self.new.journal txn it.0) }
        ensures fault { OnErr result (self.new ≡ self.old) }
        ensures full { IsFull self.old → result ≡ Err StoreFault.JournalFull }
        ensures room { result ≡ Err StoreFault.JournalFull → IsFull self.old }
    {
        reply_at_the_end();
        done_commit_reads_as_if_alone();
        let place = self.state.length();
        let reply = self.state.commit(SEAT, txn)?;
        Ok((place, reply))
    }

    /// Ends a transaction without its changes. Those at NONE are committed and stay.
    pub fn rollback(&mut self, txn: Txn) -> Result<(u64, Reply), StoreFault>
        ensures entered { IfOk result (λ it. IsEntered self.old self.new (entry_of 0 (op.Rollback txn)) it.0 it.1) }
        ensures fault { OnErr result (self.new ≡ self.old) }
        ensures full { IsFull self.old → result ≡ Err StoreFault.JournalFull }
        ensures room { result ≡ Err StoreFault.JournalFull → IsFull self.old }
    {
        reply_at_the_end();
        let place = self.state.length();
        let reply = self.state.rollback(SEAT, txn)?;
        Ok((place, reply))
    }

    /// Asks whether a transaction is open.
    pub fn ping(&mut self, txn: Txn) -> Result<(u64, Reply), StoreFault>
        ensures entered { IfOk result (λ it. IsEntered self.old self.new (entry_of 0 (op.Ping txn)) it.0 it.1) }
        ensures fault { OnErr result (self.new ≡ self.old) }
        ensures full { IsFull self.old → result ≡ Err StoreFault.JournalFull }
        ensures room { result ≡ Err StoreFault.JournalFull → IsFull self.old }
    {
        reply_at_the_end();
        let place = self.state.length();
        let reply = self.state.ping(SEAT, txn)?;
        Ok((place, reply))
    }

    /// Asks or changes the namespaces, which belong to no transaction. A new prefix is `TooLarge` where as
    /// many are there as the limits allow.
    pub fn names(&mut self, names: &NamesOp) -> Result<(u64, Reply), StoreFault>
        ensures entered { IfOk result (λ it. IsEntered self.old self.new (entry_of 0 (op.Names names.now)) it.0 it.1) }
        ensures fault { OnErr result (self.new ≡ self.old) }
        ensures full { IsFull self.old → result ≡ Err StoreFault.JournalFull }
        ensures room { result ≡ Err StoreFault.JournalFull → IsFull self.old }
    {
        reply_at_the_end();
        let place = self.state.length();
        let reply = self.state.names(SEAT, names)?;
        Ok((place, reply))
    }

    /// Reads, in a transaction or in none. What [`answer`](crate::answer) makes of what is pinned and of
    /// the ask is the reply at the place.
    pub fn pin(&mut self, txn: Option<Txn>, ask: &Ask) -> Result<(u64, Pinned), StoreFault>
        ensures place { IfOk result (λ it. it.0 ≡ length self.old.journal) }
        ensures journal { OnOk result (self.new ≡ with_entry self.old (entry_of 0 (op.Read txn ask.now))) }
        ensures pinned { IfOk result (λ it. IsPinnedAt self.new it.0 (entry_of 0 (op.Read txn ask.now)) it.1) }
        ensures answer { IfOk result (λ it. reply_at self.new.limits self.new.journal it.0 ≡ Some (answered it.1 ask.now)) }
        ensures fault { OnErr result (self.new ≡ self.old) }
        ensures full { IsFull self.old → result ≡ Err StoreFault.JournalFull }
        ensures room { result ≡ Err StoreFault.JournalFull → IsFull self.old }
    {
        let place = self.state.length();
        let pinned = self.state.pin_read(SEAT, txn, ask)?;
        Ok((place, pinned))
    }

    /// Makes one step of a query in a READ_COMMITTED transaction, which adds what it sees to what is
    /// pinned. The steps of a query are numbered from 0, as many as `lookups_of` tells, and follow one
    /// another in the entries; the first one takes what `Pinned::empty` gives. What `answer` makes of what
    /// is pinned behind the last one is the reply at its place. On a fault what is pinned stays as it
    /// was.
    pub fn step(
        &mut self,
        txn: Txn,
        query: &Query,
        number: u32,
        pinned: &mut Pinned,
    ) -> Result<u64, StoreFault>
        requires { IsNextStep self.old 0 txn query.now number pinned.old }
        ensures place { IfOk result (λ place. place ≡ length self.old.journal) }
        ensures journal { OnOk result (self.new ≡ with_entry self.old (entry_of 0 (op.Step txn query.now number))) }
        ensures pinned { IfOk result (λ place. IsPinnedAt self.new place (entry_of 0 (op.Step txn query.now number)) pinned.new) }
        ensures answer { IfOk result (λ place. number + 1 ≡ lookups_of query.now → reply_at self.new.limits self.new.journal place ≡ Some (answered pinned.new (asks.Query query.now))) }
        ensures next { OnOk result (number + 1 < lookups_of query.now → IsNextStep self.new 0 txn query.now (number + 1) pinned.new) }
        ensures fault { OnErr result (self.new ≡ self.old) }
        ensures unpinned { OnErr result (pinned.new ≡ pinned.old) }
        ensures full { IsFull self.old → result ≡ Err StoreFault.JournalFull }
        ensures room { result ≡ Err StoreFault.JournalFull → IsFull self.old }
    {
        each_entry_is_judged_once();
        let place = self.state.length();
        self.state.step(SEAT, txn, query, number, pinned)?;
        Ok(place)
    }
}
