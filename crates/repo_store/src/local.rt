ghost use Rattle.std.specs.Prelude.{◌≡◌, false, ◌<◌, ◌≤◌, ◌+◌, [], IsTrue, length, Some, vec_len, IfOk, OnOk, OnErr};
ghost use Rattle.std.specs.Vec.{vec_capacity};
ghost use Rattle.journal.specs.declared.op.Op.TheVariants as op;
ghost use Rattle.journal.specs.Alone.{ReadsAsIfAlone};
ghost use Rattle.journal.specs.declared.ask.Ask.TheVariants as asks;
ghost use Rattle.journal.specs.Journal.{entry_of, reply_at};
ghost use Rattle.journal.specs.declared.level.Level.TheVariants as levels;
ghost use Rattle.journal.specs.Legal.{IsLegal};
ghost use Rattle.journal.specs.SerialLaws.{is_stepped_read_committed};
ghost use Rattle.query_model.specs.Solutions.{lookups_of};
ghost use Rattle.iso_txn.specs.Repository.{AreAllowed, IsFull, with_entry};
ghost use Rattle.repo_store.specs.Stores.{IsEntered, IsNextStep, IsPinnedAt, answered, is_of_one_seat};

use crate::sole::{SEAT, SoleRepo};
use change_set::Changes;
use iso_txn::Pinned;
use journal::{Ask, Entry, Level, Limits, NamesOp, Op, Reply, StoreFault, Txn, legal_in_turn};
use quad_index::Orders;
use query_model::Query;
use rdf_term::{Duplicate, Memory};
use std::alloc::Global;
use std::marker::Model;

/// A repository for one caller, which stores its journal. Contracts see it as its limits and that
/// journal.
///
/// Each call makes one entry under the seat number 0 and answers its place, and the reply there. Where
/// the journal is full, and without memory, there is no entry, and all stays as it was.
#[derive(Drop)]
pub struct LocalRepo {
    alloc: Global,
    limits: Limits,
    repo: SoleRepo,
    entries: Vec<Entry>,
}

impl Model for LocalRepo {
    ghost use Rattle.iso_txn.specs.Repository.{Repository};
    ghost use Rattle.repo_store.specs.Stores.{IsStored};

    ghost Value = { Repository };

    ghost view = { λ it. it.repo };

    ghost invariant = { λ it. IsStored 0 it.limits it.repo it.entries.items };
}

/// Makes room for one more entry where the journal may have one more.
fn make_room(entries: &mut Vec<Entry>, limits: &Limits) -> Result<(), StoreFault>
    ensures entries { entries.new.items ≡ entries.old.items }
    ensures room { OnOk result (vec_len entries.new < vec_capacity entries.new) }
    ensures full { limits.now.places ≤ length entries.old.items → result ≡ Err StoreFault.JournalFull }
    ensures only_full { result ≡ Err StoreFault.JournalFull → limits.now.places ≤ length entries.old.items }
{
    if entries.len() as u64 >= limits.places {
        return Err(StoreFault::JournalFull);
    }
    entries.reserve(1)?;
    Ok(())
}

impl LocalRepo {
    /// A repository whose journal has no entry, with its content kept in these orders, one to six.
    pub fn new(alloc: Global, orders: &Orders, limits: Limits) -> Result<LocalRepo, Memory>
        requires some { 1 ≤ length orders.now }
        requires few { length orders.now ≤ 6 }
        requires limits { AreAllowed limits }
        ensures limits { IfOk result (λ repo. repo.limits ≡ limits) }
        ensures journal { IfOk result (λ repo. repo.journal ≡ []) }
    {
        legal_in_turn();
        let repo = SoleRepo::new(alloc, orders, limits)?;
        Ok(LocalRepo {
            alloc,
            limits,
            repo,
            entries: Vec::new(alloc),
        })
    }

    /// The entries of the journal. It is legal, its Steps name READ_COMMITTED transactions, and all
    /// entries have the seat number 0. It takes no memory.
    pub fn entries(&self) -> &[Entry]
        ensures value { result.now ≡ self.now.journal }
        ensures legal { IsLegal self.now.journal }
        ensures steps { IsTrue (is_stepped_read_committed self.now.journal) }
        ensures seats { IsTrue (is_of_one_seat 0 self.now.journal) }
    {
        self.entries.as_slice()
    }

    /// Begins a transaction. The reply is `Begun` with the entry's place and the level, or `TooManyOpen`
    /// where as many transactions are open as the limits allow.
    pub fn begin(&mut self, level: Level) -> Result<(u64, Reply), StoreFault>
        ensures entered { IfOk result (λ it. IsEntered self.old self.new (entry_of 0 (op.Begin level)) it.0 it.1) }
        ensures fault { OnErr result (self.new ≡ self.old) }
        ensures full { IsFull self.old → result ≡ Err StoreFault.JournalFull }
        ensures room { result ≡ Err StoreFault.JournalFull → IsFull self.old }
    {
        legal_in_turn();
        make_room(&mut self.entries, &self.limits)?;
        let entered = self.repo.begin(level)?;
        self.entries.push_reserved(Entry {
            seat: SEAT,
            op: Op::Begin(level),
        });
        Ok(entered)
    }

    /// Changes the content, in a transaction or in none. Without a transaction and at NONE the changes
    /// are committed at once, and the reply is `TooLarge` where the content with them is past a limit.
    pub fn write(&mut self, txn: Option<Txn>, changes: &Changes) -> Result<(u64, Reply), StoreFault>
        ensures entered { IfOk result (λ it. IsEntered self.old self.new (entry_of 0 (op.Write txn changes.now)) it.0 it.1) }
        ensures fault { OnErr result (self.new ≡ self.old) }
        ensures full { IsFull self.old → result ≡ Err StoreFault.JournalFull }
        ensures room { result ≡ Err StoreFault.JournalFull → IsFull self.old }
    {
        legal_in_turn();
        make_room(&mut self.entries, &self.limits)?;
        let op = Op::Write {
            txn,
            changes: changes.copy(self.alloc)?,
        };
        let entered = self.repo.write(txn, changes)?;
        self.entries.push_reserved(Entry { seat: SEAT, op });
        Ok(entered)
    }

    /// Commits the changes of a transaction and ends it. Where the reply is `TooLarge` or `Conflict`, the
    /// transaction stays open with its changes. A SERIALIZABLE transaction whose commit is done read as
    /// if it ran alone.
    pub fn commit(&mut self, txn: Txn) -> Result<(u64, Reply), StoreFault>
        ensures entered { IfOk result (λ it. IsEntered self.old self.new (entry_of 0 (op.Commit txn)) it.0 it.1) }
        ensures alone { IfOk result (λ it. txn.level ≡ levels.Serializable → it.1 ≡ Reply.Done → ReadsAsIfAlone self.new.limits self.new.journal txn it.0) }
        ensures fault { OnErr result (self.new ≡ self.old) }
        ensures full { IsFull self.old → result ≡ Err StoreFault.JournalFull }
        ensures room { result ≡ Err StoreFault.JournalFull → IsFull self.old }
    {
        legal_in_turn();
        make_room(&mut self.entries, &self.limits)?;
        let entered = self.repo.commit(txn)?;
        self.entries.push_reserved(Entry {
            seat: SEAT,
            op: Op::Commit(txn),
        });
        Ok(entered)
    }

    /// Ends a transaction without its changes. Those at NONE are committed and stay.
    pub fn rollback(&mut self, txn: Txn) -> Result<(u64, Reply), StoreFault>
        ensures entered { IfOk result (λ it. IsEntered self.old self.new (entry_of 0 (op.Rollback txn)) it.0 it.1) }
        ensures fault { OnErr result (self.new ≡ self.old) }
        ensures full { IsFull self.old → result ≡ Err StoreFault.JournalFull }
        ensures room { result ≡ Err StoreFault.JournalFull → IsFull self.old }
    {
        legal_in_turn();
        make_room(&mut self.entries, &self.limits)?;
        let entered = self.repo.rollback(txn)?;
        self.entries.push_reserved(Entry {
            seat: SEAT,
            op: Op::Rollback(txn),
        });
        Ok(entered)
    }

    /// Asks whether a transaction is open.
    pub fn ping(&mut self, txn: Txn) -> Result<(u64, Reply), StoreFault>
        ensures entered { IfOk result (λ it. IsEntered self.old self.new (entry_of 0 (op.Ping txn)) it.0 it.1) }
        ensures fault { OnErr result (self.new ≡ self.old) }
        ensures full { IsFull self.old → result ≡ Err StoreFault.JournalFull }
        ensures room { result ≡ Err StoreFault.JournalFull → IsFull self.old }
    {
        legal_in_turn();
        make_room(&mut self.entries, &self.limits)?;
        let entered = self.repo.ping(txn)?;
        self.entries.push_reserved(Entry {
            seat: SEAT,
            op: Op::Ping(txn),
        });
        Ok(entered)
    }

    /// Asks or changes the namespaces, which belong to no transaction. A new prefix is `TooLarge` where as
    /// many are there as the limits allow.
    pub fn names(&mut self, names: &NamesOp) -> Result<(u64, Reply), StoreFault>
        ensures entered { IfOk result (λ it. IsEntered self.old self.new (entry_of 0 (op.Names names.now)) it.0 it.1) }
        ensures fault { OnErr result (self.new ≡ self.old) }
        ensures full { IsFull self.old → result ≡ Err StoreFault.JournalFull }
        ensures room { result ≡ Err StoreFault.JournalFull → IsFull self.old }
    {
        legal_in_turn();
        make_room(&mut self.entries, &self.limits)?;
        let op = Op::Names(names.copy(self.alloc)?);
        let entered = self.repo.names(names)?;
        self.entries.push_reserved(Entry { seat: SEAT, op });
        Ok(entered)
    }

    /// Reads, in a transaction or in none. What [`answer`](crate::answer) makes of what is pinned and of
    /// the ask is the reply at the place.
    pub fn pin(&mut self, txn: Option<Txn>, ask: &Ask) -> Result<(u64, Pinned), StoreFault>
        ensures place { IfOk result (λ it. it.0 ≡ length self.old.journal) }
        ensures journal { OnOk result (self.new ≡ with_entry self.old (entry_of 0 (op.Read txn ask.now))) }
        ensures pinned { IfOk result (λ it. IsPinnedAt self.new it.0 (entry_of 0 (op.Read txn ask.now)) it.1) }
        ensures answer { IfOk result (λ it. reply_at self.new.limits self.new.journal it.0 ≡ Some (answered it.1 ask.now)) }
        ensures fault { OnErr result (self.new ≡ self.old) }
        ensures full { IsFull self.old → result ≡ Err StoreFault.JournalFull }
        ensures room { result ≡ Err StoreFault.JournalFull → IsFull self.old }
    {
        legal_in_turn();
        make_room(&mut self.entries, &self.limits)?;
        let op = Op::Read {
            txn,
            ask: ask.copy(self.alloc)?,
        };
        let entered = self.repo.pin(txn, ask)?;
        self.entries.push_reserved(Entry { seat: SEAT, op });
        Ok(entered)
    }

    /// Makes one step of a query in a READ_COMMITTED transaction, which adds what it sees to what is
    /// pinned. The steps of a query are numbered from 0, as many as `lookups_of` tells, and follow one
    /// another in the entries; the first one takes what `Pinned::empty` gives. What `answer` makes of what
    /// is pinned behind the last one is the reply at its place. On a fault what is pinned stays as it
    /// was.
    pub fn step(
        &mut self,
        txn: Txn,
        query: &Query,
        number: u32,
        pinned: &mut Pinned,
    ) -> Result<u64, StoreFault>
        requires { IsNextStep self.old 0 txn query.now number pinned.old }
        ensures place { IfOk result (λ place. place ≡ length self.old.journal) }
        ensures journal { OnOk result (self.new ≡ with_entry self.old (entry_of 0 (op.Step txn query.now number))) }
        ensures pinned { IfOk result (λ place. IsPinnedAt self.new place (entry_of 0 (op.Step txn query.now number)) pinned.new) }
        ensures answer { IfOk result (λ place. number + 1 ≡ lookups_of query.now → reply_at self.new.limits self.new.journal place ≡ Some (answered pinned.new (asks.Query query.now))) }
        ensures next { OnOk result (number + 1 < lookups_of query.now → IsNextStep self.new 0 txn query.now (number + 1) pinned.new) }
        ensures fault { OnErr result (self.new ≡ self.old) }
        ensures unpinned { OnErr result (pinned.new ≡ pinned.old) }
        ensures full { IsFull self.old → result ≡ Err StoreFault.JournalFull }
        ensures room { result ≡ Err StoreFault.JournalFull → IsFull self.old }
    {
        legal_in_turn();
        make_room(&mut self.entries, &self.limits)?;
        let op = Op::Step {
            txn,
            query: query.copy(self.alloc)?,
            number,
        };
        let place = self.repo.step(txn, query, number, pinned)?;
        self.entries.push_reserved(Entry { seat: SEAT, op });
        Ok(place)
    }
}
