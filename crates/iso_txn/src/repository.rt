ghost use Rattle.std.specs.Prelude.{Some, ◌≡◌, ◌<◌, ◌≤◌, ◌+◌, ◌-◌, ◌^◌, ◌&&◌, nat_le, [], ◌∷◌, ◌++◌, length, true, false, IfOk, OnOk, OnErr, IsErr};
ghost use Rattle.journal.specs.declared.op.Op.TheVariants as op;
ghost use Rattle.journal.specs.declared.level.Level.TheVariants as levels;
ghost use Rattle.journal.specs.declared.reply.Reply.TheVariants as replies;
ghost use Rattle.journal.specs.Alone.{ReadsAsIfAlone};
ghost use Rattle.journal.specs.Journal.{commits_in, committed_after, entry_of, is_live_after, view_after};
ghost use Rattle.journal.specs.Legal.{IsInTurn};
ghost use Rattle.iso_txn.specs.Repository.{AreAllowed, IsFull, IsUnchangedMeanwhile, NoneSerializable, next_reply, with_entry};

use crate::Pinned;
use crate::state::State;
use change_set::Changes;
use journal::{Ask, JournalFull, Level, Limits, NamesOp, Noted, Reply, StoreFault, Txn};
use quad_index::Orders;
use query_model::Query;
use rdf_term::Memory;
use std::alloc::Global;
use std::marker::Model;
use story::Story;

/// A repository, which contracts see as its limits and its journal. The journal itself takes no
/// memory: what is kept of it is what the next calls need.
///
/// Each call makes one entry, and its reply is the one that the journal fixes at that place. Where
/// the journal is full, and without memory, there is no entry, and all stays as it was.
#[derive(Drop)]
pub struct RepoState {
    alloc: Global,
    limits: Limits,
    count: u64,
    state: State,
    journal: Story<Noted>,
}

impl Model for RepoState {
    ghost use Rattle.iso_txn.specs.Held.{Holds};
    ghost use Rattle.iso_txn.specs.Repository.{Repository};

    ghost Value = { Repository };

    ghost view = { λ it. record { limits = it.limits; journal = it.journal } };

    ghost invariant = { λ it. Holds it.limits it.count it.journal it.state };
}

/// Adds an entry to a journal and counts it.
fn note(journal: &mut Story<Noted>, count: &mut u64, entry: &Noted)
    requires { count.old < 2 ^ 64 - 1 }
    ensures journal { journal.new ≡ journal.old ++ entry.now ∷ [] }
    ensures count { count.new ≡ count.old + 1 }
{
    *journal = journal.after(entry);
    *count += 1;
}

impl RepoState {
    /// A repository whose journal has no entry, with its content kept in these orders, one to six.
    pub fn new(alloc: Global, orders: &Orders, limits: Limits) -> Result<RepoState, Memory>
        requires some { 1 ≤ length orders.now }
        requires few { length orders.now ≤ 6 }
        requires limits { AreAllowed limits }
        ensures limits { IfOk result (λ repo. repo.limits ≡ limits) }
        ensures journal { IfOk result (λ repo. repo.journal ≡ []) }
    {
        Ok(RepoState {
            alloc,
            limits,
            count: 0,
            state: State::new(alloc, orders)?,
            journal: Story::new(),
        })
    }

    /// The number of entries of the journal. It takes no memory.
    pub fn length(&self) -> u64
        ensures length { result ≡ length self.now.journal }
        ensures most { result ≤ self.now.limits.places }
        ensures allowed { AreAllowed self.now.limits }
    {
        self.count
    }

    /// The number of quads of the committed content. It takes no memory.
    pub fn quads(&self) -> u64
        ensures { result ≡ length (committed_after self.now.limits self.now.journal) }
    {
        self.state.quads()
    }

    /// The number of accepted commits in the journal. It takes no memory.
    pub fn commits(&self) -> u64
        ensures { result ≡ commits_in self.now.limits self.now.journal }
    {
        self.state.commits()
    }

    /// How many changes of the committed content are kept for the commits of open SERIALIZABLE
    /// transactions. There is none where no such transaction is open, and there is one at least where
    /// the content was changed since the Begin of one that is. It takes no memory.
    pub fn kept_deltas(&self) -> usize
        ensures none { NoneSerializable self.now → result ≡ 0 }
        ensures some { result ≡ 0 → IsUnchangedMeanwhile self.now }
    {
        self.state.kept_deltas()
    }

    /// Whether the journal has as many entries as it may have.
    fn is_full(&self) -> bool
        ensures { result ≡ nat_le self.now.limits.places (length self.now.journal) }
    {
        self.count >= self.limits.places
    }

    /// Begins a transaction. Where as many transactions are open as may be, the reply is `TooManyOpen`.
    pub fn begin(&mut self, seat: u32, level: Level) -> Result<Reply, StoreFault>
        ensures reply { IfOk result (λ reply. reply ≡ next_reply self.old (entry_of seat (op.Begin level))) }
        ensures journal { OnOk result (self.new ≡ with_entry self.old (entry_of seat (op.Begin level))) }
        ensures fault { OnErr result (self.new ≡ self.old) }
        ensures full { IsFull self.old → result ≡ Err StoreFault.JournalFull }
        ensures room { result ≡ Err StoreFault.JournalFull → IsFull self.old }
    {
        if self.is_full() {
            return Err(StoreFault::JournalFull);
        }
        let txn = Txn {
            place: self.count,
            level,
        };
        let reply = self.state.begin(&self.limits, txn)?;
        let entry = Noted::begin(seat, level);
        note(&mut self.journal, &mut self.count, &entry);
        Ok(reply)
    }

    /// Reads, in a transaction or in none. What is handed out holds the view at the entry's place, and
    /// no later call changes that.
    pub fn pin_read(&mut self, seat: u32, txn: Option<Txn>, ask: &Ask) -> Result<Pinned, StoreFault>
        ensures live { IfOk result (λ pinned. pinned.live ≡ is_live_after self.old.limits self.old.journal txn) }
        ensures views { IfOk result (λ pinned. pinned.live ≡ true → pinned.views ≡ view_after self.old.limits self.old.journal txn ∷ []) }
        ensures rows { IfOk result (λ pinned. pinned.rows ≡ self.old.limits.rows) }
        ensures journal { OnOk result (self.new ≡ with_entry self.old (entry_of seat (op.Read txn ask.now))) }
        ensures fault { OnErr result (self.new ≡ self.old) }
        ensures full { IsFull self.old → result ≡ Err StoreFault.JournalFull }
        ensures room { result ≡ Err StoreFault.JournalFull → IsFull self.old }
    {
        if self.is_full() {
            return Err(StoreFault::JournalFull);
        }
        let view = self.state.view(txn)?;
        let pinned = Pinned::of(self.alloc, view, self.limits.rows)?;
        self.state.read(txn, ask)?;
        let entry = Noted::read(seat, txn, ask);
        note(&mut self.journal, &mut self.count, &entry);
        Ok(pinned)
    }

    /// Makes one step of a query in a READ_COMMITTED transaction, which adds the view at the entry's
    /// place to what is pinned. The steps of a query are numbered from 0 and follow one another in the
    /// entries of the seat. On a fault what is pinned stays as it was.
    pub fn step(
        &mut self,
        seat: u32,
        txn: Txn,
        query: &Query,
        number: u32,
        pinned: &mut Pinned,
    ) -> Result<(), StoreFault>
        requires level { txn.level ≡ levels.ReadCommitted }
        requires turn { IsInTurn self.old.journal seat txn query.now number }
        requires views { length pinned.old.views ≡ number }
        ensures live { OnOk result (pinned.new.live ≡ (pinned.old.live && is_live_after self.old.limits self.old.journal (Some txn))) }
        ensures number { OnOk result (length pinned.new.views ≡ number + 1) }
        ensures views { OnOk result (is_live_after self.old.limits self.old.journal (Some txn) ≡ true → pinned.new.views ≡ pinned.old.views ++ view_after self.old.limits self.old.journal (Some txn) ∷ []) }
        ensures rows { OnOk result (pinned.new.rows ≡ self.old.limits.rows) }
        ensures pinned { OnErr result (pinned.new ≡ pinned.old) }
        ensures journal { OnOk result (self.new ≡ with_entry self.old (entry_of seat (op.Step txn query.now number))) }
        ensures fault { OnErr result (self.new ≡ self.old) }
        ensures full { IsFull self.old → result ≡ Err StoreFault.JournalFull }
        ensures room { result ≡ Err StoreFault.JournalFull → IsFull self.old }
    {
        if self.is_full() {
            return Err(StoreFault::JournalFull);
        }
        let view = self.state.view_or_content(txn)?;
        pinned.add(view, self.state.is_live(Some(txn)), self.limits.rows)?;
        let entry = Noted::step(seat, txn, query, number);
        note(&mut self.journal, &mut self.count, &entry);
        Ok(())
    }

    /// Changes the content, in a transaction or in none. Without a transaction and at NONE the changes
    /// are committed at once, and `TooLarge` answers where the content with them is past a limit.
    pub fn write(
        &mut self,
        seat: u32,
        txn: Option<Txn>,
        changes: &Changes,
    ) -> Result<Reply, StoreFault>
        ensures reply { IfOk result (λ reply. reply ≡ next_reply self.old (entry_of seat (op.Write txn changes.now))) }
        ensures journal { OnOk result (self.new ≡ with_entry self.old (entry_of seat (op.Write txn changes.now))) }
        ensures fault { OnErr result (self.new ≡ self.old) }
        ensures full { IsFull self.old → result ≡ Err StoreFault.JournalFull }
        ensures room { result ≡ Err StoreFault.JournalFull → IsFull self.old }
    {
        if self.is_full() {
            return Err(StoreFault::JournalFull);
        }
        let reply = self.state.write(&self.limits, self.count, txn, changes)?;
        let entry = Noted::write(seat, txn, changes);
        note(&mut self.journal, &mut self.count, &entry);
        Ok(reply)
    }

    /// Commits the changes of a transaction and ends it. Where an entry since its Begin changed a quad
    /// that a read of the transaction observed, and the transaction is SERIALIZABLE, the reply is the
    /// `Conflict` of the least such quad with the first pattern that observed it. Else, where the
    /// content with the changes is past a limit, it is `TooLarge`. After both the transaction is open
    /// with its changes.
    ///
    /// A SERIALIZABLE transaction whose commit is done read as if it ran alone, at its commit.
    pub fn commit(&mut self, seat: u32, txn: Txn) -> Result<Reply, StoreFault>
        ensures reply { IfOk result (λ reply. reply ≡ next_reply self.old (entry_of seat (op.Commit txn))) }
        ensures journal { OnOk result (self.new ≡ with_entry self.old (entry_of seat (op.Commit txn))) }
        ensures alone { IfOk result (λ reply. reply ≡ replies.Done → txn.level ≡ levels.Serializable → ReadsAsIfAlone self.old.limits self.new.journal txn (length self.old.journal)) }
        ensures fault { OnErr result (self.new ≡ self.old) }
        ensures full { IsFull self.old → result ≡ Err StoreFault.JournalFull }
        ensures room { result ≡ Err StoreFault.JournalFull → IsFull self.old }
    {
        if self.is_full() {
            return Err(StoreFault::JournalFull);
        }
        let reply = self.state.commit(&self.limits, self.count, txn)?;
        let entry = Noted::commit(seat, txn);
        note(&mut self.journal, &mut self.count, &entry);
        Ok(reply)
    }

    /// Ends a transaction without its changes. Those at NONE are committed and stay. It takes no memory.
    pub fn rollback(&mut self, seat: u32, txn: Txn) -> Result<Reply, JournalFull>
        ensures reply { IfOk result (λ reply. reply ≡ next_reply self.old (entry_of seat (op.Rollback txn))) }
        ensures journal { OnOk result (self.new ≡ with_entry self.old (entry_of seat (op.Rollback txn))) }
        ensures fault { OnErr result (self.new ≡ self.old) }
        ensures full { IsFull self.old → IsErr result }
        ensures room { IsErr result → IsFull self.old }
    {
        if self.is_full() {
            return Err(JournalFull);
        }
        let reply = self.state.rollback(self.count, txn);
        let entry = Noted::rollback(seat, txn);
        note(&mut self.journal, &mut self.count, &entry);
        Ok(reply)
    }

    /// Asks whether a transaction is open. It takes no memory.
    pub fn ping(&mut self, seat: u32, txn: Txn) -> Result<Reply, JournalFull>
        ensures reply { IfOk result (λ reply. reply ≡ next_reply self.old (entry_of seat (op.Ping txn))) }
        ensures journal { OnOk result (self.new ≡ with_entry self.old (entry_of seat (op.Ping txn))) }
        ensures fault { OnErr result (self.new ≡ self.old) }
        ensures full { IsFull self.old → IsErr result }
        ensures room { IsErr result → IsFull self.old }
    {
        if self.is_full() {
            return Err(JournalFull);
        }
        let reply = self.state.ping(txn);
        let entry = Noted::ping(seat, txn);
        note(&mut self.journal, &mut self.count, &entry);
        Ok(reply)
    }

    /// Asks or changes the namespaces, which belong to no transaction. Where as many prefixes are there
    /// as may be, a new one is `TooLarge`.
    pub fn names(&mut self, seat: u32, names: &NamesOp) -> Result<Reply, StoreFault>
        ensures reply { IfOk result (λ reply. reply ≡ next_reply self.old (entry_of seat (op.Names names.now))) }
        ensures journal { OnOk result (self.new ≡ with_entry self.old (entry_of seat (op.Names names.now))) }
        ensures fault { OnErr result (self.new ≡ self.old) }
        ensures full { IsFull self.old → result ≡ Err StoreFault.JournalFull }
        ensures room { result ≡ Err StoreFault.JournalFull → IsFull self.old }
    {
        if self.is_full() {
            return Err(StoreFault::JournalFull);
        }
        let reply = self.state.names(&self.limits, names)?;
        let entry = Noted::names(seat, names);
        note(&mut self.journal, &mut self.count, &entry);
        Ok(reply)
    }
}
