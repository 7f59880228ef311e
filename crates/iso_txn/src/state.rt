ghost use Rattle.std.specs.Prelude.{true, Some, None, ◌≡◌, ◌<◌, ◌≤◌, ◌^◌, ◌++◌, length, IfOk, OnOk, OnErr};
ghost use Rattle.std.specs.Option.{option_map, unwrap_or};
ghost use Rattle.branch.specs.Layers.{Layered};
ghost use Rattle.journal.specs.declared.op.NamesOp.TheVariants as names_op;
ghost use Rattle.journal.specs.declared.reply.Reply.TheVariants as replies;
ghost use Rattle.journal.specs.Replies.{names_reply, within};
ghost use Rattle.change_set.specs.Content.{applied};
ghost use Rattle.journal.specs.Found.{patterns_of};
ghost use Rattle.iso_txn.specs.Kept.{applied_kept, begin_answer, begin_kept, commit_answer, commit_kept, done_if, end_answer, ended, is_among, lives, names_kept, nothing_kept, read_kept, rollback_kept, seen, waiting, write_answer, write_kept};
ghost use Rattle.iso_txn.specs.Watch.{AllBefore, IsReady, watched_clash};

use crate::content::Content;
use crate::lists;
use crate::opened::OpenTxn;
use crate::pending::PendingWrite;
use crate::prefixes::Prefixes;
use crate::watch::Watch;
use crate::writes::Writes;
use branch::{Stack, View};
use change_set::{ChangeSet, Changes};
use journal::{Ask, Limits, NamesOp, Reply, Txn};
use quad_index::Orders;
use rdf_term::{Duplicate, Memory, Pattern, Quad, Text};
use std::alloc::Global;
use std::marker::Model;

/// What a repository keeps of its journal: the committed content, the open transactions, their
/// pending writes in the order of the journal, the prefixes, the number of accepted commits, and what
/// decides whether a SERIALIZABLE transaction conflicts.
///
/// Each call takes all its memory before it changes anything.
#[derive(Drop)]
pub(crate) struct State {
    alloc: Global,
    content: Content,
    open_txns: Vec<OpenTxn>,
    writes: Writes,
    prefixes: Prefixes,
    commits: u64,
    watch: Watch,
}

impl Model for State {
    ghost use Rattle.iso_txn.specs.Kept.{Kept};

    ghost Value = { Kept };

    ghost view = { λ it. record { content = it.content; open_txns = it.open_txns.items; writes = it.writes; prefixes = it.prefixes; commits = it.commits; watch = it.watch } };
}

/// The reply that a quad was changed that a read observed by this pattern.
fn conflict(alloc: Global, pattern: &Pattern, quad: &Quad) -> Result<Reply, Memory>
    ensures { IfOk result (λ reply. reply ≡ replies.Conflict pattern.now quad.now) }
{
    Ok(Reply::Conflict(pattern.copy(alloc)?, quad.copy(alloc)?))
}

impl State {
    /// What is kept of a journal without entries.
    pub(crate) fn new(alloc: Global, orders: &Orders) -> Result<State, Memory>
        requires some { 1 ≤ length orders.now }
        requires few { length orders.now ≤ 6 }
        ensures { IfOk result (λ state. state ≡ nothing_kept) }
    {
        Ok(State {
            alloc,
            content: Content::new(alloc, orders)?,
            open_txns: Vec::new(alloc),
            writes: Writes::new(alloc),
            prefixes: Prefixes::new(alloc),
            commits: 0,
            watch: Watch::new(alloc),
        })
    }

    /// The number of quads of the committed content.
    pub(crate) fn quads(&self) -> u64
        ensures { result ≡ length self.now.content }
    {
        self.content.quads()
    }

    /// The number of accepted commits.
    pub(crate) fn commits(&self) -> u64
        ensures { result ≡ self.now.commits }
    {
        self.commits
    }

    /// How many changes are kept for the open SERIALIZABLE transactions.
    pub(crate) fn kept_deltas(&self) -> usize
        ensures { result ≡ length self.now.watch.changed }
    {
        self.watch.kept_deltas()
    }

    /// Whether there is no transaction, or it is open.
    pub(crate) fn is_live(&self, txn: Option<Txn>) -> bool
        ensures { result ≡ lives txn self.now.open_txns }
    {
        let open_txns = &self.open_txns;
        match txn {
            None => true,
            Some(txn) => lists::is_among(open_txns, txn),
        }
    }

    /// Begins a transaction where fewer are open than may be.
    pub(crate) fn begin(&mut self, limits: &Limits, txn: Txn) -> Result<Reply, Memory>
        ensures reply { IfOk result (λ reply. reply ≡ begin_answer limits.now self.old txn) }
        ensures state { OnOk result (self.new ≡ begin_kept limits.now self.old txn) }
        ensures memory { OnErr result (self.new ≡ self.old) }
    {
        if self.open_txns.len() as u64 >= u64::from(limits.txns) {
            return Ok(Reply::TooManyOpen);
        }
        let opened = OpenTxn::begin(&self.content, txn)?;
        self.open_txns.try_reserve(1)?;
        self.watch.begin(txn)?;
        self.open_txns.push(opened)?;
        Ok(Reply::Begun(txn))
    }

    /// Keeps what a read observes.
    pub(crate) fn read(&mut self, txn: Option<Txn>, ask: &Ask) -> Result<(), Memory>
        ensures state { OnOk result (self.new ≡ read_kept self.old txn (patterns_of ask.now)) }
        ensures memory { OnErr result (self.new ≡ self.old) }
    {
        self.watch.read(txn, ask)
    }

    /// The entry at a place applies changes to the committed content where the limits allow it, and
    /// tells whether they do.
    fn apply(&mut self, limits: &Limits, place: u64, set: &ChangeSet) -> Result<bool, Memory>
        requires quads { limits.now.quads < 2 ^ 62 }
        requires bytes { limits.now.bytes < 2 ^ 62 }
        requires below { AllBefore place self.old.watch.changed }
        ensures fits { IfOk result (λ fits. fits ≡ within limits.now (applied self.old.content set.now)) }
        ensures state { OnOk result (self.new ≡ applied_kept limits.now place self.old set.now) }
        ensures memory { OnErr result (self.new ≡ self.old) }
    {
        // The content stays as it is until all memory is found.
        let mut content = self.content.share()?;
        let Some(delta) = content.apply(limits, set)? else {
            return Ok(false);
        };
        self.watch.note(place, delta)?;
        self.content = content;
        Ok(true)
    }

    /// The entry at a place applies changes to the committed content where the limits allow it.
    fn write_now(&mut self, limits: &Limits, place: u64, changes: &Changes) -> Result<Reply, Memory>
        requires quads { limits.now.quads < 2 ^ 62 }
        requires bytes { limits.now.bytes < 2 ^ 62 }
        requires below { AllBefore place self.old.watch.changed }
        ensures reply { IfOk result (λ reply. reply ≡ done_if (within limits.now (applied self.old.content changes.now))) }
        ensures state { OnOk result (self.new ≡ applied_kept limits.now place self.old changes.now) }
        ensures memory { OnErr result (self.new ≡ self.old) }
    {
        let set = ChangeSet::from_changes(self.alloc, changes.as_slice())?;
        if self.apply(limits, place, &set)? {
            Ok(Reply::Done)
        } else {
            Ok(Reply::TooLarge)
        }
    }

    /// Keeps changes until the commit of their transaction.
    fn write_later(&mut self, txn: Txn, changes: &Changes) -> Result<Reply, Memory>
        ensures reply { IfOk result (λ reply. reply ≡ replies.Done) }
        ensures state { OnOk result (self.new ≡ record self.old { writes = self.old.writes ++ waiting (Some txn) changes.now }) }
        ensures memory { OnErr result (self.new ≡ self.old) }
    {
        let write = PendingWrite::new(self.alloc, txn, changes)?;
        self.writes.push(write)?;
        Ok(Reply::Done)
    }

    /// The entry at a place writes changes, in a transaction or in none.
    pub(crate) fn write(
        &mut self,
        limits: &Limits,
        place: u64,
        txn: Option<Txn>,
        changes: &Changes,
    ) -> Result<Reply, Memory>
        requires quads { limits.now.quads < 2 ^ 62 }
        requires bytes { limits.now.bytes < 2 ^ 62 }
        requires below { AllBefore place self.old.watch.changed }
        ensures reply { IfOk result (λ reply. reply ≡ write_answer limits.now self.old txn changes.now) }
        ensures state { OnOk result (self.new ≡ write_kept limits.now place self.old txn changes.now) }
        ensures memory { OnErr result (self.new ≡ self.old) }
    {
        if !self.is_live(txn) {
            return Ok(Reply::NoTransaction);
        }
        match txn {
            None => self.write_now(limits, place, changes),
            Some(open_txn) => {
                if Txn::commits_at_once(txn) {
                    self.write_now(limits, place, changes)
                } else {
                    self.write_later(open_txn, changes)
                }
            }
        }
    }

    /// The entry at a place ends an open transaction, whose pending writes go with it.
    fn end(&mut self, place: u64, txn: Txn)
        requires { place < 2 ^ 62 }
        ensures { self.new ≡ ended place self.old txn }
    {
        lists::close(&mut self.open_txns, txn);
        self.writes.discard(txn);
        self.watch.end(place, txn);
    }

    /// The entry at a place commits the writes of an open transaction that doesn't conflict, where the
    /// limits allow it.
    fn commit_open(&mut self, limits: &Limits, place: u64, txn: Txn) -> Result<Reply, Memory>
        requires quads { limits.now.quads < 2 ^ 62 }
        requires bytes { limits.now.bytes < 2 ^ 62 }
        requires place { place < 2 ^ 62 }
        requires commits { self.old.commits < 2 ^ 62 }
        requires below { AllBefore place self.old.watch.changed }
        requires live { is_among txn self.old.open_txns ≡ true }
        requires free { watched_clash self.old.watch txn ≡ None }
        ensures reply { IfOk result (λ reply. reply ≡ commit_answer limits.now self.old txn) }
        ensures state { OnOk result (self.new ≡ commit_kept limits.now place self.old txn) }
        ensures memory { OnErr result (self.new ≡ self.old) }
    {
        let own = self.writes.own_changes(txn)?;
        if !self.apply(limits, place, &own)? {
            return Ok(Reply::TooLarge);
        }
        self.end(place, txn);
        self.commits += 1;
        Ok(Reply::Done)
    }

    /// The entry at a place commits the writes of a transaction where nothing that it read was changed
    /// since it began, and where the limits allow it.
    pub(crate) fn commit(&mut self, limits: &Limits, place: u64, txn: Txn) -> Result<Reply, Memory>
        requires quads { limits.now.quads < 2 ^ 62 }
        requires bytes { limits.now.bytes < 2 ^ 62 }
        requires place { place < 2 ^ 62 }
        requires commits { self.old.commits < 2 ^ 62 }
        requires ready { IsReady place self.old.watch }
        ensures reply { IfOk result (λ reply. reply ≡ commit_answer limits.now self.old txn) }
        ensures state { OnOk result (self.new ≡ commit_kept limits.now place self.old txn) }
        ensures memory { OnErr result (self.new ≡ self.old) }
    {
        if !self.is_live(Some(txn)) {
            return Ok(Reply::NoTransaction);
        }
        if let Some((pattern, quad)) = self.watch.clash(txn) {
            return conflict(self.alloc, pattern, quad);
        }
        self.commit_open(limits, place, txn)
    }

    /// The entry at a place ends a transaction without its pending writes.
    pub(crate) fn rollback(&mut self, place: u64, txn: Txn) -> Reply
        requires { place < 2 ^ 62 }
        ensures reply { result ≡ end_answer self.old txn }
        ensures state { self.new ≡ rollback_kept place self.old txn }
    {
        if !self.is_live(Some(txn)) {
            return Reply::NoTransaction;
        }
        self.end(place, txn);
        Reply::Done
    }

    /// Answers whether a transaction is open.
    pub(crate) fn ping(&self, txn: Txn) -> Reply
        ensures { result ≡ end_answer self.now txn }
    {
        if self.is_live(Some(txn)) {
            Reply::Done
        } else {
            Reply::NoTransaction
        }
    }

    /// Makes a prefix stand for a name where the limits allow it.
    fn put_name(&mut self, limits: &Limits, prefix: &Text, name: &Text) -> Result<Reply, Memory>
        ensures reply { IfOk result (λ reply. reply ≡ names_reply limits.now self.old.prefixes (names_op.Put prefix.now name.now)) }
        ensures state { OnOk result (self.new ≡ names_kept limits.now self.old (names_op.Put prefix.now name.now)) }
        ensures memory { OnErr result (self.new ≡ self.old) }
    {
        if !self.prefixes.has(prefix) && self.prefixes.len() as u64 >= u64::from(limits.names) {
            return Ok(Reply::TooLarge);
        }
        self.prefixes.put(prefix, name)?;
        Ok(Reply::Done)
    }

    /// Asks or changes the prefixes.
    pub(crate) fn names(&mut self, limits: &Limits, op: &NamesOp) -> Result<Reply, Memory>
        ensures reply { IfOk result (λ reply. reply ≡ names_reply limits.now self.old.prefixes op.now) }
        ensures state { OnOk result (self.new ≡ names_kept limits.now self.old op.now) }
        ensures memory { OnErr result (self.new ≡ self.old) }
    {
        match op {
            NamesOp::List => Ok(Reply::Prefixes(self.prefixes.list()?)),
            NamesOp::Get(prefix) => self.prefixes.get(prefix),
            NamesOp::Put(prefix, name) => self.put_name(limits, prefix, name),
            NamesOp::Remove(prefix) => {
                self.prefixes.remove(prefix);
                Ok(Reply::Done)
            }
            NamesOp::Clear => {
                self.prefixes.clear();
                Ok(Reply::Done)
            }
        }
    }

    /// The committed content, as a read sees it.
    fn committed(&self) -> Result<View, Memory>
        ensures { IfOk result (λ view. view.quads ≡ self.now.content) }
    {
        self.content.view(&Stack::new(self.alloc))
    }

    /// What a read sees, where its transaction is open or it has none.
    pub(crate) fn view(&self, txn: Option<Txn>) -> Result<Option<View>, Memory>
        ensures { IfOk result (λ view. option_map (λ (view : Layered). view.quads) view ≡ seen self.now txn) }
    {
        match txn {
            None => Ok(Some(self.committed()?)),
            Some(txn) => self.view_in(txn),
        }
    }

    /// What a read in a transaction sees where that is open, else the committed content.
    pub(crate) fn view_or_content(&self, txn: Txn) -> Result<View, Memory>
        ensures { IfOk result (λ view. view.quads ≡ unwrap_or (seen self.now (Some txn)) self.now.content) }
    {
        match self.view_in(txn)? {
            Some(view) => Ok(view),
            None => self.committed(),
        }
    }

    /// What a read in a transaction sees, where that is open.
    fn view_in(&self, txn: Txn) -> Result<Option<View>, Memory>
        ensures { IfOk result (λ view. option_map (λ (view : Layered). view.quads) view ≡ seen self.now (Some txn)) }
    {
        match lists::find_open(&self.open_txns, txn) {
            None => Ok(None),
            Some(opened) => {
                let own = self.writes.stack(txn)?;
                let view = opened.view(&self.content, &own)?;
                Ok(Some(view))
            }
        }
    }
}
