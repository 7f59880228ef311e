ghost use Rattle.std.specs.Prelude.{◌≡◌, [], ◌∷◌, ◌++◌, IfOk, OnOk, OnErr};
ghost use Rattle.change_set.specs.Content.{SameChanges};
ghost use Rattle.journal.specs.Levels.{is_txn};
ghost use Rattle.iso_txn.specs.Kept.{changes_where, pending_without};
ghost use Rattle.iso_txn.specs.Stacks.{IsStackFor};

use crate::pending::PendingWrite;
use crate::seen::Seen;
use crate::{lists, seen};
use branch::Stack;
use change_set::ChangeSet;
use journal::{Level, Txn};
use rdf_term::Memory;
use std::alloc::Global;
use std::marker::Model;

/// The writes that aren't committed, in the order of the journal, with what reads in transactions see
/// of them: for each transaction that has some a stack of their changes, and for all at
/// READ_UNCOMMITTED one that they share. A stack is made as the writes come, so that a read merges
/// nothing. Where no memory was found for a stack there is none, and each read makes it.
///
/// Contracts see the list of the writes.
#[derive(Drop)]
pub(crate) struct Writes {
    alloc: Global,
    writes: Vec<PendingWrite>,
    seen: Vec<Seen>,
}

impl Model for Writes {
    ghost use Rattle.std.specs.Prelude.{List};
    ghost use Rattle.iso_txn.specs.Kept.{Pending};
    ghost use Rattle.iso_txn.specs.Stacks.{AreSeen};

    ghost Value = { List Pending };

    ghost view = { λ it. it.writes.items };

    ghost invariant = { λ it. AreSeen it.writes.items it.seen.items };
}

impl Writes {
    /// No writes, which take no memory.
    pub(crate) fn new(alloc: Global) -> Writes
        ensures { result ≡ [] }
    {
        Writes {
            alloc,
            writes: Vec::new(alloc),
            seen: Vec::new(alloc),
        }
    }

    /// Makes what reads in a transaction see, where there is none and memory is found for it.
    fn see(&mut self, txn: Txn)
        ensures { self.new ≡ self.old }
    {
        if seen::find(&self.seen, txn).is_some() {
            return;
        }
        if let Ok(it) = Seen::of(self.alloc, &self.writes, txn) {
            let _ = self.seen.push(it);
        }
    }

    /// Adds a write.
    pub(crate) fn push(&mut self, write: PendingWrite) -> Result<(), Memory>
        ensures ok { OnOk result (self.new ≡ self.old ++ write ∷ []) }
        ensures memory { OnErr result (self.new ≡ self.old) }
    {
        self.writes.try_reserve(1)?;
        seen::follow(&mut self.seen, &write);
        let txn = write.txn();
        self.writes.push(write)?;
        self.see(txn);
        Ok(())
    }

    /// Takes the writes of a transaction out, which takes no memory. Those that didn't see them see what
    /// they saw.
    pub(crate) fn discard(&mut self, txn: Txn)
        ensures { self.new ≡ pending_without txn self.old }
    {
        if !lists::is_writing(&self.writes, txn) {
            return;
        }
        seen::forget(&mut self.seen, txn);
        lists::discard(&mut self.writes, txn);
        if txn.level == Level::ReadUncommitted {
            // The other transactions of this level saw its writes.
            self.see(txn);
        }
    }

    /// A stack of the writes that a read in the transaction sees.
    pub(crate) fn stack(&self, txn: Txn) -> Result<Stack, Memory>
        ensures { IfOk result (IsStackFor self.now txn) }
    {
        match seen::find(&self.seen, txn) {
            Some(it) => {
                let stack = it.stack()?;
                Ok(stack)
            }
            None => seen::stack_of(self.alloc, &self.writes, txn),
        }
    }

    /// The changes of a transaction's own writes.
    pub(crate) fn own_changes(&self, txn: Txn) -> Result<ChangeSet, Memory>
        ensures { IfOk result (λ set. SameChanges set (changes_where (is_txn txn) self.now)) }
    {
        lists::own_changes(self.alloc, &self.writes, txn)
    }
}
