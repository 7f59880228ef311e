ghost use Rattle.std.specs.Prelude.{◌≡◌, IfOk, OnOk};
ghost use Rattle.change_set.specs.Content.{SameChanges};
ghost use Rattle.journal.specs.Levels.{is_txn};
ghost use Rattle.iso_txn.specs.Kept.{picked, sees};
ghost use Rattle.iso_txn.specs.Stacks.{IsHigher};

use branch::Stack;
use change_set::{ChangeSet, Changes};
use journal::{Level, Txn};
use rdf_term::{Duplicate, Memory};
use std::alloc::Global;
use std::marker::Model;
use std::snapshot::Snapshot;
use std::sync::Arc;

/// A write that isn't committed: its transaction and its changes, which views share. Contracts see
/// the changes as the list that they were made of.
#[derive(Drop)]
pub(crate) struct PendingWrite {
    txn: Txn,
    set: Arc<ChangeSet>,
    changes: Snapshot<Changes>,
}

impl Model for PendingWrite {
    ghost use Rattle.change_set.specs.Content.{SameChanges};
    ghost use Rattle.iso_txn.specs.Kept.{Pending};

    ghost Value = { Pending };

    ghost view = { λ it. record { txn = it.txn; changes = it.changes.value } };

    ghost invariant = { λ it. SameChanges it.set.value it.changes.value };
}

/// Whether a read in a transaction sees the pending writes of another one, or its own.
pub(crate) fn sees(txn: Txn, other: Txn) -> bool
    ensures { result ≡ sees txn other }
{
    match txn.level {
        Level::NoIsolation => false,
        Level::ReadUncommitted => other.level == Level::ReadUncommitted,
        Level::ReadCommitted => txn == other,
        Level::SnapshotRead => txn == other,
        Level::Snapshot => txn == other,
        Level::Serializable => txn == other,
    }
}

impl PendingWrite {
    /// The write of these changes in a transaction.
    pub(crate) fn new(alloc: Global, txn: Txn, changes: &Changes) -> Result<PendingWrite, Memory>
        ensures { IfOk result (λ it. it ≡ record { txn = txn; changes = changes.now }) }
    {
        let set = ChangeSet::from_changes(alloc, changes.as_slice())?;
        Ok(PendingWrite {
            txn,
            set: Arc::new(alloc, set)?,
            changes: Snapshot::of(changes),
        })
    }

    /// Whether it is a write of this transaction.
    pub(crate) fn is_of(&self, txn: Txn) -> bool
        ensures { result ≡ is_txn self.now.txn txn }
    {
        self.txn == txn
    }

    /// Its transaction.
    pub(crate) fn txn(&self) -> Txn
        ensures { result ≡ self.now.txn }
    {
        self.txn
    }

    /// Whether a read in a transaction sees it.
    pub(crate) fn is_seen(&self, txn: Txn) -> bool
        ensures { result ≡ sees txn self.now.txn }
    {
        sees(txn, self.txn)
    }

    /// Puts the changes on a stack, which shares them.
    pub(crate) fn push_onto(&self, stack: &mut Stack) -> Result<(), Memory>
        ensures { OnOk result (IsHigher stack.old self.now.changes stack.new) }
    {
        let set = Arc::try_clone(&self.set)?;
        stack.push_shared(set)?;
        Ok(())
    }

    /// The changes where it is a write of this transaction, else none.
    pub(crate) fn own(&self, alloc: Global, txn: Txn) -> Result<ChangeSet, Memory>
        ensures { IfOk result (λ set. SameChanges set (picked (is_txn txn) self.now)) }
    {
        if txn == self.txn {
            self.set.copy(alloc)
        } else {
            Ok(ChangeSet::new(alloc))
        }
    }
}
