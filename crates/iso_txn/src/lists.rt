//! Lists of open transactions and of pending writes.
ghost use Rattle.std.specs.Prelude.{◌≡◌, IfOk};
ghost use Rattle.std.specs.List.{list_any};
ghost use Rattle.std.specs.Option.{option_copied};
ghost use Rattle.change_set.specs.Content.{SameChanges};
ghost use Rattle.journal.specs.Levels.{is_txn};
ghost use Rattle.iso_txn.specs.Kept.{Pending, changes_where, find_open, is_among, pending_without, without};

use crate::opened::OpenTxn;
use crate::pending::PendingWrite;
use change_set::ChangeSet;
use journal::Txn;
use rdf_term::Memory;
use std::alloc::Global;

/// The open transaction, where it is among these.
pub(crate) fn find_open(open_txns: &[OpenTxn], txn: Txn) -> Option<&OpenTxn>
    ensures { option_copied result ≡ find_open txn open_txns.now }
{
    open_txns.iter().find(|it| it.is(txn))
}

/// Whether the transaction is among these.
pub(crate) fn is_among(open_txns: &[OpenTxn], txn: Txn) -> bool
    ensures { result ≡ is_among txn open_txns.now }
{
    open_txns.iter().any(|it| it.is(txn))
}

/// Takes a transaction out.
pub(crate) fn close(open_txns: &mut Vec<OpenTxn>, txn: Txn)
    ensures { open_txns.new.items ≡ without txn open_txns.old.items }
{
    open_txns.retain(|it| !it.is_of(txn));
}

/// Whether one of the writes is of the transaction.
pub(crate) fn is_writing(writes: &[PendingWrite], txn: Txn) -> bool
    ensures { result ≡ list_any (λ (it : Pending). is_txn it.txn txn) writes.now }
{
    writes.iter().any(|it| it.is_of(txn))
}

/// Takes the writes of a transaction out.
pub(crate) fn discard(writes: &mut Vec<PendingWrite>, txn: Txn)
    ensures { writes.new.items ≡ pending_without txn writes.old.items }
{
    writes.retain(|it| !it.is_of(txn));
}

/// The changes of a transaction's pending writes.
///
/// They are merged by halves, so that each is merged as often as the number of writes can be halved.
pub(crate) fn own_changes(
    alloc: Global,
    writes: &[PendingWrite],
    txn: Txn,
) -> Result<ChangeSet, Memory>
    ensures { IfOk result (λ set. SameChanges set (changes_where (is_txn txn) writes.now)) }
{
    match writes {
        [] => Ok(ChangeSet::new(alloc)),
        [write] => write.own(alloc, txn),
        _ => {
            let (older, newer) = writes.split_at(writes.len() / 2);
            let older = own_changes(alloc, older, txn)?;
            let newer = own_changes(alloc, newer, txn)?;
            let both = ChangeSet::merge(alloc, &older, &newer)?;
            Ok(both)
        }
    }
}
