//! What reads in transactions see of the writes that aren't committed.
ghost use Rattle.std.specs.Prelude.{◌≡◌, ◌++◌, ◌∷◌, [], List, true, IfOk, OnOk};
ghost use Rattle.std.specs.Option.{option_copied};
ghost use Rattle.iso_txn.specs.Kept.{Pending, pending_without, picked, sees};
ghost use Rattle.iso_txn.specs.Stacks.{AreSeen, IsFollowed, IsHigher, IsStackFor, find_seen};

use crate::pending;
use crate::pending::PendingWrite;
use branch::Stack;
use journal::Txn;
use rdf_term::Memory;
use std::alloc::Global;

/// A stack of the changes that reads in a transaction see, and in those that see the same.
#[derive(Drop)]
pub(crate) struct Seen {
    txn: Txn,
    stack: Stack,
}

/// Puts a write on a stack where a read in the transaction sees it.
fn push_seen(stack: &mut Stack, write: &PendingWrite, txn: Txn) -> Result<(), Memory>
    ensures { OnOk result (IsHigher stack.old (picked (sees txn) write.now) stack.new) }
{
    if !write.is_seen(txn) {
        return Ok(());
    }
    write.push_onto(stack)
}

/// A stack of the writes that a read in the transaction sees, in their order.
pub(crate) fn stack_of(alloc: Global, writes: &[PendingWrite], txn: Txn) -> Result<Stack, Memory>
    ensures { IfOk result (IsStackFor writes.now txn) }
{
    let mut stack = Stack::new(alloc);
    for write in writes {
        push_seen(&mut stack, write, txn)?;
    }
    Ok(stack)
}

impl Seen {
    /// What reads in a transaction see of these writes.
    pub(crate) fn of(alloc: Global, writes: &[PendingWrite], txn: Txn) -> Result<Seen, Memory>
        ensures txn { IfOk result (λ it. it.txn ≡ txn) }
        ensures stack { IfOk result (λ it. IsStackFor writes.now txn it.stack) }
    {
        Ok(Seen {
            txn,
            stack: stack_of(alloc, writes, txn)?,
        })
    }

    /// Whether reads in a transaction see the same.
    fn serves(&self, txn: Txn) -> bool
        ensures { result ≡ sees txn self.now.txn }
    {
        pending::sees(txn, self.txn)
    }

    /// Whether it has the writes of a transaction.
    fn shows(&self, txn: Txn) -> bool
        ensures { result ≡ sees self.now.txn txn }
    {
        pending::sees(self.txn, txn)
    }

    /// The stack, shared.
    pub(crate) fn stack(&self) -> Result<Stack, Memory>
        ensures { IfOk result (λ it. it ≡ self.now.stack) }
    {
        let stack = self.stack.share()?;
        Ok(stack)
    }

    /// Takes up a write that comes, where it is seen, and tells whether memory was found for it.
    fn follow(&mut self, write: &PendingWrite) -> bool
        ensures { result ≡ true → IsFollowed self.old write.now self.new }
    {
        push_seen(&mut self.stack, write, self.txn).is_ok()
    }
}

/// What reads in a transaction see, where it is among these.
pub(crate) fn find(seen: &[Seen], txn: Txn) -> Option<&Seen>
    ensures { option_copied result ≡ find_seen txn seen.now }
{
    seen.iter().find(|it| it.serves(txn))
}

/// Takes up a write that comes. Where no memory is found for that, a stack goes.
pub(crate) fn follow(seen: &mut Vec<Seen>, write: &PendingWrite)
    ensures { (writes : List Pending) → AreSeen writes seen.old.items → AreSeen (writes ++ write.now ∷ []) seen.new.items }
{
    seen.retain_mut(|it| it.follow(write));
}

/// Takes out what has the writes of a transaction that ends.
pub(crate) fn forget(seen: &mut Vec<Seen>, txn: Txn)
    ensures { (writes : List Pending) → AreSeen writes seen.old.items → AreSeen (pending_without txn writes) seen.new.items }
{
    seen.retain(|it| !it.shows(txn));
}
