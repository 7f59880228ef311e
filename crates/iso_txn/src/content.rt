ghost use Rattle.std.specs.Prelude.{◌≡◌, ◌<◌, ◌≤◌, ◌^◌, length, if◌then◌else◌, IfOk, OnErr, []};
ghost use Rattle.std.specs.Arc.{arc_value};
ghost use Rattle.std.specs.List.Sorted.{IsStrictlySortedBy};
ghost use Rattle.std.specs.Option.{is_some, option_map};
ghost use Rattle.rdf_term.specs.Order.{quad_cmp};
ghost use Rattle.branch.specs.Layers.{layered};
ghost use Rattle.change_set.specs.Content.{applied, named_quads};
ghost use Rattle.journal.specs.Replies.{within};
ghost use Rattle.iso_txn.specs.Kept.{changed_within};

use crate::sizes;
use branch::{Branch, Stack, View};
use change_set::ChangeSet;
use journal::Limits;
use quad_index::{Index, Orders};
use rdf_term::{Memory, Quads};
use std::alloc::Global;
use std::marker::Model;
use std::sync::Arc;

/// A content with its size, which contracts see as the list of its quads.
#[derive(Drop)]
pub(crate) struct Content {
    alloc: Global,
    branch: Branch,
    quads: u64,
    bytes: u64,
    // How many changes were made since a base was last looked for, and how many quads the base has.
    changes: u64,
    base: u64,
}

impl Model for Content {
    ghost use Rattle.std.specs.Prelude.{List};
    ghost use Rattle.rdf_term.specs.Statement.{Statement};
    ghost use Rattle.iso_txn.specs.Sizes.{IsSized};

    ghost Value = { List Statement };

    ghost view = { λ it. it.branch.quads };

    ghost invariant = { λ it. IsSized it.branch.quads it.quads it.bytes };
}

/// Above a base of so many quads so many changes are few. More of them are folded into a new base, so
/// that a scan costs what it finds, and a quad is moved a few times at most.
fn are_few(changes: u64, base: u64) -> bool {
    changes <= 1_000 + base / 8
}

/// How many changes were made after some more. They count as too many for any base where nothing is
/// left of what was there before: so a first upload, and what replaces everything, is a base at once.
fn changes_after(changes: u64, more: u64, is_new: bool) -> u64 {
    if is_new {
        return u64::MAX;
    }
    changes.saturating_add(more)
}

impl Content {
    /// No quads, kept in these orders.
    pub(crate) fn new(alloc: Global, orders: &Orders) -> Result<Content, Memory>
        requires some { 1 ≤ length orders.now }
        requires few { length orders.now ≤ 6 }
        ensures { IfOk result (λ content. content ≡ []) }
    {
        let base = Index::build(alloc, orders, &Quads::new(alloc))?;
        Ok(Content {
            alloc,
            branch: Branch::new(alloc, base)?,
            quads: 0,
            bytes: 0,
            changes: 0,
            base: 0,
        })
    }

    /// The number of quads.
    pub(crate) fn quads(&self) -> u64
        ensures { result ≡ length self.now }
    {
        self.quads
    }

    /// A branch with the content.
    pub(crate) fn pin(&self) -> Result<Branch, Memory>
        ensures { IfOk result (λ branch. branch.quads ≡ self.now) }
    {
        let branch = self.branch.pin()?;
        Ok(branch)
    }

    /// What is seen above the content with these changes, none of which is merged.
    pub(crate) fn view(&self, own: &Stack) -> Result<View, Memory>
        ensures quads { IfOk result (λ view. view.quads ≡ layered self.now own.now) }
        ensures ascending { IsStrictlySortedBy quad_cmp self.now }
    {
        let view = self.branch.view(own)?;
        Ok(view)
    }

    /// The same content, which shares what is kept of it.
    pub(crate) fn share(&self) -> Result<Content, Memory>
        ensures { IfOk result (λ content. content ≡ self.now) }
    {
        Ok(Content {
            alloc: self.alloc,
            branch: self.branch.pin()?,
            quads: self.quads,
            bytes: self.bytes,
            changes: self.changes,
            base: self.base,
        })
    }

    /// Applies changes where the limits allow what they leave, and answers the exact change of the
    /// content, which others may share; else nothing.
    fn push_within(
        &mut self,
        limits: &Limits,
        set: &ChangeSet,
    ) -> Result<Option<Arc<ChangeSet>>, Memory>
        requires quads { limits.now.quads < 2 ^ 62 }
        requires bytes { limits.now.bytes < 2 ^ 62 }
        ensures fits { IfOk result (λ it. is_some it ≡ within limits.now (applied self.old set.now)) }
        ensures content { IfOk result (λ it. self.new ≡ (if is_some it then applied self.old set.now else self.old)) }
        ensures delta { IfOk result (λ it. option_map (λ delta. named_quads (arc_value delta)) it ≡ changed_within limits.now self.old set.now) }
        ensures memory { OnErr result (self.new ≡ self.old) }
    {
        let delta = self.branch.delta(set)?;
        let quads = sizes::quads_after(self.quads, &delta);
        let bytes = sizes::bytes_after(self.bytes, &delta);
        if quads > limits.quads || bytes > limits.bytes {
            return Ok(None);
        }
        let is_new = delta.removed.len() as u64 == self.quads;
        let set = delta.changes(self.alloc)?;
        let changes = Arc::new(self.alloc, set)?;
        let shared = Arc::try_clone(&changes)?;
        self.branch.push_shared(shared)?;
        self.quads = quads;
        self.bytes = bytes;
        self.changes = changes_after(self.changes, changes.len(), is_new);
        Ok(Some(changes))
    }

    /// Folds the changes into a new base where they are many, and where memory is found for it. Where
    /// none is found, it is looked for again after as many more changes.
    fn settle(&mut self)
        ensures { self.new ≡ self.old }
    {
        if are_few(self.changes, self.base) {
            return;
        }
        self.changes = 0;
        let Ok(base) = self.branch.fold() else {
            return;
        };
        let quads = base.len();
        if let Ok(branch) = Branch::new(self.alloc, base) {
            self.branch = branch;
            self.base = quads;
        }
    }

    /// Applies changes where the limits allow what they leave, and answers the exact change of the
    /// content, which others may share; else nothing.
    pub(crate) fn apply(
        &mut self,
        limits: &Limits,
        set: &ChangeSet,
    ) -> Result<Option<Arc<ChangeSet>>, Memory>
        requires quads { limits.now.quads < 2 ^ 62 }
        requires bytes { limits.now.bytes < 2 ^ 62 }
        ensures fits { IfOk result (λ it. is_some it ≡ within limits.now (applied self.old set.now)) }
        ensures content { IfOk result (λ it. self.new ≡ (if is_some it then applied self.old set.now else self.old)) }
        ensures delta { IfOk result (λ it. option_map (λ delta. named_quads (arc_value delta)) it ≡ changed_within limits.now self.old set.now) }
        ensures memory { OnErr result (self.new ≡ self.old) }
    {
        let change = self.push_within(limits, set)?;
        self.settle();
        Ok(change)
    }
}
