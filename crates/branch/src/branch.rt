ghost use Rattle.std.specs.Prelude.{◌≡◌, ◌↔◌, ◌+◌, ◌-◌, ◌^◌, ◌≤◌, [], length, filter, min, IsTrue, IfOk, OnOk, OnErr};
ghost use Rattle.std.specs.List.Sorted.{IsStrictlySortedBy};
ghost use Rattle.rdf_term.specs.Matching.{matches};
ghost use Rattle.rdf_term.specs.Order.{quad_cmp};
ghost use Rattle.quad_index.specs.Contents.{is_in};
ghost use Rattle.change_set.specs.Content.{applied};
ghost use Rattle.branch.specs.Deltas.{IsDelta};
ghost use Rattle.branch.specs.Layers.{layered};
ghost use Rattle.rdf_term.specs.declared.pattern.GraphPick.TheVariants as picks;

use crate::deltas::Delta;
use crate::stack::Stack;
use crate::view::View;
use crate::{counts, deltas, layers};
use change_set::ChangeSet;
use quad_index::Index;
use rdf_term::{GraphPick, Memory, Pattern, Quad, Quads, Scan};
use std::alloc::Global;
use std::marker::Model;
use std::sync::Arc;

/// A set of quads: a base index with change sets above it, all of which other branches may share.
/// No branch changes what it shares.
///
/// Contracts see it as the list of its quads in their order, the orders of its base and the number of
/// its change sets.
#[derive(Drop)]
pub struct Branch {
    alloc: Global,
    base: Arc<Index>,
    layers: Stack,
}

impl Model for Branch {
    ghost use Rattle.std.specs.Prelude.{length};
    ghost use Rattle.std.specs.List.Sorted.{IsStrictlySortedBy};
    ghost use Rattle.rdf_term.specs.Order.{quad_cmp};
    ghost use Rattle.branch.specs.Layers.{Layered, layered};

    ghost Value = { Layered };

    ghost view = { λ it. record { quads = layered it.base.value.quads it.layers; orders = it.base.value.orders; layers = length it.layers } };

    ghost invariant = { λ it. IsStrictlySortedBy quad_cmp it.base.value.quads };
}

/// The pattern that matches every quad.
pub(crate) fn everything() -> Pattern
    ensures { result ≡ record { s = None; p = None; o = None; c = picks.Any } }
{
    Pattern {
        s: None,
        p: None,
        o: None,
        c: GraphPick::Any,
    }
}

impl Branch {
    /// A branch with the content of its base.
    pub fn new(alloc: Global, base: Index) -> Result<Branch, Memory>
        ensures quads { IfOk result (λ branch. branch.quads ≡ base.quads) }
        ensures orders { IfOk result (λ branch. branch.orders ≡ base.orders) }
        ensures layers { IfOk result (λ branch. branch.layers ≡ 0) }
    {
        // Its clause says that the quads of an index ascend.
        let _ = base.len();
        Ok(Branch {
            alloc,
            base: Arc::new(alloc, base)?,
            layers: Stack::new(alloc),
        })
    }

    /// A branch with the same content. It shares the base and the change sets, so that no quad is
    /// copied, and later calls on the one leave the other as it is.
    pub fn pin(&self) -> Result<Branch, Memory>
        ensures { IfOk result (λ branch. branch ≡ self.now) }
    {
        Ok(Branch {
            alloc: self.alloc,
            base: Arc::try_clone(&self.base)?,
            layers: self.layers.share()?,
        })
    }

    /// The content with a stack of change sets above it. It shares the base and all change sets, so that
    /// no quad is copied and nothing is merged, and later calls on the branch or the stack leave it as it
    /// is.
    pub fn view(&self, own: &Stack) -> Result<View, Memory>
        ensures quads { IfOk result (λ view. view.quads ≡ layered self.now.quads own.now) }
        ensures orders { IfOk result (λ view. view.orders ≡ self.now.orders) }
        ensures layers { IfOk result (λ view. view.layers ≡ self.now.layers + length own.now) }
    {
        let below = layers::share(self.alloc, self.layers.as_slice())?;
        let layers = layers::share_onto(below, own.as_slice())?;
        let base = Arc::try_clone(&self.base)?;
        Ok(View::new(base, layers))
    }

    /// Applies a change set to the content. Without memory the branch stays as it was.
    ///
    /// The set becomes the topmost layer, and is merged with those under it until each layer has at
    /// least twice as many changes as the one above it. A set of no changes adds no layer.
    pub fn push(&mut self, set: ChangeSet) -> Result<(), Memory>
        ensures quads { OnOk result (self.new.quads ≡ applied self.old.quads set) }
        ensures orders { self.new.orders ≡ self.old.orders }
        ensures layers { OnOk result (self.new.layers ≤ self.old.layers + 1) }
        ensures memory { OnErr result (self.new ≡ self.old) }
    {
        let set = Arc::new(self.alloc, set)?;
        self.push_shared(set)?;
        Ok(())
    }

    /// Applies a change set that others may share, as `push` does. Without memory the branch stays as
    /// it was.
    pub fn push_shared(&mut self, set: Arc<ChangeSet>) -> Result<(), Memory>
        ensures quads { OnOk result (self.new.quads ≡ applied self.old.quads set.value) }
        ensures orders { self.new.orders ≡ self.old.orders }
        ensures layers { OnOk result (self.new.layers ≤ self.old.layers + 1) }
        ensures memory { OnErr result (self.new ≡ self.old) }
    {
        self.layers.push_shared(set)?;
        Ok(())
    }

    /// What a change set would bring to the content and take from it. It looks at the quads that the
    /// set names and at those that its patterns match, and at no others.
    pub fn delta(&self, set: &ChangeSet) -> Result<Delta, Memory>
        ensures { IfOk result (λ it. IsDelta self.now.quads (applied self.now.quads set.now) it) }
    {
        Ok(Delta {
            added: deltas::absent(self, set.scan(self.alloc, &everything())?),
            removed: deltas::lost(
                self,
                set,
                deltas::candidates(self.alloc, self, set)?.into_set()?,
            ),
        })
    }

    /// The number of change sets above the base, at most 64. Each has at least twice as many changes as
    /// the one above it. A scan looks each of them up, and a pin shares each.
    pub fn layers(&self) -> usize
        ensures number { result ≡ self.now.layers }
        ensures most { result ≤ 64 }
        ensures ascending { IsStrictlySortedBy quad_cmp self.now.quads }
    {
        self.layers.layers()
    }

    /// Whether a quad is in the content. It takes no memory.
    pub fn holds(&self, quad: &Quad) -> bool
        ensures value { result ≡ is_in quad.now self.now.quads }
        ensures ascending { IsStrictlySortedBy quad_cmp self.now.quads }
    {
        layers::holds(&self.base, self.layers.as_slice(), quad)
    }

    /// The number of quads of the content that match the pattern, at most `u64::MAX`. It takes no
    /// memory.
    ///
    /// It looks at the quads that the change sets name and that can match, and at those of the base
    /// that the pattern and a removed one both match; the rest of the base is counted as the index
    /// counts.
    pub fn count(&self, pattern: &Pattern) -> u64
        ensures { result ≡ min (length (filter (matches pattern.now) self.now.quads)) (2 ^ 64 - 1) }
    {
        counts::count(&self.base, self.layers.as_slice(), pattern)
    }

    /// Whether the content has no quad. It takes no memory.
    pub fn is_empty(&self) -> bool
        ensures { IsTrue result ↔ (self.now.quads ≡ []) }
    {
        counts::is_empty(&self.base, self.layers.as_slice())
    }

    /// An index with the content, in the orders of the base. It takes the terms and the numbers of the
    /// base's quads over, and looks at no quad of it that the change sets don't remove.
    pub fn fold(&self) -> Result<Index, Memory>
        ensures quads { IfOk result (λ index. index.quads ≡ self.now.quads) }
        ensures orders { IfOk result (λ index. index.orders ≡ self.now.orders) }
    {
        let base: &Index = &self.base;
        let set = layers::merged(self.alloc, self.layers.as_slice())?;
        let added = set.scan(self.alloc, &everything())?;
        let removed = deltas::candidates(self.alloc, base, &set)?;
        let index = base.changed(self.alloc, &added, &removed)?;
        Ok(index)
    }
}

impl Scan for Branch {
    ghost content = { λ branch. branch.quads };

    fn scan(&self, alloc: Global, pattern: &Pattern) -> Result<Quads, Memory> {
        layers::scan(alloc, &self.base, self.layers.as_slice(), pattern)
    }
}
