ghost use Rattle.std.specs.Prelude.{◌≡◌, ◌↔◌, ◌-◌, ◌^◌, [], length, filter, map, min, IsTrue};
ghost use Rattle.std.specs.Arc.{arc_value};
ghost use Rattle.std.specs.List.Sorted.{IsStrictlySortedBy};
ghost use Rattle.rdf_term.specs.Matching.{matches};
ghost use Rattle.rdf_term.specs.Order.{quad_cmp};
ghost use Rattle.quad_index.specs.Contents.{is_in};
ghost use Rattle.branch.specs.Layers.{layered};

use crate::{counts, layers};
use change_set::ChangeSet;
use quad_index::Index;
use rdf_term::{Memory, Pattern, Quad, Quads, Scan};
use std::alloc::Global;
use std::marker::Model;
use std::sync::Arc;

/// A set of quads that a stack of change sets makes of a branch, as a transaction sees it whose changes
/// are not committed. It shares what the branch and the stack have: no quad is copied and no change sets
/// are merged, and later calls on either leave the view as it is.
///
/// Contracts see it as they see a branch.
#[derive(Drop)]
pub struct View {
    base: Arc<Index>,
    layers: Vec<Arc<ChangeSet>>,
}

impl Model for View {
    ghost use Rattle.std.specs.Prelude.{length, map};
    ghost use Rattle.std.specs.Arc.{arc_value};
    ghost use Rattle.std.specs.List.Sorted.{IsStrictlySortedBy};
    ghost use Rattle.rdf_term.specs.Order.{quad_cmp};
    ghost use Rattle.branch.specs.Layers.{Layered, layered};

    ghost Value = { Layered };

    ghost view = { λ it. let layers = map arc_value it.layers.items in record { quads = layered it.base.value.quads layers; orders = it.base.value.orders; layers = length layers } };

    ghost invariant = { λ it. IsStrictlySortedBy quad_cmp it.base.value.quads };
}

impl View {
    /// The set that layers make of a base.
    pub(crate) fn new(base: Arc<Index>, layers: Vec<Arc<ChangeSet>>) -> View
        ensures quads { result.quads ≡ layered base.value.quads (map arc_value layers.items) }
        ensures orders { result.orders ≡ base.value.orders }
        ensures layers { result.layers ≡ length layers.items }
    {
        // Its clause says that the quads of an index ascend.
        let _ = base.len();
        View { base, layers }
    }

    /// The number of change sets above the base, those of the branch and of the stack. A scan looks each
    /// of them up.
    pub fn layers(&self) -> usize
        ensures number { result ≡ self.now.layers }
        ensures ascending { IsStrictlySortedBy quad_cmp self.now.quads }
    {
        self.layers.len()
    }

    /// Whether a quad is in the content. It takes no memory.
    pub fn holds(&self, quad: &Quad) -> bool
        ensures value { result ≡ is_in quad.now self.now.quads }
        ensures ascending { IsStrictlySortedBy quad_cmp self.now.quads }
    {
        layers::holds(&self.base, self.layers.as_slice(), quad)
    }

    /// The number of quads of the content that match the pattern, at most `u64::MAX`. It takes no
    /// memory, and counts as a branch does.
    pub fn count(&self, pattern: &Pattern) -> u64
        ensures { result ≡ min (length (filter (matches pattern.now) self.now.quads)) (2 ^ 64 - 1) }
    {
        counts::count(&self.base, self.layers.as_slice(), pattern)
    }

    /// Whether the content has no quad. It takes no memory.
    pub fn is_empty(&self) -> bool
        ensures { IsTrue result ↔ (self.now.quads ≡ []) }
    {
        counts::is_empty(&self.base, self.layers.as_slice())
    }
}

impl Scan for View {
    ghost content = { λ view. view.quads };

    fn scan(&self, alloc: Global, pattern: &Pattern) -> Result<Quads, Memory> {
        layers::scan(alloc, &self.base, self.layers.as_slice(), pattern)
    }
}
