ghost use Rattle.std.specs.Prelude.{◌≡◌, ◌+◌, ◌≤◌, List, [], length, map, IfOk, OnOk, OnErr};
ghost use Rattle.std.specs.Arc.{arc_value};
ghost use Rattle.std.specs.List.Sorted.{IsStrictlySortedBy};
ghost use Rattle.rdf_term.specs.Statement.{Statement};
ghost use Rattle.rdf_term.specs.Order.{quad_cmp};
ghost use Rattle.change_set.specs.Content.{applied};
ghost use Rattle.branch.specs.Layers.{layered};

use crate::layers;
use change_set::ChangeSet;
use rdf_term::Memory;
use std::alloc::Global;
use std::marker::Model;
use std::sync::Arc;

/// Change sets one above the other, the oldest first, which others may share. Each has at least twice
/// as many changes as the one above it, so that there are at most 64.
///
/// Contracts see it as the list of its change sets.
#[derive(Drop)]
pub struct Stack {
    alloc: Global,
    layers: Vec<Arc<ChangeSet>>,
}

impl Model for Stack {
    ghost use Rattle.std.specs.Prelude.{List, map};
    ghost use Rattle.std.specs.Arc.{arc_value};
    ghost use Rattle.change_set.specs.declared.change.Change.{Change};
    ghost use Rattle.branch.specs.Bounds.{IsHalving};

    ghost Value = { List (List Change) };

    ghost view = { λ it. map arc_value it.layers.items };

    ghost invariant = { λ it. IsHalving (map arc_value it.layers.items) };
}

impl Stack {
    /// No change sets. It takes no memory.
    pub fn new(alloc: Global) -> Stack
        ensures { result ≡ [] }
    {
        Stack {
            alloc,
            layers: Vec::new(alloc),
        }
    }

    /// Puts a change set on top, which others may share. Without memory the stack stays as it was.
    ///
    /// The set is merged with those under it until each has at least twice as many changes as the one
    /// above it. A set of no changes adds none.
    pub fn push_shared(&mut self, set: Arc<ChangeSet>) -> Result<(), Memory>
        ensures content { OnOk result ((base : List Statement) → IsStrictlySortedBy quad_cmp base → layered base self.new ≡ applied (layered base self.old) set.value) }
        ensures layers { OnOk result (length self.new ≤ length self.old + 1) }
        ensures memory { OnErr result (self.new ≡ self.old) }
    {
        // What takes memory comes first, so that the layers change where nothing can fail any more.
        let pile = layers::pile_up(self.alloc, self.layers.as_slice(), set)?;
        layers::put(&mut self.layers, pile)?;
        Ok(())
    }

    /// The same stack, whose change sets are shared.
    pub fn share(&self) -> Result<Stack, Memory>
        ensures { IfOk result (λ it. it ≡ self.now) }
    {
        Ok(Stack {
            alloc: self.alloc,
            layers: layers::share(self.alloc, self.as_slice())?,
        })
    }

    /// The number of change sets, at most 64.
    pub fn layers(&self) -> usize
        ensures number { result ≡ length self.now }
        ensures most { result ≤ 64 }
    {
        self.layers.len()
    }

    /// The change sets.
    pub(crate) fn as_slice(&self) -> &[Arc<ChangeSet>]
        ensures { map arc_value result.now ≡ self.now }
    {
        self.layers.as_slice()
    }
}
