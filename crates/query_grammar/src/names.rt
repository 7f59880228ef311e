ghost use Rattle.std.specs.Prelude.{◌≡◌, [], IfOk, OnOk, fold};
ghost use Rattle.query_grammar.specs.Names.{is_among, standing, with_name, with_pattern, with_scope, with_slot};

use query_model::{Names1, Scope, Slot, TriplePattern};
use rdf_term::{Duplicate, Memory, Text};
use std::alloc::Global;
use std::collections::BTreeSet;
use std::marker::Model;

/// Distinct names in the order in which they were added. They are kept in the order of texts too, so
/// that a name is found in a number of steps that doesn't grow with the number of names.
#[derive(Drop)]
pub struct Names {
    names: Names1,
    known: BTreeSet<Text>,
}

impl Model for Names {
    ghost use Rattle.std.specs.Prelude.{◌≡◌, ℕ, List};
    ghost use Rattle.std.specs.BTreeSet.{contains};
    ghost use Rattle.rdf_term.specs.TextOrder.{text_cmp};
    ghost use Rattle.query_grammar.specs.Names.{is_among};

    ghost Value = { List (List ℕ) };

    ghost view = { λ n. n.names };

    ghost invariant = { λ n. (name : List ℕ) → contains text_cmp n.known name ≡ is_among n.names name };
}

impl Names {
    /// No names, which takes no memory.
    pub fn new(alloc: Global) -> Names
        ensures { result ≡ [] }
    {
        Names {
            names: Names1::new(alloc),
            known: BTreeSet::new(alloc),
        }
    }

    /// Adds a name at the end, unless it is there. Without memory the names may be lost.
    #[tactic(auto, unfolding(crate::specs::Names::with_name))]
    pub fn add(&mut self, alloc: Global, name: Text) -> Result<(), Memory>
        ensures { OnOk result (self.new ≡ with_name self.old name) }
    {
        if self.known.contains(&name) {
            return Ok(());
        }
        let known = name.copy(alloc)?;
        self.known.insert(known)?;
        match self.names.push(name) {
            Ok(()) => Ok(()),
            Err(fault) => {
                *self = Names::new(alloc);
                Err(fault)
            }
        }
    }

    /// The names. It takes no memory.
    pub fn into_names(self) -> Names1
        ensures { result ≡ self }
    {
        self.names
    }

    /// Adds a name that stands elsewhere too. One that is there takes no memory.
    #[tactic(auto, unfolding(crate::specs::Names::with_name))]
    fn add_copy(&mut self, alloc: Global, name: &Text) -> Result<(), Memory>
        ensures { OnOk result (self.new ≡ with_name self.old name.now) }
    {
        if self.known.contains(name) {
            return Ok(());
        }
        self.add(alloc, name.copy(alloc)?)
    }

    fn add_slot(&mut self, alloc: Global, slot: &Slot) -> Result<(), Memory>
        ensures { OnOk result (self.new ≡ with_slot self.old slot.now) }
    {
        match slot {
            Slot::Var(name) => self.add_copy(alloc, name),
            Slot::Blank(_) => Ok(()),
            Slot::Fixed(_) => Ok(()),
        }
    }

    fn add_scope(&mut self, alloc: Global, scope: &Scope) -> Result<(), Memory>
        ensures { OnOk result (self.new ≡ with_scope self.old scope.now) }
    {
        match scope {
            Scope::Any => Ok(()),
            Scope::Graph(slot) => self.add_slot(alloc, slot),
        }
    }

    #[tactic(auto, unfolding(crate::specs::Names::with_pattern))]
    fn add_pattern(&mut self, alloc: Global, pattern: &TriplePattern) -> Result<(), Memory>
        ensures { OnOk result (self.new ≡ with_pattern self.old pattern.now) }
    {
        self.add_scope(alloc, &pattern.g)?;
        self.add_slot(alloc, &pattern.s)?;
        self.add_slot(alloc, &pattern.p)?;
        self.add_slot(alloc, &pattern.o)
    }
}

/// The variables of the patterns, each once, in the order in which they first stand.
#[tactic(auto, unfolding(crate::specs::Names::standing))]
pub fn standing(alloc: Global, patterns: &[TriplePattern]) -> Result<Names1, Memory>
    ensures { IfOk result (λ names. names ≡ standing patterns.now) }
{
    let mut names = Names::new(alloc);
    for pattern in patterns {
        names.add_pattern(alloc, pattern)?;
    }
    Ok(names.into_names())
}
