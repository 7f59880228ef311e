ghost use Rattle.std.specs.Prelude.{◌≡◌, [], length, fold, IfOk, OnOk};
ghost use Rattle.std.specs.List.{flat_map};
ghost use Rattle.bgp_eval.specs.Parts.{number_in, part_of};
ghost use Rattle.query_model.specs.Unknowns.{scope_unknown, standing_in, unknown_in, unknowns, with_unknown};

use crate::part::{Part, numbered};
use query_model::{Scope, Slot, TriplePattern};
use rdf_term::{Duplicate, Memory, Seq, Text};
use std::alloc::Global;
use std::collections::BTreeMap;
use std::marker::Model;

/// The unknowns of patterns, numbered in the order in which they first stand. Their numbers are kept
/// by name, so that one is found in a number of steps that hardly grows with the number of unknowns.
#[derive(Drop)]
pub struct Unknowns {
    names: Seq<Slot>,
    variables: BTreeMap<Text, usize>,
    blanks: BTreeMap<Text, usize>,
}

impl Model for Unknowns {
    ghost use Rattle.std.specs.Prelude.{◌≡◌, ℕ, List};
    ghost use Rattle.std.specs.BTreeMap.{get};
    ghost use Rattle.rdf_term.specs.TextOrder.{text_cmp};
    ghost use Rattle.query_model.specs.declared.query.Slot.{Slot};
    ghost use Rattle.query_model.specs.declared.query.Slot.TheVariants.{Var, Blank};
    ghost use Rattle.bgp_eval.specs.Parts.{number_in};

    ghost Value = { List Slot };

    ghost view = { λ u. u.names };

    ghost invariant = { λ u. ((name : List ℕ) → get text_cmp u.variables name ≡ number_in u.names (Var name)) × ((label : List ℕ) → get text_cmp u.blanks label ≡ number_in u.names (Blank label)) };
}

impl Unknowns {
    /// No unknowns, which takes no memory.
    fn new(alloc: Global) -> Unknowns
        ensures { result ≡ [] }
    {
        Unknowns {
            names: Seq::new(alloc),
            variables: BTreeMap::new(alloc),
            blanks: BTreeMap::new(alloc),
        }
    }

    /// The number of unknowns.
    pub fn len(&self) -> usize
        ensures { result ≡ length self.now }
    {
        self.names.len()
    }

    fn variable(&self, name: &Text) -> Option<usize>
        ensures { result ≡ number_in self.now (Slot.Var name.now) }
    {
        self.variables.get(name).copied()
    }

    fn blank(&self, label: &Text) -> Option<usize>
        ensures { result ≡ number_in self.now (Slot.Blank label.now) }
    {
        self.blanks.get(label).copied()
    }

    /// What stands for a variable, which is unbound where it is not among these.
    pub fn variable_part(&self, name: &Text) -> Part
        ensures { result ≡ part_of self.now (Slot.Var name.now) }
    {
        numbered(self.variable(name))
    }

    /// What stands for a slot: a variable that is not among these is unbound.
    pub fn part(&self, alloc: Global, slot: &Slot) -> Result<Part, Memory>
        ensures { IfOk result (λ part. part ≡ part_of self.now slot.now) }
    {
        Ok(match slot {
            Slot::Var(name) => self.variable_part(name),
            Slot::Blank(label) => numbered(self.blank(label)),
            Slot::Fixed(term) => Part::Given(term.copy(alloc)?),
        })
    }
}

impl Unknowns {
    /// Adds a variable at the end, unless it is there. Without memory the unknowns may be lost.
    fn add_variable(&mut self, alloc: Global, name: &Text) -> Result<(), Memory>
        ensures { OnOk result (self.new ≡ with_unknown self.old (Slot.Var name.now)) }
    {
        if self.variables.contains_key(name) {
            return Ok(());
        }
        let key = name.copy(alloc)?;
        let slot = Slot::Var(name.copy(alloc)?);
        self.variables.insert(key, self.names.len())?;
        match self.names.push(slot) {
            Ok(()) => Ok(()),
            Err(fault) => {
                *self = Unknowns::new(alloc);
                Err(fault)
            }
        }
    }

    /// Adds a blank node at the end, unless it is there. Without memory the unknowns may be lost.
    fn add_blank(&mut self, alloc: Global, label: &Text) -> Result<(), Memory>
        ensures { OnOk result (self.new ≡ with_unknown self.old (Slot.Blank label.now)) }
    {
        if self.blanks.contains_key(label) {
            return Ok(());
        }
        let key = label.copy(alloc)?;
        let slot = Slot::Blank(label.copy(alloc)?);
        self.blanks.insert(key, self.names.len())?;
        match self.names.push(slot) {
            Ok(()) => Ok(()),
            Err(fault) => {
                *self = Unknowns::new(alloc);
                Err(fault)
            }
        }
    }

    fn add(&mut self, alloc: Global, slot: &Slot) -> Result<(), Memory>
        ensures { OnOk result (self.new ≡ fold with_unknown self.old (unknown_in slot.now)) }
    {
        match slot {
            Slot::Var(name) => self.add_variable(alloc, name),
            Slot::Blank(label) => self.add_blank(alloc, label),
            Slot::Fixed(_) => Ok(()),
        }
    }

    fn add_scope(&mut self, alloc: Global, scope: &Scope) -> Result<(), Memory>
        ensures { OnOk result (self.new ≡ fold with_unknown self.old (scope_unknown scope.now)) }
    {
        match scope {
            Scope::Any => Ok(()),
            Scope::Graph(slot) => self.add(alloc, slot),
        }
    }

    fn add_pattern(&mut self, alloc: Global, pattern: &TriplePattern) -> Result<(), Memory>
        ensures { OnOk result (self.new ≡ fold with_unknown self.old (standing_in pattern.now)) }
    {
        self.add_scope(alloc, &pattern.g)?;
        self.add(alloc, &pattern.s)?;
        self.add(alloc, &pattern.p)?;
        self.add(alloc, &pattern.o)
    }
}

/// The unknowns of these patterns.
#[tactic(auto, unfolding(query_model::specs::Unknowns::unknowns))]
pub fn unknowns_of(alloc: Global, patterns: &[TriplePattern]) -> Result<Unknowns, Memory>
    ensures { IfOk result (λ names. names ≡ unknowns patterns.now) }
{
    let mut names = Unknowns::new(alloc);
    for pattern in patterns {
        names.add_pattern(alloc, pattern)?;
    }
    Ok(names)
}
