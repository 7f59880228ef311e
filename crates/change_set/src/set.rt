ghost use Rattle.std.specs.Prelude.{◌≡◌, [], ◌∷◌, ◌++◌, length, filter, find, IfOk, OnOk, OnErr};
ghost use Rattle.std.specs.List.{list_any};
ghost use Rattle.std.specs.Map.{keys_of};
ghost use Rattle.std.specs.Ordering.{eq_by_cmp};
ghost use Rattle.std.specs.Option.{option_copied};
ghost use Rattle.rdf_term.specs.Matching.{matches};
ghost use Rattle.rdf_term.specs.Order.{quad_cmp};
ghost use Rattle.change_set.specs.Content.{last_effect, named_quads, SameChanges};
ghost use Rattle.change_set.specs.Deltas.{removed_patterns, removed_quads, swapped};

use crate::effect::Mark;
use crate::gathered::Gathered;
use crate::kept::Kept;
use crate::{Change, Effect, Marked};
use rdf_term::{Duplicate, Memory, Pattern, Quad, Quads, Scan};
use std::alloc::Global;
use std::marker::Model;
use std::sync::Arc;

/// A list of changes of which only what counts is kept: for each named quad what the last change
/// that touches it does, and the removed patterns for all other quads. A pattern that a later one
/// covers is not kept.
///
/// Contracts see it as a list of changes that does to every quad what the whole list does, and
/// names the same quads.
///
/// What is kept is never changed, so that copies share it: a copy takes constant time, and a call
/// that changes a set makes a new list, which shares the quads of the old one.
#[derive(Drop)]
pub struct ChangeSet {
    alloc: Global,
    // None where there are no changes, since an empty set takes no memory.
    kept: Option<Arc<Kept>>,
}

impl Model for ChangeSet {
    ghost use Rattle.std.specs.Prelude.{List, []};
    ghost use Rattle.std.specs.Arc.{arc_value};
    ghost use Rattle.std.specs.Option.{unwrap_or, option_map};
    ghost use Rattle.change_set.specs.declared.change.Change.{Change};

    ghost Value = { List Change };

    ghost view = { λ s. unwrap_or (option_map arc_value s.kept) [] };
}

/// Adds what a set keeps to newer changes.
fn add_older(gathered: &mut Gathered, set: &ChangeSet) -> Result<(), Memory>
    ensures { OnOk result (SameChanges gathered.new (set.now ++ gathered.old)) }
{
    match &set.kept {
        None => Ok(()),
        Some(kept) => gathered.add_kept(kept),
    }
}

impl ChangeSet {
    /// The set of no changes, which takes no memory.
    pub fn new(alloc: Global) -> ChangeSet
        ensures { result ≡ [] }
    {
        ChangeSet { alloc, kept: None }
    }

    fn from_gathered(alloc: Global, gathered: Gathered) -> Result<ChangeSet, Memory>
        ensures { IfOk result (λ set. SameChanges set gathered) }
    {
        let kept = gathered.finish()?;
        Ok(ChangeSet {
            alloc,
            kept: Some(Arc::new(alloc, kept)?),
        })
    }

    /// The set that stands for a list of changes.
    pub fn from_changes(alloc: Global, changes: &[Change]) -> Result<ChangeSet, Memory>
        ensures { IfOk result (λ set. SameChanges set changes.now) }
    {
        let mut gathered = Gathered::new(alloc);
        gathered.add_all(changes)?;
        let set = ChangeSet::from_gathered(alloc, gathered)?;
        Ok(set)
    }

    /// Adds a change at the end of the list. Without memory the set stays as it was.
    ///
    /// It takes time by the number of changes that are kept; `from_changes` makes a set of many.
    pub fn push(&mut self, change: &Change) -> Result<(), Memory>
        ensures ok { OnOk result (SameChanges self.new (self.old ++ change.now ∷ [])) }
        ensures memory { OnErr result (self.new ≡ self.old) }
    {
        let mut gathered = Gathered::new(self.alloc);
        gathered.add(change)?;
        add_older(&mut gathered, self)?;
        let longer = ChangeSet::from_gathered(self.alloc, gathered)?;
        *self = longer;
        Ok(())
    }

    /// The set of the older list's changes followed by the newer's.
    pub fn merge(alloc: Global, older: &ChangeSet, newer: &ChangeSet) -> Result<ChangeSet, Memory>
        ensures { IfOk result (λ set. SameChanges set (older.now ++ newer.now)) }
    {
        let mut gathered = Gathered::new(alloc);
        add_older(&mut gathered, newer)?;
        add_older(&mut gathered, older)?;
        let set = ChangeSet::from_gathered(alloc, gathered)?;
        Ok(set)
    }

    /// Adds the changes of a newer set at the end. Without memory the set stays as it was.
    pub fn append(&mut self, newer: &ChangeSet) -> Result<(), Memory>
        ensures ok { OnOk result (SameChanges self.new (self.old ++ newer.now)) }
        ensures memory { OnErr result (self.new ≡ self.old) }
    {
        let longer = ChangeSet::merge(self.alloc, self, newer)?;
        *self = longer;
        Ok(())
    }

    /// The set that removes some quads and then adds others.
    pub fn swapping(alloc: Global, added: &[Quad], removed: &[Quad]) -> Result<ChangeSet, Memory>
        ensures { IfOk result (λ set. SameChanges set (swapped added.now removed.now)) }
    {
        let mut gathered = Gathered::new(alloc);
        gathered.add_each(added, Mark::Adds)?;
        gathered.add_each(removed, Mark::Removes)?;
        let set = ChangeSet::from_gathered(alloc, gathered)?;
        Ok(set)
    }

    /// The number of changes that are kept: of named quads and of removed patterns.
    pub fn len(&self) -> u64
        ensures { result ≡ length self.now }
    {
        match &self.kept {
            None => 0,
            Some(kept) => kept.len(),
        }
    }

    /// The patterns that the set removes; a quad that it names is touched by its own change alone.
    pub fn patterns(&self) -> &[Pattern]
        ensures { result.now ≡ removed_patterns self.now }
    {
        match &self.kept {
            None => &[],
            Some(kept) => kept.patterns(),
        }
    }

    /// The quads that the set names and removes.
    pub fn removals(&self, alloc: Global) -> Result<Quads, Memory>
        ensures { IfOk result (λ quads. quads ≡ removed_quads self.now) }
    {
        match &self.kept {
            None => Ok(Quads::new(alloc)),
            Some(kept) => kept.removals(alloc),
        }
    }

    /// Whether a change of the set names the quad. A quad that is only touched by a removed pattern is
    /// not named.
    pub fn names(&self, quad: &Quad) -> bool
        ensures { result ≡ list_any (eq_by_cmp quad_cmp quad.now) (named_quads self.now) }
    {
        match &self.kept {
            None => false,
            Some(kept) => kept.names(quad),
        }
    }

    /// Quads that the set names, in their order, with what it does to each. All that the pattern matches
    /// are among them: those are left out, by halves, whose leading parts are not the ones that it gives.
    pub fn named_near(&self, pattern: &Pattern) -> &[Marked]
        ensures { filter (matches pattern.now) (keys_of result.now) ≡ filter (matches pattern.now) (named_quads self.now) }
    {
        match &self.kept {
            None => &[],
            Some(kept) => kept.named_near(pattern),
        }
    }

    /// What the last change that touches the quad does.
    pub fn effect(&self, quad: &Quad) -> Effect
        ensures { result ≡ last_effect self.now quad.now }
    {
        match &self.kept {
            None => Effect::Untouched,
            Some(kept) => kept.effect(quad),
        }
    }

    /// The least quad named by a change of the set that one of the patterns matches, where there is
    /// one. A quad that is only touched by a removed pattern is not named.
    pub fn least_touched(&self, patterns: &[Pattern]) -> Option<&Quad>
        ensures { option_copied result ≡ find (λ q. list_any (λ p. matches p q) patterns.now) (named_quads self.now) }
    {
        match &self.kept {
            None => None,
            Some(kept) => kept.least_touched(patterns),
        }
    }
}

impl Duplicate for ChangeSet {
    fn copy(&self, alloc: Global) -> Result<ChangeSet, Memory> {
        let kept = match &self.kept {
            None => None,
            Some(kept) => Some(Arc::try_clone(kept)?),
        };
        Ok(ChangeSet { alloc, kept })
    }
}

impl Scan for ChangeSet {
    ghost use Rattle.change_set.specs.Content as changes;

    ghost content = { changes.content };

    fn scan(&self, alloc: Global, pattern: &Pattern) -> Result<Quads, Memory> {
        match &self.kept {
            None => Ok(Quads::new(alloc)),
            Some(kept) => {
                let found = kept.matching(alloc, pattern)?;
                Ok(found)
            }
        }
    }
}
