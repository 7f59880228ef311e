//! Lists of changes, read from the newest change to the oldest.
ghost use Rattle.std.specs.Prelude.{◌≡◌, [], ◌∷◌, ◌++◌, map, IfOk, OnOk};
ghost use Rattle.change_set.specs.declared.change.Change.TheVariants.{RemoveMatching};
ghost use Rattle.change_set.specs.Content.{SameChanges};
ghost use Rattle.change_set.specs.Kept.{marked, marked_entry};

use crate::Change;
use crate::cover::{is_covered, is_matched};
use crate::effect::Mark;
use crate::kept::Kept;
use crate::marked::Marked;
use rdf_term::{Duplicate, Memory, Pattern, Quad};
use std::alloc::Global;
use std::marker::Model;

/// The changes that were read so far, the newest of a list. An older one is added to them where it
/// says something more: a pattern that a newer one covers does not, and a quad that a newer pattern
/// matches is removed.
///
/// Contracts see it as the list of these changes.
#[derive(Drop)]
pub(crate) struct Gathered {
    alloc: Global,
    patterns: Vec<Pattern>,
    named: Vec<Marked>,
}

impl Model for Gathered {
    ghost use Rattle.std.specs.Prelude.{List};
    ghost use Rattle.change_set.specs.declared.change.Change.{Change};
    ghost use Rattle.change_set.specs.Kept.{gathered_of};

    ghost Value = { List Change };

    ghost view = { λ it. gathered_of it.patterns.items it.named.items };
}

impl Gathered {
    /// No changes, which take no memory.
    pub(crate) fn new(alloc: Global) -> Gathered
        ensures { result ≡ [] }
    {
        Gathered {
            alloc,
            patterns: Vec::new(alloc),
            named: Vec::new(alloc),
        }
    }

    /// Adds an older change of a named quad.
    fn add_marked(&mut self, entry: Marked) -> Result<(), Memory>
        ensures { OnOk result (SameChanges self.new (marked_entry entry ∷ self.old)) }
    {
        let mark = if is_matched(self.patterns.as_slice(), entry.quad()) {
            Mark::Removes
        } else {
            entry.mark()
        };
        self.named.push(entry.with_mark(mark))?;
        Ok(())
    }

    /// Adds an older change that names a quad.
    pub(crate) fn add_named(&mut self, quad: &Quad, mark: Mark) -> Result<(), Memory>
        ensures { OnOk result (SameChanges self.new (marked quad.now mark ∷ self.old)) }
    {
        let entry = Marked::new(self.alloc, quad, mark)?;
        self.add_marked(entry)
    }

    /// Adds an older removal by pattern.
    pub(crate) fn add_pattern(&mut self, pattern: &Pattern) -> Result<(), Memory>
        ensures { OnOk result (SameChanges self.new (RemoveMatching pattern.now ∷ self.old)) }
    {
        if is_covered(self.patterns.as_slice(), pattern) {
            return Ok(());
        }
        self.patterns.push(pattern.copy(self.alloc)?)?;
        Ok(())
    }

    /// Adds an older change.
    pub(crate) fn add(&mut self, change: &Change) -> Result<(), Memory>
        ensures { OnOk result (SameChanges self.new (change.now ∷ self.old)) }
    {
        match change {
            Change::Add(quad) => self.add_named(quad, Mark::Adds),
            Change::Remove(quad) => self.add_named(quad, Mark::Removes),
            Change::RemoveMatching(pattern) => self.add_pattern(pattern),
        }
    }

    /// Adds older changes.
    pub(crate) fn add_all(&mut self, changes: &[Change]) -> Result<(), Memory>
        ensures { OnOk result (SameChanges self.new (changes.now ++ self.old)) }
    {
        let mut left = changes;
        while let Some((change, before)) = left.split_last() {
            self.add(change)?;
            left = before;
        }
        Ok(())
    }

    /// Adds older changes of these quads, one after the other.
    pub(crate) fn add_each(&mut self, quads: &[Quad], mark: Mark) -> Result<(), Memory>
        ensures { OnOk result (SameChanges self.new (map (λ q. marked q mark) quads.now ++ self.old)) }
    {
        let mut left = quads;
        while let Some((quad, before)) = left.split_last() {
            self.add_named(quad, mark)?;
            left = before;
        }
        Ok(())
    }

    fn add_entries(&mut self, named: &[Marked]) -> Result<(), Memory>
        ensures { OnOk result (SameChanges self.new (map marked_entry named.now ++ self.old)) }
    {
        let mut left = named;
        while let Some((entry, before)) = left.split_last() {
            self.add_marked(entry.share()?)?;
            left = before;
        }
        Ok(())
    }

    fn add_patterns(&mut self, patterns: &[Pattern]) -> Result<(), Memory>
        ensures { OnOk result (SameChanges self.new (map RemoveMatching patterns.now ++ self.old)) }
    {
        let mut left = patterns;
        while let Some((pattern, before)) = left.split_last() {
            self.add_pattern(pattern)?;
            left = before;
        }
        Ok(())
    }

    /// Adds what is kept of older changes. Their quads are shared.
    pub(crate) fn add_kept(&mut self, kept: &Kept) -> Result<(), Memory>
        ensures { OnOk result (SameChanges self.new (kept.now ++ self.old)) }
    {
        self.add_entries(kept.named())?;
        self.add_patterns(kept.patterns())?;
        Ok(())
    }

    /// What is to be kept of the changes. Parts of them that are in order, as those of each list that
    /// was kept before, are merged.
    pub(crate) fn finish(self) -> Result<Kept, Memory>
        ensures { IfOk result (λ kept. SameChanges kept self) }
    {
        let Gathered {
            alloc: _,
            patterns,
            named,
        } = self;
        let mut named = named;
        named.sort()?;
        named.dedup();
        Ok(Kept::new(patterns, named))
    }
}
