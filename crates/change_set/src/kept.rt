ghost use Rattle.std.specs.Prelude.{◌≡◌, [], ◌∷◌, ◌++◌, length, filter, find, IfOk, OnOk};
ghost use Rattle.std.specs.List.{list_any, filter_map};
ghost use Rattle.std.specs.Option.{option_copied};
ghost use Rattle.std.specs.Map.{lookup, keys_of};
ghost use Rattle.std.specs.BTreeMap.{is_at};
ghost use Rattle.std.specs.Ordering.{eq_by_cmp};
ghost use Rattle.rdf_term.specs.Order.{quad_cmp};
ghost use Rattle.rdf_term.specs.Matching.{matches};
ghost use Rattle.change_set.specs.Content.{added, content, last_effect, named_quads};
ghost use Rattle.change_set.specs.Deltas.{removed, removed_patterns, removed_quads};
ghost use Rattle.change_set.specs.Kept.{marked_entry, changes_of, kept_added, kept_removed, IsInOrder};

use crate::cover::is_matched;
use crate::effect::Mark;
use crate::marked::Marked;
use crate::{Effect, range};
use rdf_term::{Duplicate, Memory, Pattern, Quad, Quads};
use std::alloc::Global;
use std::marker::Model;

/// What counts of a list of changes: the removed patterns, and in the order of quads each named quad
/// with what the last change that touches it does. No removed pattern touches a named quad.
///
/// Contracts see it as the list of these changes, the patterns first.
#[derive(Drop)]
pub(crate) struct Kept {
    patterns: Vec<Pattern>,
    named: Vec<Marked>,
}

impl Model for Kept {
    ghost use Rattle.std.specs.Prelude.{List};
    ghost use Rattle.change_set.specs.declared.change.Change.{Change};
    ghost use Rattle.change_set.specs.Kept.{changes_of, IsInOrder};

    ghost Value = { List Change };

    ghost view = { λ it. changes_of it.patterns.items it.named.items };

    ghost invariant = { λ it. IsInOrder it.named.items };
}

/// What the mark of a quad is, where it has one.
fn mark_of(named: &[Marked], quad: &Quad) -> Option<Mark>
    requires { IsInOrder named.now }
    ensures { result ≡ lookup (is_at (quad_cmp quad.now)) named.now }
{
    match named.binary_search_by(|entry| entry.order_to(quad)) {
        Ok(place) => Some(named[place].mark()),
        Err(_) => None,
    }
}

/// The first quad that one of the patterns matches.
fn first_matched<'a>(named: &'a [Marked], patterns: &[Pattern]) -> Option<&'a Quad>
    ensures { option_copied result ≡ find (λ q. list_any (λ p. matches p q) patterns.now) (keys_of named.now) }
{
    let mut left = named;
    while let Some((entry, behind)) = left.split_first() {
        if is_matched(patterns, entry.quad()) {
            return Some(entry.quad());
        }
        left = behind;
    }
    None
}

/// Adds a copy of the quad at the end, where its mark adds it and the pattern matches it.
fn push_added(
    alloc: Global,
    found: &mut Quads,
    pattern: &Pattern,
    entry: &Marked,
) -> Result<(), Memory>
    ensures { OnOk result (found.new ≡ found.old ++ filter (matches pattern.now) (filter_map added (marked_entry entry.now ∷ []))) }
{
    if entry.mark() == Mark::Adds && pattern.matches(entry.quad()) {
        found.push(entry.quad().copy(alloc)?)?;
    }
    Ok(())
}

/// Copies of the quads that are added and that the pattern matches.
fn added_in(alloc: Global, named: &[Marked], pattern: &Pattern) -> Result<Quads, Memory>
    ensures { IfOk result (λ it. it ≡ filter (matches pattern.now) (kept_added named.now)) }
{
    let mut found = Quads::new(alloc);
    for entry in named {
        push_added(alloc, &mut found, pattern, entry)?;
    }
    Ok(found)
}

/// Adds a copy of the quad at the end, where its mark removes it.
fn push_removed(alloc: Global, found: &mut Quads, entry: &Marked) -> Result<(), Memory>
    ensures { OnOk result (found.new ≡ found.old ++ filter_map removed (marked_entry entry.now ∷ [])) }
{
    if entry.mark() == Mark::Removes {
        found.push(entry.quad().copy(alloc)?)?;
    }
    Ok(())
}

/// Copies of the quads that are removed.
fn removed_in(alloc: Global, named: &[Marked]) -> Result<Quads, Memory>
    ensures { IfOk result (λ it. it ≡ kept_removed named.now) }
{
    let mut found = Quads::new(alloc);
    for entry in named {
        push_removed(alloc, &mut found, entry)?;
    }
    Ok(found)
}

impl Kept {
    /// What is kept of these patterns and marks.
    pub(crate) fn new(patterns: Vec<Pattern>, named: Vec<Marked>) -> Kept
        requires { IsInOrder named.items }
        ensures { result ≡ changes_of patterns.items named.items }
    {
        Kept { patterns, named }
    }

    /// The removed patterns.
    pub(crate) fn patterns(&self) -> &[Pattern]
        ensures { result.now ≡ removed_patterns self.now }
    {
        self.patterns.as_slice()
    }

    /// The named quads with their marks, in the order of quads.
    pub(crate) fn named(&self) -> &[Marked]
        ensures changes { changes_of (removed_patterns self.now) result.now ≡ self.now }
        ensures order { IsInOrder result.now }
    {
        self.named.as_slice()
    }

    /// The number of changes.
    pub(crate) fn len(&self) -> u64
        ensures { result ≡ length self.now }
    {
        self.patterns.len() as u64 + self.named.len() as u64
    }

    pub(crate) fn effect(&self, quad: &Quad) -> Effect
        ensures { result ≡ last_effect self.now quad.now }
    {
        match mark_of(self.named.as_slice(), quad) {
            Some(mark) => mark.effect(),
            None => {
                if is_matched(self.patterns.as_slice(), quad) {
                    Effect::Removed
                } else {
                    Effect::Untouched
                }
            }
        }
    }

    /// Whether a change names the quad.
    pub(crate) fn names(&self, quad: &Quad) -> bool
        ensures { result ≡ list_any (eq_by_cmp quad_cmp quad.now) (named_quads self.now) }
    {
        mark_of(self.named.as_slice(), quad).is_some()
    }

    /// Named quads among which are all that the pattern matches: those whose leading parts are the ones
    /// that the pattern gives.
    pub(crate) fn named_near(&self, pattern: &Pattern) -> &[Marked]
        ensures { filter (matches pattern.now) (keys_of result.now) ≡ filter (matches pattern.now) (named_quads self.now) }
    {
        range::within(self.named.as_slice(), pattern)
    }

    pub(crate) fn least_touched(&self, patterns: &[Pattern]) -> Option<&Quad>
        ensures { option_copied result ≡ find (λ q. list_any (λ p. matches p q) patterns.now) (named_quads self.now) }
    {
        first_matched(self.named.as_slice(), patterns)
    }

    pub(crate) fn removals(&self, alloc: Global) -> Result<Quads, Memory>
        ensures { IfOk result (λ quads. quads ≡ removed_quads self.now) }
    {
        let found = removed_in(alloc, self.named.as_slice())?;
        Ok(found)
    }

    /// The quads of the content that the pattern matches. It looks at those alone whose leading parts
    /// are the ones that the pattern gives.
    pub(crate) fn matching(&self, alloc: Global, pattern: &Pattern) -> Result<Quads, Memory>
        ensures { IfOk result (λ quads. quads ≡ filter (matches pattern.now) (content self.now)) }
    {
        let near = range::within(self.named.as_slice(), pattern);
        let found = added_in(alloc, near, pattern)?;
        Ok(found)
    }
}
