//! How many quads match a pattern in a set above a base, without memory.
//!
//! A quad that no layer names is in the set exactly where it is in the base and no removed pattern
//! matches it. So those of the base that no removed pattern matches are counted by halves and where
//! the patterns overlap, and the named quads are looked at one by one.
ghost use Rattle.std.specs.Prelude.{◌≡◌, ◌↔◌, ◌^◌, ◌-◌, ◌&&◌, ◌||◌, [], not, length, filter, map, min, IsTrue};
ghost use Rattle.std.specs.Arc.{arc_value};
ghost use Rattle.std.specs.List.{count_by};
ghost use Rattle.std.specs.List.Sorted.{IsStrictlySortedBy};
ghost use Rattle.rdf_term.specs.Matching.{matches};
ghost use Rattle.rdf_term.specs.Order.{quad_cmp};
ghost use Rattle.quad_index.specs.Contents.{is_in};
ghost use Rattle.quad_index.specs.Lent.{quad_of};
ghost use Rattle.change_set.specs.Content.{named_quads};
ghost use Rattle.branch.specs.Layers.{layered};
ghost use Rattle.branch.specs.Counts.{is_matched, is_matched_in, is_named_in, counted_of, counted_quads, is_counted_anew};
ghost use Rattle.branch.specs.declared.counts.Counted.TheVariants.{Spared};

use crate::branch::everything;
use crate::layers;
use change_set::{ChangeSet, Marked};
use quad_index::{Index, Parts, Test};
use rdf_term::{Pattern, Quad};
use std::sync::Arc;

/// Whether one of the patterns matches a quad.
fn are_matched(patterns: &[Pattern], parts: &Parts) -> bool
    ensures { result ≡ is_matched patterns.now (quad_of parts.now) }
{
    patterns.iter().any(|pattern| parts.are_matched(pattern))
}

/// Whether a pattern that one of the layers removes matches a quad.
fn are_matched_in(layers: &[Arc<ChangeSet>], parts: &Parts) -> bool
    ensures { result ≡ is_matched_in (map arc_value layers.now) (quad_of parts.now) }
{
    match layers.split_last() {
        Some((layer, below)) => {
            are_matched(layer.patterns(), parts) || are_matched_in(below, parts)
        }
        None => false,
    }
}

/// Whether one of the layers names a quad.
fn is_named_in(layers: &[Arc<ChangeSet>], quad: &Quad) -> bool
    ensures { result ≡ is_named_in (map arc_value layers.now) quad.now }
{
    match layers.split_last() {
        Some((layer, below)) => layer.names(quad) || is_named_in(below, quad),
        None => false,
    }
}

/// The test that none of the patterns matches, and none that one of the layers removes.
#[derive(Clone, Copy)]
struct Unmatched<'a> {
    layers: &'a [Arc<ChangeSet>],
    patterns: &'a [Pattern],
}

impl<'a> Test for Unmatched<'a> {
    ghost passes = { λ it q. not (is_matched it.patterns.now q || is_matched_in (map arc_value it.layers.now) q) };

    fn passes(&self, parts: &Parts) -> bool {
        !(are_matched(self.patterns, parts) || are_matched_in(self.layers, parts))
    }
}

/// How many quads of the base a pattern matches and one of the removed patterns, and none that a layer
/// below removes.
fn count_matched(
    base: &Index,
    pattern: &Pattern,
    below: &[Arc<ChangeSet>],
    removed: &[Pattern],
) -> u64
    ensures { result ≡ count_by (λ q. matches pattern.now q && (is_matched removed.now q && not (is_matched_in (map arc_value below.now) q))) base.now.quads }
{
    let _quads = base.len();
    match removed.split_last() {
        Some((last, before)) => {
            let test = Unmatched {
                layers: below,
                patterns: before,
            };
            base.count_both(pattern, last, &test) + count_matched(base, pattern, below, before)
        }
        None => 0,
    }
}

/// How many quads of the base a pattern matches and a pattern that one of the layers removes.
fn count_matched_in(base: &Index, pattern: &Pattern, layers: &[Arc<ChangeSet>]) -> u64
    ensures { result ≡ count_by (λ q. matches pattern.now q && is_matched_in (map arc_value layers.now) q) base.now.quads }
{
    let _quads = base.len();
    match layers.split_last() {
        Some((layer, below)) => {
            count_matched(base, pattern, below, layer.patterns())
                + count_matched_in(base, pattern, below)
        }
        None => 0,
    }
}

/// How many quads of the base a pattern matches, and no pattern that one of the layers removes.
fn count_spared(base: &Index, pattern: &Pattern, layers: &[Arc<ChangeSet>]) -> u64
    ensures { result ≡ length (filter (matches pattern.now) (counted_of Spared base.now.quads (map arc_value layers.now))) }
{
    base.count(pattern) - count_matched_in(base, pattern, layers)
}

/// In which set named quads are counted.
#[derive(Clone, Copy)]
pub(crate) enum Counted {
    /// The quads of the base that no removed pattern matches.
    Spared,
    /// The set above all layers.
    Content,
}

/// What named quads are counted of: a set, and the pattern that is to match them.
#[derive(Clone, Copy)]
pub(crate) struct Scope<'a> {
    pub(crate) counted: Counted,
    pub(crate) base: &'a Index,
    pub(crate) layers: &'a [Arc<ChangeSet>],
    pub(crate) pattern: &'a Pattern,
}

impl<'a> Scope<'a> {
    /// Whether a quad is in the set.
    fn has(&self, quad: &Quad) -> bool
        ensures { result ≡ is_in quad.now (counted_quads self.now) }
    {
        match self.counted {
            Counted::Spared => {
                self.base.has(quad) && !are_matched_in(self.layers, &Parts::of(quad))
            }
            Counted::Content => layers::holds(self.base, self.layers, quad),
        }
    }

    /// Whether a quad is counted that is named above these layers, where none of them names it.
    fn has_anew(&self, below: &[Arc<ChangeSet>], quad: &Quad) -> bool
        ensures { result ≡ is_counted_anew self.now (map arc_value below.now) quad.now }
    {
        self.pattern.matches(quad) && self.has(quad) && !is_named_in(below, quad)
    }

    /// How many of these quads are counted that none of the layers below names.
    fn near(&self, below: &[Arc<ChangeSet>], named: &[Marked]) -> usize
        ensures { result ≡ count_by (λ entry. is_counted_anew self.now (map arc_value below.now) entry.0) named.now }
    {
        named
            .iter()
            .filter(|entry| self.has_anew(below, entry.quad()))
            .count()
    }

    /// How many of the quads are counted that the layer names and none below it.
    fn named_by(&self, below: &[Arc<ChangeSet>], layer: &ChangeSet) -> usize
        requires { IsStrictlySortedBy quad_cmp (counted_quads self.now) }
        ensures { result ≡ count_by (λ q. matches self.now.pattern.now q && (is_in q (named_quads layer.now) && not (is_named_in (map arc_value below.now) q))) (counted_quads self.now) }
    {
        self.near(below, layer.named_near(self.pattern))
    }

    /// How many of the quads are counted that one of these layers names.
    fn named_in(&self, layers: &[Arc<ChangeSet>]) -> u64
        requires { IsStrictlySortedBy quad_cmp (counted_quads self.now) }
        ensures { result ≡ min (count_by (λ q. matches self.now.pattern.now q && is_named_in (map arc_value layers.now) q) (counted_quads self.now)) (2 ^ 64 - 1) }
    {
        match layers.split_last() {
            Some((layer, below)) => {
                (self.named_by(below, layer) as u64).saturating_add(self.named_in(below))
            }
            None => 0,
        }
    }
}

/// How many quads a pattern matches in the set above a base, at most `u64::MAX`.
pub(crate) fn count(base: &Index, layers: &[Arc<ChangeSet>], pattern: &Pattern) -> u64
    ensures { result ≡ min (length (filter (matches pattern.now) (layered base.now.quads (map arc_value layers.now)))) (2 ^ 64 - 1) }
{
    let _quads = base.len();
    let before = Scope {
        counted: Counted::Spared,
        base,
        layers,
        pattern,
    };
    let after = Scope {
        counted: Counted::Content,
        base,
        layers,
        pattern,
    };
    let spared = count_spared(base, pattern, layers);
    (spared - before.named_in(layers)).saturating_add(after.named_in(layers))
}

/// Whether the set above a base has no quad.
pub(crate) fn is_empty(base: &Index, layers: &[Arc<ChangeSet>]) -> bool
    ensures { IsTrue result ↔ (layered base.now.quads (map arc_value layers.now) ≡ []) }
{
    count(base, layers, &everything()) == 0
}
