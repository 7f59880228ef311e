//! Which patterns match whatever another one matches, and where quads stand to a pattern's leading
//! parts.
ghost use Rattle.std.specs.Prelude.{◌≡◌};
ghost use Rattle.std.specs.List.{list_any};
ghost use Rattle.rdf_term.specs.Matching.{matches};
ghost use Rattle.change_set.specs.Cover.{covers, covers_part, covers_pick};
ghost use Rattle.change_set.specs.Places.{place, place_from_predicate, place_from_object, place_from_graph};

use rdf_term::{GraphPick, Pattern, Quad, Term};
use std::cmp::Ordering;

/// Whether one of the patterns matches the quad.
pub(crate) fn is_matched(patterns: &[Pattern], quad: &Quad) -> bool
    ensures { result ≡ list_any (λ p. matches p quad.now) patterns.now }
{
    patterns.iter().any(|pattern| pattern.matches(quad))
}

fn covers_part(part: &Option<Term>, other: &Option<Term>) -> bool
    ensures { result ≡ covers_part part.now other.now }
{
    match (part, other) {
        (None, _) => true,
        (Some(_), None) => false,
        (Some(term), Some(other)) => *term == *other,
    }
}

fn covers_pick(pick: &GraphPick, other: &GraphPick) -> bool
    ensures { result ≡ covers_pick pick.now other.now }
{
    match (pick, other) {
        (GraphPick::Any, _) => true,
        (GraphPick::NamedOnly, GraphPick::NamedOnly) => true,
        (GraphPick::One(graph), GraphPick::One(other)) => *graph == *other,
        _ => false,
    }
}

/// Whether each part that a pattern gives is given by another one, and the same there: so it matches
/// whatever the other matches.
fn covers(pattern: &Pattern, other: &Pattern) -> bool
    ensures { result ≡ covers pattern.now other.now }
{
    covers_part(&pattern.s, &other.s)
        && covers_part(&pattern.p, &other.p)
        && covers_part(&pattern.o, &other.o)
        && covers_pick(&pattern.c, &other.c)
}

/// Whether one of the patterns covers another one.
pub(crate) fn is_covered(patterns: &[Pattern], other: &Pattern) -> bool
    ensures { result ≡ list_any (λ p. covers p other.now) patterns.now }
{
    patterns.iter().any(|pattern| covers(pattern, other))
}

fn place_from_graph(pattern: &Pattern, quad: &Quad) -> Ordering
    ensures { result ≡ place_from_graph pattern.now.c quad.now }
{
    match &pattern.c {
        GraphPick::One(graph) => quad.c().cmp(graph),
        _ => Ordering::Equal,
    }
}

fn place_from_object(pattern: &Pattern, quad: &Quad) -> Ordering
    ensures { result ≡ place_from_object pattern.now quad.now }
{
    let Some(term) = &pattern.o else {
        return Ordering::Equal;
    };
    match quad.o().cmp(term) {
        Ordering::Equal => place_from_graph(pattern, quad),
        unlike => unlike,
    }
}

fn place_from_predicate(pattern: &Pattern, quad: &Quad) -> Ordering
    ensures { result ≡ place_from_predicate pattern.now quad.now }
{
    let Some(term) = &pattern.p else {
        return Ordering::Equal;
    };
    match quad.p().cmp(term) {
        Ordering::Equal => place_from_object(pattern, quad),
        unlike => unlike,
    }
}

/// Where a quad stands to those whose leading parts are the ones that the pattern gives: before them,
/// among them or behind them.
pub(crate) fn place(pattern: &Pattern, quad: &Quad) -> Ordering
    ensures { result ≡ place pattern.now quad.now }
{
    let Some(term) = &pattern.s else {
        return Ordering::Equal;
    };
    match quad.s().cmp(term) {
        Ordering::Equal => place_from_predicate(pattern, quad),
        unlike => unlike,
    }
}
