//! The least quad of many deltas, and the first pattern that matches it.
ghost use Rattle.std.specs.Prelude.{◌≡◌, find};
ghost use Rattle.std.specs.Option.{option_copied};
ghost use Rattle.rdf_term.specs.Matching.{matches};
ghost use Rattle.rdf_term.specs.Order.{quad_cmp};
ghost use Rattle.conflict.specs.Clashes.{lesser, least_observed, quads_above};

use crate::logged::Logged;
use rdf_term::{Pattern, Quad};
use std::cmp::Ordering;

/// The lesser of two quads, or the one that is there.
fn lesser<'a>(first: Option<&'a Quad>, second: Option<&'a Quad>) -> Option<&'a Quad>
    ensures { option_copied result ≡ lesser quad_cmp (option_copied first.entry) (option_copied second.entry) }
{
    match (first, second) {
        (None, second) => second,
        (first, None) => first,
        (Some(one), Some(other)) => match other.cmp(one) {
            Ordering::Less => Some(other),
            Ordering::Equal => Some(one),
            Ordering::Greater => Some(one),
        },
    }
}

/// The least quad of the deltas above a place that one of the patterns matches. It looks a quad up in
/// each delta, which has its quads in order.
pub(crate) fn least_above<'a>(
    kept: &'a [Logged],
    from: u64,
    patterns: &[Pattern],
) -> Option<&'a Quad>
    ensures { option_copied result ≡ least_observed patterns.now (quads_above from kept.now) }
{
    let mut least = None;
    let mut left = kept;
    while let Some((logged, behind)) = left.split_first() {
        least = lesser(least, logged.least_above(from, patterns));
        left = behind;
    }
    least
}

/// The first pattern that matches the quad.
pub(crate) fn first_matching<'a>(patterns: &'a [Pattern], quad: &Quad) -> Option<&'a Pattern>
    ensures { option_copied result ≡ find (λ p. matches p quad.now) patterns.now }
{
    let mut left = patterns;
    while let Some((pattern, behind)) = left.split_first() {
        if pattern.matches(quad) {
            return Some(pattern);
        }
        left = behind;
    }
    None
}
