//! Which lists of changes are the write of some request. No call takes memory.
ghost use Rattle.std.specs.Prelude.{◌≡◌, ◌∷◌, [], None, position};
ghost use Rattle.std.specs.List.{list_all, list_any};
ghost use Rattle.std.specs.Option.{option_copied};
ghost use Rattle.api_requests.specs.Tests.{added, are_apart, back_of, behind_first, current_after, fits, front_of, goes_on, is_addition, is_deletion, is_everything, is_free, is_graph, is_lone, is_named, is_other, is_placed, left_after, picked, picked_by, removes, removes_first, same_triple, selects, selects_more, stands_first, walks, writes_alone};

use crate::terms::{
    is_context, is_graph, is_object, is_pick, is_predicate, is_subject, is_writable, same_part,
};
use change_set::Change;
use rdf_term::{Graph, GraphPick, Pattern, Quad, Term};

fn is_addition(change: &Change) -> bool
    ensures { result ≡ is_addition change.now }
{
    match change {
        Change::Add(quad) => is_writable(quad),
        Change::Remove(_) => false,
        Change::RemoveMatching(_) => false,
    }
}

fn is_deletion(change: &Change) -> bool
    ensures { result ≡ is_deletion change.now }
{
    match change {
        Change::Add(_) => false,
        Change::Remove(quad) => is_writable(quad),
        Change::RemoveMatching(_) => false,
    }
}

/// Whether the changes add statements of a document.
pub fn are_additions(changes: &[Change]) -> bool
    ensures { result ≡ list_all is_addition changes.now }
{
    changes.iter().all(|change| is_addition(change))
}

/// Whether the changes remove statements of a document.
pub fn are_deletions(changes: &[Change]) -> bool
    ensures { result ≡ list_all is_deletion changes.now }
{
    changes.iter().all(|change| is_deletion(change))
}

/// Whether the change names a quad.
fn is_named(change: &Change) -> bool
    ensures { result ≡ is_named change.now }
{
    match change {
        Change::Add(_) => true,
        Change::Remove(_) => true,
        Change::RemoveMatching(_) => false,
    }
}

/// The place of the first change that names a quad.
fn first_named(changes: &[Change]) -> Option<usize>
    ensures { result ≡ position is_named changes.now }
{
    changes.iter().position(|change| is_named(change))
}

/// The changes by patterns at the front.
fn front_of(changes: &[Change]) -> &[Change]
    ensures { result.now ≡ front_of changes.now }
{
    match first_named(changes) {
        Some(end) => &changes[..end],
        None => changes,
    }
}

/// What stands behind the changes by patterns.
fn back_of(changes: &[Change]) -> &[Change]
    ensures { result.now ≡ back_of changes.now }
{
    match first_named(changes) {
        Some(start) => &changes[start..],
        None => &[],
    }
}

fn picked_by(pick: &GraphPick) -> Option<&Graph>
    ensures { option_copied result ≡ picked_by pick.now }
{
    match pick {
        GraphPick::Any => None,
        GraphPick::NamedOnly => None,
        GraphPick::One(graph) => Some(graph),
    }
}

/// The graph that a change picks.
fn picked(change: &Change) -> Option<&Graph>
    ensures { option_copied result ≡ picked change.now }
{
    match change {
        Change::Add(_) => None,
        Change::Remove(_) => None,
        Change::RemoveMatching(pattern) => picked_by(&pattern.c),
    }
}

/// Whether a change removes by the same parts in a context.
fn goes_on(first: &Pattern, change: &Change) -> bool
    ensures { result ≡ goes_on first.now change.now }
{
    match change {
        Change::Add(_) => false,
        Change::Remove(_) => false,
        Change::RemoveMatching(pattern) => {
            same_part(&first.s, &pattern.s)
                && (same_part(&first.p, &pattern.p)
                    && (same_part(&first.o, &pattern.o) && is_pick(picked_by(&pattern.c))))
        }
    }
}

fn go_on(first: &Pattern, changes: &[Change]) -> bool
    ensures { result ≡ list_all (goes_on first.now) changes.now }
{
    changes.iter().all(|change| goes_on(first, change))
}

fn is_among(graph: &Graph, changes: &[Change]) -> bool
    ensures { result ≡ list_any (λ change. is_graph graph.now (picked change)) changes.now }
{
    changes.iter().any(|change| is_graph(graph, picked(change)))
}

/// Whether a graph is picked that none of the changes picks.
fn is_other(graph: Option<&Graph>, changes: &[Change]) -> bool
    ensures { result ≡ is_other (option_copied graph.entry) changes.now }
{
    match graph {
        None => false,
        Some(graph) => !is_among(graph, changes),
    }
}

/// Whether each change picks another graph.
fn are_apart(changes: &[Change]) -> bool
    ensures { result ≡ are_apart changes.now }
{
    let mut left = changes;
    while let Some((change, rest)) = left.split_first() {
        if !is_other(picked(change), rest) {
            return false;
        }
        left = rest;
    }
    true
}

/// Whether the patterns behind the first one are those of a selection with it.
fn selects_more(first: &Pattern, front: &[Change], more: &[Change]) -> bool
    requires { front.now ≡ Change.RemoveMatching first.now ∷ more.now }
    ensures { result ≡ selects_more first.now first.now.c more.now }
{
    match &first.c {
        GraphPick::Any => more.is_empty(),
        GraphPick::NamedOnly => false,
        GraphPick::One(graph) => is_context(graph) && (go_on(first, more) && are_apart(front)),
    }
}

fn selects(first: &Pattern, front: &[Change], more: &[Change]) -> bool
    requires { front.now ≡ Change.RemoveMatching first.now ∷ more.now }
    ensures { result ≡ selects first.now more.now }
{
    is_subject(&first.s)
        && (is_predicate(&first.p) && (is_object(&first.o) && selects_more(first, front, more)))
}

fn is_free(part: &Option<Term>) -> bool
    ensures { result ≡ is_free part.now }
{
    match part {
        None => true,
        Some(_) => false,
    }
}

/// Whether the pattern leaves subject, predicate and object open.
fn is_everything(pattern: &Pattern) -> bool
    ensures { result ≡ is_everything pattern.now }
{
    is_free(&pattern.s) && (is_free(&pattern.p) && is_free(&pattern.o))
}

fn same_triple(current: Option<&Quad>, quad: &Quad) -> bool
    ensures { result ≡ same_triple (option_copied current.entry) quad.now }
{
    match current {
        None => false,
        Some(current) => {
            *current.s() == *quad.s() && (*current.p() == *quad.p() && *current.o() == *quad.o())
        }
    }
}

/// Whether the quad stands in the graph that the first change picks.
fn stands_first(changes: &[Change], quad: &Quad) -> bool
    ensures { result ≡ stands_first changes.now quad.now }
{
    match changes.first() {
        None => false,
        Some(change) => is_graph(quad.c(), picked(change)),
    }
}

/// Whether the quad is the next one of statements that stand in each of the graphs.
fn fits(front: &[Change], left: &[Change], current: Option<&Quad>, quad: &Quad) -> bool
    ensures { result ≡ fits front.now left.now (option_copied current.entry) quad.now }
{
    match left.first() {
        None => stands_first(front, quad),
        Some(change) => same_triple(current, quad) && is_graph(quad.c(), picked(change)),
    }
}

fn behind_first(changes: &[Change]) -> &[Change]
    ensures { result.now ≡ behind_first changes.now }
{
    match changes.split_first() {
        None => &[],
        Some((_, rest)) => rest,
    }
}

/// The graphs that are left for a statement.
fn left_after<'a>(front: &'a [Change], left: &'a [Change]) -> &'a [Change]
    ensures { result.now ≡ left_after front.now left.now }
{
    match left.split_first() {
        None => behind_first(front),
        Some((_, rest)) => rest,
    }
}

/// The first quad of a statement.
fn current_after<'a>(left: &[Change], current: Option<&'a Quad>, quad: &'a Quad) -> Option<&'a Quad>
    ensures { option_copied result ≡ current_after left.now (option_copied current.entry) quad.now }
{
    if left.is_empty() { Some(quad) } else { current }
}

/// The quad that a change adds.
fn added(change: &Change) -> Option<&Quad>
    ensures { option_copied result ≡ added change.now }
{
    match change {
        Change::Add(quad) => Some(quad),
        Change::Remove(_) => None,
        Change::RemoveMatching(_) => None,
    }
}

/// Whether the changes add statements, each in all of the graphs.
#[tactic(auto, using(crate::proofs::WalkLemmas::walk_goes, crate::proofs::WalkLemmas::walk_unwritable, crate::proofs::WalkLemmas::walk_unfit))]
fn walks(front: &[Change], changes: &[Change]) -> bool
    ensures { result ≡ walks front.now [] None changes.now }
{
    let mut left: &[Change] = &[];
    let mut current: Option<&Quad> = None;
    let mut rest = changes;
    while let Some((change, behind)) = rest.split_first() {
        let Some(quad) = added(change) else {
            return false;
        };
        if !is_writable(quad) {
            return false;
        }
        if !fits(front, left, current, quad) {
            return false;
        }
        current = current_after(left, current, quad);
        left = left_after(front, left);
        rest = behind;
    }
    left.is_empty()
}

fn is_placed(pick: &GraphPick, front: &[Change], back: &[Change]) -> bool
    ensures { result ≡ is_placed pick.now front.now back.now }
{
    match pick {
        GraphPick::Any => are_additions(back),
        GraphPick::NamedOnly => false,
        GraphPick::One(_) => walks(front, back),
    }
}

/// Whether the changes are a removal, or a replacement.
fn removes(first: &Pattern, more: &[Change], front: &[Change], back: &[Change]) -> bool
    requires { front.now ≡ Change.RemoveMatching first.now ∷ more.now }
    ensures { result ≡ removes first.now more.now front.now back.now }
{
    if back.is_empty() {
        return selects(first, front, more);
    }
    is_everything(first) && (selects(first, front, more) && is_placed(&first.c, front, back))
}

/// Whether changes, of which the first one is by a pattern, are a removal or a replacement.
fn removes_by(first: &Pattern, rest: &[Change], changes: &[Change]) -> bool
    requires { changes.now ≡ Change.RemoveMatching first.now ∷ rest.now }
    ensures { result ≡ removes_first first.now (front_of changes.now) (back_of changes.now) }
{
    let more = front_of(rest);
    let front = front_of(changes);
    let back = back_of(changes);
    removes(first, more, front, back)
}

/// Whether the changes are a write outside transactions.
pub fn writes_alone(changes: &[Change]) -> bool
    ensures { result ≡ writes_alone changes.now }
{
    let Some((first, rest)) = changes.split_first() else {
        return true;
    };
    match first {
        Change::Add(_) => are_additions(changes),
        Change::Remove(_) => false,
        Change::RemoveMatching(pattern) => removes_by(pattern, rest, changes),
    }
}
