//! The changes that writes make, and the patterns that a selection has.
ghost use Rattle.std.specs.Prelude.{◌≡◌, ◌∷◌, [], ◌++◌, map, All, IfOk, OnOk};
ghost use Rattle.std.specs.List.{flat_map};
ghost use Rattle.rdf_term.specs.Terms.{IsGraph};
ghost use Rattle.rdf_term.specs.declared.pattern.GraphPick.TheVariants as picks;
ghost use Rattle.api_parts.specs.Selections.{picks_of, patterns_of};
ghost use Rattle.api_parts.specs.Writes.{in_graph, change_by, placed, additions, deletions, removals, everything_in, replacements};

use crate::{Graphs, Selection};
use change_set::{Change, Changes};
use rdf_term::{Duplicate, Graph, GraphPick, Memory, Pattern, Quad, Quads, Seq};
use std::alloc::Global;

/// Patterns, the first one at the front.
pub type SelectedPatterns = Seq<Pattern>;

/// The pattern of a selection in these graphs.
fn pattern_in(alloc: Global, selection: &Selection, pick: GraphPick) -> Result<Pattern, Memory>
    ensures { IfOk result (λ it. it ≡ record { s = selection.now.s; p = selection.now.p; o = selection.now.o; c = pick }) }
{
    Ok(Pattern {
        s: selection.s.copy(alloc)?,
        p: selection.p.copy(alloc)?,
        o: selection.o.copy(alloc)?,
        c: pick,
    })
}

/// The patterns of what a selection selects: one for each context, or one for every graph.
pub fn patterns_of(alloc: Global, selection: &Selection) -> Result<SelectedPatterns, Memory>
    ensures { IfOk result (λ it. it ≡ patterns_of selection.now) }
{
    let mut patterns = Seq::new(alloc);
    let contexts = selection.contexts.as_slice();
    if contexts.is_empty() {
        patterns.push(pattern_in(alloc, selection, GraphPick::Any)?)?;
        return Ok(patterns);
    }
    for graph in contexts {
        let pick = GraphPick::One(graph.copy(alloc)?);
        patterns.push(pattern_in(alloc, selection, pick)?)?;
    }
    Ok(patterns)
}

/// The changes that remove what a selection selects.
pub fn removals(alloc: Global, selection: &Selection) -> Result<Changes, Memory>
    ensures { IfOk result (λ it. it ≡ removals selection.now) }
{
    let patterns = patterns_of(alloc, selection)?;
    let mut changes = Changes::new(alloc);
    for pattern in patterns.into_vec() {
        changes.push(Change::RemoveMatching(pattern))?;
    }
    Ok(changes)
}

/// The quad with another graph.
fn in_graph(alloc: Global, quad: &Quad, graph: &Graph) -> Result<Quad, Memory>
    requires { IsGraph graph.now }
    ensures { IfOk result (λ it. it ≡ in_graph quad.now graph.now) }
{
    let (s, p) = (quad.s().copy(alloc)?, quad.p().copy(alloc)?);
    let (o, c) = (quad.o().copy(alloc)?, graph.copy(alloc)?);
    match Quad::new(s, p, o, c) {
        Ok(quad) => Ok(quad),
        Err(_) => unreachable!(),
    }
}

/// Whether statements are there after a write.
#[derive(Clone, Copy)]
pub(crate) enum Kept {
    /// They are added.
    Added,
    /// They are removed.
    Removed,
}

impl Kept {
    /// The change that does so with a quad.
    fn change(self, quad: Quad) -> Change
        ensures { result ≡ change_by self quad }
    {
        match self {
            Kept::Added => Change::Add(quad),
            Kept::Removed => Change::Remove(quad),
        }
    }
}

/// Adds to a list of changes that a statement is added in each of these graphs, or removed from them.
fn change_in(
    alloc: Global,
    changes: &mut Changes,
    kept: Kept,
    contexts: &[Graph],
    quad: &Quad,
) -> Result<(), Memory>
    requires { All IsGraph contexts.now }
    ensures { OnOk result (changes.new ≡ changes.old ++ map (change_by kept) (map (in_graph quad.now) contexts.now)) }
{
    for graph in contexts {
        changes.push(kept.change(in_graph(alloc, quad, graph)?))?;
    }
    Ok(())
}

/// The same in the statement's own graph, or in each context.
fn change_placed(
    alloc: Global,
    changes: &mut Changes,
    kept: Kept,
    contexts: &[Graph],
    quad: Quad,
) -> Result<(), Memory>
    requires { All IsGraph contexts.now }
    ensures { OnOk result (changes.new ≡ changes.old ++ map (change_by kept) (placed contexts.now quad)) }
{
    if contexts.is_empty() {
        return changes.push(kept.change(quad));
    }
    change_in(alloc, changes, kept, contexts, &quad)
}

/// The changes that add or remove statements in their order.
fn changes_of(alloc: Global, kept: Kept, contexts: &Graphs, quads: Quads) -> Result<Changes, Memory>
    requires { All IsGraph contexts.now }
    ensures { IfOk result (λ it. it ≡ map (change_by kept) (flat_map (placed contexts.now) quads)) }
{
    let mut changes = Changes::new(alloc);
    for quad in quads.into_vec() {
        change_placed(alloc, &mut changes, kept, contexts.as_slice(), quad)?;
    }
    Ok(changes)
}

/// The changes that add statements in their order, each in its own graph, or in each context.
pub fn additions(alloc: Global, contexts: &Graphs, quads: Quads) -> Result<Changes, Memory>
    requires { All IsGraph contexts.now }
    ensures { IfOk result (λ it. it ≡ additions contexts.now quads) }
{
    changes_of(alloc, Kept::Added, contexts, quads)
}

/// The changes that remove statements in their order, each from its own graph, or from each context.
pub fn deletions(alloc: Global, contexts: &Graphs, quads: Quads) -> Result<Changes, Memory>
    requires { All IsGraph contexts.now }
    ensures { IfOk result (λ it. it ≡ deletions contexts.now quads) }
{
    changes_of(alloc, Kept::Removed, contexts, quads)
}

/// The changes that remove everything in the contexts, or everything where there is none, and then
/// add statements.
pub fn replacements(alloc: Global, contexts: &Graphs, quads: Quads) -> Result<Changes, Memory>
    requires { All IsGraph contexts.now }
    ensures { IfOk result (λ it. it ≡ replacements contexts.now quads) }
{
    let everything = Selection {
        s: None,
        p: None,
        o: None,
        contexts: contexts.copy(alloc)?,
    };
    let mut changes = removals(alloc, &everything)?;
    changes.append(additions(alloc, contexts, quads)?)?;
    Ok(changes)
}
