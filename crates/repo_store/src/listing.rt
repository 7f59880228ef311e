ghost use Rattle.std.specs.Prelude.{◌≡◌, Bool, IfOk, filter};
ghost use Rattle.std.specs.BTreeSet.{contains};
ghost use Rattle.std.specs.List.{list_any};
ghost use Rattle.std.specs.Ordering.{eq_by_cmp};
ghost use Rattle.rdf_term.specs.declared.graph.Graph.{Graph};
ghost use Rattle.rdf_term.specs.Order.{graph_cmp};
ghost use Rattle.journal.specs.Found.{anywhere, in_graphs, matching};
ghost use Rattle.repo_store.specs.Graphs.{graph_by_graph, in_each, is_in_one};

use branch::View;
use journal::Graphs;
use rdf_term::{Duplicate, Graph, GraphPick, Memory, Pattern, Quads, Scan, Term};
use std::alloc::Global;
use std::collections::BTreeSet;

/// So many graphs are looked up one by one. Each look-up is a search where an order of the index begins
/// with the graph or with a given part, and elsewhere a walk over numbers that copies what it finds.
/// More graphs are found by one scan, which copies what it finds in every graph: that costs more than
/// so many walks and less than a walk for each of thousands of graphs.
const FEW: usize = 16;

/// Whether the graphs are so few that they are looked up one by one.
pub(crate) fn are_few(graphs: &[Graph]) -> bool {
    graphs.len() <= FEW
}

/// The quads of these parts in the graphs that are picked.
fn pattern(
    alloc: Global,
    s: &Option<Term>,
    p: &Option<Term>,
    o: &Option<Term>,
    c: GraphPick,
) -> Result<Pattern, Memory>
    ensures { IfOk result (λ it. it ≡ record { s = s.now; p = p.now; o = o.now; c = c }) }
{
    Ok(Pattern {
        s: s.copy(alloc)?,
        p: p.copy(alloc)?,
        o: o.copy(alloc)?,
        c,
    })
}

/// What the pattern of these parts matches in each of the graphs, graph by graph.
fn one_by_one(
    alloc: Global,
    s: &Option<Term>,
    p: &Option<Term>,
    o: &Option<Term>,
    graphs: &[Graph],
    view: &View,
) -> Result<Quads, Memory>
    ensures { IfOk result (λ quads. quads ≡ graph_by_graph (anywhere s.now p.now o.now) graphs.now view.now.quads) }
{
    let mut found = Quads::new(alloc);
    for graph in graphs {
        let pick = GraphPick::One(graph.copy(alloc)?);
        let there = view.scan(alloc, &pattern(alloc, s, p, o, pick)?)?;
        found.append(there)?;
    }
    Ok(found)
}

/// These graphs as a set, which is searched by halves.
fn set_of(alloc: Global, graphs: &[Graph]) -> Result<BTreeSet<Graph>, Memory>
    ensures { IfOk result (λ set. (graph : Graph) → contains graph_cmp set graph ≡ list_any (λ one. eq_by_cmp graph_cmp one graph) graphs.now) }
{
    let mut set = BTreeSet::new(alloc);
    for graph in graphs {
        set.insert(graph.copy(alloc)?)?;
    }
    Ok(set)
}

/// Those of the quads that stand in one of the graphs.
fn kept(alloc: Global, quads: Quads, graphs: &[Graph]) -> Result<Quads, Memory>
    ensures { IfOk result (λ it. it ≡ filter (is_in_one graphs.now) quads) }
{
    let graphs = set_of(alloc, graphs)?;
    let mut kept = quads.into_vec();
    kept.retain(|quad| graphs.contains(quad.c()));
    Ok(Quads::from_vec(kept))
}

/// What the pattern of these parts matches in one of the graphs, by one scan of all graphs.
fn at_once(
    alloc: Global,
    s: &Option<Term>,
    p: &Option<Term>,
    o: &Option<Term>,
    graphs: &[Graph],
    view: &View,
) -> Result<Quads, Memory>
    ensures { IfOk result (λ quads. quads ≡ matching (in_each (anywhere s.now p.now o.now) graphs.now) view.now.quads) }
{
    let everywhere = view.scan(alloc, &pattern(alloc, s, p, o, GraphPick::Any)?)?;
    kept(alloc, everywhere, graphs)
}

/// The quads of a content with these parts in one of the graphs, or in whatever graph where none is
/// named.
pub(crate) fn listed(
    alloc: Global,
    s: &Option<Term>,
    p: &Option<Term>,
    o: &Option<Term>,
    contexts: &Graphs,
    view: &View,
) -> Result<Quads, Memory>
    ensures { IfOk result (λ quads. quads ≡ matching (in_graphs (anywhere s.now p.now o.now) contexts.now) view.now.quads) }
{
    // Its clause says that the quads ascend.
    let _ = view.layers();
    let graphs = contexts.as_slice();
    if graphs.is_empty() {
        let everywhere = view.scan(alloc, &pattern(alloc, s, p, o, GraphPick::Any)?)?;
        Ok(everywhere)
    } else if are_few(graphs) {
        let found = one_by_one(alloc, s, p, o, graphs, view)?;
        let set = found.into_set()?;
        Ok(set)
    } else {
        at_once(alloc, s, p, o, graphs, view)
    }
}
