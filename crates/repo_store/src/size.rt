ghost use Rattle.std.specs.Prelude.{◌≡◌, ◌^◌, ◌-◌, IfOk, length, min, None};
ghost use Rattle.rdf_term.specs.EachOnce.{EachOnce};
ghost use Rattle.journal.specs.Found.{anywhere, in_graphs, matching};
ghost use Rattle.repo_store.specs.Graphs.{in_each};

use crate::listing::{are_few, listed};
use branch::View;
use journal::Graphs;
use rdf_term::{Duplicate, Graph, GraphPick, Memory, Pattern};
use std::alloc::Global;

/// Every quad in the graphs that are picked.
fn every_quad(c: GraphPick) -> Pattern
    ensures { result ≡ record { s = None; p = None; o = None; c = c } }
{
    Pattern {
        s: None,
        p: None,
        o: None,
        c,
    }
}

/// The number of quads in these graphs, at most `u64::MAX`.
fn in_each(alloc: Global, graphs: &[Graph], view: &View) -> Result<u64, Memory>
    requires { EachOnce graphs.now }
    ensures { IfOk result (λ count. count ≡ min (length (matching (in_each (anywhere None None None) graphs.now) view.now.quads)) (2 ^ 64 - 1)) }
{
    let mut count: u64 = 0;
    for graph in graphs {
        let pattern = every_quad(GraphPick::One(graph.copy(alloc)?));
        count = count.saturating_add(view.count(&pattern));
    }
    Ok(count)
}

/// The number of quads in these graphs, or in whatever graph where none is named, at most `u64::MAX`.
fn counted(alloc: Global, contexts: &Graphs, view: &View) -> Result<u64, Memory>
    ensures { IfOk result (λ count. count ≡ min (length (matching (in_graphs (anywhere None None None) contexts.now) view.now.quads)) (2 ^ 64 - 1)) }
{
    let graphs = contexts.as_slice();
    if graphs.is_empty() {
        Ok(view.count(&every_quad(GraphPick::Any)))
    } else {
        in_each(alloc, graphs, view)
    }
}

/// The number of quads of a content in these graphs, or in whatever graph where none is named. Those of
/// few graphs are counted and not copied. A count that stands still at its end says nothing, so such
/// quads are listed: no memory holds them.
pub(crate) fn sized(alloc: Global, contexts: &Graphs, view: &View) -> Result<u64, Memory>
    ensures { IfOk result (λ count. count ≡ length (matching (in_graphs (anywhere None None None) contexts.now) view.now.quads)) }
{
    if are_few(contexts.as_slice()) {
        let count = counted(alloc, contexts, view)?;
        if count < u64::MAX {
            return Ok(count);
        }
    }
    let quads = listed(alloc, &None, &None, &None, contexts, view)?;
    Ok(quads.len() as u64)
}
