ghost use Rattle.std.specs.Prelude.{◌≡◌, IfOk};
ghost use Rattle.std.specs.List.{flat_map};
ghost use Rattle.rdf_term.specs.Order.{term_cmp};
ghost use Rattle.rdf_term.specs.Sets.{sorted_set};
ghost use Rattle.rdf_term.specs.Statement.{Statement};
ghost use Rattle.query_model.specs.Solutions.{graph_terms};
ghost use Rattle.journal.specs.Found.{graph_names};

use branch::View;
use journal::Terms;
use rdf_term::{Duplicate, Graph, GraphPick, Memory, Pattern, Quad, Scan, Term};
use std::alloc::Global;
use std::collections::BTreeSet;

/// The names of the graphs in which the quads stand, as a set.
fn names_of(alloc: Global, quads: &[Quad]) -> Result<BTreeSet<Term>, Memory>
    ensures { IfOk result (λ set. set.keys ≡ sorted_set term_cmp (flat_map (λ (q : Statement). graph_terms q.c) quads.now)) }
{
    let mut names = BTreeSet::new(alloc);
    for quad in quads {
        match quad.c() {
            Graph::Named(name) => {
                names.insert(name.copy(alloc)?)?;
            }
            Graph::Absent => {}
        }
    }
    Ok(names)
}

fn in_turn(alloc: Global, set: BTreeSet<Term>) -> Result<Terms, Memory>
    ensures { IfOk result (λ terms. terms ≡ set.keys) }
{
    let mut terms = Terms::new(alloc);
    for term in set {
        terms.push(term)?;
    }
    Ok(terms)
}

/// The names of the graphs of a content, in order, each once.
pub(crate) fn graph_names(alloc: Global, view: &View) -> Result<Terms, Memory>
    ensures { IfOk result (λ names. names ≡ graph_names view.now.quads) }
{
    let named = Pattern {
        s: None,
        p: None,
        o: None,
        c: GraphPick::NamedOnly,
    };
    let quads = view.scan(alloc, &named)?;
    in_turn(alloc, names_of(alloc, quads.as_slice())?)
}
