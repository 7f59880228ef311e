ghost use Rattle.std.specs.Prelude.{◌≡◌, ◌↔◌, IsTrue, refl};
ghost use Rattle.std.specs.Ordering.{eq_by_cmp, as_partial_cmp};
ghost use Rattle.std.specs.Cmp.{partial_equiv_from_equiv, partial_order_from_total};
ghost use Rattle.std.proofs.lemmas.Cmp.{eq_by_cmp_equiv};
ghost use Rattle.rdf_term.specs.Terms.{IsGraph};
ghost use Rattle.rdf_term.specs.Order.{graph_cmp};
ghost use Rattle.rdf_term.specs.OrderLaws.{graph_total};
ghost use Rattle.rdf_term.specs.Validity.{IsValidGraph};

use crate::{Duplicate, Memory, Term};
use std::alloc::Global;
use std::cmp::Ordering;

/// The graph that a quad stands in (RDF 1.1 N-Quads): none, which is the default graph, or a named
/// one. The absent graph comes before every named one, and named ones are ordered by their names.
#[derive(Debug)]
pub enum Graph {
    Absent,
    Named(Term),
}

impl Graph {
    /// Whether no literal names the graph.
    pub fn is_graph(&self) -> bool
        ensures { IsTrue result ↔ IsGraph self.now }
    {
        match self {
            Graph::Absent => true,
            Graph::Named(name) => name.is_resource(),
        }
    }

    /// Whether a valid term names the graph, where it is a named one. It takes no memory.
    pub fn is_valid(&self) -> bool
        ensures { IsTrue result ↔ IsValidGraph self.now }
    {
        match self {
            Graph::Absent => true,
            Graph::Named(name) => name.is_valid(),
        }
    }

    /// The order of graphs.
    pub(crate) fn order(&self, other: &Graph) -> Ordering
        ensures { result ≡ graph_cmp self.now other.now }
    {
        match (self, other) {
            (Graph::Absent, Graph::Absent) => Ordering::Equal,
            (Graph::Absent, Graph::Named(_)) => Ordering::Less,
            (Graph::Named(_), Graph::Absent) => Ordering::Greater,
            (Graph::Named(name), Graph::Named(other)) => name.order(other),
        }
    }
}

// By hand: a derived drop is expanded wherever a graph is let go.
impl Drop for Graph {
    fn drop(self) {
        match self {
            Graph::Absent => {}
            Graph::Named(name) => drop(name),
        }
    }
}

impl Duplicate for Graph {
    fn copy(&self, alloc: Global) -> Result<Graph, Memory> {
        Ok(match self {
            Graph::Absent => Graph::Absent,
            Graph::Named(name) => Graph::Named(name.copy(alloc)?),
        })
    }
}

impl PartialEq for Graph {
    ghost eq = { eq_by_cmp graph_cmp };

    ghost laws = { partial_equiv_from_equiv (eq_by_cmp_equiv graph_total) };

    fn eq(&self, other: &Graph) -> bool
        ensures value { result ≡ eq_by_cmp graph_cmp self.now other.now }
        ensures same { IsTrue result ↔ (self.now ≡ other.now) }
    {
        self.order(other).is_eq()
    }
}

impl Eq for Graph {
    ghost laws = { eq_by_cmp_equiv graph_total };
}

impl PartialOrd for Graph {
    ghost partial_cmp = { as_partial_cmp graph_cmp };

    ghost laws = { partial_order_from_total graph_total };

    fn partial_cmp(&self, other: &Graph) -> Option<Ordering> {
        Some(self.order(other))
    }
}

impl Ord for Graph {
    ghost cmp = { graph_cmp };

    ghost total = { graph_total };

    ghost matches_partial_cmp = { λ x y. refl };

    ghost matches_eq = { λ x y. refl };

    fn cmp(&self, other: &Graph) -> Ordering {
        self.order(other)
    }
}
