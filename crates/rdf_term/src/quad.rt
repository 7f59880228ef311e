ghost use Rattle.std.specs.Prelude.{◌≡◌, ◌↔◌, IsTrue, IfOk, IsErrOf, refl};
ghost use Rattle.std.specs.Ordering.{eq_by_cmp, as_partial_cmp};
ghost use Rattle.std.specs.Cmp.{partial_equiv_from_equiv, partial_order_from_total};
ghost use Rattle.std.proofs.lemmas.Cmp.{eq_by_cmp_equiv};
ghost use Rattle.rdf_term.specs.Terms.{IsResource, IsIri, IsGraph};
ghost use Rattle.rdf_term.specs.Statement.{IsStatement};
ghost use Rattle.rdf_term.specs.Order.{quad_cmp};
ghost use Rattle.rdf_term.specs.OrderLaws.{quad_total};
ghost use Rattle.rdf_term.specs.Validity.{IsValidQuad};

use crate::{Duplicate, Graph, Memory, Term};
use std::alloc::Global;
use std::cmp::Ordering;
use std::marker::Model;
use thiserror::Error;

/// Why four parts are no quad. The first cause in this order is the one that is answered.
#[derive(Clone, Copy, Debug, PartialEq, Eq, Error)]
pub enum TermFault {
    /// The subject is a literal.
    #[error("the subject is a literal")]
    Subject,
    /// The predicate is no IRI.
    #[error("the predicate is no IRI")]
    Predicate,
    /// The graph is named by a literal.
    #[error("the graph is named by a literal")]
    GraphName,
}

/// An RDF 1.1 triple in its graph. The subject is an IRI or a blank node, the predicate an IRI, and
/// a graph is named by an IRI or a blank node.
///
/// Quads are ordered by subject, predicate, object, graph.
#[derive(Debug)]
pub struct Quad {
    s: Term,
    p: Term,
    o: Term,
    c: Graph,
}

impl Model for Quad {
    ghost use Rattle.rdf_term.specs.Statement.{Statement, IsStatement};

    ghost Value = { Statement };

    ghost view = { λ q. record { s = q.s; p = q.p; o = q.o; c = q.c } };

    ghost invariant = { λ q. IsStatement q.s q.p q.c };
}

impl Quad {
    /// The quad of these parts, or the first cause why they are none.
    pub fn new(s: Term, p: Term, o: Term, c: Graph) -> Result<Quad, TermFault>
        ensures ok { IfOk result (λ q. (q ≡ record { s = s; p = p; o = o; c = c }) × IsStatement s p c) }
        ensures subject { IsErrOf result TermFault.Subject ↔ (¬ (IsResource s)) }
        ensures predicate { IsErrOf result TermFault.Predicate ↔ (IsResource s × (¬ (IsIri p))) }
        ensures graph { IsErrOf result TermFault.GraphName ↔ (IsResource s × IsIri p × (¬ (IsGraph c))) }
    {
        if !s.is_resource() {
            return Err(TermFault::Subject);
        }
        if !p.is_iri() {
            return Err(TermFault::Predicate);
        }
        if !c.is_graph() {
            return Err(TermFault::GraphName);
        }
        Ok(Quad { s, p, o, c })
    }

    /// The subject.
    pub fn s(&self) -> &Term
        ensures value { result.now ≡ self.now.s }
        ensures subject { IsResource result.now }
    {
        &self.s
    }

    /// The predicate.
    pub fn p(&self) -> &Term
        ensures value { result.now ≡ self.now.p }
        ensures predicate { IsIri result.now }
    {
        &self.p
    }

    /// The object.
    pub fn o(&self) -> &Term
        ensures { result.now ≡ self.now.o }
    {
        &self.o
    }

    /// The graph.
    pub fn c(&self) -> &Graph
        ensures value { result.now ≡ self.now.c }
        ensures graph { IsGraph result.now }
    {
        &self.c
    }

    /// Whether all terms of the quad are valid. It takes no memory.
    pub fn is_valid(&self) -> bool
        ensures { IsTrue result ↔ IsValidQuad self.now }
    {
        self.s.is_valid() && self.p.is_valid() && self.o.is_valid() && self.c.is_valid()
    }

    /// The order of quads. Parts behind the first that differs are not looked at.
    fn order(&self, other: &Quad) -> Ordering
        ensures { result ≡ quad_cmp self.now other.now }
    {
        self.s
            .order(&other.s)
            .then_with(|| self.p.order(&other.p))
            .then_with(|| self.o.order(&other.o))
            .then_with(|| self.c.order(&other.c))
    }
}

// By hand: a derived drop is expanded wherever a quad is let go.
impl Drop for Quad {
    fn drop(self) {
        let Quad { s, p, o, c } = self;
        drop(s);
        drop(p);
        drop(o);
        drop(c);
    }
}

impl Duplicate for Quad {
    fn copy(&self, alloc: Global) -> Result<Quad, Memory> {
        Ok(Quad {
            s: self.s.copy(alloc)?,
            p: self.p.copy(alloc)?,
            o: self.o.copy(alloc)?,
            c: self.c.copy(alloc)?,
        })
    }
}

impl PartialEq for Quad {
    ghost eq = { eq_by_cmp quad_cmp };

    ghost laws = { partial_equiv_from_equiv (eq_by_cmp_equiv quad_total) };

    fn eq(&self, other: &Quad) -> bool
        ensures value { result ≡ eq_by_cmp quad_cmp self.now other.now }
        ensures same { IsTrue result ↔ (self.now ≡ other.now) }
    {
        self.order(other).is_eq()
    }
}

impl Eq for Quad {
    ghost laws = { eq_by_cmp_equiv quad_total };
}

impl PartialOrd for Quad {
    ghost partial_cmp = { as_partial_cmp quad_cmp };

    ghost laws = { partial_order_from_total quad_total };

    fn partial_cmp(&self, other: &Quad) -> Option<Ordering> {
        Some(self.order(other))
    }
}

impl Ord for Quad {
    ghost cmp = { quad_cmp };

    ghost total = { quad_total };

    ghost matches_partial_cmp = { λ x y. refl };

    ghost matches_eq = { λ x y. refl };

    fn cmp(&self, other: &Quad) -> Ordering {
        self.order(other)
    }
}
