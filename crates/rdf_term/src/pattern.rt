ghost use Rattle.std.specs.Prelude.{◌≡◌, ◌↔◌, IsTrue, IfSome};
ghost use Rattle.rdf_term.specs.Matching.{Matches, Picks, matches, fits, picks_graph};

use crate::{Duplicate, Graph, Memory, Quad, Term};
use std::alloc::Global;

/// Which graphs a pattern picks.
#[derive(Debug)]
pub enum GraphPick {
    /// Every graph, the absent one too.
    Any,
    /// Every named graph.
    NamedOnly,
    /// This graph.
    One(Graph),
}

/// A pattern of quads. A part that is not given picks every term.
#[derive(Debug)]
pub struct Pattern {
    pub s: Option<Term>,
    pub p: Option<Term>,
    pub o: Option<Term>,
    pub c: GraphPick,
}

// By hand, both of them: a derived drop is expanded wherever a pattern is let go.
impl Drop for GraphPick {
    fn drop(self) {
        match self {
            GraphPick::Any => {}
            GraphPick::NamedOnly => {}
            GraphPick::One(graph) => drop(graph),
        }
    }
}

impl Drop for Pattern {
    fn drop(self) {
        let Pattern { s, p, o, c } = self;
        drop(s);
        drop(p);
        drop(o);
        drop(c);
    }
}

impl GraphPick {
    fn picks(&self, graph: &Graph) -> bool
        ensures value { result ≡ picks_graph self.now graph.now }
        ensures fact { IsTrue result ↔ Picks self.now graph.now }
    {
        match self {
            GraphPick::Any => true,
            GraphPick::NamedOnly => matches!(graph, Graph::Named(_)),
            GraphPick::One(one) => *one == *graph,
        }
    }
}

/// Whether a part is the one that is asked for, where one is.
fn has(part: &Option<Term>, term: &Term) -> bool
    ensures value { result ≡ fits part.now term.now }
    ensures fact { IsTrue result ↔ IfSome part.now (λ t. t ≡ term.now) }
{
    match part {
        None => true,
        Some(asked) => *asked == *term,
    }
}

impl Pattern {
    /// Whether the quad has each part that the pattern gives.
    pub fn matches(&self, quad: &Quad) -> bool
        ensures value { result ≡ matches self.now quad.now }
        ensures parts { IsTrue result ↔ Matches self.now quad.now }
    {
        has(&self.s, quad.s())
            && has(&self.p, quad.p())
            && has(&self.o, quad.o())
            && self.c.picks(quad.c())
    }
}

impl Duplicate for GraphPick {
    fn copy(&self, alloc: Global) -> Result<GraphPick, Memory> {
        Ok(match self {
            GraphPick::Any => GraphPick::Any,
            GraphPick::NamedOnly => GraphPick::NamedOnly,
            GraphPick::One(graph) => GraphPick::One(graph.copy(alloc)?),
        })
    }
}

impl Duplicate for Pattern {
    fn copy(&self, alloc: Global) -> Result<Pattern, Memory> {
        Ok(Pattern {
            s: self.s.copy(alloc)?,
            p: self.p.copy(alloc)?,
            o: self.o.copy(alloc)?,
            c: self.c.copy(alloc)?,
        })
    }
}
