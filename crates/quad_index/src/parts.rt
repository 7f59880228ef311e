ghost use Rattle.std.specs.Prelude.{◌≡◌, Bool};
ghost use Rattle.std.specs.Option.{option_copied};
ghost use Rattle.rdf_term.specs.Matching.{matches, fits, picks_graph};
ghost use Rattle.rdf_term.specs.Statement.{Statement};
ghost use Rattle.quad_index.specs.Lent.{graph_of, quad_of};

use rdf_term::{Graph, GraphPick, Pattern, Quad, Term};

/// The parts of a quad, lent: its subject, predicate and object, and the name of its graph, where it
/// has one.
#[derive(Clone, Copy)]
pub struct Parts<'a> {
    pub s: &'a Term,
    pub p: &'a Term,
    pub o: &'a Term,
    pub name: Option<&'a Term>,
}

/// A test of quads by their parts.
pub trait Test {
    /// Whether a quad passes.
    ghost passes: { Self → Statement → Bool };

    /// Whether the quad with these parts passes.
    fn passes(&self, parts: &Parts) -> bool
        ensures { result ≡ passes self.now (quad_of parts.now) };
}

/// Whether a part of a pattern picks a term.
fn fits(part: &Option<Term>, term: &Term) -> bool
    ensures { result ≡ fits part.now term.now }
{
    match part {
        None => true,
        Some(asked) => *asked == *term,
    }
}

/// Whether a pattern picks the graph of this name, or the absent one.
fn picks(pick: &GraphPick, name: Option<&Term>) -> bool
    ensures { result ≡ picks_graph pick.now (graph_of (option_copied name.entry)) }
{
    match (pick, name) {
        (GraphPick::Any, _) => true,
        (GraphPick::NamedOnly, Some(_)) => true,
        (GraphPick::One(Graph::Absent), None) => true,
        (GraphPick::One(Graph::Named(asked)), Some(name)) => *asked == *name,
        _ => false,
    }
}

impl<'a> Parts<'a> {
    /// The parts of a quad.
    pub fn of(quad: &'a Quad) -> Parts<'a>
        ensures { quad_of result ≡ quad.now }
    {
        let name = match quad.c() {
            Graph::Absent => None,
            Graph::Named(name) => Some(name),
        };
        Parts {
            s: quad.s(),
            p: quad.p(),
            o: quad.o(),
            name,
        }
    }

    /// Whether the pattern matches the quad.
    pub fn are_matched(&self, pattern: &Pattern) -> bool
        ensures { result ≡ matches pattern.now (quad_of self.now) }
    {
        fits(&pattern.s, self.s)
            && fits(&pattern.p, self.p)
            && fits(&pattern.o, self.o)
            && picks(&pattern.c, self.name)
    }
}
