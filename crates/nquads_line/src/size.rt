ghost use Rattle.std.specs.Prelude.{◌≡◌, ◌&&◌};
ghost use Rattle.nquads_line.specs.Grammar.{is_short_term, is_short_graph};

use rdf_term::{Graph, Quad, Term};

/// Whether no part of the term is too long.
pub fn is_short_term(term: &Term) -> bool
    ensures { result ≡ is_short_term term.now }
{
    match term {
        Term::Iri(text) => text.is_short(),
        Term::Blank(text) => text.is_short(),
        Term::Plain(text) => text.is_short(),
        Term::Tagged(text, more) => text.is_short() & more.is_short(),
        Term::Typed(text, more) => text.is_short() & more.is_short(),
    }
}

fn is_short_graph(graph: &Graph) -> bool
    ensures { result ≡ is_short_graph graph.now }
{
    match graph {
        Graph::Absent => true,
        Graph::Named(name) => is_short_term(name),
    }
}

/// Whether no part of the quad's terms is too long.
pub fn is_short_quad(quad: &Quad) -> bool
    ensures { result ≡ (is_short_term quad.now.s && is_short_term quad.now.p && is_short_term quad.now.o && is_short_graph quad.now.c) }
{
    is_short_term(quad.s())
        & is_short_term(quad.p())
        & is_short_term(quad.o())
        & is_short_graph(quad.c())
}
