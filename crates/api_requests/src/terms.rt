//! Which terms and forms a request can name. No call takes memory.
ghost use Rattle.std.specs.Prelude.{◌≡◌};
ghost use Rattle.std.specs.Option.{option_copied};
ghost use Rattle.api_requests.specs.Tests.{is_context, is_graph, is_iri, is_object, is_pick, is_plain, is_predicate, is_quad_form, is_resource, is_subject, is_table, is_truth, is_valid_resource, is_writable, same_part};

use media::Form;
use rdf_term::{Graph, Quad, Term};

fn is_resource(term: &Term) -> bool
    ensures { result ≡ is_resource term.now }
{
    match term {
        Term::Iri(_) => true,
        Term::Blank(_) => true,
        Term::Plain(_) => false,
        Term::Tagged(_, _) => false,
        Term::Typed(_, _) => false,
    }
}

fn is_iri(term: &Term) -> bool
    ensures { result ≡ is_iri term.now }
{
    match term {
        Term::Iri(_) => true,
        Term::Blank(_) => false,
        Term::Plain(_) => false,
        Term::Tagged(_, _) => false,
        Term::Typed(_, _) => false,
    }
}

fn is_valid_resource(term: &Term) -> bool
    ensures { result ≡ is_valid_resource term.now }
{
    term.is_valid() && is_resource(term)
}

/// Whether a context can name the graph.
pub fn is_context(graph: &Graph) -> bool
    ensures { result ≡ is_context graph.now }
{
    match graph {
        Graph::Absent => true,
        Graph::Named(name) => is_valid_resource(name),
    }
}

/// Whether a line of a document can hold the quad.
pub fn is_writable(quad: &Quad) -> bool
    ensures { result ≡ is_writable quad.now }
{
    is_valid_resource(quad.s())
        && (quad.p().is_valid()
            && (is_iri(quad.p()) && (quad.o().is_valid() && is_context(quad.c()))))
}

pub fn is_subject(part: &Option<Term>) -> bool
    ensures { result ≡ is_subject part.now }
{
    match part {
        None => true,
        Some(term) => is_valid_resource(term),
    }
}

pub fn is_predicate(part: &Option<Term>) -> bool
    ensures { result ≡ is_predicate part.now }
{
    match part {
        None => true,
        Some(term) => term.is_valid() && is_iri(term),
    }
}

pub fn is_object(part: &Option<Term>) -> bool
    ensures { result ≡ is_object part.now }
{
    match part {
        None => true,
        Some(term) => term.is_valid(),
    }
}

/// Whether two parts of patterns are the same.
pub fn same_part(part: &Option<Term>, other: &Option<Term>) -> bool
    ensures { result ≡ same_part part.now other.now }
{
    match (part, other) {
        (None, None) => true,
        (Some(term), Some(other)) => *term == *other,
        _ => false,
    }
}

/// Whether a graph is the one that is picked.
pub fn is_graph(graph: &Graph, picked: Option<&Graph>) -> bool
    ensures { result ≡ is_graph graph.now (option_copied picked.entry) }
{
    match picked {
        None => false,
        Some(other) => *graph == *other,
    }
}

/// Whether a context is picked.
pub fn is_pick(picked: Option<&Graph>) -> bool
    ensures { result ≡ is_pick (option_copied picked.entry) }
{
    match picked {
        None => false,
        Some(graph) => is_context(graph),
    }
}

/// Whether tables are offered in the form.
pub fn is_table(form: Form) -> bool
    ensures { result ≡ is_table form }
{
    match form {
        Form::ResultsJson | Form::Json => true,
        Form::NQuads | Form::XNQuads | Form::NTriples | Form::PlainTriples => false,
        Form::Boolean | Form::PlainText => false,
    }
}

/// Whether truth values are offered in the form.
pub fn is_truth(form: Form) -> bool
    ensures { result ≡ is_truth form }
{
    match form {
        Form::ResultsJson | Form::Json | Form::Boolean => true,
        Form::NQuads | Form::XNQuads | Form::NTriples | Form::PlainTriples => false,
        Form::PlainText => false,
    }
}

/// Whether quads are offered in the form.
pub fn is_quad_form(form: Form) -> bool
    ensures { result ≡ is_quad_form form }
{
    match form {
        Form::NQuads | Form::XNQuads | Form::NTriples | Form::PlainTriples => true,
        Form::ResultsJson | Form::Json | Form::Boolean | Form::PlainText => false,
    }
}

/// Whether the form is that of what has no form of its own.
pub fn is_plain(form: Form) -> bool
    ensures { result ≡ is_plain form }
{
    match form {
        Form::PlainText => true,
        Form::NQuads | Form::XNQuads | Form::NTriples | Form::PlainTriples => false,
        Form::ResultsJson | Form::Json | Form::Boolean => false,
    }
}
