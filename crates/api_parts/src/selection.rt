ghost use Rattle.std.specs.Prelude.{◌≡◌, ◌↔◌, IsTrue, IfOk, IfErr, IfSome, IfNone, OnOk, Contains, All};
ghost use Rattle.std.specs.List.{list_any};
ghost use Rattle.std.specs.Ordering.{eq_by_cmp};
ghost use Rattle.rdf_term.specs.Order.{graph_cmp};
ghost use Rattle.rdf_term.specs.Terms.{IsGraph};
ghost use Rattle.nquads_line.specs.Grammar.{IsTerm, IsShortTerm};
ghost use Rattle.api_parts.specs.Parameters.{parameters, values_of};
ghost use Rattle.api_parts.specs.Selections.{name_of, IsOfKind, IsTermValue, IsPart, IsBadPart, IsContext, AreContexts, IsContexts, IsSelection, IsFirstBad, IsBad, IsBadContexts, with_graph, each_once};
ghost use Rattle.api_parts.specs.Faults.{OnBad};
ghost use Rattle.api_parts.specs.declared.selection.Parameter.TheVariants.{Context};
ghost use Rattle.api_parts.specs.declared.selection.ParameterFault.TheVariants as faults;

use crate::target::{Octets, Parameters, values_of};
use nquads_line::{TermTextFault, read_term};
use rdf_term::{Distinct, Graph, Memory, Seq, Term};
use std::alloc::Global;

/// Distinct graphs. An empty list means every graph.
pub type Graphs = Distinct<Graph>;

/// What a request selects: the quads with the parts that are given, in one of the graphs.
#[derive(Debug, Drop)]
pub struct Selection {
    pub s: Option<Term>,
    pub p: Option<Term>,
    pub o: Option<Term>,
    pub contexts: Graphs,
}

/// A parameter of a request, in the order in which they are looked at.
#[derive(Clone, Copy, Debug, PartialEq, Eq)]
pub enum Parameter {
    /// `subj`: an IRI or a blank node, at most once.
    Subject,
    /// `pred`: an IRI, at most once.
    Predicate,
    /// `obj`: a term, at most once.
    Object,
    /// `context`: an IRI, a blank node, or `null` for the absent graph.
    Context,
}

/// Why parameters are refused.
#[derive(Clone, Copy, Debug)]
pub enum ParameterFault {
    /// This is the first bad one.
    Bad(Parameter),
    /// No memory was found.
    Memory,
}

impl From<Memory> for ParameterFault {
    ghost from_gives = { λ _ fault. fault ≡ faults.Memory };

    fn from(_e: Memory) -> ParameterFault {
        ParameterFault::Memory
    }
}

/// The terms that a parameter takes.
#[derive(Clone, Copy, Debug)]
pub(crate) enum TermKind {
    /// An IRI or a blank node.
    Resource,
    /// An IRI.
    Iri,
    /// Any term.
    Any,
}

impl Parameter {
    /// Its name.
    pub fn name(self) -> &'static str
        ensures { result.now ≡ name_of self }
    {
        match self {
            Parameter::Subject => "subj",
            Parameter::Predicate => "pred",
            Parameter::Object => "obj",
            Parameter::Context => "context",
        }
    }
}

/// Whether a term is one that a parameter takes.
fn is_of_kind(kind: TermKind, term: &Term) -> bool
    ensures { IsTrue result ↔ IsOfKind kind term.now }
{
    match kind {
        TermKind::Resource => term.is_resource(),
        TermKind::Iri => term.is_iri(),
        TermKind::Any => true,
    }
}

/// The term that a value is the text of, where it is one none of whose parts is too long.
fn short_term(alloc: Global, value: &[u8]) -> Result<Option<Term>, Memory>
    ensures some { IfOk result (λ it. IfSome it (λ t. IsTerm value.now t × IsShortTerm t)) }
    ensures none { IfOk result (λ it. IfNone it ((t : _) → IsTerm value.now t → IsShortTerm t → ⊥)) }
{
    match read_term(alloc, value) {
        Ok(term) => Ok(Some(term)),
        Err(TermTextFault::BadTerm) => Ok(None),
        Err(TermTextFault::TooLong) => Ok(None),
        Err(TermTextFault::Memory) => Err(Memory),
    }
}

/// The term of this kind that a value is the text of, where it is one.
fn term_value(alloc: Global, kind: TermKind, value: &[u8]) -> Result<Option<Term>, Memory>
    ensures some { IfOk result (λ it. IfSome it (λ t. IsTermValue kind value.now t)) }
    ensures none { IfOk result (λ it. IfNone it ((t : _) → IsTermValue kind value.now t → ⊥)) }
{
    match short_term(alloc, value)? {
        Some(term) => if is_of_kind(kind, &term) {
            Ok(Some(term))
        } else {
            Ok(None)
        },
        None => Ok(None),
    }
}

/// The term of a parameter that stands at most once.
fn part(
    alloc: Global,
    parameters: &[(Octets, Octets)],
    parameter: Parameter,
    kind: TermKind,
) -> Result<Option<Term>, ParameterFault>
    ensures ok { IfOk result (λ it. IsPart kind (values_of (name_of parameter) parameters.now) it) }
    ensures bad { IfErr result (λ fault. OnBad fault (λ it. (it ≡ parameter) × IsBadPart kind (values_of (name_of parameter) parameters.now))) }
{
    let values = values_of(alloc, parameters, parameter.name().as_bytes())?;
    match values.as_slice() {
        [] => Ok(None),
        [value] => match term_value(alloc, kind, value.as_slice())? {
            Some(term) => Ok(Some(term)),
            None => Err(ParameterFault::Bad(parameter)),
        },
        _ => Err(ParameterFault::Bad(parameter)),
    }
}

/// The graph that a context names, where it names one.
fn context(alloc: Global, value: &[u8]) -> Result<Option<Graph>, Memory>
    ensures some { IfOk result (λ it. IfSome it (λ g. IsContext value.now g)) }
    ensures none { IfOk result (λ it. IfNone it ((g : _) → IsContext value.now g → ⊥)) }
{
    if value == b"null".as_slice() {
        return Ok(Some(Graph::Absent));
    }
    match term_value(alloc, TermKind::Resource, value)? {
        Some(term) => Ok(Some(Graph::Named(term))),
        None => Ok(None),
    }
}

/// Whether a graph is among these.
fn is_among(graphs: &[Graph], graph: &Graph) -> bool
    ensures value { result ≡ list_any (eq_by_cmp graph_cmp graph.now) graphs.now }
    ensures fact { Contains graphs.now graph.now → IsTrue result }
{
    graphs.iter().any(|other| *graph == *other)
}

/// Adds a graph that is not in the list.
fn add_graph(graphs: &mut Graphs, graph: Graph) -> Result<(), Memory>
    ensures { OnOk result (graphs.new ≡ with_graph graphs.old graph) }
{
    if is_among(graphs.as_slice(), &graph) {
        return Ok(());
    }
    graphs.push(graph)
}

/// The distinct graphs of contexts.
fn contexts_of(alloc: Global, values: &[Octets]) -> Result<Graphs, ParameterFault>
    ensures ok { IfOk result (λ it. (graphs : _) × AreContexts values.now graphs × (it ≡ each_once graphs)) }
    ensures bad { IfErr result (λ fault. OnBad fault (λ it. (it ≡ Context) × ((graphs : _) → AreContexts values.now graphs → ⊥))) }
{
    let mut graphs = Graphs::new(alloc);
    for value in values {
        match context(alloc, value.as_slice())? {
            Some(graph) => add_graph(&mut graphs, graph)?,
            None => return Err(ParameterFault::Bad(Parameter::Context)),
        }
    }
    Ok(graphs)
}

/// The distinct graphs that the parameters `context` name, in order.
///
/// A context is an IRI or a blank node as RDF 1.1 N-Triples writes them, or `null`, which is the
/// absent graph. It is bad where it is anything else.
pub fn read_contexts(alloc: Global, parameters: &Parameters) -> Result<Graphs, ParameterFault>
    ensures ok { IfOk result (λ contexts. IsContexts parameters.now contexts) }
    ensures graphs { IfOk result (λ contexts. All IsGraph contexts) }
    ensures bad { IfErr result (λ fault. OnBad fault (λ it. (it ≡ Context) × IsBad parameters.now Context)) }
{
    let name = Parameter::Context.name().as_bytes();
    let values = values_of(alloc, parameters.as_slice(), name)?;
    contexts_of(alloc, values.as_slice())
}

/// What the parameters `subj`, `pred`, `obj` and `context` select. The first bad one in this order is
/// answered.
pub fn read_selection(alloc: Global, parameters: &Parameters) -> Result<Selection, ParameterFault>
    ensures ok { IfOk result (λ it. IsSelection parameters.now it) }
    ensures bad { IfErr result (λ fault. OnBad fault (λ it. IsFirstBad parameters.now it)) }
{
    let pairs = parameters.as_slice();
    let s = part(alloc, pairs, Parameter::Subject, TermKind::Resource)?;
    let p = part(alloc, pairs, Parameter::Predicate, TermKind::Iri)?;
    let o = part(alloc, pairs, Parameter::Object, TermKind::Any)?;
    let contexts = read_contexts(alloc, parameters)?;
    Ok(Selection { s, p, o, contexts })
}
