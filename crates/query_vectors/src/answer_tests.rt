//! Answers of queries over an index: the same over one view and over equal ones, the same as those
//! of a plain program, and worked ones as text.
use crate::plain_answers::{answer, unknowns_of};
use crate::{QUERIES, QUERY_CUTS, QUERY_LISTS, QUERY_TERMS, QueryCase};
use bgp_eval::{Found, answer_query};
use nquads::{DataFault, Kind, read_document};
use quad_index::{Index, Order};
use query_grammar::parse_query;
use query_model::{Query, TriplePattern, lookups_of};
use rdf_term::{Memory, Quads};
use std::alloc::Global;
use std::process::Abort;

/// One triple stands in the absent graph and in a named one, a graph is named by a blank node, and
/// literals are plain, tagged and typed.
pub(crate) static DATA: &str = "\
<http://e/a> <http://e/p> <http://e/b> .
<http://e/a> <http://e/p> <http://e/b> <http://e/g> .
<http://e/b> <http://e/p> <http://e/c> <http://e/g> .
<http://e/b> <http://e/q> \"x\"@en .
<http://e/b> <http://e/q> \"x\" <http://e/g> .
<http://e/a> <http://e/q> \"1\"^^<http://www.w3.org/2001/XMLSchema#integer> _:h .
<http://e/c> <http://e/p> <http://e/c> .
_:n <http://e/p> <http://e/a> _:h .
_:n <http://e/q> \"x\" .
<http://e/p> <http://e/p> <http://e/p> <http://e/p> .
";

/// The quads of a text of N-Quads, in order, each once.
pub(crate) fn quads_of(alloc: Global, text: &str) -> Result<Quads, DataFault> {
    let quads = read_document(alloc, Kind::Quads, text.as_bytes())?;
    match quads.into_set() {
        Ok(quads) => Ok(quads),
        Err(_) => Err(DataFault::Memory),
    }
}

pub(crate) fn index_of(alloc: Global, quads: &Quads) -> Result<Index, Memory> {
    let orders = Order::standard(alloc)?;
    Index::build(alloc, &orders, quads)
}

/// Equal views, so many.
fn views_of(alloc: Global, quads: &Quads, count: usize) -> Result<Vec<Index>, Memory> {
    let mut views = Vec::new(alloc);
    for _ in 0..count {
        views.push(index_of(alloc, quads)?)?;
    }
    Ok(views)
}

/// Whether two answers are equal.
fn is_equal(left: &Found, right: &Found) -> bool {
    match (left, right) {
        (Found::Table(left), Found::Table(right)) => {
            left.vars.as_slice() == right.vars.as_slice() && left.rows == right.rows
        }
        (Found::Truth(left), Found::Truth(right)) => *left == *right,
        (Found::Quads(left), Found::Quads(right)) => *left == *right,
        _ => false,
    }
}

fn group_of(query: &Query) -> &[TriplePattern] {
    match query {
        Query::Select { group, .. } => group.as_slice(),
        Query::Ask { group } => group.as_slice(),
        Query::Construct { group, .. } => group.as_slice(),
    }
}

/// The answers of the query over one view and over one for each pattern are that of the plain
/// program.
fn answers(rt: &impl Abort, alloc: Global, query: &Query, quads: &Quads, what: &str) {
    let wanted = answer(alloc, query, quads.as_slice()).expect(rt, "memory");
    for count in [1, lookups_of(query)] {
        let views = views_of(alloc, quads, count).expect(rt, "memory");
        match answer_query(alloc, query, views.as_slice(), u64::MAX) {
            Ok(found) => assert!(rt;
                is_equal(&found, &wanted),
                "{what}, over {count}: {found:?} and not {wanted:?}"
            ),
            Err(fault) => assert!(rt; false, "{what}, over {count}: {fault:?}"),
        }
    }
}

/// The most unknowns with which the plain program is run.
const MOST_UNKNOWNS: usize = 4;

/// A query of the tables is answered, where it has few unknowns.
fn case_answers(rt: &impl Abort, alloc: Global, case: &QueryCase, quads: &Quads) {
    let query = parse_query(alloc, case.text).expect(rt, case.what);
    let unknowns = unknowns_of(alloc, group_of(&query)).expect(rt, "memory");
    if unknowns.len() <= MOST_UNKNOWNS {
        answers(rt, alloc, &query, quads, case.what);
    }
}

fn table_answers(rt: &impl Abort, alloc: Global, table: &[QueryCase]) {
    let quads = quads_of(alloc, DATA).expect(rt, "the data");
    for case in table {
        case_answers(rt, alloc, case, &quads);
    }
}

fn texts_answer(rt: &impl Abort, alloc: Global, texts: &[&str]) {
    let quads = quads_of(alloc, DATA).expect(rt, "the data");
    for text in texts {
        let query = parse_query(alloc, text).expect(rt, text);
        answers(rt, alloc, &query, &quads, text);
    }
}

#[test]
fn forms_and_cuts_are_answered(rt: HostRuntime) {
    table_answers(&rt, rt.alloc(), QUERIES);
    table_answers(&rt, rt.alloc(), QUERY_CUTS);
}

#[test]
fn lists_and_graphs_are_answered(rt: HostRuntime) {
    table_answers(&rt, rt.alloc(), QUERY_LISTS);
}

#[test]
fn terms_are_answered(rt: HostRuntime) {
    table_answers(&rt, rt.alloc(), QUERY_TERMS);
}

static JOINS: &[&str] = &[
    "SELECT ?x ?z { ?x <http://e/p> ?y . ?y <http://e/p> ?z }",
    "SELECT * { ?x <http://e/p> ?y . ?y <http://e/q> ?z }",
    "SELECT ?x ?v { ?x <http://e/p> ?y . ?y <http://e/p> ?z . ?x <http://e/q> ?v }",
    "SELECT ?x { <http://e/a> <http://e/p> ?y . ?y <http://e/p> ?x . ?x <http://e/p> ?x }",
    "SELECT ?s ?o { ?s <http://e/p> ?o . ?s <http://e/p> ?o }",
    "SELECT ?x { ?x <http://e/p> ?x }",
    "SELECT ?x { ?x ?x ?x }",
    "SELECT ?x { ?x ?p ?x . ?x ?x ?p }",
    "SELECT ?x ?y { ?x <http://e/q> 'x' . ?y <http://e/p> <http://e/b> }",
    "SELECT * { ?a <http://e/p> <http://e/c> . ?b <http://e/q> 'x'@en }",
    "SELECT ?x { ?x <http://e/q> ?y . ?y <http://e/q> ?z }",
    "SELECT ?x ?z { ?x <http://e/p> _:y . _:y <http://e/q> ?z }",
    "SELECT ?n { ?n <http://e/p> _:n }",
    "SELECT ?o { _:n <http://e/q> ?o }",
];

static GRAPH_QUERIES: &[&str] = &[
    "SELECT ?g ?s ?o { GRAPH ?g { ?s <http://e/q> ?o } }",
    "SELECT ?g { GRAPH ?g { <http://e/a> ?p ?o } }",
    "SELECT ?x { GRAPH ?x { ?x ?x ?x } }",
    "SELECT ?p ?s { GRAPH ?p { ?s ?p ?o } }",
    "SELECT ?g ?o { GRAPH ?g { ?s <http://e/p> ?o } . ?o <http://e/q> ?v }",
    "SELECT ?g ?y { GRAPH ?g { ?x <http://e/p> ?y . ?y <http://e/q> ?z } }",
    "SELECT ?g ?h { GRAPH ?g { ?s <http://e/p> <http://e/b> } GRAPH ?h { ?s <http://e/q> ?o } }",
    "SELECT ?g ?s { GRAPH ?g { ?s <http://e/p> ?o } ?s <http://e/p> ?o }",
    "SELECT ?s { GRAPH <http://e/g> { ?s ?p ?o } ?s <http://e/q> 'x'@en }",
    "SELECT ?s { GRAPH <http://e/h> { ?s ?p ?o } }",
    "ASK { GRAPH <http://e/g> { <http://e/b> <http://e/p> <http://e/c> } }",
    "ASK { GRAPH <http://e/g> { <http://e/c> <http://e/p> <http://e/c> } }",
    "ASK { GRAPH ?g { <http://e/c> <http://e/p> <http://e/c> } }",
    "ASK { <http://e/b> <http://e/p> <http://e/c> }",
];

static ANSWERED: &[&str] = &[
    "SELECT * {}",
    "SELECT ?x {}",
    "SELECT ?x { <http://e/a> <http://e/p> <http://e/b> }",
    "SELECT ?x { <http://e/a> <http://e/p> <http://e/c> }",
    "SELECT ?z ?x { ?x <http://e/q> ?y }",
    "SELECT * { ?s <http://e/r> ?o }",
    "SELECT * { 'x' ?p ?o }",
    "SELECT ?s { ?s <http://e/q> 'x' }",
    "SELECT ?s { ?s <http://e/q> 'x'@EN }",
    "SELECT ?s { ?s <http://e/q> 1 }",
    "SELECT ?s { ?s <http://e/q> 01 }",
    "SELECT ?p { ?s ?p ?o }",
    "SELECT DISTINCT ?p { ?s ?p ?o }",
    "SELECT DISTINCT ?p ?z { ?s ?p ?o } OFFSET 1",
    "SELECT ?o ?s { ?s ?p ?o } LIMIT 4 OFFSET 2",
    "SELECT ?s { ?s ?p ?o } OFFSET 100",
    "SELECT ?s { ?s ?p ?o } OFFSET 8 LIMIT 100",
    "ASK {}",
    "ASK { ?s ?p 1 }",
    "ASK { ?s ?p 2 }",
    "CONSTRUCT { ?o <http://e/r> ?s } { ?s ?p ?o }",
    "CONSTRUCT { ?o <http://e/r> ?s } { ?s <http://e/q> ?o }",
    "CONSTRUCT { ?s ?o <http://e/a> } { ?s ?p ?o }",
    "CONSTRUCT { ?s <http://e/r> ?z . ?s ?p ?p } { ?s ?p ?o }",
    "CONSTRUCT { ?s ?p ?o } { GRAPH ?g { ?s ?p ?o } } LIMIT 2 OFFSET 1",
    "CONSTRUCT { ?s ?p ?o } { ?s <http://e/r> ?o }",
    "CONSTRUCT WHERE { ?s <http://e/p> ?o . ?o <http://e/q> ?v }",
];

#[test]
fn joins_are_answered(rt: HostRuntime) {
    texts_answer(&rt, rt.alloc(), JOINS);
}

#[test]
fn graphs_are_answered(rt: HostRuntime) {
    texts_answer(&rt, rt.alloc(), GRAPH_QUERIES);
}

#[test]
fn queries_are_answered(rt: HostRuntime) {
    texts_answer(&rt, rt.alloc(), ANSWERED);
}
