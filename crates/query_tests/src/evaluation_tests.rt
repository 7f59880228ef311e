//! Answers over an index, and want of memory in a scan.
ghost use Rattle.std.specs.Prelude.{[]};

use bgp_eval::{EvalFault, Found, answer_query};
use quad_index::{Index, Order};
use query_model::Query;
use query_text::parse_query;
use rdf_term::{Graph, Memory, Pattern, Quad, Quads, Scan, Term, Text};
use std::alloc::Global;
use std::process::Abort;

/// What finds no memory for a scan.
#[derive(Drop)]
struct Full;

impl Scan for Full {
    ghost content = { λ full. [] };

    fn scan(&self, _alloc: Global, _pattern: &Pattern) -> Result<Quads, Memory> {
        Err(Memory)
    }
}

fn iri(alloc: Global, text: &str) -> Result<Term, Memory> {
    Ok(Term::Iri(Text::from_chars(alloc, text)?))
}

fn quad(alloc: Global, s: &str, o: &str, c: Graph) -> Result<Quad, Memory> {
    Quad::new(iri(alloc, s)?, iri(alloc, "e:p")?, iri(alloc, o)?, c).map_err(|_| Memory)
}

/// Four triples, of which one stands in two graphs.
fn content(alloc: Global) -> Result<Index, Memory> {
    let mut quads = Quads::new(alloc);
    quads.push(quad(alloc, "e:a", "e:b", Graph::Absent)?)?;
    quads.push(quad(alloc, "e:a", "e:b", Graph::Named(iri(alloc, "e:g")?))?)?;
    quads.push(quad(alloc, "e:a", "e:c", Graph::Absent)?)?;
    quads.push(quad(alloc, "e:b", "e:c", Graph::Absent)?)?;
    quads.push(quad(alloc, "e:c", "e:c", Graph::Named(iri(alloc, "e:h")?))?)?;
    Index::build(alloc, &Order::standard(alloc)?, &quads)
}

/// The query of a text, which is one.
fn read(rt: &impl Abort, alloc: Global, text: &str) -> Query {
    match parse_query(alloc, text) {
        Ok(query) => query,
        Err(_) => panic!(rt; "no query: {text}"),
    }
}

/// How many rows or triples are found, or 1 for yes.
fn size(found: &Found) -> usize {
    match found {
        Found::Table(table) => table.rows.len(),
        Found::Truth(truth) => { if *truth { 1 } else { 0 } }
        Found::Quads(quads) => quads.len(),
    }
}

#[test]
fn sizes_of_answers(rt: HostRuntime) -> Result<(), EvalFault> {
    let alloc = rt.alloc();
    let views = [content(alloc)?];
    let cases = [
        ("SELECT * { ?s ?p ?o }", 4),
        ("SELECT * { GRAPH ?g { ?s ?p ?o } }", 2),
        ("SELECT * { GRAPH <e:g> { ?s ?p ?o } }", 1),
        ("SELECT * { ?s ?p ?s }", 1),
        ("SELECT * { ?x <e:p> ?y . ?y <e:p> ?z }", 4),
        ("SELECT * { ?x <e:p> ?y . ?y <e:p> ?y }", 3),
        ("SELECT * { ?x <e:p> ?y . ?y <e:p> ?x }", 1),
        ("SELECT * { ?x <e:p> ?y . ?y <e:p> ?x . ?x <e:p> <e:b> }", 0),
        ("SELECT DISTINCT ?p { ?s ?p ?o }", 1),
        ("SELECT ?p { ?s ?p ?o } OFFSET 1 LIMIT 2", 2),
        ("ASK { ?s ?p ?o }", 1),
        ("ASK { ?s ?p 1 }", 0),
        ("CONSTRUCT { ?o ?p ?s } { ?s ?p ?o }", 4),
        ("CONSTRUCT { <e:s> ?p ?o } { ?s ?p ?o }", 2),
    ];
    for (text, wanted) in cases {
        let query = read(&rt, alloc, text);
        let found = answer_query(alloc, &query, views.as_slice(), 9)?;
        assert_eq!(rt; size(&found), wanted, "{text}");
    }
    Ok(())
}

#[test]
fn too_many_rows_and_want_of_memory_are_told(rt: HostRuntime) -> Result<(), Memory> {
    let alloc = rt.alloc();
    let views = [content(alloc)?];
    let query = read(&rt, alloc, "SELECT ?o { ?s ?p ?o }");
    let enough = answer_query(alloc, &query, views.as_slice(), 4);
    assert!(rt; enough.is_ok());
    let many = answer_query(alloc, &query, views.as_slice(), 3);
    assert!(rt; many.err() == Some(EvalFault::TooManyRows));
    let full = answer_query(alloc, &query, [Full].as_slice(), 4);
    assert!(rt; full.err() == Some(EvalFault::Memory));
    Ok(())
}
