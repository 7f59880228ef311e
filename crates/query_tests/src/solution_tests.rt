//! What is found, how often a query is looked up, and what its patterns observe.
use query_model::{Found, Names1, Query, Table, lookups_of, pattern_of};
use query_text::parse_query;
use rdf_term::{Duplicate, Graph, GraphPick, Memory, Pattern, Quad, Quads, Row, Rows, Term, Text};
use std::alloc::Global;
use std::process::Abort;

fn text(alloc: Global, characters: &str) -> Result<Text, Memory> {
    Text::from_chars(alloc, characters)
}

/// The query of a text, which is one.
fn read(rt: &impl Abort, alloc: Global, text: &str) -> Query {
    match parse_query(alloc, text) {
        Ok(query) => query,
        Err(_) => panic!(rt; "no query: {text}"),
    }
}

#[test]
fn a_query_has_a_lookup_for_each_pattern_and_at_least_one(rt: HostRuntime) {
    let alloc = rt.alloc();
    let cases = [
        ("ASK {}", 1),
        ("ASK { ?s ?p ?o }", 1),
        ("SELECT * { ?s ?p 1, 2 ; ?q 3 }", 3),
        ("CONSTRUCT { ?s ?p 1, 2 } { ?s ?p ?o }", 1),
    ];
    for (text, wanted) in cases {
        assert_eq!(rt; lookups_of(&read(&rt, alloc, text)), wanted, "{text}");
    }
}

/// The observed pattern as text: its parts where they are given, and its graphs.
fn shown(alloc: Global, pattern: &Pattern) -> Result<String, Memory> {
    let mut out = String::new(alloc);
    for part in [&pattern.s, &pattern.p, &pattern.o] {
        out.push_str(if part.is_some() { "given " } else { "any " })?;
    }
    out.push_str(match &pattern.c {
        GraphPick::Any => "anywhere",
        GraphPick::NamedOnly => "named",
        GraphPick::One(Graph::Absent) => "absent",
        GraphPick::One(Graph::Named(_)) => "one",
    })?;
    Ok(out)
}

#[test]
fn observed_patterns(rt: HostRuntime) -> Result<(), Memory> {
    let alloc = rt.alloc();
    let cases = [
        ("ASK { ?s <e:p> _:o }", "any given any anywhere"),
        ("ASK { GRAPH ?g { <e:s> ?p 1 } }", "given any given named"),
        ("ASK { GRAPH <e:g> { ?s ?p ?o } }", "any any any one"),
    ];
    for (text, wanted) in cases {
        if let Query::Ask { group } = &read(&rt, alloc, text) {
            for pattern in group.as_slice() {
                let observed = pattern_of(alloc, pattern)?;
                assert_eq!(rt; shown(alloc, &observed)?.as_str(), wanted, "{text}");
            }
        }
    }
    Ok(())
}

/// A table of one row.
fn one_row(alloc: Global) -> Result<Found, Memory> {
    let mut vars = Names1::new(alloc);
    vars.push(text(alloc, "x")?)?;
    let mut row = Row::new(alloc);
    row.push(Some(Term::Plain(text(alloc, "a")?)))?;
    let mut rows = Rows::new(alloc);
    rows.push(row)?;
    Ok(Found::Table(Table { vars, rows }))
}

/// The quads of one triple.
fn one_triple(alloc: Global) -> Result<Found, Memory> {
    let iri = Term::Iri(text(alloc, "urn:p")?);
    let p = iri.copy(alloc)?;
    let o = iri.copy(alloc)?;
    let mut quads = Quads::new(alloc);
    if let Ok(quad) = Quad::new(iri, p, o, Graph::Absent) {
        quads.push(quad)?;
    }
    Ok(Found::Quads(quads))
}

/// One of the things that may be found: a row, a triple, no quads, yes, no.
fn found(alloc: Global, number: usize) -> Result<Found, Memory> {
    match number {
        0 => one_row(alloc),
        1 => one_triple(alloc),
        2 => Ok(Found::Quads(Quads::new(alloc))),
        3 => Ok(Found::Truth(true)),
        _ => Ok(Found::Truth(false)),
    }
}

#[test]
fn what_is_found_equals_its_copy_and_nothing_else(rt: HostRuntime) -> Result<(), Memory> {
    let alloc = rt.alloc();
    for place in 0..5usize {
        for number in 0..5usize {
            let one = found(alloc, place)?;
            let copy = found(alloc, number)?.copy(alloc)?;
            assert_eq!(rt; one == copy, place == number, "{place} and {number}");
        }
    }
    Ok(())
}
