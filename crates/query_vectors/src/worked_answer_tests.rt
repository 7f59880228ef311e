//! Worked answers: the text of their tables and triples, and where there are too many rows.
use crate::answer_tests::{DATA, index_of, quads_of};
use bgp_eval::{EvalFault, Found, answer_query};
use nquads::{Kind, write_quads};
use quad_index::Index;
use query_grammar::parse_query;
use rdf_term::{Bytes, Memory};
use results_json::write_rows;
use std::alloc::Global;
use std::process::Abort;

/// A query with its answer: a table as JSON, or triples as N-Quads.
#[derive(Clone, Copy)]
struct Worked {
    text: &'static str,
    gives: &'static str,
}

/// An answer as text.
fn text_of(alloc: Global, found: &Found) -> Result<Bytes, Memory> {
    match found {
        Found::Table(table) => write_rows(alloc, table),
        Found::Quads(quads) => {
            let mut out = Bytes::new(alloc);
            match write_quads(quads, Kind::Quads, &mut out) {
                Ok(()) => Ok(out),
                Err(_) => Err(Memory),
            }
        }
        Found::Truth(truth) => {
            let mut out = Bytes::new(alloc);
            out.append(if *truth { b"true" } else { b"false" })?;
            Ok(out)
        }
    }
}

/// The answer of a query over views, as text.
fn shown(rt: &impl Abort, alloc: Global, text: &str, views: &[Index]) -> Bytes {
    let query = parse_query(alloc, text).expect(rt, text);
    let found = answer_query(alloc, &query, views, u64::MAX).expect(rt, text);
    text_of(alloc, &found).expect(rt, "memory")
}

fn shows(rt: &impl Abort, alloc: Global, worked: &Worked, views: &[Index]) {
    let text = shown(rt, alloc, worked.text, views);
    assert!(rt;
        text.as_slice() == worked.gives.as_bytes(),
        "{}: {text:?}",
        worked.text
    );
}

fn view_of(rt: &impl Abort, alloc: Global, text: &str) -> Index {
    let quads = quads_of(alloc, text).expect(rt, "the data");
    index_of(alloc, &quads).expect(rt, "memory")
}

fn table_shows(rt: &impl Abort, alloc: Global, table: &[Worked], data: &str) {
    let views = [view_of(rt, alloc, data)];
    for worked in table {
        shows(rt, alloc, worked, &views);
    }
}

static LITERALS: &str = "\
<http://e/s> <http://e/p> \"a\"@en .
<http://e/s> <http://e/p> \"1\"^^<http://www.w3.org/2001/XMLSchema#integer> .
";

static LITERAL_ANSWERS: &[Worked] = &[
    Worked {
        text: "SELECT ?o WHERE { ?s <http://e/p> ?o }",
        gives: "{\"head\":{\"vars\":[\"o\"]},\"results\":{\"bindings\":[{\"o\":{\"type\":\"literal\",\"value\":\"a\",\"xml:lang\":\"en\"}},{\"o\":{\"datatype\":\"http://www.w3.org/2001/XMLSchema#integer\",\"type\":\"literal\",\"value\":\"1\"}}]}}",
    },
    Worked {
        text: "SELECT ?s WHERE { ?s <http://e/p> ?o }",
        gives: "{\"head\":{\"vars\":[\"s\"]},\"results\":{\"bindings\":[{\"s\":{\"type\":\"uri\",\"value\":\"http://e/s\"}},{\"s\":{\"type\":\"uri\",\"value\":\"http://e/s\"}}]}}",
    },
    Worked {
        text: "SELECT DISTINCT ?s WHERE { ?s <http://e/p> ?o }",
        gives: "{\"head\":{\"vars\":[\"s\"]},\"results\":{\"bindings\":[{\"s\":{\"type\":\"uri\",\"value\":\"http://e/s\"}}]}}",
    },
    Worked {
        text: "SELECT ?s WHERE { ?s <http://e/p> ?o } LIMIT 0",
        gives: "{\"head\":{\"vars\":[\"s\"]},\"results\":{\"bindings\":[]}}",
    },
    Worked {
        text: "SELECT ?o WHERE { ?s <http://e/p> ?o } OFFSET 1",
        gives: "{\"head\":{\"vars\":[\"o\"]},\"results\":{\"bindings\":[{\"o\":{\"datatype\":\"http://www.w3.org/2001/XMLSchema#integer\",\"type\":\"literal\",\"value\":\"1\"}}]}}",
    },
    Worked {
        text: "SELECT ?z WHERE { ?s <http://e/p> 1 }",
        gives: "{\"head\":{\"vars\":[\"z\"]},\"results\":{\"bindings\":[{}]}}",
    },
];

static DATA_ANSWERS: &[Worked] = &[
    Worked {
        text: "SELECT * {}",
        gives: "{\"head\":{\"vars\":[]},\"results\":{\"bindings\":[{}]}}",
    },
    Worked {
        text: "SELECT ?g ?s { GRAPH ?g { ?s <http://e/p> ?o } }",
        gives: "{\"head\":{\"vars\":[\"g\",\"s\"]},\"results\":{\"bindings\":[{\"g\":{\"type\":\"uri\",\"value\":\"http://e/g\"},\"s\":{\"type\":\"uri\",\"value\":\"http://e/a\"}},{\"g\":{\"type\":\"uri\",\"value\":\"http://e/g\"},\"s\":{\"type\":\"uri\",\"value\":\"http://e/b\"}},{\"g\":{\"type\":\"uri\",\"value\":\"http://e/p\"},\"s\":{\"type\":\"uri\",\"value\":\"http://e/p\"}},{\"g\":{\"type\":\"bnode\",\"value\":\"h\"},\"s\":{\"type\":\"bnode\",\"value\":\"n\"}}]}}",
    },
    Worked {
        text: "SELECT ?z ?x { ?x <http://e/p> ?y . ?y <http://e/q> 1 }",
        gives: "{\"head\":{\"vars\":[\"z\",\"x\"]},\"results\":{\"bindings\":[{\"x\":{\"type\":\"bnode\",\"value\":\"n\"}}]}}",
    },
    Worked {
        text: "SELECT ?x { <http://e/a> <http://e/p> ?x }",
        gives: "{\"head\":{\"vars\":[\"x\"]},\"results\":{\"bindings\":[{\"x\":{\"type\":\"uri\",\"value\":\"http://e/b\"}}]}}",
    },
    Worked {
        text: "SELECT ?x { ?x <http://e/p> ?x }",
        gives: "{\"head\":{\"vars\":[\"x\"]},\"results\":{\"bindings\":[{\"x\":{\"type\":\"uri\",\"value\":\"http://e/c\"}},{\"x\":{\"type\":\"uri\",\"value\":\"http://e/p\"}}]}}",
    },
    Worked {
        text: "SELECT ?x ?y { ?x <http://e/q> 'x' . ?y <http://e/p> <http://e/a> }",
        gives: "{\"head\":{\"vars\":[\"x\",\"y\"]},\"results\":{\"bindings\":[{\"x\":{\"type\":\"uri\",\"value\":\"http://e/b\"},\"y\":{\"type\":\"bnode\",\"value\":\"n\"}},{\"x\":{\"type\":\"bnode\",\"value\":\"n\"},\"y\":{\"type\":\"bnode\",\"value\":\"n\"}}]}}",
    },
    Worked {
        text: "ASK { <http://e/a> <http://e/p> <http://e/b> }",
        gives: "true",
    },
    Worked {
        text: "ASK { GRAPH ?g { <http://e/c> ?p ?o } }",
        gives: "false",
    },
    Worked {
        text: "CONSTRUCT { ?o <http://e/r> ?s } { ?s ?p ?o }",
        gives: "<http://e/a> <http://e/r> _:n .\n<http://e/b> <http://e/r> <http://e/a> .\n<http://e/c> <http://e/r> <http://e/b> .\n<http://e/c> <http://e/r> <http://e/c> .\n<http://e/p> <http://e/r> <http://e/p> .\n",
    },
    Worked {
        text: "CONSTRUCT { <http://e/b> ?o <http://e/b> } { <http://e/b> ?p ?o }",
        gives: "<http://e/b> <http://e/c> <http://e/b> .\n",
    },
];

#[test]
fn worked_answers(rt: HostRuntime) {
    table_shows(&rt, rt.alloc(), LITERAL_ANSWERS, LITERALS);
    table_shows(&rt, rt.alloc(), DATA_ANSWERS, DATA);
}

#[test]
fn an_answer_without_rows_has_49_bytes(rt: HostRuntime) {
    let views = [view_of(&rt, rt.alloc(), LITERALS)];
    let text = "SELECT ?s { ?s <http://e/p> ?o } LIMIT 0";
    assert_eq!(rt; shown(&rt, rt.alloc(), text, &views).len(), 49);
}

/// The first pattern has its one solution in the first view, and the second one in the second view.
#[test]
fn a_view_for_each_pattern(rt: HostRuntime) {
    let alloc = rt.alloc();
    let first = "<http://e/a> <http://e/p> <http://e/b> .\n";
    let second = "<http://e/b> <http://e/q> <http://e/c> .\n";
    let text = "SELECT ?x { <http://e/a> <http://e/p> ?x . ?x <http://e/q> ?y }";
    let one = Worked {
        text,
        gives: "{\"head\":{\"vars\":[\"x\"]},\"results\":{\"bindings\":[{\"x\":{\"type\":\"uri\",\"value\":\"http://e/b\"}}]}}",
    };
    let none = Worked {
        text,
        gives: "{\"head\":{\"vars\":[\"x\"]},\"results\":{\"bindings\":[]}}",
    };
    let views = [view_of(&rt, alloc, first), view_of(&rt, alloc, second)];
    let both = &views[..];
    shows(&rt, alloc, &one, both);
    shows(&rt, alloc, &none, &both[..1]);
    shows(&rt, alloc, &none, &both[1..]);
    let turned = [view_of(&rt, alloc, second), view_of(&rt, alloc, first)];
    shows(&rt, alloc, &none, &turned);
}

/// Whether the query is refused with at most so many rows.
fn is_too_much(rt: &impl Abort, alloc: Global, text: &str, view: &[Index], most: u64) -> bool {
    let query = parse_query(alloc, text).expect(rt, text);
    match answer_query(alloc, &query, view, most) {
        Ok(_) => false,
        Err(EvalFault::TooManyRows) => true,
        Err(EvalFault::Memory) => {
            assert!(rt; false, "memory");
            false
        }
    }
}

/// Queries with the number of their solutions.
static COUNTS: &[(&str, u64)] = &[
    ("SELECT ?s { ?s ?p ?o }", 9),
    ("SELECT ?s { ?s ?p ?o } LIMIT 0", 9),
    ("SELECT ?s { ?s ?p ?o } OFFSET 100", 9),
    ("SELECT DISTINCT ?p { ?s ?p ?o }", 9),
    ("SELECT ?z { ?s ?p ?o } LIMIT 1", 9),
    ("SELECT ?s { GRAPH ?g { ?s ?p ?o } }", 6),
    (
        "SELECT ?x { ?x <http://e/q> ?y . ?z <http://e/p> <http://e/b> }",
        4,
    ),
    ("SELECT * {}", 1),
    ("CONSTRUCT WHERE { ?s ?p ?o } LIMIT 1", 9),
    ("CONSTRUCT {} { ?s <http://e/p> ?o }", 5),
];

#[test]
fn too_many_rows(rt: HostRuntime) {
    let alloc = rt.alloc();
    let view = [view_of(&rt, alloc, DATA)];
    for (text, count) in COUNTS {
        let below = count.saturating_sub(1);
        assert!(rt; is_too_much(&rt, alloc, text, &view, below), "{text}");
        assert!(rt; !is_too_much(&rt, alloc, text, &view, *count), "{text}");
        assert!(rt; is_too_much(&rt, alloc, text, &view, 0), "{text}");
    }
    let none = "SELECT ?s { ?s <http://e/r> ?o }";
    assert!(rt; !is_too_much(&rt, alloc, none, &view, 0));
    for text in ["ASK { ?s ?p ?o }", "ASK {}", "ASK { ?s <http://e/r> ?o }"] {
        assert!(rt; !is_too_much(&rt, alloc, text, &view, 0), "{text}");
    }
}
