//! Texts of queries with what is printed of them, which is printed as itself again.
use query_model::{Cut, Names1, Patterns, Query, Scope, Slot, TriplePattern};
use query_print::print_query;
use query_text::parse_query;
use rdf_term::{Memory, Term, Text};
use std::alloc::Global;
use std::process::Abort;

fn printed(alloc: Global, text: &str) -> Result<Text, Memory> {
    match parse_query(alloc, text) {
        Ok(query) => print_query(alloc, &query),
        Err(_) => Ok(Text::new(alloc)),
    }
}

/// The text is printed so, and what is printed is printed as itself again.
fn prints(rt: &impl Abort, alloc: Global, text: &str, wanted: &str) -> Result<(), Memory> {
    let found = printed(alloc, text)?;
    assert_eq!(rt; found.as_str(), wanted, "{text}");
    let again = printed(alloc, wanted)?;
    assert_eq!(rt; again.as_str(), wanted, "{text}");
    Ok(())
}

#[test]
fn query_forms(rt: HostRuntime) -> Result<(), Memory> {
    let alloc = rt.alloc();
    let cases = [
        ("ASK{}", "ASK WHERE { }"),
        ("ask { ?s $p ?o }", "ASK WHERE { ?s ?p ?o . }"),
        ("SELECT * {}", "SELECT * WHERE { }"),
        (
            "SELECT * { <e:s> <e:p> _:b }",
            "SELECT * WHERE { <e:s> <e:p> _:b . }",
        ),
        (
            "SELECT * { ?s ?p ?o }",
            "SELECT ?s ?p ?o WHERE { ?s ?p ?o . }",
        ),
        (
            "SELECT DISTINCT ?x ?y ?x { ?x ?p ?y }",
            "SELECT DISTINCT ?x ?y WHERE { ?x ?p ?y . }",
        ),
        ("SELECT REDUCED ?x {}", "SELECT ?x WHERE { }"),
        (
            "CONSTRUCT { ?s ?p 'x' } { ?s ?p _:o }",
            "CONSTRUCT { ?s ?p \"x\" . } WHERE { ?s ?p _:o . }",
        ),
        ("CONSTRUCT {} {}", "CONSTRUCT { } WHERE { }"),
        (
            "CONSTRUCT WHERE { ?s ?p ?o } LIMIT 5",
            "CONSTRUCT { ?s ?p ?o . } WHERE { ?s ?p ?o . } LIMIT 5",
        ),
    ];
    for (text, wanted) in cases {
        prints(&rt, alloc, text, wanted)?;
    }
    Ok(())
}

#[test]
fn cuts(rt: HostRuntime) -> Result<(), Memory> {
    let alloc = rt.alloc();
    let cases = [
        ("SELECT * {} LIMIT 0", "SELECT * WHERE { } LIMIT 0"),
        ("SELECT * {} OFFSET 0", "SELECT * WHERE { }"),
        ("SELECT * {} OFFSET 007", "SELECT * WHERE { } OFFSET 7"),
        (
            "SELECT * {} OFFSET 10 LIMIT 999999999999999999",
            "SELECT * WHERE { } LIMIT 999999999999999999 OFFSET 10",
        ),
        (
            "CONSTRUCT {} {} LIMIT 5 OFFSET 6",
            "CONSTRUCT { } WHERE { } LIMIT 5 OFFSET 6",
        ),
    ];
    for (text, wanted) in cases {
        prints(&rt, alloc, text, wanted)?;
    }
    Ok(())
}

#[test]
fn terms(rt: HostRuntime) -> Result<(), Memory> {
    let alloc = rt.alloc();
    let cases = [
        (
            "ASK { ?s a 'it\\'s \"a\" \\\\ \\n \\r \\t \\u00e9' }",
            "ASK WHERE { ?s <http://www.w3.org/1999/02/22-rdf-syntax-ns#type> \"it's \\\"a\\\" \\\\ \\n \\r \t é\" . }",
        ),
        (
            "ASK { ?s ?p 'a'@en-GB, \"\"@de }",
            "ASK WHERE { ?s ?p \"a\"@en-GB . ?s ?p \"\"@de . }",
        ),
        (
            "PREFIX e: <e:> ASK { e:s e: 'a' ^^ e:d }",
            "ASK WHERE { <e:s> <e:> \"a\"^^<e:d> . }",
        ),
        (
            "ASK { ?s ?p 'a'^^<http://www.w3.org/2001/XMLSchema#string> }",
            "ASK WHERE { ?s ?p \"a\" . }",
        ),
        (
            "ASK { ?s ?p +07 }",
            "ASK WHERE { ?s ?p \"+07\"^^<http://www.w3.org/2001/XMLSchema#integer> . }",
        ),
        (
            "ASK { ?s ?p true }",
            "ASK WHERE { ?s ?p \"true\"^^<http://www.w3.org/2001/XMLSchema#boolean> . }",
        ),
        ("ASK { _:a.b ?é 'é' }", "ASK WHERE { _:a.b ?é \"é\" . }"),
    ];
    for (text, wanted) in cases {
        prints(&rt, alloc, text, wanted)?;
    }
    Ok(())
}

#[test]
fn graphs(rt: HostRuntime) -> Result<(), Memory> {
    let alloc = rt.alloc();
    let cases = [
        (
            "ASK { GRAPH ?g { ?s ?p ?o } }",
            "ASK WHERE { GRAPH ?g { ?s ?p ?o . } }",
        ),
        (
            "ASK { GRAPH <e:g> { ?s ?p 1, 2 } . ?s ?p ?o GRAPH ?g { ?s ?p ?o } ?x ?y ?z }",
            "ASK WHERE { \
             GRAPH <e:g> { ?s ?p \"1\"^^<http://www.w3.org/2001/XMLSchema#integer> . } \
             GRAPH <e:g> { ?s ?p \"2\"^^<http://www.w3.org/2001/XMLSchema#integer> . } \
             ?s ?p ?o . GRAPH ?g { ?s ?p ?o . } ?x ?y ?z . }",
        ),
        (
            "SELECT * { ?s ?p ?o GRAPH ?g { ?s ?p ?o } }",
            "SELECT ?s ?p ?o ?g WHERE { ?s ?p ?o . GRAPH ?g { ?s ?p ?o . } }",
        ),
    ];
    for (text, wanted) in cases {
        prints(&rt, alloc, text, wanted)?;
    }
    Ok(())
}

#[test]
fn a_query_that_no_text_gives(rt: HostRuntime) -> Result<(), Memory> {
    let alloc = rt.alloc();
    let mut group = Patterns::new(alloc);
    group.push(TriplePattern {
        s: Slot::Var(Text::from_chars(alloc, "x")?),
        p: Slot::Blank(Text::from_chars(alloc, "y")?),
        o: Slot::Fixed(Term::Blank(Text::from_chars(alloc, "z")?)),
        g: Scope::Graph(Slot::Fixed(Term::Plain(Text::from_chars(alloc, "\"")?))),
    })?;
    let query = Query::Select {
        distinct: false,
        vars: Names1::new(alloc),
        group,
        cut: Cut {
            limit: Some(u64::MAX),
            offset: u64::MAX,
        },
    };
    let wanted = "SELECT * WHERE { GRAPH \"\\\"\" { ?x _:y _:z . } } \
                  LIMIT 18446744073709551615 OFFSET 18446744073709551615";
    assert_eq!(rt; print_query(alloc, &query)?.as_str(), wanted);
    Ok(())
}
