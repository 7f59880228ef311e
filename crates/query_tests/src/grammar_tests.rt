//! Texts with the queries that they are, and with the faults at their first refused tokens.
use query_grammar::{QueryFault, one_query, parse_query};
use query_model::{Cut, Query, Scope, Slot, TriplePattern};
use rdf_term::{Memory, Term, Text};
use std::alloc::Global;
use std::process::Abort;

fn put_term(out: &mut String, term: &Term) -> Result<(), Memory> {
    match term {
        Term::Iri(iri) => put(out, &["<", iri.as_str(), ">"]),
        Term::Blank(label) => put(out, &["_:", label.as_str()]),
        Term::Plain(text) => put(out, &["'", text.as_str(), "'"]),
        Term::Tagged(text, tag) => put(out, &["'", text.as_str(), "'@", tag.as_str()]),
        Term::Typed(text, datatype) => {
            put(out, &["'", text.as_str(), "'^^<", datatype.as_str(), ">"])
        }
    }
}

fn put(out: &mut String, parts: &[&str]) -> Result<(), Memory> {
    for part in parts {
        out.push_str(part)?;
    }
    Ok(())
}

fn put_slot(out: &mut String, slot: &Slot) -> Result<(), Memory> {
    match slot {
        Slot::Var(name) => put(out, &["?", name.as_str()])?,
        Slot::Blank(label) => put(out, &["_:", label.as_str()])?,
        Slot::Fixed(term) => put_term(out, term)?,
    }
    out.push(' ')?;
    Ok(())
}

fn put_patterns(out: &mut String, patterns: &[TriplePattern]) -> Result<(), Memory> {
    out.push_str("{ ")?;
    for pattern in patterns {
        if let Scope::Graph(name) = &pattern.g {
            out.push_str("GRAPH ")?;
            put_slot(out, name)?;
        }
        put_slot(out, &pattern.s)?;
        put_slot(out, &pattern.p)?;
        put_slot(out, &pattern.o)?;
        out.push_str(". ")?;
    }
    out.push_str("} ")?;
    Ok(())
}

fn put_cut(out: &mut String, cut: &Cut) -> Result<(), Memory> {
    match cut.limit {
        Some(0) => out.push_str("limit 0 ")?,
        Some(5) => out.push_str("limit 5 ")?,
        Some(999_999_999_999_999_999) => out.push_str("limit most ")?,
        Some(_) => out.push_str("limit other ")?,
        None => {}
    }
    match cut.offset {
        0 => {}
        7 => out.push_str("offset 7 ")?,
        _ => out.push_str("offset other ")?,
    }
    Ok(())
}

fn put_names(out: &mut String, names: &[Text]) -> Result<(), Memory> {
    for name in names {
        put(out, &[name.as_str(), " "])?;
    }
    Ok(())
}

/// The query in one line.
fn shown(alloc: Global, query: &Query) -> Result<String, Memory> {
    let mut out = String::new(alloc);
    match query {
        Query::Select {
            distinct,
            vars,
            group,
            cut,
        } => {
            out.push_str(if *distinct { "distinct " } else { "select " })?;
            put_names(&mut out, vars.as_slice())?;
            put_patterns(&mut out, group.as_slice())?;
            put_cut(&mut out, cut)?;
        }
        Query::Ask { group } => {
            out.push_str("ask ")?;
            put_patterns(&mut out, group.as_slice())?;
        }
        Query::Construct {
            template,
            group,
            cut,
        } => {
            out.push_str("construct ")?;
            put_patterns(&mut out, template.as_slice())?;
            put_patterns(&mut out, group.as_slice())?;
            put_cut(&mut out, cut)?;
        }
    }
    Ok(out)
}

fn outcome(alloc: Global, text: &str) -> Result<String, Memory> {
    match parse_query(alloc, text) {
        Ok(query) => shown(alloc, &query),
        Err(fault) => Ok(String::from_str(alloc, kind(&fault))?),
    }
}

fn kind(fault: &QueryFault) -> &'static str {
    match fault {
        QueryFault::BadAt(_) => "bad",
        QueryFault::Unsupported(_) => "unsupported",
        QueryFault::UnknownPrefix(_) => "unknown prefix",
        QueryFault::Memory => "memory",
    }
}

fn place(fault: &QueryFault) -> usize {
    match fault {
        QueryFault::BadAt(at) | QueryFault::Unsupported(at) | QueryFault::UnknownPrefix(at) => *at,
        QueryFault::Memory => 0,
    }
}

fn gives(rt: &impl Abort, alloc: Global, text: &str, wanted: &str) -> Result<(), Memory> {
    let found = outcome(alloc, text)?;
    assert_eq!(rt; found.as_str(), wanted, "{text}");
    Ok(())
}

fn refused(rt: &impl Abort, alloc: Global, text: &str, wanted: &str, at: usize) {
    match parse_query(alloc, text) {
        Ok(_) => assert!(rt; false, "{text}"),
        Err(fault) => {
            assert_eq!(rt; kind(&fault), wanted, "{text}");
            assert_eq!(rt; place(&fault), at, "{text}");
        }
    }
}

#[test]
fn first_refused_tokens(rt: HostRuntime) {
    let alloc = rt.alloc();
    let cases = [
        ("", "bad", 0),
        ("SELECT ?x WHERE { ?x ?p }", "bad", 24),
        ("SELECT ?x FROM <http://e/g> WHERE {}", "unsupported", 10),
        ("ASK { e:a ?p ?o }", "unknown prefix", 6),
        ("ASK { ?s ?p ?o", "bad", 14),
        ("ASK {} # é\n }", "bad", 13),
        ("ASK { ?s ?p e:a . } }", "unknown prefix", 12),
        ("ASK } { e:a ?p ?o }", "bad", 4),
        ("ASK { { ?s ?p ?o } }", "unsupported", 6),
        ("SELECT { }", "unsupported", 7),
        ("ASK { ?s * ?o }", "unsupported", 9),
        ("ASK { ?s ?p \"\"\"a\"\"\" }", "unsupported", 12),
        ("ASK { ?s ?p 'a' '''b''' }", "bad", 16),
        ("ASK { GRAPH ?g { } }", "unsupported", 17),
        ("ASK { ?s A ?o }", "bad", 9),
        ("ASK { ?s ?p TRUE }", "bad", 12),
        ("ASK { ?s ?p \"a }", "bad", 12),
        ("ASK {} LIMIT 5", "bad", 7),
        ("ASK {} '''", "bad", 7),
        ("SELECT \"\"\"", "bad", 7),
        ("\"\"\"", "bad", 0),
        ("ASK { '''s''' ?p ?o }", "unsupported", 6),
        ("ASK { ?s '''p''' ?o }", "bad", 9),
        ("ASK { ?s ?p ?o ; ?q 'a', '''b", "unsupported", 25),
        ("ASK { ?s ?p 'a'^^'''b''' }", "bad", 17),
        ("ASK { GRAPH '''g''' { } }", "bad", 12),
    ];
    for (text, wanted, at) in cases {
        refused(&rt, alloc, text, wanted, at);
    }
}

#[test]
fn tokens_that_the_grammar_takes(rt: HostRuntime) {
    let alloc = rt.alloc();
    let cases = [
        ("PREFIX e: <e> ASK {}", "unsupported", 10),
        ("ASK { ?s <p> ?o }", "unsupported", 9),
        ("ASK { ?s <e:\\u0020> ?o }", "unsupported", 9),
        ("ASK { ?s ?p 'a'^^<b> }", "unsupported", 17),
        ("ASK { ?s ?p 'a'^^e:b }", "unknown prefix", 17),
        ("ASK { GRAPH e: { ?s ?p ?o } }", "unknown prefix", 12),
        ("CONSTRUCT { ?s ?p _:b } WHERE {}", "unsupported", 18),
        ("CONSTRUCT { _:b ?p ?o } WHERE {}", "unsupported", 12),
        ("CONSTRUCT WHERE { ?s ?p _:b }", "unsupported", 24),
        ("SELECT * {} LIMIT 1000000000000000000", "unsupported", 18),
        ("SELECT * {} OFFSET 0000000000000000000", "unsupported", 19),
        ("SELECT * {} LIMIT +5", "bad", 18),
        ("SELECT * {} LIMIT 5.5", "bad", 18),
    ];
    for (text, wanted, at) in cases {
        refused(&rt, alloc, text, wanted, at);
    }
}

/// A text with a part in the middle that stands so many times.
fn repeated(
    alloc: Global,
    front: &str,
    part: &str,
    count: usize,
    back: &str,
) -> Result<String, Memory> {
    let mut text = String::from_str(alloc, front)?;
    for _ in 0..count {
        text.push_str(part)?;
    }
    text.push_str(back)?;
    Ok(text)
}

/// What stands behind the first refused token is not read, and what is read takes no more than its
/// own memory.
#[test]
fn long_texts_are_read_token_by_token(rt: HostRuntime) -> Result<(), Memory> {
    let alloc = rt.alloc();
    let braces = repeated(alloc, "", "{", 1_048_576, "")?;
    refused(&rt, alloc, braces.as_str(), "unsupported", 0);
    let semicolons = repeated(alloc, "ASK { ?s ?p ?o ", "; ", 262_144, "}")?;
    gives(&rt, alloc, semicolons.as_str(), "ask { ?s ?p ?o . } ")?;
    let variables = repeated(alloc, "SELECT ", "?x ", 262_144, "{}")?;
    gives(&rt, alloc, variables.as_str(), "select x { } ")
}

#[test]
fn faults_are_values(rt: HostRuntime) {
    let fault = QueryFault::Unsupported(7);
    let same = fault;
    assert_eq!(rt; fault, same);
    assert_ne!(rt; fault, QueryFault::BadAt(7));
    assert_eq!(rt; QueryFault::from(Memory), QueryFault::Memory);
    one_query();
}

#[test]
fn the_257th_pattern(rt: HostRuntime) -> Result<(), Memory> {
    let alloc = rt.alloc();
    let most = repeated(alloc, "ASK { ?s ?p 0", ", 1", 255, " }")?;
    assert!(rt; parse_query(alloc, most.as_str()).is_ok());
    let more = repeated(alloc, "ASK { ?s ?p 0", ", 1", 256, " }")?;
    refused(&rt, alloc, more.as_str(), "unsupported", 780);
    let named = repeated(alloc, "ASK { ?s ?p 0", ", 1", 255, ", e:a }")?;
    refused(&rt, alloc, named.as_str(), "unsupported", 780);
    let template = repeated(alloc, "CONSTRUCT { ?s ?p 0", ", 1", 256, " } {}")?;
    refused(&rt, alloc, template.as_str(), "unsupported", 786);
    Ok(())
}

#[test]
fn a_part_over_65535_bytes(rt: HostRuntime) -> Result<(), Memory> {
    let alloc = rt.alloc();
    let most = repeated(alloc, "ASK { ?s ?p '", "a", 65_535, "' }")?;
    assert!(rt; parse_query(alloc, most.as_str()).is_ok());
    let more = repeated(alloc, "ASK { ?s ?p '", "a", 65_536, "' }")?;
    refused(&rt, alloc, more.as_str(), "unsupported", 12);
    let iri = repeated(alloc, "PREFIX e: <e:", "a", 65_533, "> ASK { ?s e: e:a }")?;
    refused(&rt, alloc, iri.as_str(), "unsupported", 65_560);
    Ok(())
}

#[test]
fn queries(rt: HostRuntime) -> Result<(), Memory> {
    let alloc = rt.alloc();
    let cases = [
        ("ASK {}", "ask { } "),
        ("ask where { ?s ?p ?o . }", "ask { ?s ?p ?o . } "),
        (
            "ASK { ?s a _:b, true ; ; <e:p> 'x'@en, \"y\"^^<e:d> ; . 1 ?p +2, .5, 1e0 }",
            "ask { ?s <http://www.w3.org/1999/02/22-rdf-syntax-ns#type> _:b . \
             ?s <http://www.w3.org/1999/02/22-rdf-syntax-ns#type> 'true'^^<http://www.w3.org/2001/XMLSchema#boolean> . \
             ?s <e:p> 'x'@en . ?s <e:p> 'y'^^<e:d> . \
             '1'^^<http://www.w3.org/2001/XMLSchema#integer> ?p '+2'^^<http://www.w3.org/2001/XMLSchema#integer> . \
             '1'^^<http://www.w3.org/2001/XMLSchema#integer> ?p '.5'^^<http://www.w3.org/2001/XMLSchema#decimal> . \
             '1'^^<http://www.w3.org/2001/XMLSchema#integer> ?p '1e0'^^<http://www.w3.org/2001/XMLSchema#double> . } ",
        ),
        (
            "PREFIX e: <e:1> PREFIX e: <e:2> ASK { e: e:a 'x'^^<http://www.w3.org/2001/XMLSchema#string> }",
            "ask { <e:2> <e:2a> 'x' . } ",
        ),
        ("ASK { 's'@en ?p 's'^^e:d }", "unknown prefix"),
        (
            "SELECT ?x ?y ?x { GRAPH ?g { ?x ?p ?y . ?y ?p ?x } . ?z ?q false GRAPH <e:g> { ?x ?x ?x } }",
            "select x y { GRAPH ?g ?x ?p ?y . GRAPH ?g ?y ?p ?x . \
             ?z ?q 'false'^^<http://www.w3.org/2001/XMLSchema#boolean> . GRAPH <e:g> ?x ?x ?x . } ",
        ),
        (
            "SELECT DISTINCT * WHERE { ?b ?c _:d GRAPH ?g { ?a ?b ?c } } LIMIT 5 OFFSET 7",
            "distinct b c g a { ?b ?c _:d . GRAPH ?g ?a ?b ?c . } limit 5 offset 7 ",
        ),
        (
            "SELECT REDUCED ?x {} OFFSET 7 LIMIT 999999999999999999",
            "select x { } limit most offset 7 ",
        ),
        ("SELECT * {} LIMIT 0", "select { } limit 0 "),
        ("SELECT * {} OFFSET 07", "select { } offset 7 "),
        (
            "CONSTRUCT { ?s ?p 'x' } WHERE { ?s ?p _:o } LIMIT 5",
            "construct { ?s ?p 'x' . } { ?s ?p _:o . } limit 5 ",
        ),
        ("CONSTRUCT {} { ?s ?p ?o }", "construct { } { ?s ?p ?o . } "),
        (
            "CONSTRUCT WHERE { ?s ?p ?o . } OFFSET 7",
            "construct { ?s ?p ?o . } { ?s ?p ?o . } offset 7 ",
        ),
        ("CONSTRUCT WHERE {}", "construct { } { } "),
    ];
    for (text, wanted) in cases {
        gives(&rt, alloc, text, wanted)?;
    }
    Ok(())
}
