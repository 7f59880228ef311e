//! Queries at the limits of 256 patterns and of 65,535 bytes a part of a term, and one above them;
//! they are built here, since they are too long for a table.
use crate::QueryReading;
use crate::tests::{is_fault, printed};
use QueryReading::{BadAt, Unsupported};
use query_grammar::QueryFault;
use rdf_term::{Memory, Text};
use std::alloc::Global;
use std::process::Abort;

/// A text with a part in it that comes many times.
struct LongText {
    what: &'static str,
    /// What stands before the text that is repeated, that text, and what stands behind it.
    texts: (&'static str, &'static str, &'static str),
    count: usize,
    /// The same of what is printed, or the fault.
    gives: Result<(&'static str, &'static str, &'static str), QueryReading>,
}

/// These texts, the second so many times.
fn joined(alloc: Global, texts: (&str, &str, &str), count: usize) -> Result<Text, Memory> {
    let (before, text, behind) = texts;
    let mut out = Text::new(alloc);
    out.append(before)?;
    for _ in 0..count {
        out.append(text)?;
    }
    out.append(behind)?;
    Ok(out)
}

/// Reading a text gave what was expected.
fn meets(
    rt: &impl Abort,
    alloc: Global,
    case: &LongText,
    read: Result<Text, QueryFault>,
) -> Result<(), Memory> {
    match (read, case.gives) {
        (Ok(text), Ok(texts)) => {
            let wanted = joined(alloc, texts, case.count)?;
            assert!(rt; text == wanted, "{}: printed otherwise", case.what);
        }
        (Ok(_), Err(_)) => assert!(rt; false, "{}: is read", case.what),
        (Err(fault), Err(wanted)) => assert!(rt;
            is_fault(&fault, wanted),
            "{}: {fault:?}",
            case.what
        ),
        (Err(fault), Ok(_)) => assert!(rt; false, "{}: {fault:?}", case.what),
    }
    Ok(())
}

fn reads(rt: &impl Abort, alloc: Global, case: &LongText) -> Result<(), Memory> {
    let text = joined(alloc, case.texts, case.count)?;
    meets(rt, alloc, case, printed(alloc, text.as_str()))?;
    if let Ok(texts) = case.gives {
        let text = joined(alloc, texts, case.count)?;
        meets(rt, alloc, case, printed(alloc, text.as_str()))?;
    }
    Ok(())
}

fn table_reads(rt: &impl Abort, alloc: Global, table: &[LongText]) -> Result<(), Memory> {
    for case in table {
        reads(rt, alloc, case)?;
    }
    Ok(())
}

static MANY_PATTERNS: &[LongText] = &[
    LongText {
        what: "256 patterns",
        texts: ("ASK { ?s ?p ?o", ", ?o", " }"),
        count: 255,
        gives: Ok(("ASK WHERE { ?s ?p ?o .", " ?s ?p ?o .", " }")),
    },
    LongText {
        what: "257 patterns by commas",
        texts: ("ASK { ?s ?p ?o", ", ?o", " }"),
        count: 256,
        gives: Err(Unsupported(1_036)),
    },
    LongText {
        what: "257 patterns by dots",
        texts: ("ASK { ", "?s ?p ?o. ", "}"),
        count: 257,
        gives: Err(Unsupported(2_572)),
    },
    LongText {
        what: "257 patterns by semicolons",
        texts: ("ASK { ?s ?p ?o ", "; ?p ?o ", "}"),
        count: 256,
        gives: Err(Unsupported(2_060)),
    },
    LongText {
        what: "a verb that the grammar does not take in the 257th pattern",
        texts: ("ASK { ", "?s ?p ?o. ", "?s 1 2 }"),
        count: 256,
        gives: Err(BadAt(2_569)),
    },
    LongText {
        what: "an unknown prefix as the object of the 257th pattern",
        texts: ("ASK { ", "?s ?p ?o. ", "?s ?p e:o }"),
        count: 256,
        gives: Err(Unsupported(2_572)),
    },
    LongText {
        what: "an unknown prefix as the verb of the 257th pattern",
        texts: ("ASK { ", "?s ?p ?o. ", "?s e:p ?o }"),
        count: 256,
        gives: Err(QueryReading::UnknownPrefix(2_569)),
    },
    LongText {
        what: "256 patterns in a graph",
        texts: ("ASK { GRAPH ?g { ", "?s ?p ?o. ", "} }"),
        count: 256,
        gives: Ok(("ASK WHERE {", " GRAPH ?g { ?s ?p ?o . }", " }")),
    },
    LongText {
        what: "257 patterns, the last of them in a graph",
        texts: ("ASK { ", "?s ?p ?o. ", "GRAPH ?g { ?s ?p ?o } }"),
        count: 256,
        gives: Err(Unsupported(2_583)),
    },
    LongText {
        what: "257 patterns in a template",
        texts: ("CONSTRUCT { ", "?s ?p ?o. ", "} {}"),
        count: 257,
        gives: Err(Unsupported(2_578)),
    },
    LongText {
        what: "257 patterns behind CONSTRUCT WHERE",
        texts: ("CONSTRUCT WHERE { ", "?s ?p ?o. ", "}"),
        count: 257,
        gives: Err(Unsupported(2_584)),
    },
    LongText {
        what: "256 patterns in a template, and one in the group",
        texts: ("CONSTRUCT { ", "?s ?p ?o. ", "} { ?s ?p ?o }"),
        count: 256,
        gives: Ok(("CONSTRUCT {", " ?s ?p ?o .", " } WHERE { ?s ?p ?o . }")),
    },
];

static LONG_PARTS: &[LongText] = &[
    LongText {
        what: "a string of 65,535 bytes",
        texts: ("ASK { ?s ?p 'é", "a", "' }"),
        count: 65_533,
        gives: Ok(("ASK WHERE { ?s ?p \"é", "a", "\" . }")),
    },
    LongText {
        what: "a string of 65,536 bytes",
        texts: ("ASK { ?s ?p 'é", "a", "' }"),
        count: 65_534,
        gives: Err(Unsupported(12)),
    },
    LongText {
        what: "a string of 65,535 bytes by escapes",
        texts: ("ASK { ?s ?p '", "\\u0061", "' }"),
        count: 65_535,
        gives: Ok(("ASK WHERE { ?s ?p \"", "a", "\" . }")),
    },
    LongText {
        what: "a tag of 65,535 bytes",
        texts: ("ASK { ?s ?p 'a'@", "a", " }"),
        count: 65_535,
        gives: Ok(("ASK WHERE { ?s ?p \"a\"@", "a", " . }")),
    },
    LongText {
        what: "a tag of 65,536 bytes",
        texts: ("ASK { ?s ?p 'a'@", "a", " }"),
        count: 65_536,
        gives: Err(Unsupported(15)),
    },
    LongText {
        what: "an IRI of 65,535 bytes",
        texts: ("ASK { ?s ?p <u:", "a", "> }"),
        count: 65_533,
        gives: Ok(("ASK WHERE { ?s ?p <u:", "a", "> . }")),
    },
    LongText {
        what: "an IRI of 65,536 bytes",
        texts: ("ASK { ?s ?p <u:", "a", "> }"),
        count: 65_534,
        gives: Err(Unsupported(12)),
    },
    LongText {
        what: "a prefixed name of 65,535 bytes behind its namespace",
        texts: ("PREFIX e: <u:a> ASK { ?s ?p e:", "a", " }"),
        count: 65_532,
        gives: Ok(("ASK WHERE { ?s ?p <u:a", "a", "> . }")),
    },
    LongText {
        what: "a prefixed name of 65,536 bytes behind its namespace",
        texts: ("PREFIX e: <u:a> ASK { ?s ?p e:", "a", " }"),
        count: 65_533,
        gives: Err(Unsupported(28)),
    },
    LongText {
        what: "a namespace of 65,536 bytes",
        texts: ("PREFIX e: <u:", "a", "> ASK {}"),
        count: 65_534,
        gives: Err(Unsupported(10)),
    },
    LongText {
        what: "a datatype of 65,536 bytes",
        texts: ("ASK { ?s ?p 'a'^^<u:", "a", "> }"),
        count: 65_534,
        gives: Err(Unsupported(17)),
    },
    LongText {
        what: "a label of 65,535 bytes",
        texts: ("ASK { _:", "a", " ?p ?o }"),
        count: 65_535,
        gives: Ok(("ASK WHERE { _:", "a", " ?p ?o . }")),
    },
    LongText {
        what: "a label of 65,536 bytes",
        texts: ("ASK { _:", "a", " ?p ?o }"),
        count: 65_536,
        gives: Err(Unsupported(6)),
    },
    LongText {
        what: "a number of 65,535 digits",
        texts: ("ASK { ?s ?p ", "1", " }"),
        count: 65_535,
        gives: Ok((
            "ASK WHERE { ?s ?p \"",
            "1",
            "\"^^<http://www.w3.org/2001/XMLSchema#integer> . }",
        )),
    },
    LongText {
        what: "a number of 65,536 digits",
        texts: ("ASK { ?s ?p ", "1", " }"),
        count: 65_536,
        gives: Err(Unsupported(12)),
    },
    LongText {
        what: "the name of a variable has no limit",
        texts: ("ASK { ?", "a", " ?p ?o }"),
        count: 70_000,
        gives: Ok(("ASK WHERE { ?", "a", " ?p ?o . }")),
    },
];

#[test]
fn many_patterns(rt: HostRuntime) -> Result<(), Memory> {
    table_reads(&rt, rt.alloc(), MANY_PATTERNS)
}

#[test]
fn long_parts(rt: HostRuntime) -> Result<(), Memory> {
    table_reads(&rt, rt.alloc(), LONG_PARTS)
}
