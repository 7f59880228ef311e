//! Each line of a script, good and bad.
use crate::shown::line_text;
use rdf_term::Memory;
use std::alloc::Global;
use std::process::Abort;

/// Each line is read as its text.
fn expect<R: Abort>(rt: &R, alloc: Global, table: &[(&str, &str)]) -> Result<(), Memory> {
    for (line, want) in table {
        assert_eq!(rt;
            line_text(alloc, line.as_bytes())?.as_str(),
            *want,
            "{line}"
        );
    }
    Ok(())
}

#[test]
fn lines_that_do_nothing(rt: HostRuntime) -> Result<(), Memory> {
    expect(
        &rt,
        rt.alloc(),
        &[
            ("", "nothing"),
            ("#", "nothing"),
            ("# size", "nothing"),
            ("#size", "nothing"),
            (" # size", "none"),
            (" ", "none"),
        ],
    )
}

#[test]
fn levels(rt: HostRuntime) -> Result<(), Memory> {
    expect(
        &rt,
        rt.alloc(),
        &[
            ("begin NONE", "begin 0"),
            ("begin READ_UNCOMMITTED", "begin 1"),
            ("begin READ_COMMITTED", "begin 2"),
            ("begin SNAPSHOT_READ", "begin 3"),
            ("begin SNAPSHOT", "begin 4"),
            ("begin SERIALIZABLE", "begin 5"),
            ("begin", "none"),
            ("begin ", "none"),
            ("begin  SNAPSHOT", "none"),
            ("begin SNAPSHOT ", "none"),
            ("begin snapshot", "none"),
            ("begin x/SNAPSHOT", "none"),
            ("begin x#SNAPSHOT", "none"),
            ("begin SERIAL", "none"),
            (" begin SNAPSHOT", "none"),
            ("BEGIN SNAPSHOT", "none"),
            ("beginSNAPSHOT", "none"),
        ],
    )
}

#[test]
fn statements(rt: HostRuntime) -> Result<(), Memory> {
    expect(
        &rt,
        rt.alloc(),
        &[
            (
                "add <http://e/s> <http://e/p> \"1\" .",
                "add <http://e/s> <http://e/p> \"1\" .",
            ),
            (
                "add <http://e/s> <http://e/p> _:b <http://e/g> .",
                "add <http://e/s> <http://e/p> _:b <http://e/g> .",
            ),
            (
                "add <http://e/s><http://e/p>\"\\u00E9\"@en. # c",
                "add <http://e/s> <http://e/p> \"é\"@en .",
            ),
            (
                "add  <http://e/s> <http://e/p> \"1\" .",
                "add <http://e/s> <http://e/p> \"1\" .",
            ),
            (
                "remove _:a <http://e/p> \"1\" _:g .",
                "remove _:a <http://e/p> \"1\" _:g .",
            ),
            (
                "remove <http://e/s> <http://e/p> \"1\" .",
                "remove <http://e/s> <http://e/p> \"1\" .",
            ),
            ("add", "none"),
            ("add ", "none"),
            ("add # c", "none"),
            ("add <http://e/s> <http://e/p> \"1\"", "none"),
            ("add <http://e/s> <http://e/p> \"1\" .\r", "none"),
            ("add <s> <http://e/p> \"1\" .", "none"),
            ("add \"1\" <http://e/p> \"1\" .", "none"),
            ("remove", "none"),
            ("remove ", "none"),
            ("remove #", "none"),
            ("remove <http://e/s>", "none"),
            ("Add <http://e/s> <http://e/p> \"1\" .", "none"),
        ],
    )
}

#[test]
fn statements_with_long_parts(rt: HostRuntime) -> Result<(), Memory> {
    let alloc = rt.alloc();
    let mut line = String::from_str(alloc, "add <http://e/s> <http://e/p> \"")?;
    for _ in 0..65_535 {
        line.push('a')?;
    }
    let mut longer = String::from_str(alloc, line.as_str())?;
    line.push_str("\" .")?;
    longer.push_str("a\" .")?;
    assert!(rt; line_text(alloc, line.as_bytes())?.len() > 65_535);
    assert_eq!(rt; line_text(alloc, longer.as_bytes())?.as_str(), "none");
    Ok(())
}

#[test]
fn queries(rt: HostRuntime) -> Result<(), Memory> {
    expect(
        &rt,
        rt.alloc(),
        &[
            ("query SELECT ?o WHERE { ?s <http://e/p> ?o }", "query"),
            ("query ASK {}", "query"),
            ("query  ASK {} # c", "query"),
            ("query CONSTRUCT WHERE { ?s <http://e/p> ?o }", "query"),
            ("query", "none"),
            ("query ", "none"),
            ("query SELECT", "none"),
            ("query SELECT ?x WHERE { ?x ?p }", "none"),
            ("query ASK { e:a ?p ?o }", "none"),
            ("query SELECT ?x FROM <http://e/g> WHERE {}", "none"),
            ("Query ASK {}", "none"),
        ],
    )
}

#[test]
fn words_alone(rt: HostRuntime) -> Result<(), Memory> {
    let alloc = rt.alloc();
    for word in [
        "list",
        "size",
        "contexts",
        "namespaces",
        "ping",
        "commit",
        "rollback",
        "quit",
    ] {
        assert_eq!(rt; line_text(alloc, word.as_bytes())?.as_str(), word);
        for line in [
            format!(in alloc; "{word} ")?,
            format!(in alloc; " {word}")?,
            format!(in alloc; "{word}\r")?,
            format!(in alloc; "{word} x")?,
            format!(in alloc; "{word}s")?,
            format!(in alloc; "{word}\t")?,
        ] {
            assert_eq!(rt;
                line_text(alloc, line.as_bytes())?.as_str(),
                "none",
                "{line}"
            );
        }
    }
    expect(
        &rt,
        alloc,
        &[
            ("LIST", "none"),
            ("Quit", "none"),
            ("siz", "none"),
            ("help", "none"),
        ],
    )
}

#[test]
fn prefixes(rt: HostRuntime) -> Result<(), Memory> {
    expect(
        &rt,
        rt.alloc(),
        &[
            ("prefix ex http://e/", "prefix ex http://e/"),
            ("prefix e.x-1 urn:a", "prefix e.x-1 urn:a"),
            ("prefix é http://é/", "prefix é http://é/"),
            ("prefix", "none"),
            ("prefix ", "none"),
            ("prefix ex", "none"),
            ("prefix ex ", "none"),
            ("prefix ex: http://e/", "none"),
            ("prefix  http://e/", "none"),
            ("prefix ex  http://e/", "none"),
            ("prefix ex http://e/ ", "none"),
            ("prefix ex <http://e/>", "none"),
            ("prefix ex e", "none"),
            ("prefix ex http://e/\\u00E9", "none"),
            ("prefix 1x http://e/", "none"),
            ("prefix _x http://e/", "none"),
            ("prefix ex. http://e/", "none"),
            ("Prefix ex http://e/", "none"),
        ],
    )
}

#[test]
fn long_namespaces(rt: HostRuntime) -> Result<(), Memory> {
    let alloc = rt.alloc();
    let mut line = String::from_str(alloc, "prefix ex http://e/")?;
    for _ in 0..65_526 {
        line.push('a')?;
    }
    assert!(rt; line_text(alloc, line.as_bytes())?.len() > 65_535);
    line.push('a')?;
    assert_eq!(rt; line_text(alloc, line.as_bytes())?.as_str(), "none");
    Ok(())
}

#[test]
fn bytes_that_are_no_text(rt: HostRuntime) -> Result<(), Memory> {
    let alloc = rt.alloc();
    for line in [
        b"#\xFF".as_slice(),
        b"\xFF".as_slice(),
        b"query ASK {} #\xFF".as_slice(),
        b"add <http://e/s> <http://e/p> \"\xFF\" .".as_slice(),
        b"prefix \xFF http://e/".as_slice(),
        b"prefix ex http://e/\xFF".as_slice(),
    ] {
        assert_eq!(rt; line_text(alloc, line)?.as_str(), "none");
    }
    Ok(())
}
