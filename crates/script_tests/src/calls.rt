//! The calls of the lines, outside a transaction and in one.
use crate::shown::action_text;
use client_script::txn_after;
use journal::{Level, NamesOp, Op, Reply, Txn};
use rdf_term::Memory;

const HERE: Txn = Txn {
    place: 7,
    level: Level::Snapshot,
};

#[test]
fn calls_outside_transactions(rt: HostRuntime) -> Result<(), Memory> {
    let alloc = rt.alloc();
    for (line, want) in [
        ("", "skip"),
        ("# c", "skip"),
        ("begin SERIALIZABLE", "r: begin 5, PlainText"),
        (
            "add <http://e/s> <http://e/p> \"1\" .",
            "r: write add <http://e/s> <http://e/p> \"1\" ., PlainText",
        ),
        (
            "remove <http://e/s> <http://e/p> \"1\" .",
            "r: write match spo absent, PlainText",
        ),
        (
            "remove <http://e/s> <http://e/p> \"1\" <http://e/g> .",
            "r: write match spo one, PlainText",
        ),
        (
            "query SELECT ?o WHERE { ?s <http://e/p> ?o }",
            "r: read query, ResultsJson",
        ),
        ("query ASK {}", "r: read query, ResultsJson"),
        (
            "query CONSTRUCT WHERE { ?s <http://e/p> ?o }",
            "r: read query, NQuads",
        ),
        ("list", "r: read list, NQuads"),
        ("size", "r: read size, PlainText"),
        ("contexts", "r: read contexts, ResultsJson"),
        ("namespaces", "r: names list, ResultsJson"),
        ("prefix ex http://e/", "r: names put, PlainText"),
        ("ping", "refuse"),
        ("commit", "refuse"),
        ("rollback", "refuse"),
        ("quit", "end"),
    ] {
        assert_eq!(rt;
            action_text(alloc, None, line.as_bytes())?.as_str(),
            want,
            "{line}"
        );
    }
    Ok(())
}

#[test]
fn calls_in_a_transaction(rt: HostRuntime) -> Result<(), Memory> {
    let alloc = rt.alloc();
    for (line, want) in [
        ("", "skip"),
        ("begin SERIALIZABLE", "refuse"),
        (
            "add <http://e/s> <http://e/p> \"1\" .",
            "r: write add <http://e/s> <http://e/p> \"1\" . in 7-4, PlainText",
        ),
        (
            "remove <http://e/s> <http://e/p> \"1\" .",
            "r: write remove <http://e/s> <http://e/p> \"1\" . in 7-4, PlainText",
        ),
        ("query ASK {}", "r: read query in 7-4, ResultsJson"),
        ("list", "r: read list in 7-4, NQuads"),
        ("size", "r: read size in 7-4, PlainText"),
        ("contexts", "r: read contexts, ResultsJson"),
        ("namespaces", "r: names list, ResultsJson"),
        ("prefix ex http://e/", "r: names put, PlainText"),
        ("ping", "r: ping 7-4, PlainText"),
        ("commit", "r: commit 7-4, PlainText"),
        ("rollback", "r: rollback 7-4, PlainText"),
        ("quit", "end"),
    ] {
        assert_eq!(rt;
            action_text(alloc, Some(HERE), line.as_bytes())?.as_str(),
            want,
            "{line}"
        );
    }
    Ok(())
}

#[test]
fn current_transactions(rt: HostRuntime) {
    let other = Txn {
        place: 9,
        level: Level::Serializable,
    };
    let begin = Op::Begin(Level::Serializable);
    assert!(rt; txn_after(None, &begin, &Reply::Begun(other)) == Some(other));
    assert!(rt; txn_after(None, &begin, &Reply::TooManyOpen) == None);
    assert!(rt; txn_after(Some(HERE), &Op::Ping(HERE), &Reply::Done) == Some(HERE));
    assert!(rt; txn_after(Some(HERE), &Op::Names(NamesOp::List), &Reply::Done) == Some(HERE));
    assert!(rt; txn_after(Some(HERE), &Op::Commit(HERE), &Reply::Done) == None);
    assert!(rt; txn_after(Some(HERE), &Op::Commit(HERE), &Reply::TooLarge) == Some(HERE));
    assert!(rt; txn_after(Some(HERE), &Op::Rollback(HERE), &Reply::Done) == None);
    assert!(rt; txn_after(Some(HERE), &Op::Rollback(HERE), &Reply::NoTransaction) == Some(HERE));
}
