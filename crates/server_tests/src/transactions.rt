//! Transactions at each level, byte for byte, whole and in single bytes.
use crate::exchange::{
    Exchange, NO_CONTENT, OK, ONE, QUADS, QUERY, RESULTS, TEXT, Texts, is_run, is_session,
};
use rdf_term::Memory;
use std::alloc::Global;

const TWO: &str = "<http://e/s> <http://e/p> \"2\" .\n";

const SELECT: &str = "SELECT ?o WHERE { ?s <http://e/p> ?o }";

const NO_ROW: &str = "{\"head\":{\"vars\":[\"o\"]},\"results\":{\"bindings\":[]}}";

const CREATED: &str = "201 Created";

/// Whether these requests on one empty repository are answered so, and the session is done.
fn is_worked(alloc: Global, exchanges: &[Exchange]) -> Result<bool, Memory> {
    is_session(alloc, &["stdio", "r"], exchanges)
}

/// Reads of a snapshot that was pinned at the begin, and of one that is pinned at each read.
const SNAPSHOTS: [Exchange; 5] = [
    (
        "POST r/transactions?isolation-level=SNAPSHOT",
        "",
        "",
        CREATED,
        "Location: /rdf4j-server/repositories/r/transactions/0-4\r\n",
        "",
    ),
    (
        "POST r/transactions?isolation-level=SNAPSHOT_READ",
        "",
        "",
        CREATED,
        "Location: /rdf4j-server/repositories/r/transactions/1-3\r\n",
        "",
    ),
    ("POST r/statements", QUADS, ONE, NO_CONTENT, "", ""),
    ("PUT r/transactions/0-4?action=SIZE", "", "", OK, TEXT, "0"),
    ("PUT r/transactions/1-3?action=SIZE", "", "", OK, TEXT, "1"),
];

#[test]
fn snapshots_are_pinned_at_begin_or_at_each_read(rt: HostRuntime) -> Result<(), Memory> {
    assert!(rt; is_worked(rt.alloc(), &SNAPSHOTS)?);
    Ok(())
}

/// Reads at READ_UNCOMMITTED beside writes at it and at another level.
const DIRTY_READS: [Exchange; 8] = [
    (
        "POST r/transactions?isolation-level=READ_UNCOMMITTED",
        "",
        "",
        CREATED,
        "Location: /rdf4j-server/repositories/r/transactions/0-1\r\n",
        "",
    ),
    (
        "POST r/transactions?isolation-level=READ_UNCOMMITTED",
        "",
        "",
        CREATED,
        "Location: /rdf4j-server/repositories/r/transactions/1-1\r\n",
        "",
    ),
    (
        "POST r/transactions?isolation-level=SNAPSHOT",
        "",
        "",
        CREATED,
        "Location: /rdf4j-server/repositories/r/transactions/2-4\r\n",
        "",
    ),
    (
        "PUT r/transactions/1-1?action=ADD",
        QUADS,
        ONE,
        NO_CONTENT,
        "",
        "",
    ),
    (
        "PUT r/transactions/2-4?action=ADD",
        QUADS,
        TWO,
        NO_CONTENT,
        "",
        "",
    ),
    ("PUT r/transactions/0-1?action=SIZE", "", "", OK, TEXT, "1"),
    ("DELETE r/transactions/1-1", "", "", NO_CONTENT, "", ""),
    ("PUT r/transactions/0-1?action=SIZE", "", "", OK, TEXT, "0"),
];

#[test]
fn dirty_reads_show_read_uncommitted_writes(rt: HostRuntime) -> Result<(), Memory> {
    assert!(rt; is_worked(rt.alloc(), &DIRTY_READS)?);
    Ok(())
}

/// A write at NONE, and the end of its transaction.
const UNISOLATED: [Exchange; 4] = [
    (
        "POST r/transactions?isolation-level=NONE",
        "",
        "",
        CREATED,
        "Location: /rdf4j-server/repositories/r/transactions/0-0\r\n",
        "",
    ),
    (
        "PUT r/transactions/0-0?action=ADD",
        QUADS,
        ONE,
        NO_CONTENT,
        "",
        "",
    ),
    ("DELETE r/transactions/0-0", "", "", NO_CONTENT, "", ""),
    ("GET r/size", "", "", OK, TEXT, "1"),
];

#[test]
fn writes_at_none_outlive_a_rollback(rt: HostRuntime) -> Result<(), Memory> {
    assert!(rt; is_worked(rt.alloc(), &UNISOLATED)?);
    Ok(())
}

const SERIALIZABLE: &str = "POST r/transactions?isolation-level=SERIALIZABLE";

/// Two transactions that each read what the other one writes.
const CLASHING: [Exchange; 11] = [
    (
        SERIALIZABLE,
        "",
        "",
        CREATED,
        "Location: /rdf4j-server/repositories/r/transactions/0-5\r\n",
        "",
    ),
    (
        SERIALIZABLE,
        "",
        "",
        CREATED,
        "Location: /rdf4j-server/repositories/r/transactions/1-5\r\n",
        "",
    ),
    (
        "PUT r/transactions/0-5?action=QUERY",
        QUERY,
        SELECT,
        OK,
        RESULTS,
        NO_ROW,
    ),
    (
        "PUT r/transactions/1-5?action=QUERY",
        QUERY,
        SELECT,
        OK,
        RESULTS,
        NO_ROW,
    ),
    (
        "PUT r/transactions/0-5?action=ADD",
        QUADS,
        ONE,
        NO_CONTENT,
        "",
        "",
    ),
    (
        "PUT r/transactions/1-5?action=ADD",
        QUADS,
        TWO,
        NO_CONTENT,
        "",
        "",
    ),
    ("PUT r/transactions/0-5?action=COMMIT", "", "", OK, "", ""),
    (
        "PUT r/transactions/1-5?action=COMMIT",
        "",
        "",
        "409 Conflict",
        TEXT,
        ONE,
    ),
    (
        "PUT r/transactions/1-5?action=COMMIT",
        "",
        "",
        "409 Conflict",
        TEXT,
        ONE,
    ),
    ("DELETE r/transactions/1-5", "", "", NO_CONTENT, "", ""),
    (
        "PUT r/transactions/1-5?action=COMMIT",
        "",
        "",
        "404 Not Found",
        TEXT,
        "no such transaction",
    ),
];

#[test]
fn the_second_of_two_clashing_commits_is_refused(rt: HostRuntime) -> Result<(), Memory> {
    assert!(rt; is_worked(rt.alloc(), &CLASHING)?);
    Ok(())
}

/// A quad that comes and goes while a transaction has read everything.
const PASSING: [Exchange; 5] = [
    (
        SERIALIZABLE,
        "",
        "",
        CREATED,
        "Location: /rdf4j-server/repositories/r/transactions/0-5\r\n",
        "",
    ),
    ("PUT r/transactions/0-5?action=GET", "", "", OK, QUADS, ""),
    ("POST r/statements", QUADS, ONE, NO_CONTENT, "", ""),
    ("DELETE r/statements", "", "", NO_CONTENT, "", ""),
    (
        "PUT r/transactions/0-5?action=COMMIT",
        "",
        "",
        "409 Conflict",
        TEXT,
        ONE,
    ),
];

#[test]
fn a_quad_that_came_and_went_is_a_conflict(rt: HostRuntime) -> Result<(), Memory> {
    assert!(rt; is_worked(rt.alloc(), &PASSING)?);
    Ok(())
}

/// Adds the begin of a transaction at this place.
fn add_begin(alloc: Global, texts: &mut Texts, place: u32) -> Result<(), Memory> {
    texts.input.push_str(
        "POST /rdf4j-server/repositories/r/transactions?isolation-level=READ_COMMITTED HTTP/1.1\r\nHost: h\r\n\r\n",
    )?;
    let answer = format!(in alloc;
        "HTTP/1.1 201 Created\r\nLocation: /rdf4j-server/repositories/r/transactions/{place}-2\r\nContent-Length: 0\r\n\r\n"
    )?;
    texts.want.push_str(answer.as_str())?;
    Ok(())
}

#[test]
fn a_repository_has_1_024_open_transactions(rt: HostRuntime) -> Result<(), Memory> {
    let alloc = rt.alloc();
    let mut texts = Texts::new(alloc);
    for place in 0..1_024u32 {
        add_begin(alloc, &mut texts, place)?;
    }
    let refused = (
        "POST r/transactions?isolation-level=READ_COMMITTED",
        "",
        "",
        "429 Too Many Requests",
        TEXT,
        "too many transactions",
    );
    texts.add(alloc, refused)?;
    texts.add(
        alloc,
        ("DELETE r/transactions/7-2", "", "", NO_CONTENT, "", ""),
    )?;
    add_begin(alloc, &mut texts, 1_026)?;
    let input = texts.input.as_str();
    assert!(rt; is_run(alloc, &["stdio", "r"], input, 0, texts.want.as_str())?);
    Ok(())
}
