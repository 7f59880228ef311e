//! Reports of sessions.
use crate::houses::{answered, empty_house, full};
use journal::Mark;
use rdf_term::Memory;
use session::{Outcome, SessionEnd, Turn, sound_sessions_end_alike, whole_streams_end_done};

const ADD: &str =
    "POST /rdf4j-server/repositories/r/statements HTTP/1.1\r\nHost: h\r\nContent-Type: application/n-triples\r\nContent-Length: 41\r\n\r\n<http://e/s> <http://e/p> <http://e/o> .\n";

const SIZE: &str = "GET /rdf4j-server/repositories/r/size HTTP/1.1\r\nHost: h\r\n\r\n";

const OTHER_SIZE: &str = "GET /rdf4j-server/repositories/s/size HTTP/1.1\r\nHost: h\r\n\r\n";

const PROTOCOL: &str = "GET /rdf4j-server/protocol HTTP/1.1\r\nHost: h\r\n\r\n";

const BEGIN: &str =
    "POST /rdf4j-server/repositories/r/transactions?isolation-level=READ_COMMITTED HTTP/1.1\r\nHost: h\r\n\r\n";

const COMMIT: &str =
    "PUT /rdf4j-server/repositories/r/transactions/0-2?action=COMMIT HTTP/1.1\r\nHost: h\r\n\r\n";

/// A query of two patterns in the transaction.
const TWO_PATTERNS: &str =
    "PUT /rdf4j-server/repositories/r/transactions/0-2?action=QUERY HTTP/1.1\r\nHost: h\r\nContent-Type: application/sparql-query\r\nContent-Length: 27\r\n\r\nASK { ?x ?p ?y . ?y ?q ?z }";

const fn mark(repo: u32, place: u64) -> Mark {
    Mark { repo, place }
}

#[test]
fn an_entry_stands_behind_an_answer_that_was_not_written(rt: HostRuntime) -> Result<(), Memory> {
    sound_sessions_end_alike();
    whole_streams_end_done();
    let alloc = rt.alloc();
    for call in [0, 1] {
        let mut house = empty_house(alloc, 8)?;
        let failed = house.serve(alloc, &[ADD], vec![in alloc; call; 1]?)?;
        assert!(rt; failed.is(SessionEnd::WriteFault, &[answered(1)], &[mark(0, 0)], ""));
        let later = house.calm(alloc, &[SIZE])?;
        assert!(rt; later.is(SessionEnd::Done, &[answered(1)], &[mark(0, 1)], "\r\n\r\n1"));
    }
    Ok(())
}

#[test]
fn a_full_journal_takes_no_entry(rt: HostRuntime) -> Result<(), Memory> {
    let alloc = rt.alloc();
    let mut house = empty_house(alloc, 2)?;
    let first = house.calm(alloc, &[ADD, SIZE])?;
    let turns = [answered(1), answered(1)];
    assert!(rt;
        first.is(
            SessionEnd::Done,
            &turns,
            &[mark(0, 0), mark(0, 1)],
            "\r\n\r\n1"
        )
    );
    for request in [SIZE, ADD] {
        let later = house.calm(alloc, &[request])?;
        assert!(rt; later.is(SessionEnd::Done, &[full(0)], &[], "\r\n\r\njournal full"));
    }
    let others = house.calm(alloc, &[PROTOCOL, OTHER_SIZE])?;
    let turns = [answered(0), answered(1)];
    assert!(rt; others.is(SessionEnd::Done, &turns, &[mark(1, 0)], "\r\n\r\n0"));
    Ok(())
}

#[test]
fn each_pattern_of_a_query_is_an_entry(rt: HostRuntime) -> Result<(), Memory> {
    let alloc = rt.alloc();
    let mut small = empty_house(alloc, 2)?;
    let cut = small.calm(alloc, &[BEGIN, TWO_PATTERNS])?;
    let turns = [answered(1), full(1)];
    let marks = [mark(0, 0), mark(0, 1)];
    assert!(rt; cut.is(SessionEnd::Done, &turns, &marks, "\r\n\r\njournal full"));
    let mut large = empty_house(alloc, 8)?;
    let whole = large.calm(alloc, &[BEGIN, TWO_PATTERNS, COMMIT])?;
    let turns = [answered(1), answered(2), answered(1)];
    let marks = [mark(0, 0), mark(0, 1), mark(0, 2), mark(0, 3)];
    assert!(rt;
        whole.is(
            SessionEnd::Done,
            &turns,
            &marks,
            "Content-Length: 0\r\n\r\n"
        )
    );
    Ok(())
}

#[test]
fn transactions_outlive_their_session(rt: HostRuntime) -> Result<(), Memory> {
    let alloc = rt.alloc();
    let mut house = empty_house(alloc, 8)?;
    let first = house.calm(alloc, &[BEGIN, "\u{1}"])?;
    assert!(rt;
        first.is(
            SessionEnd::Refused,
            &[answered(1)],
            &[mark(0, 0)],
            "bad head"
        )
    );
    let second = house.calm(alloc, &[COMMIT, COMMIT])?;
    let turns = [answered(1), answered(1)];
    let marks = [mark(0, 1), mark(0, 2)];
    assert!(rt; second.is(SessionEnd::Done, &turns, &marks, "no such transaction"));
    Ok(())
}

#[test]
fn a_request_that_is_no_call_makes_no_entry(rt: HostRuntime) -> Result<(), Memory> {
    let alloc = rt.alloc();
    let mut house = empty_house(alloc, 8)?;
    let refused = Turn {
        marks: 0,
        outcome: Outcome::FormRefused,
    };
    let served = house.calm(alloc, &["GET / HTTP/1.0\r\n\r\n"])?;
    assert!(rt; served.is(SessionEnd::Done, &[refused], &[], "no such resource"));
    Ok(())
}
