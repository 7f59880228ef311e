//! The text of sessions, and the requests that are cut from it.
use http_frame::{FrameFault, Frames, Request};
use rdf_io::{MemSource, Source};
use rdf_term::{Bytes, Memory};
use std::alloc::Global;
use workload::make_session;

/// The one round of the session 0.
const ONE_ROUND: &str =
    "POST /rdf4j-server/repositories/w0/transactions?isolation-level=SERIALIZABLE HTTP/1.1\r\nHost: w\r\n\r\n\
PUT /rdf4j-server/repositories/w0/transactions/0-5?action=ADD HTTP/1.1\r\nHost: w\r\nContent-Type: application/n-quads\r\nContent-Length: 37\r\n\r\n\
<http://w/s0/0> <http://w/p> \"838\" .\n\
PUT /rdf4j-server/repositories/w0/transactions/0-5?action=COMMIT HTTP/1.1\r\nHost: w\r\n\r\n\
POST /rdf4j-server/repositories/all/statements HTTP/1.1\r\nHost: w\r\nContent-Type: application/n-quads\r\nContent-Length: 37\r\n\r\n\
<http://w/s0/0> <http://w/p> \"838\" .\n";

/// The last request of the session 1 with four rounds.
const DELETION: &str =
    "DELETE /rdf4j-server/repositories/all/statements?subj=%3Chttp%3A%2F%2Fw%2Fs1%2F3%3E HTTP/1.1\r\nHost: w\r\n\r\n";

/// Sessions and numbers of rounds, the last line of each, and how many bytes it has.
const LAST_LINES: [(u32, u32, &str, usize); 6] = [
    (0, 2, "<http://w/s0/1> <http://w/p> \"758\" .\n", 1038),
    (0, 7, "<http://w/s0/6> <http://w/p> \"10\" .\n", 3740),
    (1, 3, "<http://w/s1/2> <http://w/p> \"239\" .\n", 1557),
    (1, 6, "<http://w/s1/5> <http://w/p> \"95\" .\n", 3221),
    (2, 2, "<http://w/s2/1> <http://w/p> \"107\" .\n", 1038),
    (14, 3, "<http://w/s14/2> <http://w/p> \"874\" .\n", 1572),
];

#[test]
fn one_round_is_written_as_stated(rt: HostRuntime) -> Result<(), Memory> {
    let alloc = rt.alloc();
    let session = make_session(alloc, 0, 1)?;
    assert!(rt; session.as_slice() == ONE_ROUND.as_bytes());
    assert_eq!(rt; make_session(alloc, 0, 0)?.len(), 0);
    Ok(())
}

#[test]
fn every_fourth_round_deletes(rt: HostRuntime) -> Result<(), Memory> {
    let alloc = rt.alloc();
    let session = make_session(alloc, 1, 4)?;
    assert!(rt; session.as_slice().ends_with(DELETION.as_bytes()));
    assert_eq!(rt; session.len(), 2181);
    Ok(())
}

#[test]
fn values_are_drawn_by_the_generator(rt: HostRuntime) -> Result<(), Memory> {
    let alloc = rt.alloc();
    for (number, rounds, line, length) in LAST_LINES {
        let session = make_session(alloc, number, rounds)?;
        assert!(rt; session.as_slice().ends_with(line.as_bytes()), "{line}");
        assert_eq!(rt; session.len(), length);
    }
    assert_eq!(rt; make_session(alloc, 14, 10_000)?.len(), 5_640_345);
    Ok(())
}

fn next<S: Source>(frames: &mut Frames, source: &mut S) -> Result<Option<Request>, FrameFault> {
    match frames.next_head(source)? {
        None => Ok(None),
        Some(head) => Ok(Some(frames.read_body(head, source)?)),
    }
}

/// How many requests a session is cut into, and how many bytes their bodies have.
fn requests_of(alloc: Global, session: Bytes) -> Result<(u64, usize), FrameFault> {
    let mut source = MemSource::new(session, Vec::new(alloc), Vec::new(alloc));
    let mut frames = Frames::new(alloc)?;
    let mut count = 0u64;
    let mut bodies = 0usize;
    for _ in 0..100_000u32 {
        let Some(request) = next(&mut frames, &mut source)? else {
            return Ok((count, bodies));
        };
        count = count.saturating_add(1);
        bodies = bodies.saturating_add(request.body.len());
    }
    Ok((count, bodies))
}

#[test]
fn sessions_are_requests(rt: HostRuntime) -> Result<(), FrameFault> {
    let alloc = rt.alloc();
    for (number, rounds, count, length) in [
        (0, 0, 0, 0),
        (0, 1, 4, 74),
        (3, 4, 17, 296),
        (1, 100, 425, 7564),
    ] {
        let session = make_session(alloc, number, rounds)?;
        let (found, bodies) = requests_of(alloc, session)?;
        assert_eq!(rt; found, count);
        assert_eq!(rt; bodies, length);
    }
    Ok(())
}
