//! Two workers on one house, one after the other, and the gate that they pass.
use crate::exchange::serve_both;
use crate::watch::Watch;
use rdf_term::Memory;
use session::OpenGate;

const POST: &str =
    "POST /rdf4j-server/repositories/r/statements HTTP/1.1\r\nHost: h\r\nContent-Type: application/n-quads\r\nContent-Length: 32\r\n\r\n<http://e/s> <http://e/p> \"1\" .\n";

const PROTOCOL: &str = "GET /rdf4j-server/protocol HTTP/1.1\r\nHost: h\r\n\r\n";

const LIST: &str =
    "GET /rdf4j-server/repositories/r/statements HTTP/1.1\r\nHost: h\r\nAccept: application/n-quads\r\n\r\n";

#[test]
fn one_worker_lists_what_the_other_posts(rt: HostRuntime) -> Result<(), Memory> {
    let (one, other) = serve_both(&rt, rt.alloc(), 0, POST, LIST, &OpenGate)?;
    assert!(rt; one.is_done("HTTP/1.1 204 No Content\r\n\r\n"));
    assert!(rt;
        other.is_done(
            "HTTP/1.1 200 OK\r\nContent-Type: application/n-quads\r\nContent-Length: 32\r\n\r\n<http://e/s> <http://e/p> \"1\" .\n"
        )
    );
    Ok(())
}

// The second request has no entries, and the numbers of the last two can't rise.
#[test]
fn requests_pass_the_gate_pinned_and_written(rt: HostRuntime) -> Result<(), Memory> {
    let alloc = rt.alloc();
    let requests = format!(in alloc; "{POST}{PROTOCOL}{LIST}")?;
    let watch = Watch::new();
    serve_both(&rt, alloc, u64::MAX - 1, requests.as_str(), "", &watch)?;
    assert_eq!(rt; watch.counts(), (2, 3, 3));
    Ok(())
}
