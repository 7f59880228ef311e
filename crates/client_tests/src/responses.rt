//! Responses that the server does not spell so, refusals, and those that end early.
use crate::client::{CALM, Outside, Ran, SERVED, WORDS, play, run, run_words};
use rdf_term::Memory;
use std::alloc::Global;

#[test]
fn other_spellings(rt: HostRuntime) -> Result<(), Memory> {
    let alloc = rt.alloc();
    for responses in [
        "HTTP/1.1 200 OK\r\nContent-Length: 1\r\n\r\n7",
        "HTTP/1.1 200\r\nCONTENT-LENGTH:1\r\nX: y\r\n\r\n7",
        "HTTP/1.0 200 Fine\r\n\r\n7",
        "HTTP/1.1 201 Created\r\nContent-Length: 1\r\n\r\n7",
        "HTTP/1.1 200 OK\r\nTransfer-Encoding: chunked\r\n\r\n1;a=b\r\n7\r\n0\r\nA: b\r\n\r\n",
        "HTTP/1.1 200 OK\r\nContent-Type: text/plain\r\n\r\n7",
        "HTTP/1.1 100 Continue\r\n\r\nHTTP/1.1 103 Early Hints\r\nLink: </a>\r\n\r\nHTTP/1.1 200 OK\r\nContent-Length: 1\r\n\r\n7",
    ] {
        for cut in [0, 1] {
            let ran = run(alloc, "size\n", responses, Outside { cut, ..CALM })?;
            assert!(rt; ran.is(0, "size 7\n"), "{responses}");
        }
    }
    Ok(())
}

/// The texts of the interface's refusals, that of a conflict apart, which is a line of N-Quads.
const REFUSALS: [(u16, &str, &str); 26] = [
    (400, "Bad Request", "bad head"),
    (400, "Bad Request", "bad host"),
    (400, "Bad Request", "bad body"),
    (400, "Bad Request", "truncated body"),
    (400, "Bad Request", "bad parameter action"),
    (400, "Bad Request", "bad parameter query"),
    (400, "Bad Request", "bad line 3"),
    (400, "Bad Request", "long line 2"),
    (400, "Bad Request", "bad query at 0"),
    (400, "Bad Request", "unsupported at 9"),
    (400, "Bad Request", "unknown prefix at 12"),
    (400, "Bad Request", "bad namespace"),
    (404, "Not Found", "no such resource"),
    (404, "Not Found", "no such repository"),
    (404, "Not Found", "no such transaction"),
    (404, "Not Found", "no such prefix"),
    (405, "Method Not Allowed", "method not allowed"),
    (406, "Not Acceptable", "not acceptable"),
    (413, "Content Too Large", "body too long"),
    (415, "Unsupported Media Type", "unsupported media type"),
    (429, "Too Many Requests", "too many transactions"),
    (501, "Not Implemented", "unsupported transfer coding"),
    (503, "Service Unavailable", "out of memory"),
    (507, "Insufficient Storage", "repository full"),
    (507, "Insufficient Storage", "too many rows"),
    (507, "Insufficient Storage", "journal full"),
];

/// A run of two lines, the first of which is refused.
fn run_refused(alloc: Global, status: u16, reason: &str, text: &str) -> Result<Ran, Memory> {
    let length = text.len();
    let response = format!(in alloc;
        "HTTP/1.1 {status} {reason}\r\nContent-Type: text/plain;charset=UTF-8\r\nContent-Length: {length}\r\n\r\n{text}"
    )?;
    run(alloc, "size\nsize\n", response.as_str(), CALM)
}

#[test]
fn refusals(rt: HostRuntime) -> Result<(), Memory> {
    let alloc = rt.alloc();
    for (status, reason, text) in REFUSALS {
        let ran = run_refused(alloc, status, reason, text)?;
        let printed = format!(in alloc; "refused {status} {text}\n")?;
        assert!(rt; ran.is(1, printed.as_str()), "{status} {text}");
    }
    Ok(())
}

/// A text with a line feed at its end, an empty one, and one of another server; and a refusal by the server.
#[test]
fn other_refusals(rt: HostRuntime) -> Result<(), Memory> {
    let alloc = rt.alloc();
    for (status, reason, text, printed) in [
        (
            409,
            "Conflict",
            "<http://e/s> <http://e/p> \"1\" .\n",
            "refused 409 <http://e/s> <http://e/p> \"1\" .\n",
        ),
        (405, "Method Not Allowed", "", "refused 405 \n"),
        (302, "Found", "elsewhere", "refused 302 elsewhere\n"),
    ] {
        let ran = run_refused(alloc, status, reason, text)?;
        assert!(rt; ran.is(1, printed), "{status}");
    }
    let ran = play(alloc, &["stdio", "s"], "r", "size\nsize\n")?.0;
    assert!(rt; ran.is(1, "refused 404 no such repository\n"));
    Ok(())
}

#[test]
fn responses_without_a_reply(rt: HostRuntime) -> Result<(), Memory> {
    let alloc = rt.alloc();
    for responses in [
        "",
        "nothing",
        "HTTP/1.1 200 OK\r\nContent-Length: 1\r\n\r\nx",
        "HTTP/1.1 204 No Content\r\n\r\n",
        "HTTP/1.1 200 OK\r\nContent-Length: 1\r\nTransfer-Encoding: chunked\r\n\r\n7",
        "HTTP/1.1 200 OK\r\nTransfer-Encoding: chunked\r\n\r\nx\r\n",
        "HTTP/1.1 200 OK\r\nTransfer-Encoding: gzip\r\n\r\n7",
    ] {
        let ran = run(alloc, "size\n", responses, CALM)?;
        assert!(rt; ran.is(4, ""), "{responses}");
    }
    let again = "HTTP/1.1 100 Continue\r\n\r\n".repeat(alloc, 17)?;
    let many = format!(in alloc; "{again}HTTP/1.1 200 OK\r\nContent-Length: 1\r\n\r\n7")?;
    assert!(rt; run(alloc, "size\n", many.as_str(), CALM)?.is(4, ""));
    Ok(())
}

/// A session's responses that end after any of their bytes: the answers before the end are printed, and the
/// next one is bad.
#[test]
fn responses_cut_short(rt: HostRuntime) -> Result<(), Memory> {
    let alloc = rt.alloc();
    let script = "begin SNAPSHOT\nquery ASK {}\n";
    let (ran, responses) = play(alloc, &SERVED, "r", script)?;
    let printed = "begun 0-4\ntrue\n";
    assert!(rt; ran.is(0, printed));
    for end in 0..responses.len() {
        let cut = run_words(
            alloc,
            &WORDS,
            script.as_bytes(),
            &responses.as_bytes()[..end],
            CALM,
        )?;
        assert!(rt;
            cut.status == 4 && printed.starts_with(cut.printed.as_str()),
            "{end}"
        );
    }
    Ok(())
}
