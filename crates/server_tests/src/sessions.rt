//! Sessions: their ends, their limits, and what failing sources and sinks leave.
use crate::exchange::{
    ADD, CALM, Exchange, LINE, LIST, NO_CONTENT, OK, Outside, QUADS, SIZE, TEXT, answer, is_run,
    is_session, last_answer, request, run, texts_of,
};
use rdf_term::Memory;
use std::alloc::Global;

const THREE_REPOSITORIES: [Exchange; 9] = [
    ADD,
    (
        "POST s/transactions",
        "",
        "",
        "201 Created",
        "Location: /rdf4j-server/repositories/s/transactions/0-3\r\n",
        "",
    ),
    ADD,
    SIZE,
    ("GET s/size", "", "", OK, TEXT, "0"),
    ("PUT s/transactions/0-3?action=SIZE", "", "", OK, TEXT, "0"),
    (
        "PUT r/transactions/0-3?action=SIZE",
        "",
        "",
        "404 Not Found",
        TEXT,
        "no such transaction",
    ),
    ("GET t/size", "", "", OK, TEXT, "0"),
    (
        "GET u/size",
        "",
        "",
        "404 Not Found",
        TEXT,
        "no such repository",
    ),
];

#[test]
fn each_repository_has_its_own_statements(rt: HostRuntime) -> Result<(), Memory> {
    assert!(rt; is_session(rt.alloc(), &["stdio", "r", "s", "t"], &THREE_REPOSITORIES)?);
    Ok(())
}

#[test]
fn answers_are_the_same_however_the_bytes_are_cut(rt: HostRuntime) -> Result<(), Memory> {
    let alloc = rt.alloc();
    let texts = texts_of(alloc, &[ADD, LIST, ADD, SIZE])?;
    for cut in 1..texts.input.len() {
        let outside = Outside { cut, ..CALM };
        let ran = run(alloc, &["stdio", "r"], texts.input.as_str(), outside)?;
        assert_eq!(rt; ran.status, 0);
        assert!(rt; ran.taken.as_str() == texts.want.as_str(), "cut {cut}");
    }
    Ok(())
}

#[test]
fn requests_behind_one_that_closes_are_not_read(rt: HostRuntime) -> Result<(), Memory> {
    let alloc = rt.alloc();
    let last = request(alloc, "GET r/size", "Connection: close\r\n", "")?;
    let input = format!(in alloc; "{last}{last}\u{1}")?;
    let closing = format!(in alloc; "{TEXT}Content-Length: 1\r\nConnection: close\r\n\r\n0")?;
    let want = format!(in alloc; "HTTP/1.1 200 OK\r\n{closing}")?;
    assert!(rt; is_run(alloc, &["stdio", "r"], input.as_str(), 0, want.as_str())?);
    let input = "HEAD /rdf4j-server/repositories/r/size HTTP/1.0\r\n\r\nx";
    let want = format!(in alloc;
        "HTTP/1.1 405 Method Not Allowed\r\n{TEXT}Allow: GET\r\nConnection: close\r\n\r\n"
    )?;
    assert!(rt; is_run(alloc, &["stdio", "r"], input, 0, want.as_str())?);
    Ok(())
}

#[test]
fn refused_frames_end_the_session(rt: HostRuntime) -> Result<(), Memory> {
    let alloc = rt.alloc();
    for (input, status, text) in [
        (
            "GET / HTTP/1.1\r\nHost: h\r\n",
            "400 Bad Request",
            "bad head",
        ),
        ("\u{1}", "400 Bad Request", "bad head"),
        ("GET / HTTP/1.1\r\n\r\n", "400 Bad Request", "bad host"),
        (
            "GET / HTTP/1.0\r\nContent-Length: -1\r\n\r\n",
            "400 Bad Request",
            "bad body",
        ),
        (
            "POST / HTTP/1.1\r\nHost: h\r\nContent-Length: 3\r\nTransfer-Encoding: chunked\r\n\r\n0\r\n\r\nGET / HTTP/1.1\r\nHost: h\r\n\r\n",
            "400 Bad Request",
            "bad body",
        ),
        (
            "GET / HTTP/1.1\r\nHost: h\r\nTransfer-Encoding: chunked\r\n\r\nx",
            "400 Bad Request",
            "bad body",
        ),
        (
            "GET / HTTP/1.1\r\nHost: h\r\nTransfer-Encoding: x\r\n\r\n",
            "501 Not Implemented",
            "unsupported transfer coding",
        ),
        (
            "GET / HTTP/1.0\r\nContent-Length: 16777217\r\n\r\n",
            "413 Content Too Large",
            "body too long",
        ),
        (
            "GET / HTTP/1.0\r\nContent-Length: 3\r\n\r\nab",
            "400 Bad Request",
            "truncated body",
        ),
    ] {
        let want = last_answer(alloc, status, text)?;
        assert!(rt;
            is_run(alloc, &["stdio", "r"], input, 1, want.as_str())?,
            "{text}"
        );
    }
    Ok(())
}

#[test]
fn bodies_are_asked_for(rt: HostRuntime) -> Result<(), Memory> {
    let alloc = rt.alloc();
    let go_on = "HTTP/1.1 100 Continue\r\n\r\n";
    let done = answer(alloc, NO_CONTENT, "", "")?;
    let short = last_answer(alloc, "400 Bad Request", "truncated body")?;
    let host = last_answer(alloc, "400 Bad Request", "bad host")?;
    let kept = format!(in alloc; "{go_on}{done}")?;
    let cut = format!(in alloc; "{go_on}{short}")?;
    for (fields, body, status, want) in [
        ("Content-Length: 41", LINE, 0, kept.as_str()),
        (
            "Transfer-Encoding: chunked",
            "29\r\n<http://e/s> <http://e/p> <http://e/o> .\n\r\n0\r\n\r\n",
            0,
            kept.as_str(),
        ),
        ("Content-Length: 42", LINE, 1, cut.as_str()),
        ("Content-Length: 0", "", 0, done.as_str()),
        ("Host: g\r\nContent-Length: 41", LINE, 1, host.as_str()),
    ] {
        let fields = format!(in alloc; "{QUADS}Expect: 100-continue\r\n{fields}\r\n")?;
        let head = request(alloc, "POST r/statements", fields.as_str(), "")?;
        let input = format!(in alloc; "{head}{body}")?;
        assert!(rt;
            is_run(alloc, &["stdio", "r"], input.as_str(), status, want)?,
            "{fields}"
        );
    }
    Ok(())
}

#[test]
fn a_body_is_asked_for_once_its_head_was_read(rt: HostRuntime) -> Result<(), Memory> {
    let alloc = rt.alloc();
    let fields = format!(in alloc; "{QUADS}Expect: 100-continue\r\n")?;
    let input = request(alloc, "POST r/statements", fields.as_str(), LINE)?;
    let head = input.len().saturating_sub(LINE.len());
    for (cut, want) in [
        (head.saturating_sub(1), ""),
        (head, "HTTP/1.1 100 Continue\r\n\r\n"),
        (head.saturating_add(40), "HTTP/1.1 100 Continue\r\n\r\n"),
    ] {
        let outside = Outside {
            cut,
            read_fails: Some(1),
            ..CALM
        };
        let ran = run(alloc, &["stdio", "r"], input.as_str(), outside)?;
        assert_eq!(rt; ran.status, 2);
        assert!(rt; ran.taken.as_str() == want, "cut {cut}");
    }
    Ok(())
}

#[test]
fn a_failing_write_leaves_a_first_part(rt: HostRuntime) -> Result<(), Memory> {
    let alloc = rt.alloc();
    let texts = texts_of(alloc, &[ADD, ADD, SIZE])?;
    for call in 0..7u64 {
        let outside = Outside {
            write_fails: Some(call),
            ..CALM
        };
        let ran = run(alloc, &["stdio", "r"], texts.input.as_str(), outside)?;
        let answers = call.div_ceil(2) as usize;
        assert_eq!(rt; ran.status, if call < 6 { 3 } else { 0 }, "call {call}");
        assert!(rt;
            texts.want.as_str().starts_with(ran.taken.as_str()),
            "call {call}"
        );
        assert_eq!(rt;
            ran.taken.as_str().matches("HTTP/1.1").count(),
            answers,
            "call {call}"
        );
    }
    Ok(())
}

#[test]
fn a_failing_read_leaves_the_answers_before_it(rt: HostRuntime) -> Result<(), Memory> {
    let alloc = rt.alloc();
    let texts = texts_of(alloc, &[ADD, ADD, SIZE])?;
    let mut status = 2;
    for call in 0..60u64 {
        let outside = Outside {
            cut: 40,
            read_fails: Some(call),
            ..CALM
        };
        let ran = run(alloc, &["stdio", "r"], texts.input.as_str(), outside)?;
        if ran.status == 0 {
            status = 0;
        }
        assert_eq!(rt; ran.status, status, "call {call}");
        assert!(rt;
            texts.want.as_str().starts_with(ran.taken.as_str()),
            "call {call}"
        );
    }
    assert_eq!(rt; status, 0);
    Ok(())
}

/// Adds the upload of one quad more.
fn add_upload(
    alloc: Global,
    input: &mut String,
    lines: &mut String,
    number: u32,
) -> Result<(), Memory> {
    let line = format!(in alloc; "<http://e/s{number}> <http://e/p> \"{number}\" .\n")?;
    lines.push_str(line.as_str())?;
    input.push_str(request(alloc, "POST r/statements", QUADS, line.as_str())?.as_str())?;
    Ok(())
}

#[test]
fn many_uploads_are_folded(rt: HostRuntime) -> Result<(), Memory> {
    let alloc = rt.alloc();
    let mut input = String::new(alloc);
    let mut lines = String::new(alloc);
    for number in 1_000..4_000u32 {
        add_upload(alloc, &mut input, &mut lines, number)?;
    }
    input.push_str(request(alloc, "GET r/statements", "", "")?.as_str())?;
    let ran = run(alloc, &["stdio", "r"], input.as_str(), CALM)?;
    let want = answer(alloc, OK, QUADS, lines.as_str())?;
    assert_eq!(rt; ran.status, 0);
    assert!(rt; ran.taken.as_str().ends_with(want.as_str()));
    Ok(())
}

#[test]
fn a_session_has_100_000_requests(rt: HostRuntime) -> Result<(), Memory> {
    let alloc = rt.alloc();
    let mut input = String::new(alloc);
    for _ in 0..100_001u32 {
        input.push_str("GET / HTTP/1.1\r\nHost: h\r\n\r\n")?;
    }
    let answer = answer(alloc, "404 Not Found", TEXT, "no such resource")?;
    let ran = run(alloc, &["stdio", "r"], input.as_str(), CALM)?;
    assert_eq!(rt; ran.status, 4);
    assert_eq!(rt; ran.taken.len(), answer.len().saturating_mul(100_000));
    Ok(())
}
