//! Worked exchanges, byte for byte, whole and in single bytes.
use crate::exchange::{
    ADD, Exchange, LINE, LIST, NO_CONTENT, OK, ONE, QUADS, QUERY, RESULTS, SIZE, TEXT, answer,
    is_run, is_session, last_answer, request, texts_of,
};
use rdf_term::Memory;
use std::alloc::Global;

/// Whether these requests on one empty repository are answered so, and the session is done.
fn is_worked(alloc: Global, exchanges: &[Exchange]) -> Result<bool, Memory> {
    is_session(alloc, &["stdio", "r"], exchanges)
}

const NONE: Exchange = ("GET r/size", "", "", OK, TEXT, "0");

const TWICE: [Exchange; 5] = [NONE, ADD, ADD, SIZE, LIST];

#[test]
fn a_line_is_kept_once(rt: HostRuntime) -> Result<(), Memory> {
    let alloc = rt.alloc();
    assert!(rt; is_worked(alloc, &[])?);
    assert!(rt; is_worked(alloc, &TWICE)?);
    Ok(())
}

#[test]
fn heads_have_at_most_65_536_bytes(rt: HostRuntime) -> Result<(), Memory> {
    let alloc = rt.alloc();
    let letters = "a".repeat(alloc, 65_472)?;
    let fields = format!(in alloc; "X: {letters}\r\n")?;
    let input = request(alloc, "GET r/size", fields.as_str(), "")?;
    assert_eq!(rt; input.len(), 65_536);
    let want = answer(alloc, OK, TEXT, "0")?;
    assert!(rt; is_run(alloc, &["stdio", "r"], input.as_str(), 0, want.as_str())?);
    let fields = format!(in alloc; "X: {letters}a\r\n")?;
    let input = request(alloc, "GET r/size", fields.as_str(), "")?;
    let want = last_answer(alloc, "400 Bad Request", "bad head")?;
    assert!(rt; is_run(alloc, &["stdio", "r"], input.as_str(), 1, want.as_str())?);
    Ok(())
}

#[test]
fn chunked_uploads_are_kept(rt: HostRuntime) -> Result<(), Memory> {
    let alloc = rt.alloc();
    for (body, size) in [
        ("0\r\n\r\n", "0"),
        (
            "5;x=y\r\n<http\r\n24\r\n://e/s> <http://e/p> <http://e/o> .\n\r\n0\r\nA: b\r\n\r\n",
            "1",
        ),
    ] {
        let head = request(
            alloc,
            "POST r/statements",
            "Transfer-Encoding: chunked\r\nContent-Type: application/n-triples\r\n",
            "",
        )?;
        let ask = request(alloc, "GET r/size", "", "")?;
        let input = format!(in alloc; "{head}{body}{ask}")?;
        let done = answer(alloc, NO_CONTENT, "", "")?;
        let told = answer(alloc, OK, TEXT, size)?;
        let want = format!(in alloc; "{done}{told}")?;
        assert!(rt;
            is_run(alloc, &["stdio", "r"], input.as_str(), 0, want.as_str())?,
            "{size}"
        );
    }
    Ok(())
}

const ESCAPED: [Exchange; 2] = [
    (
        "POST r/statements",
        QUADS,
        "<http://e/s>\t<http://e/p> \"caf\\u00E9 \\U0001F600\"@en <http://e/g> . # c\r\n",
        NO_CONTENT,
        "",
        "",
    ),
    (
        "GET r/statements",
        "",
        "",
        OK,
        QUADS,
        "<http://e/s> <http://e/p> \"caf\u{e9} \u{1f600}\"@en <http://e/g> .\n",
    ),
];

#[test]
fn escaped_upload_is_listed_canonically(rt: HostRuntime) -> Result<(), Memory> {
    assert!(rt; is_worked(rt.alloc(), &ESCAPED)?);
    Ok(())
}

const FOUR_LINES: [Exchange; 3] = [
    (
        "POST r/statements",
        QUADS,
        "<http://e/s> <http://e/p> \"1\" .\n<http://e/s> <http://e/p> \"1\" .\n<http://e/s> <http://e/p> \"a\\u12\" .\n<http://e/s> <http://e/p> \"1\" .\n",
        "400 Bad Request",
        TEXT,
        "bad line 3",
    ),
    NONE,
    ("GET r/statements", "", "", OK, QUADS, ""),
];

#[test]
fn the_third_of_four_lines_is_bad(rt: HostRuntime) -> Result<(), Memory> {
    assert!(rt; is_worked(rt.alloc(), &FOUR_LINES)?);
    Ok(())
}

#[test]
fn the_second_of_three_lines_is_too_long(rt: HostRuntime) -> Result<(), Memory> {
    let alloc = rt.alloc();
    let most = "a".repeat(alloc, 65_535)?;
    for (more, text) in [("", "bad line 3"), ("b", "long line 2")] {
        let document = format!(in alloc;
            "{ONE}<http://e/s> <http://e/p> \"{most}{more}\" .\nx y z\n"
        )?;
        let upload = request(alloc, "POST r/statements", QUADS, document.as_str())?;
        let ask = request(alloc, "GET r/statements", "", "")?;
        let input = format!(in alloc; "{upload}{ask}")?;
        let bad = answer(alloc, "400 Bad Request", TEXT, text)?;
        let empty = answer(alloc, OK, QUADS, "")?;
        let want = format!(in alloc; "{bad}{empty}")?;
        assert!(rt;
            is_run(alloc, &["stdio", "r"], input.as_str(), 0, want.as_str())?,
            "{text}"
        );
    }
    Ok(())
}

const PUT_IN_TWO_CONTEXTS: [Exchange; 3] = [
    (
        "POST r/statements",
        QUADS,
        "<http://e/s> <http://e/p> \"1\" .\n<http://e/s> <http://e/p> \"2\" <http://e/g1> .\n<http://e/s> <http://e/p> \"3\" <http://e/g2> .\n",
        NO_CONTENT,
        "",
        "",
    ),
    (
        "PUT r/statements?context=null&context=%3Chttp%3A%2F%2Fe%2Fg1%3E",
        QUADS,
        "<http://e/s> <http://e/p> \"9\" .\n",
        NO_CONTENT,
        "",
        "",
    ),
    (
        "GET r/statements",
        "",
        "",
        OK,
        QUADS,
        "<http://e/s> <http://e/p> \"3\" <http://e/g2> .\n<http://e/s> <http://e/p> \"9\" .\n<http://e/s> <http://e/p> \"9\" <http://e/g1> .\n",
    ),
];

#[test]
fn put_with_two_contexts_lists_three_lines(rt: HostRuntime) -> Result<(), Memory> {
    assert!(rt; is_worked(rt.alloc(), &PUT_IN_TWO_CONTEXTS)?);
    Ok(())
}

/// Two quads of one subject.
const TAGGED: &str =
    "<http://e/s> <http://e/p> \"a\"@en .\n<http://e/s> <http://e/p> \"1\"^^<http://www.w3.org/2001/XMLSchema#integer> .\n";

const QUERIES: [Exchange; 5] = [
    ("POST r/statements", QUADS, TAGGED, NO_CONTENT, "", ""),
    (
        "POST r",
        QUERY,
        "SELECT ?o WHERE { ?s <http://e/p> ?o }",
        OK,
        RESULTS,
        "{\"head\":{\"vars\":[\"o\"]},\"results\":{\"bindings\":[{\"o\":{\"type\":\"literal\",\"value\":\"a\",\"xml:lang\":\"en\"}},{\"o\":{\"datatype\":\"http://www.w3.org/2001/XMLSchema#integer\",\"type\":\"literal\",\"value\":\"1\"}}]}}",
    ),
    (
        "GET r?query=SELECT+?s+WHERE+{+?s+%3Chttp://e/p%3E+?o+}",
        "",
        "",
        OK,
        RESULTS,
        "{\"head\":{\"vars\":[\"s\"]},\"results\":{\"bindings\":[{\"s\":{\"type\":\"uri\",\"value\":\"http://e/s\"}},{\"s\":{\"type\":\"uri\",\"value\":\"http://e/s\"}}]}}",
    ),
    (
        "POST r",
        QUERY,
        "SELECT DISTINCT ?s WHERE { ?s <http://e/p> ?o }",
        OK,
        RESULTS,
        "{\"head\":{\"vars\":[\"s\"]},\"results\":{\"bindings\":[{\"s\":{\"type\":\"uri\",\"value\":\"http://e/s\"}}]}}",
    ),
    (
        "POST r",
        QUERY,
        "SELECT ?s WHERE { ?s <http://e/p> ?o } LIMIT 0",
        OK,
        RESULTS,
        "{\"head\":{\"vars\":[\"s\"]},\"results\":{\"bindings\":[]}}",
    ),
];

#[test]
fn queries_are_answered_in_json(rt: HostRuntime) -> Result<(), Memory> {
    assert!(rt; is_worked(rt.alloc(), &QUERIES)?);
    Ok(())
}

/// Twenty lines of 33 bytes each.
fn twenty(alloc: Global) -> Result<String, Memory> {
    let mut lines = String::new(alloc);
    for number in 0..20u32 {
        let line = format!(in alloc; "<http://e/s> <http://e/p> \"{number:02}\" .\n")?;
        lines.push_str(line.as_str())?;
    }
    Ok(lines)
}

const BEHIND_CURL: [Exchange; 3] = [
    (
        "POST r",
        "Content-Type: application/x-www-form-urlencoded\r\n",
        "query=SELECT+%3Fo+WHERE+%7B+%3Fs+%3Chttp%3A%2F%2Fe%2Fp%3E+%3Fo+%7D+LIMIT+1",
        OK,
        RESULTS,
        "{\"head\":{\"vars\":[\"o\"]},\"results\":{\"bindings\":[{\"o\":{\"type\":\"literal\",\"value\":\"00\"}}]}}",
    ),
    ("PUT r/namespaces/ex", "", "http://e/", NO_CONTENT, "", ""),
    ("GET r/namespaces/ex", "", "", OK, TEXT, "http://e/"),
];

#[test]
fn uploads_of_curl_are_asked_for(rt: HostRuntime) -> Result<(), Memory> {
    let alloc = rt.alloc();
    let lines = twenty(alloc)?;
    let length = lines.len();
    assert_eq!(rt; length, 660);
    let later = texts_of(alloc, &BEHIND_CURL)?;
    let asked = later.input.as_str();
    let input = format!(in alloc;
        "POST /rdf4j-server/repositories/r/statements HTTP/1.1\r\nHost: localhost:8080\r\nUser-Agent: curl/7.88.1\r\nAccept: */*\r\nContent-Type: application/n-triples\r\nContent-Length: {length}\r\nExpect: 100-continue\r\n\r\n{lines}{asked}"
    )?;
    let told = later.want.as_str();
    let want = format!(in alloc;
        "HTTP/1.1 100 Continue\r\n\r\nHTTP/1.1 204 No Content\r\n\r\n{told}"
    )?;
    assert!(rt; is_run(alloc, &["stdio", "r"], input.as_str(), 0, want.as_str())?);
    Ok(())
}

const FORMS: [Exchange; 6] = [
    ("GET /x", "", "", "404 Not Found", TEXT, "no such resource"),
    (
        "GET x/size",
        "",
        "",
        "404 Not Found",
        TEXT,
        "no such repository",
    ),
    (
        "GET r/statements",
        "Accept: application/rdf+xml\r\n",
        "",
        "406 Not Acceptable",
        TEXT,
        "not acceptable",
    ),
    (
        "PUT r/size",
        "",
        "",
        "405 Method Not Allowed",
        "Content-Type: text/plain;charset=UTF-8\r\nAllow: GET\r\n",
        "method not allowed",
    ),
    (
        "GET r/contexts",
        "Accept: text/*;q=0.5, application/json\r\n",
        "",
        OK,
        "Content-Type: application/json\r\n",
        "{\"head\":{\"vars\":[\"contextID\"]},\"results\":{\"bindings\":[]}}",
    ),
    ("GET http://h/rdf4j-server/protocol", "", "", OK, TEXT, "12"),
];

#[test]
fn requests_that_are_no_call_are_refused_by_their_form(rt: HostRuntime) -> Result<(), Memory> {
    assert!(rt; is_worked(rt.alloc(), &FORMS)?);
    Ok(())
}

#[test]
fn a_head_request_is_answered_without_a_body(rt: HostRuntime) -> Result<(), Memory> {
    let alloc = rt.alloc();
    let size = request(alloc, "HEAD r/size", "", "")?;
    let protocol = request(alloc, "GET /rdf4j-server/protocol", "", "")?;
    let input = format!(in alloc; "{size}{protocol}")?;
    let told = answer(alloc, OK, TEXT, "12")?;
    let want = format!(in alloc;
        "HTTP/1.1 405 Method Not Allowed\r\n{TEXT}Allow: GET\r\n\r\n{told}"
    )?;
    assert!(rt; is_run(alloc, &["stdio", "r"], input.as_str(), 0, want.as_str())?);
    Ok(())
}

#[test]
fn documents_have_four_media_types(rt: HostRuntime) -> Result<(), Memory> {
    let alloc = rt.alloc();
    for media_type in [
        "application/n-triples",
        "TEXT/Plain; charset=utf-8",
        "application/n-quads ; x=y",
        "text/x-nquads",
    ] {
        let fields = format!(in alloc; "Content-Type: {media_type}\r\n")?;
        let input = request(alloc, "POST r/statements", fields.as_str(), LINE)?;
        let want = answer(alloc, NO_CONTENT, "", "")?;
        assert!(rt;
            is_run(alloc, &["stdio", "r"], input.as_str(), 0, want.as_str())?,
            "{media_type}"
        );
    }
    Ok(())
}
