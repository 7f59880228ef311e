//! A table of streams of responses and their frames, each whole, cut once at every byte and in single bytes,
//! and requests that are written and read again.
use http_frame::{
    FrameFault, Frames, Request, Response, response_frames_are_determined, write_request,
    write_response, written_requests_are_frames, written_responses_are_frames,
};
use rdf_io::MemSource;
use rdf_term::{Bytes, Memory, Seq};
use std::alloc::Global;

/// Heads, statuses without a body, and informational responses.
const HEADS: [(&str, &str); 34] = [
    ("", "end"),
    ("HTTP/1.1 204 No Content\r\n\r\n", "204[]end"),
    ("HTTP/1.0 204\n\n", "204[]end"),
    ("HTTP/1.1 204 \r\n\r\n", "204[]end"),
    ("\r\n\nHTTP/1.1 204 a  b\r\nX:y\r\n\r\n", "204[]end"),
    (
        "HTTP/1.1 204 No Content\r\nContent-Length: 3\r\n\r\nHTTP/1.1 304 Not Modified\r\n\r\n",
        "204[]304[]end",
    ),
    (
        "HTTP/1.1 304 x\r\nContent-Length: 3\r\nTransfer-Encoding: gzip\r\n\r\nabc",
        "304[]bad head",
    ),
    (
        "HTTP/1.1 204 x\r\nContent-Length: x\r\nContent-Length: 3\r\n\r\n",
        "204[]end",
    ),
    (
        "HTTP/1.0 304 x\r\nTransfer-Encoding: chunked\r\n\r\n",
        "304[]end",
    ),
    ("HTTP/1.1 205 x\r\nContent-Length: 1\r\n\r\na", "205[a]end"),
    ("HTTP/1.1 099 x\r\nContent-Length: 1\r\n\r\na", "99[a]end"),
    ("HTTP/1.1 000\r\nContent-Length: 0\r\n\r\n", "0[]end"),
    ("HTTP/1.1 999\r\nContent-Length: 0\r\n\r\n", "999[]end"),
    (
        "HTTP/1.1 100 Continue\r\n\r\nHTTP/1.1 200 OK\r\nContent-Length: 1\r\n\r\na",
        "200[a]end",
    ),
    (
        "HTTP/1.1 103 Early Hints\r\nLink: x\r\nContent-Length: 9\r\n\r\nHTTP/1.1 100\n\nHTTP/1.1 204\n\n",
        "204[]end",
    ),
    (
        "HTTP/1.0 199 x\r\nTransfer-Encoding: gzip\r\n\r\nHTTP/1.1 404 x\r\nContent-Length: 2\r\n\r\nno",
        "404[no]end",
    ),
    (
        "HTTP/1.1 204\n\nHTTP/1.1 100\n\nHTTP/1.1 204\n\n",
        "204[]204[]end",
    ),
    ("HTTP/1.1 100 Continue\r\n\r\n", "end"),
    ("HTTP/1.1 100 Continue\r\n\r\n\r\n", "bad head"),
    ("HTTP/1.1 100 Continue\r\n\r\nHTTP/1.1 20", "bad head"),
    ("HTTP/1.1 20 OK\r\n\r\n", "bad head"),
    ("HTTP/1.1 2 OK\r\n\r\n", "bad head"),
    ("HTTP/1.1 2000 OK\r\n\r\n", "bad head"),
    ("HTTP/1.1 2x0 OK\r\n\r\n", "bad head"),
    ("HTTP/1.1  200 OK\r\n\r\n", "bad head"),
    ("HTTP/1.2 204 x\r\n\r\n", "bad head"),
    ("HTTP/2 204 x\r\n\r\n", "bad head"),
    ("GET / HTTP/1.1\r\nHost: h\r\n\r\n", "bad head"),
    ("HTTP/1.1 204 x\r\nX : y\r\n\r\n", "bad head"),
    ("H", "bad head"),
    ("\r\n", "bad head"),
    ("HTTP/1.1 204", "bad head"),
    ("HTTP/1.1 204 x\r\n", "bad head"),
    ("HTTP/1.1 204 x\r\n\r\nx", "204[]bad head"),
];

/// Bodies: fields of a response of this minor version, and what follows its head.
const BODIES: [(u8, &str, &str, &str); 35] = [
    (1, "Content-Length: 3", "abc", "200[abc]end"),
    (0, "content-LENGTH:\t003 ", "abc", "200[abc]end"),
    (
        1,
        "Content-Length: 3",
        "abcHTTP/1.1 204\n\n",
        "200[abc]204[]end",
    ),
    (1, "Content-Length: 0", "HTTP/1.1 204\n\n", "200[]204[]end"),
    (1, "Content-Length: 3", "abcd", "200[abc]bad head"),
    (1, "Content-Length: 4", "abc", "truncated body"),
    (1, "Content-Length: 536870912", "abc", "truncated body"),
    (1, "Content-Length: 536870913", "abc", "body too long"),
    (
        1,
        "Content-Length: 99999999999999999999999",
        "",
        "body too long",
    ),
    (1, "Content-Length: +3", "abc", "bad body"),
    (1, "Content-Length:", "abc", "bad body"),
    (1, "Content-Length: 3, 3", "abc", "bad body"),
    (
        1,
        "Content-Length: 3\r\nContent-Length: 3",
        "abc",
        "bad body",
    ),
    (
        1,
        "Content-Length: 3\r\nTransfer-Encoding: chunked",
        "abc",
        "bad body",
    ),
    (0, "Transfer-Encoding: chunked", "0\r\n\r\n", "bad body"),
    (0, "Transfer-Encoding: gzip", "abc", "bad body"),
    (
        1,
        "Transfer-Encoding: gzip",
        "abc",
        "unsupported transfer coding",
    ),
    (
        1,
        "Transfer-Encoding: chunked\r\nTransfer-Encoding: chunked",
        "0\r\n\r\n",
        "unsupported transfer coding",
    ),
    (1, "Transfer-Encoding: CHUNKED", "0\r\n\r\n", "200[]end"),
    (
        1,
        "Transfer-Encoding: chunked",
        "3;x\r\nabc\r\n1\r\nd\r\n0\r\nA: b\r\n\r\nHTTP/1.1 204\n\n",
        "200[abcd]204[]end",
    ),
    (
        1,
        "Transfer-Encoding: chunked",
        "20000000\r\nab",
        "truncated body",
    ),
    (
        1,
        "Transfer-Encoding: chunked",
        "20000001\r\nab",
        "body too long",
    ),
    (
        1,
        "Transfer-Encoding: chunked",
        "1\r\na\r\n20000000\r\n",
        "body too long",
    ),
    (1, "Transfer-Encoding: chunked", "1 \r\na\r\n", "bad body"),
    (1, "Transfer-Encoding: chunked", "1\r\nab", "bad body"),
    (1, "Transfer-Encoding: chunked", "", "truncated body"),
    (
        1,
        "Transfer-Encoding: chunked",
        "1\r\na\r\n0\r\n",
        "truncated body",
    ),
    (1, "X: y", "", "200[]end"),
    (1, "X: y", "a", "200[a]end"),
    (0, "X: y", "abc\r\n", "200[abc\r\n]end"),
    (
        1,
        "Connection: close",
        "abcHTTP/1.1 204\n\n",
        "200[abcHTTP/1.1 204\n\n]end",
    ),
    (1, "X-Content-Length: 3", "abcd", "200[abcd]end"),
    (1, "Host: a\r\nHost: b", "ab", "200[ab]end"),
    (1, "Trailer: x", "0\r\n\r\n", "200[0\r\n\r\n]end"),
    (1, "Content-Length: x", "abc", "bad body"),
];

fn source(alloc: Global, text: &[u8], cuts: Vec<usize>) -> Result<MemSource, Memory> {
    let mut bytes = Bytes::new(alloc);
    bytes.append(text)?;
    Ok(MemSource::new(bytes, cuts, Vec::new(alloc)))
}

fn name(fault: FrameFault) -> &'static str {
    match fault {
        FrameFault::BadHead => "bad head",
        FrameFault::BadHost => "bad host",
        FrameFault::BadBody => "bad body",
        FrameFault::Coding => "unsupported transfer coding",
        FrameFault::BodyTooLong => "body too long",
        FrameFault::Truncated => "truncated body",
        FrameFault::ReadFault => "the source failed",
        FrameFault::Memory => "no memory",
    }
}

/// The frames of a stream that comes in these pieces: each response as its status and its body in brackets,
/// and then its end or its refusal, which is answered again.
fn frames_of(alloc: Global, text: &[u8], cuts: Vec<usize>) -> Result<Bytes, Memory> {
    let mut source = source(alloc, text, cuts)?;
    let mut frames = Frames::new(alloc)?;
    let mut out = Bytes::new(alloc);
    for _ in 0..10u32 {
        match frames.next_response(&mut source) {
            Ok(Some(response)) => {
                out.append_decimal(u64::from(response.status))?;
                out.append(b"[")?;
                out.append(response.body.as_slice())?;
                out.append(b"]")?;
            }
            Ok(None) => {
                out.append(b"end")?;
                return Ok(out);
            }
            Err(fault) => {
                out.append(name(fault).as_bytes())?;
                if frames.next_response(&mut source).err() != Some(fault) {
                    out.append(b" once")?;
                }
                return Ok(out);
            }
        }
    }
    Ok(out)
}

/// Whether a stream has these frames: whole, cut once at any byte, and in single bytes.
fn has_frames(alloc: Global, text: &[u8], want: &str) -> Result<bool, Memory> {
    let whole = frames_of(alloc, text, Vec::new(alloc))?;
    let singly = frames_of(alloc, text, vec![in alloc; 1; text.len()]?)?;
    let mut same = whole.as_slice() == want.as_bytes() && singly.as_slice() == want.as_bytes();
    for at in 1..text.len() {
        let cut = frames_of(alloc, text, vec![in alloc; at; 1]?)?;
        same = same && cut.as_slice() == want.as_bytes();
    }
    Ok(same)
}

#[test]
fn heads_of_responses_have_their_frames(rt: HostRuntime) -> Result<(), Memory> {
    let alloc = rt.alloc();
    response_frames_are_determined();
    for (text, want) in HEADS {
        assert!(rt; has_frames(alloc, text.as_bytes(), want)?, "{text}");
    }
    Ok(())
}

#[test]
fn bodies_of_responses_have_their_frames(rt: HostRuntime) -> Result<(), Memory> {
    let alloc = rt.alloc();
    for (minor, fields, rest, want) in BODIES {
        let text = format!(in alloc; "HTTP/1.{minor} 200 OK\r\n{fields}\r\n\r\n{rest}")?;
        assert!(rt;
            has_frames(alloc, text.as_bytes(), want)?,
            "{fields}: {rest}"
        );
    }
    Ok(())
}

#[test]
fn sixteen_informational_responses_are_passed_over(rt: HostRuntime) -> Result<(), Memory> {
    let alloc = rt.alloc();
    for (count, back, want) in [
        (16u32, "HTTP/1.1 204\n\n", "204[]end"),
        (16u32, "", "end"),
        (16u32, "x", "bad head"),
        (17u32, "HTTP/1.1 204\n\n", "bad head"),
        (17u32, "", "bad head"),
    ] {
        let mut text = Vec::new(alloc);
        for _ in 0..count {
            text.extend_from_slice(b"HTTP/1.1 100 Continue\r\n\r\n")?;
        }
        text.extend_from_slice(back.as_bytes())?;
        assert!(rt; has_frames(alloc, &text, want)?, "{count} and {back}");
    }
    Ok(())
}

#[test]
fn heads_of_responses_have_exact_limits(rt: HostRuntime) -> Result<(), Memory> {
    let alloc = rt.alloc();
    for (fields, letters, want) in [
        (128u32, 3usize, "204[]end"),
        (129u32, 3usize, "bad head"),
        (1u32, 65_515usize, "204[]end"),
        (1u32, 65_516usize, "bad head"),
    ] {
        let mut text = b"HTTP/1.1 204\r\n".to_vec(alloc)?;
        for _ in 1..fields {
            text.extend_from_slice(b"A: b\r\n")?;
        }
        text.extend_from_slice(b"X: ")?;
        text.resize(text.len().saturating_add(letters), b'a')?;
        text.extend_from_slice(b"\r\n\r\n")?;
        let whole = frames_of(alloc, &text, Vec::new(alloc))?;
        assert!(rt;
            whole.as_slice() == want.as_bytes(),
            "{fields} fields, {letters} letters"
        );
    }
    Ok(())
}

#[test]
fn fields_of_responses_are_kept_in_order(rt: HostRuntime) -> Result<(), FrameFault> {
    let alloc = rt.alloc();
    let text = b"HTTP/1.1 200 OK\r\nA:  b \r\na: c\r\nContent-Length: 0\r\n\r\n";
    let mut source = source(alloc, text, Vec::new(alloc))?;
    let mut frames = Frames::new(alloc)?;
    let mut out = Bytes::new(alloc);
    match frames.next_response(&mut source)? {
        Some(response) => {
            for field in response.fields.as_slice() {
                out.append(field.0.as_slice())?;
                out.append(b"=")?;
                out.append(field.1.as_slice())?;
                out.append(b";")?;
            }
        }
        None => {}
    }
    assert!(rt; out.as_slice() == b"A=b;a=c;Content-Length=0;".as_slice());
    Ok(())
}

#[test]
fn a_failing_source_is_answered_and_kept(rt: HostRuntime) -> Result<(), Memory> {
    let alloc = rt.alloc();
    let text = b"HTTP/1.1 100\n\nHTTP/1.1 200 OK\r\n\r\nabc";
    for call in 0..9u64 {
        let mut bytes = Bytes::new(alloc);
        bytes.append(text)?;
        let cuts = vec![in alloc; 5; 20]?;
        let mut source = MemSource::new(bytes, cuts, vec![in alloc; call; 1]?);
        let mut frames = Frames::new(alloc)?;
        assert!(rt;
            frames.next_response(&mut source).err() == Some(FrameFault::ReadFault),
            "{call}"
        );
        assert!(rt;
            frames.next_response(&mut source).err() == Some(FrameFault::ReadFault),
            "{call}"
        );
    }
    Ok(())
}

/// The request at the front of these bytes.
fn request(alloc: Global, text: &[u8]) -> Result<Option<Request>, FrameFault> {
    let mut source = source(alloc, text, Vec::new(alloc))?;
    let mut frames = Frames::new(alloc)?;
    match frames.next_head(&mut source)? {
        None => Ok(None),
        Some(head) => Ok(Some(frames.read_body(head, &mut source)?)),
    }
}

/// These bytes, and then what is written of the request that the others spell.
fn written(alloc: Global, front: &[u8], text: &[u8]) -> Result<Bytes, FrameFault> {
    let mut out = Bytes::new(alloc);
    out.append(front)?;
    match request(alloc, text)? {
        Some(request) => write_request(&request, &mut out)?,
        None => {}
    }
    Ok(out)
}

#[test]
fn requests_are_written_and_read_again(rt: HostRuntime) -> Result<(), FrameFault> {
    let alloc = rt.alloc();
    written_requests_are_frames();
    for (text, want) in [
        (
            "GET /a HTTP/1.1\nhOST:h\n\n",
            "GET /a HTTP/1.1\r\nhOST: h\r\n\r\n",
        ),
        ("\r\nget * HTTP/1.0\n\n", "get * HTTP/1.0\r\n\r\n"),
        (
            "POST /\u{e9} HTTP/1.1\r\nHost: \r\nX:\t a b \r\nContent-Length: 3\r\n\r\nabc",
            "POST /\u{e9} HTTP/1.1\r\nHost: \r\nX: a b\r\nContent-Length: 3\r\n\r\nabc",
        ),
        (
            "PUT / HTTP/1.1\r\nContent-Length: 02\r\nHost: a\r\nX:\r\n\r\n\r\n",
            "PUT / HTTP/1.1\r\nContent-Length: 02\r\nHost: a\r\nX: \r\n\r\n\r\n",
        ),
    ] {
        let once = written(alloc, b"", text.as_bytes())?;
        assert!(rt; once.as_slice() == want.as_bytes(), "{text}");
        let again = written(alloc, b"> ", once.as_slice())?;
        let behind = format!(in alloc; "> {want}")?;
        assert!(rt; again.as_slice() == behind.as_bytes(), "{text}");
    }
    Ok(())
}

#[test]
fn responses_are_written_and_read_again(rt: HostRuntime) -> Result<(), Memory> {
    let alloc = rt.alloc();
    written_responses_are_frames();
    for (status, closes, want) in [
        (200, false, "200[ab]200[ab]end"),
        (204, false, "204[]204[]end"),
        (503, true, "503[ab]503[ab]end"),
        (299, true, "299[ab]299[ab]end"),
    ] {
        let mut body = Bytes::new(alloc);
        body.append(b"ab")?;
        let response = Response {
            status,
            fields: Seq::new(alloc),
            body,
        };
        let mut out = Bytes::new(alloc);
        write_response(&response, 1, closes, false, &mut out)?;
        write_response(&response, 1, closes, false, &mut out)?;
        assert!(rt; has_frames(alloc, out.as_slice(), want)?, "{want}");
    }
    Ok(())
}
