//! A table of streams and their frames: each stream whole, cut once at every byte, and in single bytes.
use http_frame::{FrameFault, Frames, Request};
use rdf_io::{MemSource, Source};
use rdf_term::{Bytes, Memory};
use std::alloc::Global;

/// Heads, and requests without a body.
const HEADS: [(&str, &str); 25] = [
    ("", "end"),
    ("GET / HTTP/1.1\r\nHost: h\r\n\r\n", "[]end"),
    ("GET / HTTP/1.1\nhOST:h\n\n", "[]end"),
    ("GET / HTTP/1.1\r\nHost:\r\n\r\n", "[]end"),
    ("GET / HTTP/1.0\r\n\r\n", "[]end"),
    ("GET / HTTP/1.0\r\nHost: a\r\nHost: b\r\n\r\n", "[]end"),
    ("\r\n\r\nGET / HTTP/1.0\r\n\r\n", "[]end"),
    ("\n\r\n\nGET / HTTP/1.0\n\n", "[]end"),
    ("GET / HTTP/1.0\r\n\r\nGET / HTTP/1.0\r\n\r\n", "[][]end"),
    (
        "GET / HTTP/1.0\r\n\r\n\r\nGET / HTTP/1.0\r\n\r\n",
        "[][]end",
    ),
    ("GET / HTTP/1.0\r\n\r\n\r\n", "[]bad head"),
    ("GET / HTTP/1.0\r\n\r\nx", "[]bad head"),
    ("\n", "bad head"),
    ("\r\n\r\n", "bad head"),
    ("G", "bad head"),
    ("GET / HTTP/1.1\r\n", "bad head"),
    ("GET / HTTP/1.1\r\nHost: h\r\n", "bad head"),
    ("GET / HTTP/1.1\r\nHost: h\r\n\r", "bad head"),
    ("GET / HTTP/1.2\r\n\r\n", "bad head"),
    ("GET  / HTTP/1.1\r\nHost: h\r\n\r\n", "bad head"),
    ("GET / HTTP/1.1\r\nHost : h\r\n\r\n", "bad head"),
    ("\u{1}\r\n\r\n", "bad head"),
    ("GET / HTTP/1.1\r\n\r\n", "bad host"),
    (
        "GET / HTTP/1.1\r\nX: y\r\n\r\nGET / HTTP/1.0\r\n\r\n",
        "bad host",
    ),
    ("GET / HTTP/1.1\r\nHost: a\r\nHost: a\r\n\r\n", "bad host"),
];

/// Lengths: fields of a POST of version 1.1 with a Host, and what follows the head.
const LENGTHS: [(&str, &str, &str); 20] = [
    ("Content-Length: 3", "abc", "[abc]end"),
    (
        "Content-Length: 3",
        "abcGET / HTTP/1.0\r\n\r\n",
        "[abc][]end",
    ),
    ("Content-Length: 3", "abcd", "[abc]bad head"),
    ("content-LENGTH:003", "abc", "[abc]end"),
    ("Content-Length: 0", "GET / HTTP/1.0\r\n\r\n", "[][]end"),
    ("Content-Length: 4", "abc", "truncated body"),
    ("Content-Length: 3", "", "truncated body"),
    ("Content-Length: 16777216", "abc", "truncated body"),
    (
        "Content-Length: 00000000000000000000016777216",
        "abc",
        "truncated body",
    ),
    ("Content-Length: 16777217", "abc", "body too long"),
    (
        "Content-Length: 99999999999999999999999",
        "abc",
        "body too long",
    ),
    ("Content-Length: +3", "abc", "bad body"),
    ("Content-Length: -3", "abc", "bad body"),
    ("Content-Length:", "abc", "bad body"),
    ("Content-Length: 3, 3", "abc", "bad body"),
    ("Content-Length: 0x3", "abc", "bad body"),
    ("Content-Length: 3 3", "abc", "bad body"),
    ("Content-Length: 3a", "abc", "bad body"),
    ("Content-Length: 3\r\nContent-Length: 3", "abc", "bad body"),
    (
        "Content-Length: 99999999\r\nContent-Length: 3",
        "abc",
        "bad body",
    ),
];

/// Transfer codings, and two faults in one head: fields of such a POST, and what follows the head.
const CODINGS: [(&str, &str, &str); 13] = [
    (
        "Content-Length: 3\r\nTransfer-Encoding: chunked",
        "abc",
        "bad body",
    ),
    (
        "Content-Length: x\r\nTransfer-Encoding: gzip",
        "abc",
        "bad body",
    ),
    (
        "Transfer-Encoding: chunked\r\nTransfer-Encoding: chunked\r\nContent-Length: 3",
        "abc",
        "bad body",
    ),
    (
        "Transfer-Encoding: gzip",
        "0\r\n\r\n",
        "unsupported transfer coding",
    ),
    (
        "Transfer-Encoding: identity",
        "0\r\n\r\n",
        "unsupported transfer coding",
    ),
    (
        "Transfer-Encoding:",
        "0\r\n\r\n",
        "unsupported transfer coding",
    ),
    (
        "Transfer-Encoding: gzip, chunked",
        "0\r\n\r\n",
        "unsupported transfer coding",
    ),
    (
        "Transfer-Encoding: chunked, chunked",
        "0\r\n\r\n",
        "unsupported transfer coding",
    ),
    (
        "Transfer-Encoding: chunked\r\nTransfer-Encoding: chunked",
        "0\r\n\r\n",
        "unsupported transfer coding",
    ),
    ("Transfer-Encoding: CHUNKED", "0\r\n\r\n", "[]end"),
    (
        "transfer-encoding:\t Chunked\t",
        "0\r\n\r\nGET / HTTP/1.0\r\n\r\n",
        "[][]end",
    ),
    ("Host: g\r\nContent-Length: x", "abc", "bad host"),
    ("Host: g\r\nTransfer-Encoding: gzip", "abc", "bad host"),
];

/// What follows the head of a chunked request that is read.
const CHUNKED: [(&str, &str); 14] = [
    ("0\r\n\r\n", "[]end"),
    ("000\r\n\r\nGET / HTTP/1.0\r\n\r\n", "[][]end"),
    ("3\r\nabc\r\n0\r\n\r\n", "[abc]end"),
    ("3\r\nabc\r\n0\r\n\r\nGET / HTTP/1.0\r\n\r\n", "[abc][]end"),
    ("1\r\na\r\n2\r\nbc\r\n0\r\n\r\n", "[abc]end"),
    ("4\r\na\r\nb\r\n0\r\n\r\n", "[a\r\nb]end"),
    ("A\r\n0123456789\r\n0\r\n\r\n", "[0123456789]end"),
    ("0f\r\n0123456789abcde\r\n0\r\n\r\n", "[0123456789abcde]end"),
    (
        "0000000000000003\r\nabc\r\n0000000000000000\r\n\r\n",
        "[abc]end",
    ),
    ("3;\r\nabc\r\n0;\r\n\r\n", "[abc]end"),
    ("3;a=b;c=\"d\" ; e\r\nabc\r\n0;f\r\n\r\n", "[abc]end"),
    ("0\r\nA: b\r\n\r\n", "[]end"),
    ("0\r\nx\r\n yz \r\n\r\nGET / HTTP/1.0\r\n\r\n", "[][]end"),
    ("0\r\nGET / HTTP/1.0\r\n\r\n", "[]end"),
];

/// What follows the head of one whose body breaks the grammar.
const BROKEN: [(&str, &str); 29] = [
    ("00000000000000003\r\nabc\r\n0\r\n\r\n", "bad body"),
    ("00000000000000000", "bad body"),
    ("3 \r\nabc\r\n0\r\n\r\n", "bad body"),
    ("3 ;a\r\nabc\r\n0\r\n\r\n", "bad body"),
    ("3\t\r\nabc\r\n0\r\n\r\n", "bad body"),
    (" 3\r\nabc\r\n0\r\n\r\n", "bad body"),
    ("+3\r\nabc\r\n0\r\n\r\n", "bad body"),
    ("-3\r\nabc\r\n0\r\n\r\n", "bad body"),
    ("0x3\r\nabc\r\n0\r\n\r\n", "bad body"),
    ("g\r\n", "bad body"),
    (";a\r\n\r\n", "bad body"),
    ("\r\n", "bad body"),
    ("\n", "bad body"),
    ("3\nabc\r\n0\r\n\r\n", "bad body"),
    ("3\rabc\r\n0\r\n\r\n", "bad body"),
    ("3;a\nabc\r\n0\r\n\r\n", "bad body"),
    ("3;a\rb\r\nabc\r\n0\r\n\r\n", "bad body"),
    ("3\r\nabc\n0\r\n\r\n", "bad body"),
    ("3\r\nabc\rx", "bad body"),
    ("3\r\nabcd\r\n0\r\n\r\n", "bad body"),
    ("3\r\nab\r\n0\r\n\r\n", "bad body"),
    ("3\r\nabc0\r\n\r\n", "bad body"),
    ("0\r\n\n", "bad body"),
    ("0\r\n\rx", "bad body"),
    ("0\r\nA: b\n\r\n", "bad body"),
    ("0\r\nA: b\rc\r\n\r\n", "bad body"),
    ("0\r\nA: b\r\n\n", "bad body"),
    ("1000001\rx", "bad body"),
    ("FFFFFFFFFFFFFFFFF\r\n", "bad body"),
];

/// What follows the head of one whose body is cut short or too long.
const UNFINISHED: [(&str, &str); 22] = [
    ("", "truncated body"),
    ("3", "truncated body"),
    ("3;", "truncated body"),
    ("3;ab", "truncated body"),
    ("3\r", "truncated body"),
    ("3\r\n", "truncated body"),
    ("3\r\nab", "truncated body"),
    ("3\r\nabc", "truncated body"),
    ("3\r\nabc\r", "truncated body"),
    ("3\r\nabc\r\n", "truncated body"),
    ("0\r\n", "truncated body"),
    ("0\r\n\r", "truncated body"),
    ("0\r\nA: b", "truncated body"),
    ("0\r\nA: b\r\n", "truncated body"),
    ("1000000\r\n", "truncated body"),
    ("1000001", "truncated body"),
    ("FFFFFFFFFFFFFFFF;x\r", "truncated body"),
    ("1\r\na\r\nFFFFFF\r\n", "truncated body"),
    ("1000001\r\n", "body too long"),
    ("FFFFFFFFFFFFFFFF\r\n", "body too long"),
    ("1\r\na\r\n1000000;x\r\nabc", "body too long"),
    ("1000001\r\nabc\r\nx", "body too long"),
];

fn source(alloc: Global, text: &[u8], cuts: Vec<usize>) -> Result<MemSource, Memory> {
    let mut bytes = Bytes::new(alloc);
    bytes.append(text)?;
    Ok(MemSource::new(bytes, cuts, Vec::new(alloc)))
}

fn next<S: Source>(frames: &mut Frames, source: &mut S) -> Result<Option<Request>, FrameFault> {
    match frames.next_head(source)? {
        None => Ok(None),
        Some(head) => Ok(Some(frames.read_body(head, source)?)),
    }
}

fn name(fault: FrameFault) -> &'static str {
    match fault {
        FrameFault::BadHead => "bad head",
        FrameFault::BadHost => "bad host",
        FrameFault::BadBody => "bad body",
        FrameFault::Coding => "unsupported transfer coding",
        FrameFault::BodyTooLong => "body too long",
        FrameFault::Truncated => "truncated body",
        FrameFault::ReadFault => "the source failed",
        FrameFault::Memory => "no memory",
    }
}

/// The frames of a stream that comes in these pieces: the bodies of its requests in brackets, and then its
/// end or its refusal, which is answered again.
fn frames_of(alloc: Global, text: &[u8], cuts: Vec<usize>) -> Result<Vec<u8>, Memory> {
    let mut source = source(alloc, text, cuts)?;
    let mut frames = Frames::new(alloc)?;
    let mut out = Vec::new(alloc);
    for _ in 0..10u32 {
        match next(&mut frames, &mut source) {
            Ok(Some(request)) => {
                out.extend_from_slice(b"[")?;
                out.extend_from_slice(request.body.as_slice())?;
                out.extend_from_slice(b"]")?;
            }
            Ok(None) => {
                out.extend_from_slice(b"end")?;
                return Ok(out);
            }
            Err(fault) => {
                out.extend_from_slice(name(fault).as_bytes())?;
                if next(&mut frames, &mut source).err() != Some(fault) {
                    out.extend_from_slice(b" once")?;
                }
                return Ok(out);
            }
        }
    }
    Ok(out)
}

/// Whether a stream has these frames, whole and in single bytes.
fn has_frames(alloc: Global, text: &[u8], want: &str) -> Result<bool, Memory> {
    let whole = frames_of(alloc, text, Vec::new(alloc))?;
    let singly = frames_of(alloc, text, vec![in alloc; 1; text.len()]?)?;
    Ok(whole.as_slice() == want.as_bytes() && singly.as_slice() == want.as_bytes())
}

/// Whether a stream has these frames, also where it is cut once, at any byte.
fn has_frames_cut(alloc: Global, text: &[u8], want: &str) -> Result<bool, Memory> {
    let mut same = has_frames(alloc, text, want)?;
    for at in 1..text.len() {
        let cut = frames_of(alloc, text, vec![in alloc; at; 1]?)?;
        same = same && cut.as_slice() == want.as_bytes();
    }
    Ok(same)
}

#[test]
fn heads_have_their_frames(rt: HostRuntime) -> Result<(), Memory> {
    let alloc = rt.alloc();
    for (text, want) in HEADS {
        assert!(rt; has_frames_cut(alloc, text.as_bytes(), want)?, "{text}");
    }
    Ok(())
}

/// Whether a POST of this minor version with these fields, and what follows its head, have these frames.
fn post_has_frames(
    alloc: Global,
    minor: u8,
    fields: &str,
    rest: &str,
    want: &str,
) -> Result<bool, Memory> {
    let host = if minor == 1 { "Host: h\r\n" } else { "" };
    let text = format!(in alloc; "POST / HTTP/1.{minor}\r\n{host}{fields}\r\n\r\n{rest}")?;
    has_frames_cut(alloc, text.as_bytes(), want)
}

#[test]
fn lengths_have_their_frames(rt: HostRuntime) -> Result<(), Memory> {
    let alloc = rt.alloc();
    for (fields, rest, want) in LENGTHS {
        assert!(rt; post_has_frames(alloc, 1, fields, rest, want)?, "{fields}");
    }
    Ok(())
}

#[test]
fn codings_have_their_frames(rt: HostRuntime) -> Result<(), Memory> {
    let alloc = rt.alloc();
    for (fields, rest, want) in CODINGS {
        assert!(rt; post_has_frames(alloc, 1, fields, rest, want)?, "{fields}");
    }
    for (fields, rest, want) in [
        ("Content-Length: 3", "abc", "[abc]end"),
        ("Transfer-Encoding: chunked", "0\r\n\r\n", "bad body"),
        ("Transfer-Encoding: gzip", "0\r\n\r\n", "bad body"),
    ] {
        assert!(rt; post_has_frames(alloc, 0, fields, rest, want)?, "{fields}");
    }
    Ok(())
}

/// Whether a chunked request, and what follows its head, have these frames.
fn chunked_has_frames(alloc: Global, rest: &str, want: &str) -> Result<bool, Memory> {
    post_has_frames(alloc, 1, "Transfer-Encoding: chunked", rest, want)
}

#[test]
fn chunked_bodies_are_read(rt: HostRuntime) -> Result<(), Memory> {
    for (rest, want) in CHUNKED {
        assert!(rt; chunked_has_frames(rt.alloc(), rest, want)?, "{rest}");
    }
    Ok(())
}

#[test]
fn broken_chunked_bodies_are_refused(rt: HostRuntime) -> Result<(), Memory> {
    for (rest, want) in BROKEN {
        assert!(rt; chunked_has_frames(rt.alloc(), rest, want)?, "{rest}");
    }
    Ok(())
}

#[test]
fn unfinished_chunked_bodies_are_refused(rt: HostRuntime) -> Result<(), Memory> {
    for (rest, want) in UNFINISHED {
        assert!(rt; chunked_has_frames(rt.alloc(), rest, want)?, "{rest}");
    }
    Ok(())
}

/// A chunked request: these bytes, so many letters, and these bytes.
fn long_body(alloc: Global, front: &str, letters: usize, back: &str) -> Result<Vec<u8>, Memory> {
    let mut text = b"POST / HTTP/1.1\r\nHost: h\r\nTransfer-Encoding: chunked\r\n\r\n".to_vec(
        alloc,
    )?;
    text.extend_from_slice(front.as_bytes())?;
    text.resize(text.len().saturating_add(letters), b'a')?;
    text.extend_from_slice(back.as_bytes())?;
    Ok(text)
}

#[test]
fn chunked_bodies_have_exact_limits(rt: HostRuntime) -> Result<(), Memory> {
    let alloc = rt.alloc();
    for (front, letters, back, want) in [
        ("1;", 1024, "\r\nx\r\n0\r\n\r\n", "[x]end"),
        ("1;", 1025, "\r\nx\r\n0\r\n\r\n", "bad body"),
        ("1;", 1024, "", "truncated body"),
        ("1;", 1025, "", "bad body"),
        ("0;", 1024, "\r\n\r\nGET / HTTP/1.0\r\n\r\n", "[][]end"),
        ("0\r\n", 65_534, "\r\n\r\n", "[]end"),
        ("0\r\n", 65_534, "\r\n\r\nGET / HTTP/1.0\r\n\r\n", "[][]end"),
        ("0\r\n", 65_534, "\r\nb", "bad body"),
        ("0\r\n", 65_534, "", "truncated body"),
        ("0\r\n", 65_535, "", "bad body"),
        ("0\r\n", 65_535, "\r\n\r\n", "bad body"),
        ("0\r\nb\r\n", 65_531, "\r\n\r\n", "[]end"),
        ("0\r\nb\r\n", 65_532, "\r\n\r\n", "bad body"),
        ("0\r\n", 65_531, "\r\nb\r\n\r\n", "[]end"),
        ("0\r\n", 65_531, "\r\nbc\r\n\r\n", "bad body"),
    ] {
        let text = long_body(alloc, front, letters, back)?;
        assert!(rt; has_frames(alloc, &text, want)?, "{front}{letters}{back}");
    }
    Ok(())
}

#[test]
fn a_body_of_16_777_216_bytes_is_read(rt: HostRuntime) -> Result<(), FrameFault> {
    let alloc = rt.alloc();
    for (back, want) in [
        ("\r\n0\r\n\r\n", Ok(Some(16_777_216))),
        ("\r\n1\r\nb\r\n0\r\n\r\n", Err(FrameFault::BodyTooLong)),
    ] {
        let text = long_body(alloc, "1000000\r\n", 16_777_216, back)?;
        let mut source = source(alloc, &text, Vec::new(alloc))?;
        let mut frames = Frames::new(alloc)?;
        let answer = match next(&mut frames, &mut source) {
            Ok(Some(request)) => Ok(Some(request.body.len())),
            Ok(None) => Ok(None),
            Err(fault) => Err(fault),
        };
        assert!(rt; answer == want, "{back}");
    }
    Ok(())
}
