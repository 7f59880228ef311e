//! Frames: the limits of heads, what heads say, and how often the bytes of a slow sender are looked at.
use http_frame::{
    FrameFault, Frames, Octets, Response, continue_of, frames_are_determined,
    heads_and_bodies_are_frames, write_response,
};
use rdf_io::{MemSource, Source};
use rdf_term::{Bytes, Memory, Seq};
use std::alloc::Global;

fn source(alloc: Global, text: &[u8], cuts: Vec<usize>) -> Result<MemSource, Memory> {
    let mut bytes = Bytes::new(alloc);
    bytes.append(text)?;
    Ok(MemSource::new(bytes, cuts, Vec::new(alloc)))
}

/// Reads the next request, and answers how many bytes its body has.
fn next<S: Source>(frames: &mut Frames, source: &mut S) -> Result<Option<usize>, FrameFault> {
    match frames.next_head(source)? {
        None => Ok(None),
        Some(head) => Ok(Some(frames.read_body(head, source)?.body.len())),
    }
}

/// A head of a GET with so many fields, and a last one whose value has so many letters.
fn head(alloc: Global, fields: usize, letters: usize) -> Result<Vec<u8>, Memory> {
    let mut text = b"GET / HTTP/1.0\r\n".to_vec(alloc)?;
    for _ in 1..fields {
        text.extend_from_slice(b"A: b\r\n")?;
    }
    text.extend_from_slice(b"X: ")?;
    text.resize(text.len().saturating_add(letters), b'a')?;
    text.extend_from_slice(b"\r\n\r\n")?;
    Ok(text)
}

#[test]
fn heads_have_exact_limits(rt: HostRuntime) -> Result<(), FrameFault> {
    let alloc = rt.alloc();
    frames_are_determined();
    heads_and_bodies_are_frames();
    for (fields, letters, size, accepted) in [
        (128, 3, 16 + 127 * 6 + 10, true),
        (129, 3, 16 + 128 * 6 + 10, false),
        (1, 65_513, 65_536, true),
        (1, 65_514, 65_537, false),
    ] {
        let text = head(alloc, fields, letters)?;
        assert_eq!(rt; text.len(), size);
        let mut source = source(alloc, &text, Vec::new(alloc))?;
        let mut frames = Frames::new(alloc)?;
        let answer = next(&mut frames, &mut source);
        let want = if accepted {
            Ok(Some(0))
        } else {
            Err(FrameFault::BadHead)
        };
        assert!(rt; answer == want, "{fields} fields, {size} bytes");
    }
    Ok(())
}

#[test]
fn connections_close_by_version_and_option(rt: HostRuntime) -> Result<(), FrameFault> {
    let alloc = rt.alloc();
    for (text, closes) in [
        ("GET / HTTP/1.1\r\nHost: h\r\n\r\n", false),
        ("GET / HTTP/1.0\r\n\r\n", true),
        (
            "GET / HTTP/1.1\r\nHost: h\r\nConnection: close\r\n\r\n",
            true,
        ),
        (
            "GET / HTTP/1.1\r\nHost: h\r\nconnection: a ,\tCLOSE , b\r\n\r\n",
            true,
        ),
        (
            "GET / HTTP/1.1\r\nHost: h\r\nConnection: keep-alive\r\nConnection: close\r\n\r\n",
            true,
        ),
        (
            "GET / HTTP/1.1\r\nHost: h\r\nConnection: closed\r\n\r\n",
            false,
        ),
        (
            "GET / HTTP/1.1\r\nHost: h\r\nConnection: not close\r\n\r\n",
            false,
        ),
    ] {
        let mut source = source(alloc, text.as_bytes(), Vec::new(alloc))?;
        let mut frames = Frames::new(alloc)?;
        match frames.next_head(&mut source)? {
            Some(head) => assert!(rt; head.closes == closes, "{text}"),
            None => assert!(rt; false, "{text}"),
        }
    }
    Ok(())
}

#[test]
fn heads_ask_for_their_bodies(rt: HostRuntime) -> Result<(), FrameFault> {
    let alloc = rt.alloc();
    for (fields, expects) in [
        (
            "1\r\nHost: h\r\nContent-Length: 1\r\nExpect: 100-continue",
            true,
        ),
        (
            "1\r\nHost: h\r\nContent-Length: 1\r\nexpect: 100-CONTINUE",
            true,
        ),
        (
            "1\r\nHost: h\r\nContent-Length: 1\r\nExpect: x , 100-continue",
            true,
        ),
        (
            "1\r\nHost: h\r\nTransfer-Encoding: chunked\r\nExpect: 100-continue",
            true,
        ),
        (
            "1\r\nHost: h\r\nContent-Length: 0\r\nExpect: 100-continue",
            false,
        ),
        ("1\r\nHost: h\r\nExpect: 100-continue", false),
        ("1\r\nHost: h\r\nContent-Length: 1\r\nExpect: 100", false),
        ("1\r\nHost: h\r\nContent-Length: 1", false),
        ("0\r\nContent-Length: 1\r\nExpect: 100-continue", false),
    ] {
        let mut text = b"POST / HTTP/1.".to_vec(alloc)?;
        text.extend_from_slice(fields.as_bytes())?;
        text.extend_from_slice(b"\r\n\r\n")?;
        let mut source = source(alloc, &text, Vec::new(alloc))?;
        let mut frames = Frames::new(alloc)?;
        match frames.next_head(&mut source)? {
            Some(head) => {
                assert!(rt; head.expects == expects, "{fields}");
                assert!(rt; (continue_of(&head).len() > 0) == expects, "{fields}");
            }
            None => assert!(rt; false, "{fields}"),
        }
    }
    Ok(())
}

#[test]
fn single_bytes_cost_no_quadratic_work(rt: HostRuntime) -> Result<(), FrameFault> {
    let alloc = rt.alloc();
    let text = head(alloc, 1, 64_900)?;
    let cuts = vec![in alloc; 1; 70_000]?;
    let mut source = source(alloc, &text, cuts)?;
    let mut frames = Frames::new(alloc)?;
    assert!(rt; next(&mut frames, &mut source) == Ok(Some(0)));
    assert!(rt; next(&mut frames, &mut source) == Ok(None));
    Ok(())
}

#[test]
fn a_long_body_comes_in_single_bytes(rt: HostRuntime) -> Result<(), FrameFault> {
    let alloc = rt.alloc();
    let mut text = b"POST / HTTP/1.0\r\nContent-Length: 200000\r\n\r\n".to_vec(alloc)?;
    text.resize(text.len().saturating_add(200_000), b'a')?;
    text.extend_from_slice(b"GET / HTTP/1.0\r\n\r\n")?;
    let cuts = vec![in alloc; 1; 200_200]?;
    let mut source = source(alloc, &text, cuts)?;
    let mut frames = Frames::new(alloc)?;
    assert!(rt; next(&mut frames, &mut source) == Ok(Some(200_000)));
    assert!(rt; next(&mut frames, &mut source) == Ok(Some(0)));
    assert!(rt; next(&mut frames, &mut source) == Ok(None));
    Ok(())
}

#[test]
fn empty_lines_come_in_single_bytes(rt: HostRuntime) -> Result<(), FrameFault> {
    let alloc = rt.alloc();
    let mut text = Vec::new(alloc);
    text.resize(65_000, b'\n')?;
    text.extend_from_slice(b"GET / HTTP/1.0\n\n")?;
    let cuts = vec![in alloc; 1; 65_100]?;
    let mut source = source(alloc, &text, cuts)?;
    let mut frames = Frames::new(alloc)?;
    assert!(rt; next(&mut frames, &mut source) == Ok(Some(0)));
    assert!(rt; next(&mut frames, &mut source) == Ok(None));
    Ok(())
}

#[test]
fn many_chunks_come_in_single_bytes(rt: HostRuntime) -> Result<(), FrameFault> {
    let alloc = rt.alloc();
    let mut text = b"POST / HTTP/1.1\r\nHost: h\r\nTransfer-Encoding: chunked\r\n\r\n".to_vec(
        alloc,
    )?;
    for _ in 0..50_000u32 {
        text.extend_from_slice(b"1;x\r\na\r\n")?;
    }
    text.extend_from_slice(b"0\r\n\r\nGET / HTTP/1.0\r\n\r\n")?;
    let cuts = vec![in alloc; 1; 500_000]?;
    let mut source = source(alloc, &text, cuts)?;
    let mut frames = Frames::new(alloc)?;
    assert!(rt; next(&mut frames, &mut source) == Ok(Some(50_000)));
    assert!(rt; next(&mut frames, &mut source) == Ok(Some(0)));
    assert!(rt; next(&mut frames, &mut source) == Ok(None));
    Ok(())
}

fn octets(alloc: Global, text: &str) -> Result<Octets, Memory> {
    Ok(Octets::from_vec(text.as_bytes().to_vec(alloc)?))
}

#[test]
fn responses_are_written_as_stated(rt: HostRuntime) -> Result<(), Memory> {
    let alloc = rt.alloc();
    for (status, closes, bodiless, want) in [
        (
            200,
            false,
            false,
            "HTTP/1.1 200 OK\r\nX: y\r\nContent-Length: 2\r\n\r\nab",
        ),
        (
            404,
            true,
            false,
            "HTTP/1.1 404 Not Found\r\nX: y\r\nContent-Length: 2\r\nConnection: close\r\n\r\nab",
        ),
        (200, false, true, "HTTP/1.1 200 OK\r\nX: y\r\n\r\n"),
        (
            204,
            true,
            false,
            "HTTP/1.1 204 No Content\r\nX: y\r\nConnection: close\r\n\r\n",
        ),
    ] {
        let mut fields = Seq::new(alloc);
        fields.push((octets(alloc, "X")?, octets(alloc, "y")?))?;
        let mut body = Bytes::new(alloc);
        body.append(b"ab")?;
        let response = Response {
            status,
            fields,
            body,
        };
        let mut out = Bytes::new(alloc);
        write_response(&response, 1, closes, bodiless, &mut out)?;
        assert!(rt; out.as_slice() == want.as_bytes(), "{want}");
    }
    Ok(())
}
