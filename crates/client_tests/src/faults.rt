//! Words, faults of each end, and single exchanges.
use crate::client::{CALM, Outside, Ran, run, run_words};
use api_calls::Call;
use http_frame::Frames;
use rdf_client::{ClientEnd, exchange, is_host};
use rdf_io::{MemSink, MemSource};
use rdf_term::{Bytes, Memory, Text};
use reply_reading::Got;
use std::alloc::Global;

const SIZE: &str = "HTTP/1.1 200 OK\r\nContent-Length: 1\r\n\r\n7";

/// A run with words that stand between bars, on a script and a response of one size.
fn run_barred(alloc: Global, barred: &str) -> Result<Ran, Memory> {
    let mut words = Vec::new(alloc);
    for word in barred.split('|') {
        words.push(word)?;
    }
    run_words(alloc, &words, b"size\n", SIZE.as_bytes(), CALM)
}

#[test]
fn words_of_the_client(rt: HostRuntime) -> Result<(), Memory> {
    let alloc = rt.alloc();
    for good in [
        "--server|h:1|--repository|r",
        "--repository=r-1_x|--server=localhost:80",
    ] {
        assert!(rt; run_barred(alloc, good)?.is(0, "size 7\n"), "{good}");
    }
    for bad in [
        "",
        "--help",
        "--server|h:1",
        "--repository|r",
        "--server|h:1|--repository",
        "--server|h:1|--repository|r|x",
        "--server|h:1|--repository|r|--repository|s",
        "--server|h 1|--repository|r",
        "--server|h:1|--repository|_r",
        "--server|h:1|--repository=",
        "--Server|h:1|--repository|r",
    ] {
        let ran = run_barred(alloc, bad)?;
        assert!(rt; ran.is(5, "") && ran.sent.is_none(), "{bad}");
    }
    assert!(rt; run_words(alloc, &[], b"size\n", SIZE.as_bytes(), CALM)?.is(5, ""));
    Ok(())
}

#[test]
fn faults_of_each_end(rt: HostRuntime) -> Result<(), Memory> {
    let alloc = rt.alloc();
    for call in [0, 1] {
        for (outside, status) in [
            (
                Outside {
                    input_fails: Some(call),
                    ..CALM
                },
                2,
            ),
            (
                Outside {
                    source_fails: Some(call),
                    ..CALM
                },
                2,
            ),
            (
                Outside {
                    sink_fails: Some(call),
                    ..CALM
                },
                3,
            ),
            (
                Outside {
                    out_fails: Some(call),
                    ..CALM
                },
                3,
            ),
        ] {
            let responses = SIZE.repeat(alloc, 2)?;
            let ran = run(
                alloc,
                "size\nsize\n",
                responses.as_str(),
                Outside { cut: 45, ..outside },
            )?;
            assert_eq!(rt; ran.status, status, "{call}");
            assert!(rt; ran.sent.is_some());
            assert!(rt; "size 7\nsize 7\n".starts_with(ran.printed.as_str()));
        }
    }
    let undialed = run(
        alloc,
        "size\n",
        SIZE,
        Outside {
            dial_fails: Some(0),
            ..CALM
        },
    )?;
    assert!(rt; undialed.is(8, "") && undialed.sent.is_none());
    Ok(())
}

#[test]
fn hosts(rt: HostRuntime) -> Result<(), Memory> {
    let alloc = rt.alloc();
    for (text, want) in [
        ("", true),
        ("!~", true),
        ("h:1", true),
        ("h 1", false),
        ("\u{7f}", false),
        ("é", false),
    ] {
        assert_eq!(rt; is_host(&Text::from_chars(alloc, text)?), want, "{text}");
    }
    Ok(())
}

/// What is got.
fn told(alloc: Global, got: &Result<Got, ClientEnd>) -> Result<String, Memory> {
    Ok(match got {
        Ok(Got::Reply(_)) => format!(in alloc; "reply")?,
        Ok(Got::Refused(status, body)) => {
            let body = String::from_utf8_lossy(alloc, body.as_slice())?;
            format!(in alloc; "refused {status} {body}")?
        }
        Err(ClientEnd::BadReply) => format!(in alloc; "bad reply")?,
        Err(_) => format!(in alloc; "another end")?,
    })
}

/// What is got by the call for the protocol from these bytes, behind what is sent for it.
fn exchanged(alloc: Global, bytes: &str) -> Result<String, Memory> {
    let host = Text::from_chars(alloc, "h")?;
    if !is_host(&host) {
        return Ok(String::new(alloc));
    }
    let mut all = Bytes::new(alloc);
    all.append(bytes.as_bytes())?;
    let mut source = MemSource::new(all, Vec::new(alloc), Vec::new(alloc));
    let mut sink = MemSink::new(alloc, Vec::new(alloc));
    let mut frames = Frames::new(alloc)?;
    let got = exchange(
        alloc,
        &Call::Protocol,
        &host,
        &mut frames,
        &mut source,
        &mut sink,
    );
    let told = told(alloc, &got)?;
    let sent = String::from_utf8_lossy(alloc, sink.taken())?;
    Ok(format!(in alloc; "{sent}{told}")?)
}

#[test]
fn single_exchanges(rt: HostRuntime) -> Result<(), Memory> {
    let alloc = rt.alloc();
    for (bytes, want) in [
        ("HTTP/1.1 200 OK\r\nContent-Length: 2\r\n\r\n12", "reply"),
        (
            "HTTP/1.1 404 Not Found\r\nContent-Length: 1\r\n\r\nx",
            "refused 404 x",
        ),
        ("HTTP/1.1 200 OK\r\nContent-Length: 2\r\n\r\n1", "bad reply"),
    ] {
        let want = format!(in alloc;
            "GET /rdf4j-server/protocol HTTP/1.1\r\nHost: h\r\n\r\n{want}"
        )?;
        assert_eq!(rt; exchanged(alloc, bytes)?.as_str(), want.as_str());
    }
    Ok(())
}
