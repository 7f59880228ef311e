//! The bytes of refusals by form.
use api_calls::{Allow, ApiFault};
use api_replies::write_refusal;
use http_frame::write_response;
use query_text::QueryFault;
use rdf_term::{Bytes, Memory, Text};
use std::alloc::Global;
use std::test::Fail;

fn refusal(alloc: Global, fault: &ApiFault) -> Result<Bytes, Memory> {
    let response = write_refusal(alloc, fault)?;
    let mut out = Bytes::new(alloc);
    write_response(&response, 1, false, false, &mut out)?;
    Ok(out)
}

#[test]
fn refusals_by_form(rt: HostRuntime) -> Result<(), Fail> {
    let name = Text::from_chars(rt.alloc(), "context")?;
    let table = [
        (
            ApiFault::NoResource,
            "404 Not Found",
            "16\r\n\r\nno such resource",
        ),
        (
            ApiFault::NoRepository,
            "404 Not Found",
            "18\r\n\r\nno such repository",
        ),
        (
            ApiFault::BadName,
            "404 Not Found",
            "19\r\n\r\nno such transaction",
        ),
        (
            ApiFault::Media,
            "415 Unsupported Media Type",
            "22\r\n\r\nunsupported media type",
        ),
        (
            ApiFault::Parameter(name),
            "400 Bad Request",
            "21\r\n\r\nbad parameter context",
        ),
        (ApiFault::Line(3), "400 Bad Request", "10\r\n\r\nbad line 3"),
        (
            ApiFault::LongLine(12),
            "400 Bad Request",
            "12\r\n\r\nlong line 12",
        ),
        (
            ApiFault::Query(QueryFault::BadAt(24)),
            "400 Bad Request",
            "15\r\n\r\nbad query at 24",
        ),
        (
            ApiFault::Query(QueryFault::Unsupported(10)),
            "400 Bad Request",
            "17\r\n\r\nunsupported at 10",
        ),
        (
            ApiFault::Query(QueryFault::UnknownPrefix(6)),
            "400 Bad Request",
            "19\r\n\r\nunknown prefix at 6",
        ),
        (
            ApiFault::Namespace,
            "400 Bad Request",
            "13\r\n\r\nbad namespace",
        ),
        (
            ApiFault::NotAcceptable,
            "406 Not Acceptable",
            "14\r\n\r\nnot acceptable",
        ),
        (
            ApiFault::Memory,
            "503 Service Unavailable",
            "13\r\n\r\nout of memory",
        ),
    ];
    for (fault, status, body) in table {
        let want = format!(in rt.alloc();
            "HTTP/1.1 {status}\r\nContent-Type: text/plain;charset=UTF-8\r\nContent-Length: {body}"
        )?;
        let got = refusal(rt.alloc(), &fault)?;
        assert_eq!(rt; got.as_slice(), want.as_bytes(), "{body}");
    }
    Ok(())
}

#[test]
fn methods_of_resources(rt: HostRuntime) -> Result<(), Fail> {
    let table = [
        (Allow::Get, "GET"),
        (Allow::GetPost, "GET, POST"),
        (Allow::GetPostPutDelete, "GET, POST, PUT, DELETE"),
        (Allow::GetDelete, "GET, DELETE"),
        (Allow::GetPutDelete, "GET, PUT, DELETE"),
        (Allow::Post, "POST"),
        (Allow::PostPutDelete, "POST, PUT, DELETE"),
    ];
    for (allow, methods) in table {
        let want = format!(in rt.alloc();
            "HTTP/1.1 405 Method Not Allowed\r\nContent-Type: text/plain;charset=UTF-8\r\nAllow: {methods}\r\nContent-Length: 18\r\n\r\nmethod not allowed"
        )?;
        let got = refusal(rt.alloc(), &ApiFault::Method(allow))?;
        assert_eq!(rt; got.as_slice(), want.as_bytes(), "{methods}");
    }
    Ok(())
}
