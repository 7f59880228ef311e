//! The bytes of responses that are written without memory.
ghost use Rattle.std.specs.Prelude.{IsTrue};
ghost use Rattle.api_replies.specs.Ids.{is_id};

use api_replies::{Short, short_of, write_short};
use journal::{Level, Op, Reply, Txn};
use rdf_term::{Bytes, Memory, Text};
use std::alloc::Global;
use std::test::Fail;

const T: Txn = Txn {
    place: 1_234,
    level: Level::Serializable,
};

/// The bytes of a case, written into 1,024 spare ones.
fn short(alloc: Global, case: Short, closes: bool, bodiless: bool) -> Result<Bytes, Memory> {
    let repo = Text::from_char_slice(alloc, &['r', '-', '1'])?;
    let mut out = Bytes::new(alloc);
    out.room(1_024)?;
    write_short(&repo, case, closes, bodiless, &mut out);
    Ok(out)
}

#[test]
fn each_case(rt: HostRuntime) -> Result<(), Fail> {
    let table = [
        (
            Short::Begun(T),
            "201 Created\r\nLocation: /rdf4j-server/repositories/r-1/transactions/1234-5\r\nContent-Length: 0\r\n\r\n",
        ),
        (Short::Committed, "200 OK\r\nContent-Length: 0\r\n\r\n"),
        (Short::Done, "204 No Content\r\n\r\n"),
        (
            Short::NoTransaction,
            "404 Not Found\r\nContent-Type: text/plain;charset=UTF-8\r\nContent-Length: 19\r\n\r\nno such transaction",
        ),
        (
            Short::TooManyOpen,
            "429 Too Many Requests\r\nContent-Type: text/plain;charset=UTF-8\r\nContent-Length: 21\r\n\r\ntoo many transactions",
        ),
        (
            Short::TooLarge,
            "507 Insufficient Storage\r\nContent-Type: text/plain;charset=UTF-8\r\nContent-Length: 15\r\n\r\nrepository full",
        ),
        (
            Short::JournalFull,
            "507 Insufficient Storage\r\nContent-Type: text/plain;charset=UTF-8\r\nContent-Length: 12\r\n\r\njournal full",
        ),
        (
            Short::OutOfMemory,
            "503 Service Unavailable\r\nContent-Type: text/plain;charset=UTF-8\r\nContent-Length: 13\r\n\r\nout of memory",
        ),
    ];
    for (case, text) in table {
        let want = format!(in rt.alloc(); "HTTP/1.1 {text}")?;
        let got = short(rt.alloc(), case, false, false)?;
        assert_eq!(rt; got.as_slice(), want.as_bytes(), "{text}");
    }
    Ok(())
}

#[test]
fn closing_and_bodiless(rt: HostRuntime) -> Result<(), Fail> {
    let closing = short(rt.alloc(), Short::OutOfMemory, true, false)?;
    assert_eq!(rt;
        closing.as_slice(),
        b"HTTP/1.1 503 Service Unavailable\r\nContent-Type: text/plain;charset=UTF-8\r\nContent-Length: 13\r\nConnection: close\r\n\r\nout of memory".as_slice(),
    );
    let bodiless = short(rt.alloc(), Short::OutOfMemory, false, true)?;
    assert_eq!(rt;
        bodiless.as_slice(),
        b"HTTP/1.1 503 Service Unavailable\r\nContent-Type: text/plain;charset=UTF-8\r\n\r\n".as_slice(),
    );
    Ok(())
}

#[test]
fn cases_of_replies(rt: HostRuntime) {
    assert!(rt;
        matches!(
            short_of(&Op::Commit(T), &Reply::Done),
            Some(Short::Committed)
        )
    );
    assert!(rt; matches!(short_of(&Op::Ping(T), &Reply::Done), Some(Short::Done)));
    assert!(rt; matches!(short_of(&Op::Ping(T), &Reply::NoPrefix), None));
}
