//! Statuses, calls that are done whatever the body is, and transactions.
use crate::asked::{got, on, select, size};
use api_calls::Call;
use change_set::Changes;
use journal::{Level, NamesOp, Op, Txn};
use media::Form;
use rdf_term::Text;
use std::test::Fail;

const T: Txn = Txn {
    place: 4,
    level: Level::Serializable,
};

#[test]
fn refusals_by_status(rt: HostRuntime) -> Result<(), Fail> {
    let alloc = rt.alloc();
    let call = on(alloc, size(alloc), Form::PlainText)?;
    let table: [(u16, &[u8], &[u8]); 7] = [
        (200, b"2", b"count 2"),
        (201, b"2", b"count 2"),
        (204, b"2", b"count 2"),
        (202, b"2", b"refused 202 2"),
        (304, b"", b"refused 304 "),
        (
            404,
            b"no such repository",
            b"refused 404 no such repository",
        ),
        (503, b"\xff", b"refused 503 \xff"),
    ];
    for (status, body, want) in table {
        let got = got(alloc, &call, status, &[], body)?;
        assert_eq!(rt; got.as_slice(), want, "{status}");
    }
    Ok(())
}

#[test]
fn done_whatever_the_body_is(rt: HostRuntime) -> Result<(), Fail> {
    let alloc = rt.alloc();
    let write = Op::Write {
        txn: None,
        changes: Changes::new(alloc),
    };
    let prefix = Text::from_chars(alloc, "ex")?;
    let calls = [
        Call::Protocol,
        Call::Repositories(Form::Json),
        on(alloc, write, Form::PlainText)?,
        on(alloc, Op::Commit(T), Form::PlainText)?,
        on(alloc, Op::Rollback(T), Form::PlainText)?,
        on(alloc, Op::Ping(T), Form::PlainText)?,
        on(alloc, Op::Names(NamesOp::Remove(prefix)), Form::PlainText)?,
        on(alloc, Op::Names(NamesOp::Clear), Form::PlainText)?,
    ];
    for call in &calls {
        for body in [b"".as_slice(), b"12".as_slice(), b"\xff{".as_slice()] {
            let done = got(alloc, call, 204, &[], body)?;
            assert_eq!(rt; done.as_slice(), b"done".as_slice());
        }
        let refused = got(alloc, call, 404, &[], b"no")?;
        assert_eq!(rt; refused.as_slice(), b"refused 404 no".as_slice());
    }
    Ok(())
}

#[test]
fn transactions_by_location(rt: HostRuntime) -> Result<(), Fail> {
    let alloc = rt.alloc();
    let call = on(alloc, Op::Begin(Level::Snapshot), Form::PlainText)?;
    let table: [(&str, &str, &[u8]); 15] = [
        (
            "Location",
            "/rdf4j-server/repositories/r/transactions/10-4",
            b"begun 10 4",
        ),
        ("LOCATION", "http://h:8080/x/0-0", b"begun 0 0"),
        (
            "location",
            "/4611686018427387903-5",
            b"begun 4611686018427387903 5",
        ),
        ("Location", "10-4", b"bad 0"),
        ("Location", "/10-4/", b"bad 0"),
        ("Location", "/10-4/x", b"bad 0"),
        ("Location", "/10-4?a=/1-x", b"bad 0"),
        ("Location", "/010-4", b"bad 0"),
        ("Location", "/10-6", b"bad 0"),
        ("Location", "/+1-4", b"bad 0"),
        ("Location", "/10", b"bad 0"),
        ("Location", "/4611686018427387904-5", b"bad 0"),
        ("Location", "/10-4 ", b"bad 0"),
        ("Location", "", b"bad 0"),
        ("Content-Location", "/10-4", b"bad 0"),
    ];
    for (name, value, want) in table {
        let got = got(alloc, &call, 201, &[(name, value)], b"ignored")?;
        assert_eq!(rt; got.as_slice(), want, "{name}: {value}");
    }
    let twice = [("Location", "/10-4"), ("location", "/10-4")];
    let two = got(alloc, &call, 201, &twice, b"")?;
    assert_eq!(rt; two.as_slice(), b"bad 0".as_slice());
    let none = got(alloc, &call, 201, &[], b"/10-4")?;
    assert_eq!(rt; none.as_slice(), b"bad 0".as_slice());
    let other = got(
        alloc,
        &on(alloc, select(alloc), Form::Json)?,
        200,
        &[("Location", "/10-4")],
        b"",
    )?;
    assert_eq!(rt; other.as_slice(), b"bad 0".as_slice());
    Ok(())
}
