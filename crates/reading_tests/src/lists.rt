//! Contexts and prefixes.
use crate::asked::{bytes, got, on, read};
use journal::{Ask, NamesOp, Op};
use media::Form;
use rdf_term::{Bytes, Memory};
use std::alloc::Global;
use std::test::Fail;

/// A table of these columns and rows.
fn table_of(alloc: Global, vars: &[u8], rows: &[u8]) -> Result<Bytes, Memory> {
    let mut body = bytes(alloc, br#"{"head":{"vars":["#)?;
    body.append(vars)?;
    body.append(br#"]},"results":{"bindings":["#)?;
    body.append(rows)?;
    body.append(b"]}}")?;
    Ok(body)
}

#[test]
fn contexts(rt: HostRuntime) -> Result<(), Fail> {
    let alloc = rt.alloc();
    let call = on(alloc, read(Ask::Contexts), Form::Json)?;
    let table: [(&[u8], &[u8], &[u8]); 9] = [
        (br#""contextID""#, b"", b"contexts"),
        (
            br#""contextID""#,
            br#"{"contextID":{"type":"uri","value":"u:b"}},{"contextID":{"type":"bnode","value":"a"}}"#,
            b"contexts <u:b> _:a",
        ),
        (
            br#""context\u0049D""#,
            br#"{"context\u0049D":{"value":"u:b","type":"uri"}}"#,
            b"contexts <u:b>",
        ),
        (br#""contextID""#, b"{}", b"bad 0"),
        (
            br#""contextID""#,
            br#"{"contextID":{"type":"uri","value":"u:b"}},{}"#,
            b"bad 0",
        ),
        (
            br#""contextID""#,
            br#"{},{"contextID":{"type":"uri","value":"b"}}"#,
            b"bad 2",
        ),
        (
            br#""contextid""#,
            br#"{"contextid":{"type":"uri","value":"u:b"}}"#,
            b"bad 0",
        ),
        (
            br#""contextID","x""#,
            br#"{"contextID":{"type":"uri","value":"u:b"}}"#,
            b"bad 0",
        ),
        (b"", b"", b"bad 0"),
    ];
    for (vars, rows, want) in table {
        let body = table_of(alloc, vars, rows)?;
        let got = got(alloc, &call, 200, &[], body.as_slice())?;
        assert_eq!(rt; got.as_slice(), want);
    }
    let none = got(alloc, &call, 200, &[], b"")?;
    assert_eq!(rt; none.as_slice(), b"bad 0".as_slice());
    Ok(())
}

#[test]
fn prefixes(rt: HostRuntime) -> Result<(), Fail> {
    let alloc = rt.alloc();
    let call = on(alloc, Op::Names(NamesOp::List), Form::ResultsJson)?;
    let columns = br#""prefix","namespace""#.as_slice();
    let table: [(&[u8], &[u8], &[u8]); 9] = [
        (columns, b"", b"prefixes"),
        (
            columns,
            br#"{"namespace":{"type":"literal","value":"u:b"},"prefix":{"type":"literal","value":"b"}},{"prefix":{"type":"literal","value":"a"},"namespace":{"type":"literal","value":"u:a"}}"#,
            b"prefixes b=u:b a=u:a",
        ),
        (
            columns,
            br#"{"prefix":{"type":"literal","value":"b"}}"#,
            b"bad 0",
        ),
        (
            columns,
            br#"{"namespace":{"type":"literal","value":"b"}}"#,
            b"bad 0",
        ),
        (
            columns,
            br#"{"prefix":{"type":"literal","value":"b"},"namespace":{"type":"uri","value":"u:b"}}"#,
            b"bad 0",
        ),
        (
            columns,
            br#"{"prefix":{"type":"literal","value":"b","xml:lang":"en"},"namespace":{"type":"literal","value":"u:b"}}"#,
            b"bad 0",
        ),
        (
            columns,
            br#"{"prefix":{"type":"literal"},"namespace":{"type":"literal","value":"u:b"}}"#,
            b"bad 1",
        ),
        (br#""namespace","prefix""#, b"", b"bad 0"),
        (br#""prefix""#, b"", b"bad 0"),
    ];
    for (vars, rows, want) in table {
        let body = table_of(alloc, vars, rows)?;
        let got = got(alloc, &call, 200, &[], body.as_slice())?;
        assert_eq!(rt; got.as_slice(), want);
    }
    Ok(())
}
