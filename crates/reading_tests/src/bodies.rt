//! Numbers, texts, truth values, documents and tables.
use crate::asked::{ask, bytes, construct, got, list, on, select, size};
use journal::{NamesOp, Op};
use media::Form;
use rdf_term::Text;
use std::test::Fail;

#[test]
fn numbers(rt: HostRuntime) -> Result<(), Fail> {
    let alloc = rt.alloc();
    let call = on(alloc, size(alloc), Form::PlainText)?;
    let table: [(&[u8], &[u8]); 13] = [
        (b"0", b"count 0"),
        (b"1048576", b"count 1048576"),
        (b"007", b"count 7"),
        (b"18446744073709551615", b"count 18446744073709551615"),
        (b"18446744073709551616", b"bad 0"),
        (b"+1", b"bad 0"),
        (b"-0", b"bad 0"),
        (b"", b"bad 0"),
        (b" 1", b"bad 0"),
        (b"1\n", b"bad 0"),
        (b"1.0", b"bad 0"),
        (b"1e3", b"bad 0"),
        (b"\xd9\xa1", b"bad 0"),
    ];
    for (body, want) in table {
        let got = got(alloc, &call, 200, &[], body)?;
        assert_eq!(rt; got.as_slice(), want);
    }
    Ok(())
}

#[test]
fn names_of_prefixes(rt: HostRuntime) -> Result<(), Fail> {
    let alloc = rt.alloc();
    let prefix = Text::from_chars(alloc, "ex")?;
    let call = on(alloc, Op::Names(NamesOp::Get(prefix)), Form::PlainText)?;
    let table: [(&[u8], &[u8]); 5] = [
        (b"http://e/", b"prefix http://e/"),
        (b"", b"prefix "),
        (b"\xc3\xa9\n", b"prefix \xc3\xa9\n"),
        (b"http://\xff/", b"bad 0"),
        (b"\xed\xa0\x80", b"bad 0"),
    ];
    for (body, want) in table {
        let got = got(alloc, &call, 200, &[], body)?;
        assert_eq!(rt; got.as_slice(), want);
    }
    Ok(())
}

#[test]
fn truth_values(rt: HostRuntime) -> Result<(), Fail> {
    let alloc = rt.alloc();
    let table: [(Form, &[u8], &[u8]); 14] = [
        (Form::Boolean, b"true", b"yes"),
        (Form::Boolean, b"false", b"no"),
        (Form::Boolean, b"TRUE", b"bad 0"),
        (Form::Boolean, b"true\n", b"bad 0"),
        (Form::Boolean, b"", b"bad 0"),
        (Form::Boolean, br#"{"head":{},"boolean":true}"#, b"bad 0"),
        (Form::ResultsJson, br#"{"boolean":true,"head":{}}"#, b"yes"),
        (
            Form::Json,
            b" {\n \"head\" : { \"link\" : [ ] } , \"boolean\" : false , \"x\" : 1 }\n",
            b"no",
        ),
        (
            Form::Json,
            br#"{"h\u0065ad":{},"b\u006folean":true}"#,
            b"yes",
        ),
        (Form::Json, b"true", b"bad 0"),
        (Form::Json, br#"{"boolean":true}"#, b"bad 0"),
        (Form::Json, br#"{"head":{},"boolean":"true"}"#, b"bad 0"),
        (Form::ResultsJson, br#"{"head":{},"boolean":true"#, b"bad 0"),
        (Form::ResultsJson, b"", b"bad 0"),
    ];
    for (form, body, want) in table {
        let call = on(alloc, ask(alloc), form)?;
        let got = got(alloc, &call, 200, &[], body)?;
        assert_eq!(rt; got.as_slice(), want);
    }
    Ok(())
}

#[test]
fn documents(rt: HostRuntime) -> Result<(), Fail> {
    let alloc = rt.alloc();
    let named = b"<http://e/s> <http://e/p> \"1\" <http://e/g> .\n".as_slice();
    let plain = b"<http://e/s> <http://e/p> \"1\" .\n".as_slice();
    let table: [(Form, &[u8], &[u8]); 11] = [
        (Form::NQuads, b"", b""),
        (Form::XNQuads, named, named),
        (
            Form::NQuads,
            b"# c\r\n\r\n<http://e/s>\t<http://e/p>\"\\u0031\"<http://e/g>. # d",
            named,
        ),
        (Form::NTriples, plain, plain),
        (
            Form::PlainTriples,
            b"<http://e/s><http://e/p>\"1\".\n",
            plain,
        ),
        (Form::NTriples, named, b"bad 1"),
        (
            Form::PlainTriples,
            b"\n\n<http://e/s> <http://e/p> \"1\" <http://e/g> .\n",
            b"bad 3",
        ),
        (Form::NQuads, b"x", b"bad 1"),
        (
            Form::NQuads,
            b"<http://e/s> <http://e/p> \"1\" .\nx\ny\n",
            b"bad 2",
        ),
        (Form::NQuads, b"#\r#\r\n#\nx", b"bad 4"),
        (Form::NQuads, b"\xef\xbb\xbf", b"bad 1"),
    ];
    for (form, body, want) in table {
        for op in [list(alloc), construct(alloc)] {
            let call = on(alloc, op, form)?;
            let got = got(alloc, &call, 200, &[], body)?;
            assert_eq!(rt; got.as_slice(), want);
        }
    }
    Ok(())
}

#[test]
fn long_line(rt: HostRuntime) -> Result<(), Fail> {
    let alloc = rt.alloc();
    let mut body = bytes(
        alloc,
        b"<http://e/s> <http://e/p> \"1\" .\n<http://e/s> <http://e/p> \"",
    )?;
    for _ in 0..65_536 {
        body.append(b"a")?;
    }
    body.append(b"\" .\n")?;
    let call = on(alloc, list(alloc), Form::NQuads)?;
    let got = got(alloc, &call, 200, &[], body.as_slice())?;
    assert_eq!(rt; got.as_slice(), b"bad 2".as_slice());
    Ok(())
}

#[test]
fn tables(rt: HostRuntime) -> Result<(), Fail> {
    let alloc = rt.alloc();
    let one =
        br#"{"head":{"vars":["a","b"]},"results":{"bindings":[{"a":{"type":"uri","value":"u:v"}}]}}"#.as_slice();
    let table: [(&[u8], &[u8]); 11] = [
        (one, one),
        (
            b"{ \"results\" : { \"ordered\" : true , \"bindings\" : [ { \"a\" : { \"value\" : \"u:\\u0076\" , \"x\" : null , \"type\" : \"uri\" } } ] } ,\r\n \"head\" : { \"link\" : [ ] , \"vars\" : [ \"a\" , \"b\" ] } }",
            one,
        ),
        (
            br#"{"head":{"vars":["a"]},"results":{"bindings":[{"a":{"type":"typed-literal","datatype":"http://www.w3.org/2001/XMLSchema#string","value":"x"}}]}}"#,
            br#"{"head":{"vars":["a"]},"results":{"bindings":[{"a":{"type":"literal","value":"x"}}]}}"#,
        ),
        (b"", b"bad 0"),
        (b"x", b"bad 0"),
        (br#"{"head":{},"boolean":true}"#, b"bad 0"),
        (
            br#"{"head":{"vars":["a","a"]},"results":{"bindings":[]}}"#,
            b"bad 0",
        ),
        (
            br#"{"head":{"vars":["a"]},"results":{"bindings":[{"b":{"type":"uri","value":"u:v"}}]}}"#,
            b"bad 0",
        ),
        (
            br#"{"head":{"vars":["a"]},"results":{"bindings":[{"a":{"type":"uri","value":"v"}}]}}"#,
            b"bad 1",
        ),
        (
            br#"{"head":{"vars":["a"]},"results":{"bindings":[{},{"a":{"type":"uri"}},{"a":{}}]}}"#,
            b"bad 2",
        ),
        (
            br#"{"head":{"vars":["a"]},"results":{"bindings":[{},{"a":{"type":"uri"}},{"a":1}]}}"#,
            b"bad 0",
        ),
    ];
    for form in [Form::ResultsJson, Form::Json] {
        let call = on(alloc, select(alloc), form)?;
        for (body, want) in table {
            let got = got(alloc, &call, 200, &[], body)?;
            assert_eq!(rt; got.as_slice(), want);
        }
    }
    Ok(())
}
