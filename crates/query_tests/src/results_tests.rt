//! Tables and truth values as JSON: the texts of worked tables.
use rdf_term::{Bytes, Memory, Term, Text};
use results_json::{
    Names1, ResultFault, Row, Rows, Table, read_rows, read_truth, write_rows, write_truth,
};
use std::alloc::Global;

fn one_column(alloc: Global, name: &str, rows: Rows) -> Result<Table, Memory> {
    let mut vars = Names1::new(alloc);
    vars.push(Text::from_chars(alloc, name)?)?;
    Ok(Table { vars, rows })
}

fn push_cell(rows: &mut Rows, alloc: Global, cell: Option<Term>) -> Result<(), Memory> {
    let mut row = Row::new(alloc);
    row.push(cell)?;
    rows.push(row)
}

fn tagged(alloc: Global) -> Result<Term, Memory> {
    let text = Text::from_chars(alloc, "a")?;
    Ok(Term::Tagged(text, Text::from_chars(alloc, "en")?))
}

fn integer(alloc: Global) -> Result<Term, Memory> {
    let text = Text::from_chars(alloc, "1")?;
    let datatype = Text::from_chars(alloc, "http://www.w3.org/2001/XMLSchema#integer")?;
    Ok(Term::Typed(text, datatype))
}

/// A row with a tagged literal, one with a typed one, and one without its variable.
fn literals(alloc: Global) -> Result<Table, Memory> {
    let mut rows = Rows::new(alloc);
    push_cell(&mut rows, alloc, Some(tagged(alloc)?))?;
    push_cell(&mut rows, alloc, Some(integer(alloc)?))?;
    push_cell(&mut rows, alloc, None)?;
    one_column(alloc, "o", rows)
}

/// What is written of the table that a text is.
fn again(alloc: Global, text: &str) -> Result<Bytes, ResultFault> {
    let table = read_rows(alloc, text.as_bytes())?;
    Ok(write_rows(alloc, &table)?)
}

/// Whether a text is read as the table of another text.
fn reads_as(alloc: Global, text: &str, plain: &str) -> bool {
    match again(alloc, text) {
        Ok(bytes) => bytes.as_slice() == plain.as_bytes(),
        Err(_) => false,
    }
}

fn is_refused(alloc: Global, text: &str, wanted: ResultFault) -> bool {
    match read_rows(alloc, text.as_bytes()) {
        Ok(_) => false,
        Err(fault) => fault == wanted,
    }
}

const LITERALS: &str =
    "{\"head\":{\"vars\":[\"o\"]},\"results\":{\"bindings\":[{\"o\":{\"type\":\"literal\",\"value\":\"a\",\"xml:lang\":\"en\"}},{\"o\":{\"datatype\":\"http://www.w3.org/2001/XMLSchema#integer\",\"type\":\"literal\",\"value\":\"1\"}},{}]}}";

#[test]
fn literals_have_their_text(rt: HostRuntime) -> Result<(), Memory> {
    let alloc = rt.alloc();
    let bytes = write_rows(alloc, &literals(alloc)?)?;
    assert!(rt; bytes.as_slice() == LITERALS.as_bytes());
    Ok(())
}

#[test]
fn an_empty_table_has_49_bytes(rt: HostRuntime) -> Result<(), Memory> {
    let alloc = rt.alloc();
    let bytes = write_rows(alloc, &one_column(alloc, "s", Rows::new(alloc))?)?;
    assert!(rt;
        bytes.as_slice()
            == b"{\"head\":{\"vars\":[\"s\"]},\"results\":{\"bindings\":[]}}".as_slice()
    );
    assert_eq!(rt; bytes.len(), 49);
    Ok(())
}

#[test]
fn truth_both_ways(rt: HostRuntime) -> Result<(), Memory> {
    let alloc = rt.alloc();
    let yes = write_truth(alloc, true)?;
    assert!(rt; yes.as_slice() == b"{\"boolean\":true,\"head\":{}}".as_slice());
    let no = write_truth(alloc, false)?;
    assert!(rt; no.as_slice() == b"{\"boolean\":false,\"head\":{}}".as_slice());
    assert!(rt; read_truth(alloc, yes.as_slice()) == Ok(true));
    assert!(rt; read_truth(alloc, no.as_slice()) == Ok(false));
    Ok(())
}

#[test]
fn other_truth_texts(rt: HostRuntime) {
    let alloc = rt.alloc();
    for (text, wanted) in [
        (
            "{\"head\": {\"link\": []}, \"x\": 1, \"boolean\": true}",
            Ok(true),
        ),
        (
            "{\"boolean\":true,\"boolean\":false,\"head\":{}}",
            Ok(false),
        ),
        ("{\"boolean\":true}", Err(ResultFault::BadShape)),
        ("{\"boolean\":true,\"head\":[]}", Err(ResultFault::BadShape)),
        (
            "{\"boolean\":\"true\",\"head\":{}}",
            Err(ResultFault::BadShape),
        ),
        ("true", Err(ResultFault::BadShape)),
        ("{\"boolean\":true,\"head\":{}", Err(ResultFault::NotJson)),
        ("", Err(ResultFault::NotJson)),
    ] {
        assert!(rt; read_truth(alloc, text.as_bytes()) == wanted);
    }
    assert!(rt; read_truth(alloc, b"\"\xff\"") == Err(ResultFault::NotJson));
}

const ONE: &str =
    "{\"head\":{\"vars\":[\"o\"]},\"results\":{\"bindings\":[{\"o\":{\"type\":\"literal\",\"value\":\"a\"}}]}}";

const TAGGED: &str =
    "{\"head\":{\"vars\":[\"o\"]},\"results\":{\"bindings\":[{\"o\":{\"type\":\"literal\",\"value\":\"a\",\"xml:lang\":\"en\"}}]}}";

const TWO: &str =
    "{\"head\":{\"vars\":[\"b\",\"a\"]},\"results\":{\"bindings\":[{\"a\":{\"type\":\"bnode\",\"value\":\"x\"},\"b\":{\"type\":\"uri\",\"value\":\"u:v\"}}]}}";

const ESCAPED: &str =
    "{\"head\":{\"vars\":[\"o\"]},\"results\":{\"bindings\":[{\"o\":{\"type\":\"literal\",\"value\":\"\\\"/\\\\\\n\\u0001\"}}]}}";

#[test]
fn any_spelling_is_read(rt: HostRuntime) {
    let alloc = rt.alloc();
    for (text, plain) in [
        (LITERALS, LITERALS),
        (TWO, TWO),
        (ESCAPED, ESCAPED),
        (
            "{\"head\":{\"vars\":[\"o\"]},\"results\":{\"bindings\":[{\"o\":{\"type\":\"literal\",\"value\":\"\\u0022\\/\\\\\\u000a\\u0001\"}}]}}",
            ESCAPED,
        ),
        (
            "{\"head\":{\"vars\":[\"b\",\"a\"]},\"results\":{\"bindings\":[{\"b\":{\"type\":\"uri\",\"value\":\"u:v\"},\"a\":{\"type\":\"bnode\",\"value\":\"x\"}}]}}",
            TWO,
        ),
        (
            "{\"results\":{\"bindings\":[{\"b\":{\"value\":\"u:v\",\"type\":\"uri\",\"datatype\":1},\"a\":{\"value\":\"x\",\"type\":\"bnode\"}}],\"ordered\":true},\"head\":{\"link\":[],\"vars\":[\"b\",\"a\"]},\"x\":null}",
            TWO,
        ),
        (
            " { \"head\" : {\"vars\" : [\"\\u006f\"]} , \"results\" : {\"bindings\" : [{\"\\u006F\" : {\"type\" : \"typed-literal\" , \"value\" : \"\\u0061\"}}]}}\n",
            ONE,
        ),
        (
            "{\"head\":{\"vars\":[\"o\"]},\"results\":{\"bindings\":[{\"o\":{\"datatype\":\"http://www.w3.org/2001/XMLSchema#string\",\"type\":\"literal\",\"value\":\"a\"}}]}}",
            ONE,
        ),
        (
            "{\"head\":{\"vars\":[\"o\"]},\"results\":{\"bindings\":[{\"o\":{\"datatype\":\"http://www.w3.org/1999/02/22-rdf-syntax-ns#langString\",\"type\":\"literal\",\"value\":\"a\",\"xml:lang\":\"en\"}}]}}",
            TAGGED,
        ),
        (
            "{\"head\":{\"vars\":[\"o\"]},\"results\":{\"bindings\":[{\"o\":{\"type\":\"uri\",\"type\":\"literal\",\"value\":\"a\"}}]}}",
            ONE,
        ),
    ] {
        assert!(rt; reads_as(alloc, text, plain));
    }
}

#[test]
fn other_shapes_are_refused(rt: HostRuntime) {
    let alloc = rt.alloc();
    for text in [
        "[]",
        "{\"head\":{\"vars\":[]}}",
        "{\"results\":{\"bindings\":[]}}",
        "{\"head\":{\"vars\":\"s\"},\"results\":{\"bindings\":[]}}",
        "{\"head\":{\"vars\":[\"s\",\"s\"]},\"results\":{\"bindings\":[]}}",
        "{\"head\":{\"vars\":[1]},\"results\":{\"bindings\":[]}}",
        "{\"head\":{\"vars\":[\"s\"]},\"results\":{\"bindings\":{}}}",
        "{\"head\":{\"vars\":[\"s\"]},\"results\":{\"bindings\":[[]]}}",
        "{\"head\":{\"vars\":[\"s\"]},\"results\":{\"bindings\":[{\"o\":{\"type\":\"uri\",\"value\":\"u:v\"}}]}}",
        "{\"head\":{\"vars\":[\"s\"]},\"results\":{\"bindings\":[{\"s\":null}]}}",
        "{\"head\":{\"vars\":[\"s\"]},\"results\":{\"bindings\":[{\"s\":{}},{\"s\":\"x\"}]}}",
    ] {
        assert!(rt; is_refused(alloc, text, ResultFault::BadShape));
    }
    assert!(rt; is_refused(alloc, "{\"head\":", ResultFault::NotJson));
}

/// A table whose first row has a literal, its second one the object, and its third one no term.
fn with_object(alloc: Global, object: &str) -> Result<String, std::alloc::AllocError> {
    format!(in alloc;
        "{{\"head\":{{\"vars\":[\"o\"]}},\"results\":{{\"bindings\":[{{\"o\":{{\"type\":\"literal\",\"value\":\"a\"}}}},{{\"o\":{object}}},{{\"o\":{{}}}}]}}}}"
    )
}

#[test]
fn the_first_bad_row_is_named(rt: HostRuntime) -> Result<(), std::alloc::AllocError> {
    let alloc = rt.alloc();
    for object in [
        "{\"type\":\"uri\",\"value\":\"no scheme\"}",
        "{\"type\":\"uri\",\"value\":1}",
        "{\"type\":\"uri\"}",
        "{\"type\":\"URI\",\"value\":\"u:v\"}",
        "{\"type\":\"bnode\",\"value\":\"_:x y\"}",
        "{\"type\":\"literal\",\"value\":\"a\",\"datatype\":null}",
        "{\"type\":\"literal\",\"value\":\"a\",\"datatype\":\"x\"}",
        "{\"type\":\"literal\",\"value\":\"a\",\"xml:lang\":\"\"}",
        "{\"type\":\"literal\",\"value\":\"a\",\"xml:lang\":\"en\",\"datatype\":\"u:v\"}",
        "{\"type\":\"literal\",\"value\":\"a\",\"xml:lang\":\"en\",\"datatype\":\"http://www.w3.org/2001/XMLSchema#string\"}",
    ] {
        let text = with_object(alloc, object)?;
        assert!(rt; is_refused(alloc, text.as_str(), ResultFault::BadTerm(1)));
    }
    let good = with_object(alloc, "{\"type\":\"bnode\",\"value\":\"x\"}")?;
    assert!(rt; is_refused(alloc, good.as_str(), ResultFault::BadTerm(2)));
    Ok(())
}
