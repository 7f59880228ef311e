//! Tables in the spelling that `write_rows` gives them, which nearly each text has that is read.
//!
//! A table is taken from the tokens of a text as if they were in that spelling, without a tree of
//! values, and is written again. Where that gives the text, the table is the text's, since what is
//! written of a table is read as that table. So nothing rests on how it was taken. Any other text is
//! left to the reader of values.
ghost use Rattle.std.specs.Prelude.{◌≡◌, IfOk, IfSome, IsTrue};
ghost use Rattle.std.specs.List.{list_all};
ghost use Rattle.rdf_term.specs.Validity.{is_part};
ghost use Rattle.results_json.specs.Laws.{IsRightTable};
ghost use Rattle.results_json.specs.Reading.{IsTable};
ghost use Rattle.results_json.specs.Written.{is_right_cell, is_right_row};

use crate::columns::{Columns, columns_of};
use crate::laws::tables_read_again;
use crate::names::names_of;
use crate::table::write_rows;
use json::{Reader, Scratch, Token};
use query_model::{Names1, Row, Rows, Table};
use rdf_term::{Memory, Term, Text};
use serde_json::Value;
use std::alloc::{AllocError, Global};

/// Why no table is taken.
enum Miss {
    /// The text is in another spelling.
    Spelling,
    /// No memory was found.
    Memory,
}

impl From<Memory> for Miss {
    fn from(_: Memory) -> Miss {
        Miss::Memory
    }
}

impl From<AllocError> for Miss {
    fn from(_: AllocError) -> Miss {
        Miss::Memory
    }
}

type Taken<T> = Result<T, Miss>;

fn take_begin_object(reader: &mut Reader<'_>) -> Taken<()> {
    match reader.next() {
        Some(Token::BeginObject) => Ok(()),
        _ => Err(Miss::Spelling),
    }
}

fn take_begin_array(reader: &mut Reader<'_>) -> Taken<()> {
    match reader.next() {
        Some(Token::BeginArray) => Ok(()),
        _ => Err(Miss::Spelling),
    }
}

fn take_end_object(reader: &mut Reader<'_>) -> Taken<()> {
    match reader.next() {
        Some(Token::EndObject) => Ok(()),
        _ => Err(Miss::Spelling),
    }
}

/// Takes a key, or the end of an object.
fn take_key<'a>(reader: &mut Reader<'a>) -> Taken<Option<&'a str>> {
    match reader.next_key() {
        Ok(key) => Ok(key),
        Err(_) => Err(Miss::Spelling),
    }
}

/// Takes the key of this name.
fn take_named(reader: &mut Reader<'_>, name: &str) -> Taken<()> {
    match take_key(reader)? {
        Some(key) if key == name => Ok(()),
        _ => Err(Miss::Spelling),
    }
}

fn take_string<'a>(reader: &mut Reader<'a>) -> Taken<&'a str> {
    match reader.next() {
        Some(Token::String(text)) => Ok(text),
        _ => Err(Miss::Spelling),
    }
}

/// Takes the member of this name, which is a string.
fn take_text<'a>(reader: &mut Reader<'a>, name: &str) -> Taken<&'a str> {
    take_named(reader, name)?;
    take_string(reader)
}

/// Takes what stands behind the key `datatype` of a term.
fn take_typed(alloc: Global, reader: &mut Reader<'_>) -> Taken<Term> {
    let datatype = take_string(reader)?;
    let datatype = Text::from_chars(alloc, datatype)?;
    take_text(reader, "type")?;
    let text = take_text(reader, "value")?;
    let text = Text::from_chars(alloc, text)?;
    take_end_object(reader)?;
    Ok(Term::Typed(text, datatype))
}

/// Takes what stands behind the key `type` of a term that has no datatype.
fn take_untyped(alloc: Global, reader: &mut Reader<'_>) -> Taken<Term> {
    let words = take_string(reader)?;
    let text = take_text(reader, "value")?;
    let text = Text::from_chars(alloc, text)?;
    if take_key(reader)?.is_some() {
        let tag = take_string(reader)?;
        let tag = Text::from_chars(alloc, tag)?;
        take_end_object(reader)?;
        return Ok(Term::Tagged(text, tag));
    }
    if words == "uri" {
        return Ok(Term::Iri(text));
    }
    if words == "bnode" {
        return Ok(Term::Blank(text));
    }
    Ok(Term::Plain(text))
}

fn take_term(alloc: Global, reader: &mut Reader<'_>) -> Taken<Term> {
    take_begin_object(reader)?;
    match take_key(reader)? {
        Some(key) if key == "type" => take_untyped(alloc, reader),
        Some(key) if key == "datatype" => take_typed(alloc, reader),
        _ => Err(Miss::Spelling),
    }
}

/// Unbound places, so many.
fn unbound(alloc: Global, count: usize) -> Result<Vec<Option<Term>>, Memory> {
    let mut cells = Vec::with_capacity(alloc, count)?;
    for _ in 0..count {
        cells.push(None)?;
    }
    Ok(cells)
}

fn take_row(alloc: Global, columns: &Columns<'_>, reader: &mut Reader<'_>) -> Taken<Row> {
    take_begin_object(reader)?;
    let mut cells = unbound(alloc, columns.len())?;
    let mut key = take_key(reader)?;
    for (name, place) in columns.iter() {
        if key == Some(*name) {
            let term = take_term(alloc, reader)?;
            if let Some(cell) = cells.get_mut(*place) {
                *cell = Some(term);
            }
            key = take_key(reader)?;
        }
    }
    match key {
        None => Ok(Row::from_vec(cells)),
        Some(_) => Err(Miss::Spelling),
    }
}

/// Takes rows up to the end of their list, at most so many.
fn take_rows(
    alloc: Global,
    columns: &Columns<'_>,
    most: usize,
    reader: &mut Reader<'_>,
) -> Taken<Rows> {
    let mut rows = Rows::new(alloc);
    for _ in 0..most {
        if reader.take_end_array() {
            return Ok(rows);
        }
        rows.push(take_row(alloc, columns, reader)?)?;
    }
    Err(Miss::Spelling)
}

/// Adds a string to values.
fn put_string(alloc: Global, strings: &mut Vec<Value>, text: &str) -> Result<(), Memory> {
    strings.push(Value::String(String::from_str(alloc, text)?))?;
    Ok(())
}

/// Takes strings up to the end of their list, at most so many.
fn take_strings(alloc: Global, most: usize, reader: &mut Reader<'_>) -> Taken<Vec<Value>> {
    let mut strings = Vec::new(alloc);
    for _ in 0..most {
        if reader.take_end_array() {
            return Ok(strings);
        }
        put_string(alloc, &mut strings, take_string(reader)?)?;
    }
    Err(Miss::Spelling)
}

fn take_names(alloc: Global, most: usize, reader: &mut Reader<'_>) -> Taken<Names1> {
    take_named(reader, "head")?;
    take_begin_object(reader)?;
    take_named(reader, "vars")?;
    take_begin_array(reader)?;
    let strings = take_strings(alloc, most, reader)?;
    take_end_object(reader)?;
    match names_of(alloc, strings.as_slice())? {
        Some((names, _)) => Ok(names),
        None => Err(Miss::Spelling),
    }
}

fn take_results(
    alloc: Global,
    names: &[Text],
    most: usize,
    reader: &mut Reader<'_>,
) -> Taken<Rows> {
    let columns = columns_of(alloc, names)?;
    take_named(reader, "results")?;
    take_begin_object(reader)?;
    take_named(reader, "bindings")?;
    take_begin_array(reader)?;
    let rows = take_rows(alloc, &columns, most, reader)?;
    take_end_object(reader)?;
    Ok(rows)
}

/// Takes a table. Each row and each name has at least one byte of the text.
fn take_table(alloc: Global, text: &str) -> Taken<Table> {
    let mut scratch = Scratch::new(alloc);
    let mut reader = Reader::new(text, &mut scratch)?;
    take_begin_object(&mut reader)?;
    let vars = take_names(alloc, text.len(), &mut reader)?;
    let rows = take_results(alloc, vars.as_slice(), text.len(), &mut reader)?;
    Ok(Table { vars, rows })
}

/// Whether a cell holds no term that is not valid.
fn is_right_cell(cell: &Option<Term>) -> bool
    ensures { result ≡ is_right_cell cell.now }
{
    match cell {
        None => true,
        Some(term) => term.is_valid(),
    }
}

fn are_right_cells(cells: &[Option<Term>]) -> bool
    ensures { result ≡ list_all is_right_cell cells.now }
{
    cells.iter().all(|cell| is_right_cell(cell))
}

/// Whether a row has so many places, with valid terms.
fn is_right_row(count: usize, row: &Row) -> bool
    ensures { result ≡ is_right_row count row.now }
{
    row.len() == count && are_right_cells(row.as_slice())
}

fn are_right_rows(count: usize, rows: &[Row]) -> bool
    ensures { result ≡ list_all (is_right_row count) rows.now }
{
    rows.iter().all(|row| is_right_row(count, row))
}

fn are_right_names(names: &[Text]) -> bool
    ensures { result ≡ list_all is_part names.now }
{
    names.iter().all(|name| name.is_short())
}

/// Whether what is written of a table is read as that table.
fn is_right(table: &Table) -> bool
    ensures { IsTrue result → IsRightTable table.now }
{
    let names = table.vars.as_slice();
    are_right_names(names) && are_right_rows(names.len(), table.rows.as_slice())
}

/// The table of a text in the spelling that is written, unless it is in another one.
pub fn read_written(alloc: Global, text: &[u8]) -> Result<Option<Table>, Memory>
    ensures { IfOk result (λ it. IfSome it (λ table. IsTable text.now table)) }
{
    let Ok(characters) = std::str::from_utf8(text) else {
        return Ok(None);
    };
    let table = match take_table(alloc, characters) {
        Ok(table) => table,
        Err(Miss::Spelling) => return Ok(None),
        Err(Miss::Memory) => return Err(Memory),
    };
    if !is_right(&table) {
        return Ok(None);
    }
    let again = write_rows(alloc, &table)?;
    if again.as_slice() != text {
        return Ok(None);
    }
    tables_read_again();
    Ok(Some(table))
}
