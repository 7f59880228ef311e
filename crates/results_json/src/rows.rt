ghost use Rattle.std.specs.Prelude.{◌≡◌, IfErr, IfOk, MatchOption, IsTrue, map, encode_utf8_all};
ghost use Rattle.std.specs.List.{list_all};
ghost use Rattle.serde_json.specs.Find.{as_object, get};
ghost use Rattle.serde_json.specs.View.{view, members_view};
ghost use Rattle.results_json.specs.Tables.{are_cells, if_cells, is_row, IsCell, IsRowValue};
ghost use Rattle.results_json.specs.Columns.{has_text};
ghost use Rattle.results_json.specs.Reading.{HoldsNoTerm, IsNumbered};
ghost use Rattle.results_json.specs.Rows.{IsRowsReading};

use crate::ResultFault;
use crate::names::NameSet;
use crate::term_value::term_of;
use query_model::{Row, Rows};
use rdf_term::{Memory, Term, Text};
use serde_json::{Map, Value};
use std::alloc::Global;

fn are_cells(names: &NameSet<'_>, members: &Map<String, Value>) -> bool
    ensures { result ≡ are_cells (has_text names.now) (members_view members.now.entries) }
{
    for (key, cell) in members.iter() {
        if !names.contains(key.as_str()) || !cell.is_object() {
            return false;
        }
    }
    true
}

fn is_row(names: &NameSet<'_>, value: &Value) -> bool
    ensures { result ≡ if_cells (has_text names.now) (as_object (view value.now)) }
{
    match value.as_object() {
        Some(members) => are_cells(names, members),
        None => false,
    }
}

/// Whether each value is an object from these names to objects.
pub fn are_rows(names: &NameSet<'_>, values: &[Value]) -> bool
    ensures { result ≡ list_all (λ d. if_cells (has_text names.now) (as_object d)) (map view values.now) }
{
    for value in values {
        if !is_row(names, value) {
            return false;
        }
    }
    true
}

/// The place of a row for a variable, if its member is a term.
fn cell_of(alloc: Global, value: &Value, name: &Text) -> Result<Option<Option<Term>>, Memory>
    ensures { IfOk result (λ it. MatchOption it (HoldsNoTerm (view value.now)) (λ cell. IsCell (get (encode_utf8_all name.now) (view value.now)) cell)) }
{
    match value.get(name.as_str()) {
        None => Ok(Some(None)),
        Some(found) => match term_of(alloc, found)? {
            None => Ok(None),
            Some(term) => Ok(Some(Some(term))),
        },
    }
}

/// The row of an object, if its members are terms.
fn row_of(alloc: Global, names: &[Text], value: &Value) -> Result<Option<Row>, Memory>
    ensures { IfOk result (λ it. MatchOption it (HoldsNoTerm (view value.now)) (λ row. IsRowValue names.now (view value.now) row)) }
{
    let mut row = Row::new(alloc);
    for name in names {
        let Some(cell) = cell_of(alloc, value, name)? else {
            return Ok(None);
        };
        row.push(cell)?;
    }
    Ok(Some(row))
}

/// The rows of objects from these names.
pub fn rows_of(alloc: Global, names: &[Text], values: &[Value]) -> Result<Rows, ResultFault>
    requires { IsTrue (list_all (is_row names.now) (map view values.now)) }
    ensures reading { IsRowsReading names.now (map view values.now) result }
    ensures numbered { IfErr result (λ fault. IsNumbered fault) }
{
    let mut rows = Rows::new(alloc);
    for (number, value) in values.iter().enumerate() {
        match row_of(alloc, names, value)? {
            None => return Err(ResultFault::BadTerm(number as u64)),
            Some(row) => rows.push(row)?,
        }
    }
    Ok(rows)
}
