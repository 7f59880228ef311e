ghost use Rattle.std.specs.Prelude.{◌≡◌, IfErr, IfOk, option_map, option_and_then, Result};
ghost use Rattle.query_model.specs.declared.table.Table.{Table as SpecTable};
ghost use Rattle.serde_json.specs.Find.{as_array};
ghost use Rattle.serde_json.specs.View.{view, items_view};
ghost use Rattle.results_json.specs.declared.fault.ResultFault.{ResultFault as Fault};
ghost use Rattle.results_json.specs.Tables.{table_text, get_within};
ghost use Rattle.results_json.specs.Reading.{IsNumbered, IsTableReading, HasAnswer};
ghost use Rattle.results_json.specs.Rows.{IsValueReading};

use crate::ResultFault;
use crate::columns::columns_of;
use crate::json_text::json_value;
use crate::laws::one_table_reading;
use crate::names::names_of;
use crate::rows::{are_rows, rows_of};
use crate::writer::{put_head, put_results};
use crate::written::read_written;
use json::Writer;
use query_model::Table;
use rdf_term::{Bytes, Memory};
use serde_json::Value;
use std::alloc::Global;

/// The text of a table.
///
/// A row has one place for each variable. Further places are passed over, and a variable without a
/// place is unbound.
pub fn write_rows(alloc: Global, table: &Table) -> Result<Bytes, Memory>
    ensures { IfOk result (λ b. b.items ≡ table_text table.now) }
{
    let columns = columns_of(alloc, table.vars.as_slice())?;
    let mut out = Writer::new(Vec::new(alloc));
    out.begin_object()?;
    put_head(&mut out, table.vars.as_slice())?;
    put_results(&mut out, &columns, table.rows.as_slice())?;
    out.end_object()?;
    Ok(Bytes::from_vec(out.into_inner()))
}

/// The list at a key of an object that stands at a key.
fn list_within<'v>(value: &'v Value, outer: &str, inner: &str) -> Option<&'v Vec<Value>>
    ensures { option_map (λ v. items_view v.now.items) result ≡ option_and_then as_array (get_within outer.now inner.now (view value.now)) }
{
    value.get(outer)?.get(inner)?.as_array()
}

/// The table that a value is.
fn table_in(alloc: Global, value: &Value) -> Result<Table, ResultFault>
    ensures reading { IsValueReading (view value.now) result }
    ensures numbered { IfErr result (λ fault. IsNumbered fault) }
{
    let Some(vars) = list_within(value, "head", "vars") else {
        return Err(ResultFault::BadShape);
    };
    let Some((vars, names)) = names_of(alloc, vars.as_slice())? else {
        return Err(ResultFault::BadShape);
    };
    let Some(bindings) = list_within(value, "results", "bindings") else {
        return Err(ResultFault::BadShape);
    };
    if !are_rows(&names, bindings.as_slice()) {
        return Err(ResultFault::BadShape);
    }
    let rows = rows_of(alloc, vars.as_slice(), bindings.as_slice())?;
    Ok(Table { vars, rows })
}

fn table_of(alloc: Global, text: &[u8]) -> Result<Table, ResultFault>
    ensures reading { IsTableReading text.now result }
    ensures numbered { IfErr result (λ fault. IsNumbered fault) }
{
    if let Some(table) = read_written(alloc, text)? {
        return Ok(table);
    }
    match json_value(alloc, text)? {
        None => Err(ResultFault::NotJson),
        Some(value) => table_in(alloc, &value),
    }
}

/// The table of a text.
///
/// `NotJson` is answered where serde_json refuses the text, `BadShape` where its value is no table
/// even if any object is taken for a term, and `BadTerm` with the number, from 0, of the first row
/// that holds an object that is no term. Other members than those of the format don't count.
pub fn read_rows(alloc: Global, text: &[u8]) -> Result<Table, ResultFault>
    ensures reading { IsTableReading text.now result }
    ensures exact { (other : Result SpecTable Fault) → IsTableReading text.now other → HasAnswer result → HasAnswer other → result ≡ other }
    ensures numbered { IfErr result (λ fault. IsNumbered fault) }
{
    one_table_reading();
    table_of(alloc, text)
}
