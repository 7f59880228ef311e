ghost use Rattle.std.specs.Prelude.{◌≡◌, IfOk, Result, Bool};
ghost use Rattle.results_json.specs.declared.fault.ResultFault.{ResultFault as Fault};
ghost use Rattle.results_json.specs.Tables.{truth_text};
ghost use Rattle.results_json.specs.Reading.{IsTruthReading, HasAnswer};

use crate::ResultFault;
use crate::json_text::json_value;
use crate::laws::one_truth_reading;
use json::Writer;
use rdf_term::{Bytes, Memory};
use serde_json::Value;
use std::alloc::Global;

/// The text of a truth value.
pub fn write_truth(alloc: Global, value: bool) -> Result<Bytes, Memory>
    ensures { IfOk result (λ b. b.items ≡ truth_text value) }
{
    let mut out = Writer::new(Vec::new(alloc));
    out.begin_object()?;
    out.key("boolean")?;
    out.boolean(value)?;
    out.key("head")?;
    out.begin_object()?;
    out.end_object()?;
    out.end_object()?;
    Ok(Bytes::from_vec(out.into_inner()))
}

fn truth_of(alloc: Global, text: &[u8]) -> Result<bool, ResultFault>
    ensures { IsTruthReading text.now result }
{
    let Some(value) = json_value(alloc, text)? else {
        return Err(ResultFault::NotJson);
    };
    let has_head = value.get("head").is_some_and(Value::is_object);
    match value.get("boolean").and_then(Value::as_bool) {
        Some(truth) if has_head => Ok(truth),
        _ => Err(ResultFault::BadShape),
    }
}

/// The truth value of a text.
///
/// `NotJson` is answered where serde_json refuses the text, and `BadShape` where its value is no
/// object with an object as `head` and a boolean as `boolean`. Other members don't count.
pub fn read_truth(alloc: Global, text: &[u8]) -> Result<bool, ResultFault>
    ensures reading { IsTruthReading text.now result }
    ensures exact { (other : Result Bool Fault) → IsTruthReading text.now other → HasAnswer result → HasAnswer other → result ≡ other }
{
    one_truth_reading();
    truth_of(alloc, text)
}
