ghost use Rattle.std.specs.Prelude.{◌≡◌, IfOk, MatchOption};
ghost use Rattle.serde_json.specs.Data.{Data};
ghost use Rattle.serde_json.specs.View.{view};
ghost use Rattle.results_json.specs.Reading.{IsJsonText};

use rdf_term::Memory;
use serde_json::{Category, Value};
use std::alloc::Global;

/// The value of a text, where it is JSON. Of members with one key it has the last.
pub fn json_value(alloc: Global, text: &[u8]) -> Result<Option<Value>, Memory>
    ensures { IfOk result (λ it. MatchOption it ((v : Data) → IsJsonText text.now v → ⊥) (λ v. IsJsonText text.now (view v))) }
{
    match Value::from_slice(alloc, text) {
        Ok(value) => Ok(Some(value)),
        Err(error) if error.classify() == Category::Memory => Err(Memory),
        Err(_) => Ok(None),
    }
}
