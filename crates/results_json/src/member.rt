ghost use Rattle.serde_json.specs.Find.{get};
ghost use Rattle.serde_json.specs.View.{view};
ghost use Rattle.results_json.specs.Member.{IsMember};

use serde_json::Value;

/// What stands at a key of an object.
#[derive(Clone, Copy)]
pub enum Member<'v> {
    Absent,
    Text(&'v str),
    /// A value that is no string.
    Other,
}

/// What stands at a key; in a value that is no object nothing does.
pub fn at_key<'v>(value: &'v Value, key: &str) -> Member<'v>
    ensures { IsMember result (get key.now (view value.now)) }
{
    match value.get(key) {
        None => Member::Absent,
        Some(found) => match found.as_str() {
            Some(text) => Member::Text(text),
            None => Member::Other,
        },
    }
}
