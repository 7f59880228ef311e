ghost use Rattle.std.specs.Prelude.{◌≡◌, ℕ, List, IfOk, MatchOption, map};
ghost use Rattle.rdf_term.specs.EachOnce.{EachOnce};
ghost use Rattle.serde_json.specs.View.{view};
ghost use Rattle.results_json.specs.Tables.{text_value, is_name};
ghost use Rattle.results_json.specs.Columns.{has_text};

use query_model::Names1;
use rdf_term::{Memory, Text};
use serde_json::Value;
use std::alloc::Global;
use std::collections::BTreeSet;

/// The names of variables, as a set.
pub type NameSet<'v> = BTreeSet<&'v str>;

/// The names that a list of values is, if they are distinct strings.
pub fn names_of<'v>(
    alloc: Global,
    vars: &'v [Value],
) -> Result<Option<(Names1, NameSet<'v>)>, Memory>
    ensures { IfOk result (λ it. MatchOption it
        ((names : List (List ℕ)) → map view vars.now ≡ map text_value names → EachOnce names → ⊥)
        (λ x. (map view vars.now ≡ map text_value x.0) × ((q : List ℕ) → has_text x.1 q ≡ is_name x.0 q))) }
{
    let mut names = Names1::new(alloc);
    let mut set = NameSet::new(alloc);
    for var in vars {
        let Some(name) = var.as_str() else {
            return Ok(None);
        };
        if !set.insert(name)? {
            return Ok(None);
        }
        names.push(Text::from_chars(alloc, name)?)?;
    }
    Ok(Some((names, set)))
}
