ghost use Rattle.std.specs.Prelude.{◌≡◌, IfOk};
ghost use Rattle.results_json.specs.Columns.{columns_from, named};

use rdf_term::{Memory, Text};
use std::alloc::Global;
use std::collections::BTreeMap;

/// The places of variables, in the order of the bytes of their names.
pub type Columns<'n> = BTreeMap<&'n str, usize>;

/// The places of variables by their names.
pub fn columns_of<'n>(alloc: Global, names: &'n [Text]) -> Result<Columns<'n>, Memory>
    ensures { IfOk result (λ it. named it.entries ≡ columns_from 0 names.now) }
{
    let mut columns = Columns::new(alloc);
    let mut place = names.len();
    while place > 0 {
        place -= 1;
        columns.insert(names[place].as_str(), place)?;
    }
    Ok(columns)
}
