ghost use Rattle.std.specs.Prelude.{◌≡◌};
ghost use Rattle.query_model.specs.Solutions.{lookups_of};

use crate::Query;

/// The number of views from which a query may be answered one pattern after the other: that of the
/// triple patterns of its group, and 1 where it has none.
pub fn lookups_of(query: &Query) -> usize
    ensures { result ≡ lookups_of query.now }
{
    let group = match query {
        Query::Select { group, .. } => group,
        Query::Ask { group } => group,
        Query::Construct { group, .. } => group,
    };
    group.len().max(1)
}
