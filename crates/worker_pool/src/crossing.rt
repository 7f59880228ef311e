//! What threads may share.
ghost use Rattle.std.specs.Thread.{IsSync};
ghost use Rattle.shared_session.specs.contracts.house.House.{the_row};

use session::Catalog;
use shared_repo::{Repo, states_cross_threads};
use shared_session::House;

/// A type that threads may share: what the bound says of it.
fn is_shared<T: Sync>()
    ensures { IsSync T.row }
{}

/// A house may be shared by threads. Each of its parts is shown first, so that no search goes down through
/// all of them.
pub(crate) fn houses_cross_threads()
    ensures { IsSync the_row }
{
    is_shared::<Catalog>();
    states_cross_threads();
    is_shared::<Vec<Repo>>();
    is_shared::<House>();
}
