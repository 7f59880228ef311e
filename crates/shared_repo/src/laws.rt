//! What is true of the types, for callers that send repositories and passes to threads.
ghost use Rattle.std.specs.Thread.{IsSend, IsSync};
ghost use Rattle.shared_repo.specs.contracts.state.SharedState.{the_row};

use journal::Noted;
use story::Story;

/// A type that threads may send and share: what the bounds say of it.
fn crosses_threads<T: Send + Sync>()
    ensures send { IsSend T.row }
    ensures sync { IsSync T.row }
{}

/// The state of a repository under its lock may go to another thread, and may be shared by several.
///
/// Whoever hands repositories or passes to a thread cites it before, so that no search goes down
/// through all parts of a repository.
pub fn states_cross_threads()
    ensures send { IsSend the_row }
    ensures sync { IsSync the_row }
{
    crosses_threads::<Story<Noted>>();
}
