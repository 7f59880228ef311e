ghost use Rattle.repo_store.specs.Stores.{FirstStepIsNext, NextStepStays, PinnedIsAnswered};

use journal::each_entry_is_judged_once;

/// What `answer` gives for what is pinned at the place of an ask's last entry is the reply there.
pub fn pinned_is_answered()
    ensures { PinnedIsAnswered }
{}

/// A query in a READ_COMMITTED transaction may begin with its first Step at any time, with what
/// `Pinned::empty` gives.
pub fn first_step_is_next()
    ensures { FirstStepIsNext }
{}

/// A seat's next Step stays one where the journal goes on by entries of other seats.
pub fn next_step_stays()
    ensures { NextStepStays }
{
    each_entry_is_judged_once();
}
