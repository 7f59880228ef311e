//! Laws of replies and responses, each as the contract of a function that does nothing.
ghost use Rattle.api_replies.specs.Laws.{LastReplyFits, OthersTakeMemory, ShortIsResponse};

use journal::each_entry_is_judged_once;

/// The reply to the last of a call's entries fits the call, in a journal of at most 2^62 entries.
pub fn last_reply_fits()
    ensures { LastReplyFits }
{
    each_entry_is_judged_once();
}

/// A reply that is answered without memory has the response of its case.
pub fn short_is_response()
    ensures { ShortIsResponse }
{}

/// Any other reply that fits an op takes memory by its kind: it is what a Read, a Step or a look at the
/// namespaces finds, or a clash of a Commit.
pub fn others_take_memory()
    ensures { OthersTakeMemory }
{}
