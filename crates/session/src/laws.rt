//! What the bytes of a session fix.
ghost use Rattle.session.specs.Laws.{SoundSessionsEndAlike, UndisturbedSessionsAreAlike, WholeStreamsEndDone};

use http_frame::frames_are_determined;
use journal::reply_reads_no_later_entry;
use repo_api::one_call;

/// Two sessions over the same bytes that neither a fault nor want of memory ended have the same end and
/// as many turns, on whatever repositories. So the clauses of [`serve_local`](crate::serve_local) say
/// exactly when a frame is refused and when the limit is met.
pub fn sound_sessions_end_alike()
    ensures { SoundSessionsEndAlike }
{
    frames_are_determined();
}

/// A session over fewer than 100,000 requests, of which none but perhaps the last closes, is done and
/// has a turn for each, unless a fault or want of memory ended it.
pub fn whole_streams_end_done()
    ensures { WholeStreamsEndDone }
{
    frames_are_determined();
}

/// The text of a session is a function of the bytes that came in.
///
/// Two sessions over the same bytes, from the same journals, that neither a fault nor want of memory
/// ended and in which want of memory answered no request, have the same turns and marks, the same end,
/// the same journals behind them and the same text, where no one else makes entries. So the clauses of
/// [`serve_local`](crate::serve_local) fix all that it writes, however the bytes are cut.
pub fn undisturbed_sessions_are_alike()
    ensures { UndisturbedSessionsAreAlike }
{
    frames_are_determined();
    one_call();
    reply_reads_no_later_entry();
}
