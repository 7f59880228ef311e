//! Laws of exchanges and of runs, each as the contract of a function that does nothing.
ghost use Rattle.rdf_client.specs.Laws.{AnsweredOrNot, OneRun};
ghost use Rattle.rdf_client.specs.Served.{AnswersArePrinted, RefusalIsGot, ReplyIsPrinted, WrittenIsGot};

use client_script::{commands_are_valid, one_command};
use http_frame::{response_frames_are_determined, written_responses_are_frames};
use reply_reading::{one_reading, replies_read_again};

/// A response that has a reply to a call is none without. So `BadReply` is answered exactly where there
/// is none, a fault and want of memory apart.
pub fn answered_or_not()
    ensures { AnsweredOrNot }
{
    response_frames_are_determined();
    one_reading();
}

/// A script over the responses has one run that no fault and no want of memory ends. So each of the other
/// ends of [`run_script`](crate::run_script) comes exactly where it is that run's.
pub fn one_run()
    ensures { OneRun }
{
    one_command();
    response_frames_are_determined();
    one_reading();
}

/// What a session writes for a reply that grants a call is got by [`exchange`](crate::exchange) as that
/// reply, whatever follows it. Its terms are to be valid, and its response is to keep the limits of a
/// reader.
pub fn written_replies_are_got()
    ensures { WrittenIsGot }
{
    written_responses_are_frames();
    replies_read_again();
}

/// Where a line of a script sends an op and a session writes a reply that grants it, a run prints that
/// reply and goes on.
pub fn replies_are_printed()
    ensures { ReplyIsPrinted }
{
    commands_are_valid();
    written_responses_are_frames();
    replies_read_again();
}

/// What a session writes for a reply that refuses a call is got by [`exchange`](crate::exchange) as the
/// status and the text of its response, whatever follows it. Its response is to keep the limits of a
/// reader.
pub fn refusals_are_got()
    ensures { RefusalIsGot }
{
    written_responses_are_frames();
}

/// Over what a session writes for the answers to a script, up to the first one that refuses, a run sends
/// the script's calls in order, prints what belongs to each answer, and ends as the answers do. By
/// [`one_run`] each run over these bytes that no fault and no want of memory ends does so.
pub fn answers_are_printed()
    ensures { AnswersArePrinted }
{
    replies_are_printed();
    refusals_are_got();
}
