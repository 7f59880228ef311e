//! A script from its first line to its end.
ghost use Rattle.std.specs.Prelude.{◌≡◌, ℕ, List, [], None, Some, IfOk, OnOk, IsTrue, false};
ghost use Rattle.api_replies.specs.Ids.{is_id};
ghost use Rattle.rdf_client.specs.Causes.{OneCaused, read_broke, write_broke};
ghost use Rattle.api_requests.specs.Spellable.{IsHost};
ghost use Rattle.rdf_client.specs.Runs.{IsRun};
ghost use Rattle.rdf_io.specs.Sending.{Puts};

use crate::end::ClientEnd;
use crate::turn::turn;
use client_script::Script;
use http_frame::Frames;
use rdf_io::{Sink, Source};
use rdf_term::{Memory, Text};
use std::alloc::Global;

/// The readers of a script and of responses.
fn open(alloc: Global) -> Result<(Script, Frames), Memory>
    ensures script { IfOk result (λ it. it.0 ≡ record { held = []; number = 0 }) }
    ensures frames { IfOk result (λ it. it.1 ≡ record { held = []; fault = None }) }
{
    let script = Script::new(alloc)?;
    Ok((script, Frames::new(alloc)?))
}

/// Runs a script against a server: reads its lines from the input, writes the requests of its calls to the
/// sink, each after the answer to the one before, reads the responses from the source, and prints what was
/// answered to the output.
///
/// | End | Cause |
/// |---|---|
/// | `Done` | the script ended, by `quit` or with its input |
/// | `Refused` | a request was refused, by a status other than 200, 201 and 204 |
/// | `ReadFault` | the input or the source failed |
/// | `WriteFault` | the sink or the output failed |
/// | `BadReply` | a response is refused by its frame, has no reply to its call, or the source ended before it |
/// | `Memory` | no memory was found |
/// | `Script(n)` | line n, from 1, is none of a script, or may not stand there |
pub fn run_script<I: Source, S: Source, K: Sink, O: Sink>(
    alloc: Global,
    repo: &Text,
    host: &Text,
    input: &mut I,
    source: &mut S,
    sink: &mut K,
    out: &mut O,
) -> ClientEnd
    requires repo { IsTrue (is_id repo.now) }
    requires host { IsHost host.now }

    // Where the input and the source tell their bytes, it is the run of the script over the responses:
    // exactly its requests were sent, and what is printed is what belongs to the answers.
    ensures run { (script responses : List ℕ) → I.left input.old ≡ Some script → S.left source.old ≡ Some responses
        → (sent : List ℕ) × (text : List ℕ) × Puts (K.taken sink.old) (K.taken sink.new) sent × Puts (O.taken out.old) (O.taken out.new) text
        × IsRun repo.now host.now script responses result sent text }

    // A fault is answered only where its object failed in this call, and none is passed over.
    ensures reads { OneCaused (read_broke result) (I.faults input.old) (I.faults input.new) (S.faults source.old) (S.faults source.new) }
    ensures writes { OneCaused (write_broke result) (K.faults sink.old) (K.faults sink.new) (O.faults out.old) (O.faults out.new) }

    // What is told never to fail goes on being told so, and where both are, no fault of reading is answered.
    ensures input { I.sound input.old → I.sound input.new }
    ensures source { S.sound source.old → S.sound source.new }
    ensures sound { I.sound input.old → S.sound source.old → read_broke result ≡ false }
{
    let Ok((mut script, mut frames)) = open(alloc) else {
        return ClientEnd::Memory;
    };
    let mut txn = None;
    'lines: loop {
        let turned = turn(
            alloc,
            repo,
            host,
            txn,
            &mut script,
            &mut frames,
            input,
            source,
            sink,
            out,
        );
        match turned {
            Ok(next) => txn = next,
            Err(end) => return end,
        }
    }
}
