//! The client over any dial.
ghost use Rattle.std.specs.Prelude.{◌≡◌, ◌≢◌, ◌≤◌, ◌==◌, ◌⊎◌, ◌↔◌, ℕ, List, None, Some, IsTrue, false};
ghost use Rattle.rdf_io.specs.Doors.{Link};
ghost use Rattle.api_replies.specs.Ids.{is_id};
ghost use Rattle.api_requests.specs.Spellable.{IsHost};
ghost use Rattle.client_script.specs.Inputs.{Caused};
ghost use Rattle.rdf_client.specs.Causes.{read_broke, write_broke};
ghost use Rattle.rdf_cli.specs.Programs.{IsClientRun, OneBroke, status_of};
ghost use Rattle.rdf_cli.specs.Words.{client_words};

use crate::words::client_words;
use rdf_client::{ClientEnd, run_script};
use rdf_io::{Dial, Sink, Source};
use rdf_term::Text;
use std::alloc::Global;

fn status_of(end: ClientEnd) -> u8
    ensures value { result ≡ status_of end }
    ensures words { result ≢ 5 }
    ensures most { result ≤ 7 }
    ensures reads { (result == 2) ≡ read_broke end }
    ensures writes { (result == 3) ≡ write_broke end }
{
    match end {
        ClientEnd::Done => 0,
        ClientEnd::Refused => 1,
        ClientEnd::ReadFault => 2,
        ClientEnd::WriteFault => 3,
        ClientEnd::BadReply => 4,
        ClientEnd::Memory => 6,
        ClientEnd::Script(_) => 7,
    }
}

/// Runs the script on the one link of a dial, and hands the link back. It answers 8 where the dial failed.
fn run_on<D: Dial, I: Source, O: Sink>(
    alloc: Global,
    server: &Text,
    repo: &Text,
    dial: &mut D,
    input: &mut I,
    out: &mut O,
) -> u8
    requires repo { IsTrue (is_id repo.now) }
    requires server { IsHost server.now }
    requires dial { D.given dial.old ≡ 0 }
    ensures status { (result ≢ 5) × (result ≤ 8) }
    ensures run { (script : List ℕ) (links : List Link) (backs : List (List ℕ)) → I.left input.old ≡ Some script
        → D.links dial.old ≡ Some links → D.backs dial.old ≡ Some backs → result ≢ 8
        → IsClientRun server.now repo.now script links backs (D.backs dial.new) (O.taken out.old) (O.taken out.new) result }
    ensures back { result ≢ 8 → D.out dial.new ≡ false }
    ensures given { result ≢ 8 → D.given dial.new ≡ 1 }
    ensures undialed { result ≡ 8 → (D.given dial.new ≡ 0) × (I.left input.new ≡ I.left input.old) × (O.taken out.new ≡ O.taken out.old) }
    ensures dials { Caused (result == 8) (D.faults dial.old) (D.faults dial.new) }
    ensures reads { OneBroke (result == 2) (I.faults input.old) (I.faults input.new) (D.broken_sources dial.old) (D.broken_sources dial.new) }
    ensures writes { OneBroke (result == 3) (O.faults out.old) (O.faults out.new) (D.broken_sinks dial.old) (D.broken_sinks dial.new) }
    ensures sound { I.sound input.old → I.sound input.new }
{
    match dial.dial(server) {
        Err(_) => 8,
        Ok((mut source, mut sink)) => {
            let end = run_script(alloc, repo, server, input, &mut source, &mut sink, out);
            dial.give_back(source, sink);
            status_of(end)
        }
    }
}

/// The client `--server HOST:PORT --repository ID` over any dial, input and output: it runs the script that
/// the input holds against the server, on the one link that the dial gives, prints what was answered, and
/// answers its status. The link is handed back.
///
/// | Status | Cause |
/// |---|---|
/// | 0 | the script ended, by `quit` or with its input |
/// | 1 | a request was refused |
/// | 2 | the input or the link's source failed |
/// | 3 | the output or the link's sink failed |
/// | 4 | a response has no reply to its call |
/// | 5 | the words are no words of the client; nothing was dialed, read or printed |
/// | 6 | no memory was found |
/// | 7 | a line is none of a script, or may not stand there |
/// | 8 | the dial failed |
pub fn run_client<D: Dial, I: Source, O: Sink>(
    alloc: Global,
    words: &[Text],
    dial: &mut D,
    input: &mut I,
    out: &mut O,
) -> u8
    requires { D.given dial.old ≡ 0 }

    // 5 comes exactly where the words are none of the client, unless memory was wanted; and then nothing was
    // dialed.
    ensures words { result ≢ 6 → (result ≡ 5 ↔ client_words words.now ≡ None) }
    ensures none { client_words words.now ≡ None → D.given dial.new ≡ 0 }
    ensures most { result ≤ 8 }

    // Where a link was given, the script runs on it, and it is handed back. Where none was, the words, memory
    // or the dial are the cause, and nothing was read or printed.
    ensures run { (server repo script : List ℕ) (links : List Link) (backs : List (List ℕ)) → client_words words.now ≡ Some (server, repo)
        → I.left input.old ≡ Some script → D.links dial.old ≡ Some links → D.backs dial.old ≡ Some backs → D.given dial.new ≢ 0
        → IsClientRun server repo script links backs (D.backs dial.new) (O.taken out.old) (O.taken out.new) result }
    ensures back { D.given dial.new ≢ 0 → D.out dial.new ≡ false }
    ensures undialed { D.given dial.new ≡ 0 → ((result ≡ 5) ⊎ ((result ≡ 6) ⊎ (result ≡ 8)))
        × (I.left input.new ≡ I.left input.old) × (O.taken out.new ≡ O.taken out.old) }
    ensures given { result ≡ 8 → D.given dial.new ≡ 0 }

    // A fault is answered only where its object failed in this call, and none is passed over.
    ensures dials { Caused (result == 8) (D.faults dial.old) (D.faults dial.new) }
    ensures reads { OneBroke (result == 2) (I.faults input.old) (I.faults input.new) (D.broken_sources dial.old) (D.broken_sources dial.new) }
    ensures writes { OneBroke (result == 3) (O.faults out.old) (O.faults out.new) (D.broken_sinks dial.old) (D.broken_sinks dial.new) }
    ensures sound { I.sound input.old → I.sound input.new }
{
    match client_words(alloc, words) {
        Err(_) => 6,
        Ok(None) => 5,
        Ok(Some((server, repo))) => run_on(alloc, &server, &repo, dial, input, out),
    }
}
