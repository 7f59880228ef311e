//! One line of a script.
ghost use Rattle.std.specs.Prelude.{◌≡◌, ◌+◌, ◌≤◌, ℕ, List, None, Some, IfOk, OnOk, false};
ghost use Rattle.api_requests.specs.Spellable.{IsHost, IsNamedOrNone, IsSpellable, IsText};
ghost use Rattle.client_script.specs.Inputs.{Caused, IsStream};
ghost use Rattle.client_script.specs.Lines.{IsValidCommand};
ghost use Rattle.client_script.specs.Scripts.{IsNext};
ghost use Rattle.http_frame.specs.Streams.{IsStream as IsFrameStream};
ghost use Rattle.rdf_client.specs.Causes.{OneCaused, ends_so, read_broke, write_broke};
ghost use Rattle.rdf_client.specs.Exchanges.{IsNamedGot};
ghost use Rattle.rdf_client.specs.Runs.{Place, shown, txn_behind};
ghost use Rattle.rdf_io.specs.Sending.{Puts};
ghost use Rattle.rdf_client.specs.Turning.{Acts, Answers, Prints, PrintsBadLine, Turns, txn_or_end};

use crate::calling::exchange;
use crate::end::ClientEnd;
use api_calls::Call;
use client_script::{
    Action, Command, Script, ScriptFault, print_bad_line, print_refusal, print_reply, txn_after,
};
use http_frame::Frames;
use journal::{Reply, Txn};
use rdf_io::{Sink, Source, send};
use rdf_term::{Bytes, Memory, Text};
use reply_reading::Got;
use std::alloc::Global;

/// Prints a text.
fn print<O: Sink>(out: &mut O, text: &[u8]) -> Result<(), ClientEnd>
    ensures text { (part : List ℕ) × Prints text.now result part × Puts (O.taken out.old) (O.taken out.new) part }
    ensures out { Caused (ends_so write_broke result) (O.faults out.old) (O.faults out.new) }
    ensures read { ends_so read_broke result ≡ false }
{
    match send(out, text) {
        Ok(()) => Ok(()),
        Err(_) => Err(ClientEnd::WriteFault),
    }
}

/// The end of a script at a line that is none, which is printed.
fn bad_line<O: Sink>(alloc: Global, number: u64, out: &mut O) -> ClientEnd
    ensures text { (part : List ℕ) × PrintsBadLine number result part × Puts (O.taken out.old) (O.taken out.new) part }
    ensures out { Caused (write_broke result) (O.faults out.old) (O.faults out.new) }
    ensures read { read_broke result ≡ false }
{
    let mut text = Bytes::new(alloc);
    if print_bad_line(number, &mut text).is_err() {
        return ClientEnd::Memory;
    }
    match print(out, text.as_slice()) {
        Ok(()) => ClientEnd::Script(number),
        Err(end) => end,
    }
}

/// What is printed for what was got by a call.
fn shown(alloc: Global, call: &Call, got: &Got) -> Result<Bytes, Memory>
    ensures { IfOk result (λ it. it.items ≡ shown call.now got.now) }
{
    let mut text = Bytes::new(alloc);
    let Call::On { op, .. } = call else {
        return Ok(text);
    };
    match got {
        Got::Reply(reply) => print_reply(op, reply, &mut text)?,
        Got::Refused(status, body) => print_refusal(*status, body.as_slice(), &mut text)?,
    }
    Ok(text)
}

/// Prints what was got by a call.
fn show<O: Sink>(alloc: Global, call: &Call, got: &Got, out: &mut O) -> Result<(), ClientEnd>
    ensures text { (part : List ℕ) × Prints (shown call.now got.now) result part × Puts (O.taken out.old) (O.taken out.new) part }
    ensures out { Caused (ends_so write_broke result) (O.faults out.old) (O.faults out.new) }
    ensures read { ends_so read_broke result ≡ false }
{
    let Ok(text) = shown(alloc, call, got) else {
        return Err(ClientEnd::Memory);
    };
    print(out, text.as_slice())
}

/// The current transaction after a reply to a call.
fn txn_behind(txn: Option<Txn>, call: &Call, reply: &Reply) -> Option<Txn>
    ensures { result ≡ txn_behind txn call.now reply.now }
{
    match call {
        Call::Protocol => txn,
        Call::Repositories(_) => txn,
        Call::On { op, .. } => txn_after(txn, op, reply),
    }
}

/// The transaction that is current behind what was got, or the end of the script at a refusal.
fn behind(txn: Option<Txn>, call: &Call, got: &Got) -> Result<Option<Txn>, ClientEnd>
    requires txn { IsNamedOrNone txn }
    requires got { IsNamedGot got.now }
    ensures value { result ≡ txn_or_end txn call.now got.now }
    ensures named { IfOk result IsNamedOrNone }
{
    match got {
        Got::Reply(reply) => Ok(txn_behind(txn, call, reply)),
        Got::Refused(_, _) => Err(ClientEnd::Refused),
    }
}

/// Sends a call, prints its answer, and answers the transaction that is current then.
fn answer<S: Source, K: Sink, O: Sink>(
    alloc: Global,
    host: &Text,
    call: &Call,
    txn: Option<Txn>,
    frames: &mut Frames,
    source: &mut S,
    sink: &mut K,
    out: &mut O,
) -> Result<Option<Txn>, ClientEnd>
    requires host { IsHost host.now }
    requires call { IsSpellable call.now }
    requires txn { IsNamedOrNone txn }
    requires frames { frames.old.fault ≡ None }
    ensures answer { (b : List ℕ) → IsFrameStream frames.old.held (S.left source.old) b
        → (sent : List ℕ) × (text : List ℕ) × Puts (K.taken sink.old) (K.taken sink.new) sent × Puts (O.taken out.old) (O.taken out.new) text
        × Answers host.now call.now txn b frames.new.held (S.left source.new) result sent text }
    ensures named { IfOk result IsNamedOrNone }
    ensures frames { OnOk result (frames.new.fault ≡ None) }
    ensures source { Caused (ends_so read_broke result) (S.faults source.old) (S.faults source.new) }
    ensures sound { S.sound source.old → (ends_so read_broke result ≡ false) × S.sound source.new }
    ensures writes { OneCaused (ends_so write_broke result) (K.faults sink.old) (K.faults sink.new) (O.faults out.old) (O.faults out.new) }
{
    match exchange(alloc, call, host, frames, source, sink) {
        Ok(got) => match show(alloc, call, &got, out) {
            Ok(()) => behind(txn, call, &got),
            Err(end) => Err(end),
        },
        Err(end) => Err(end),
    }
}

/// Does what a command asks for, which is the line of this number, and answers the transaction that is
/// current then.
fn act<S: Source, K: Sink, O: Sink>(
    alloc: Global,
    repo: &Text,
    host: &Text,
    command: Command,
    number: u64,
    txn: Option<Txn>,
    frames: &mut Frames,
    source: &mut S,
    sink: &mut K,
    out: &mut O,
) -> Result<Option<Txn>, ClientEnd>
    requires repo { IsText repo.now }
    requires host { IsHost host.now }
    requires command { IsValidCommand command }
    requires txn { IsNamedOrNone txn }
    requires frames { frames.old.fault ≡ None }
    ensures acts { (at : Place) (rest : List ℕ) → IsNext at.number at.script command rest → at.txn ≡ txn → number ≡ at.number + 1
        → IsFrameStream frames.old.held (S.left source.old) at.responses
        → (sent : List ℕ) × (text : List ℕ) × Puts (K.taken sink.old) (K.taken sink.new) sent × Puts (O.taken out.old) (O.taken out.new) text
        × Acts repo.now host.now at rest frames.new.held (S.left source.new) result sent text }
    ensures named { IfOk result IsNamedOrNone }
    ensures frames { OnOk result (frames.new.fault ≡ None) }
    ensures source { Caused (ends_so read_broke result) (S.faults source.old) (S.faults source.new) }
    ensures sound { S.sound source.old → (ends_so read_broke result ≡ false) × S.sound source.new }
    ensures writes { OneCaused (ends_so write_broke result) (K.faults sink.old) (K.faults sink.new) (O.faults out.old) (O.faults out.new) }
{
    match command.next_call(alloc, repo, txn) {
        Err(_) => Err(ClientEnd::Memory),
        Ok(Action::Skip) => Ok(txn),
        Ok(Action::End) => Err(ClientEnd::Done),
        Ok(Action::Refuse) => Err(bad_line(alloc, number, out)),
        Ok(Action::Send(call)) => answer(alloc, host, &call, txn, frames, source, sink, out),
    }
}

/// Reads the next line and does what it asks for.
pub fn turn<I: Source, S: Source, K: Sink, O: Sink>(
    alloc: Global,
    repo: &Text,
    host: &Text,
    txn: Option<Txn>,
    script: &mut Script,
    frames: &mut Frames,
    input: &mut I,
    source: &mut S,
    sink: &mut K,
    out: &mut O,
) -> Result<Option<Txn>, ClientEnd>
    requires repo { IsText repo.now }
    requires host { IsHost host.now }
    requires txn { IsNamedOrNone txn }
    requires frames { frames.old.fault ≡ None }
    ensures turns { (at : Place) → IsStream script.old.held (I.left input.old) at.script → script.old.number ≡ at.number → at.txn ≡ txn
        → IsFrameStream frames.old.held (S.left source.old) at.responses
        → (sent : List ℕ) × (text : List ℕ) × Puts (K.taken sink.old) (K.taken sink.new) sent × Puts (O.taken out.old) (O.taken out.new) text
        × Turns repo.now host.now at script.new (I.left input.new) frames.new.held (S.left source.new) result sent text }
    ensures number { OnOk result (script.new.number ≡ script.old.number + 1) }
    ensures named { IfOk result IsNamedOrNone }
    ensures frames { OnOk result (frames.new.fault ≡ None) }
    ensures reads { OneCaused (ends_so read_broke result) (I.faults input.old) (I.faults input.new) (S.faults source.old) (S.faults source.new) }
    ensures input { I.sound input.old → I.sound input.new }
    ensures source { S.sound source.old → S.sound source.new }
    ensures sound { I.sound input.old → S.sound source.old → ends_so read_broke result ≡ false }
    ensures writes { OneCaused (ends_so write_broke result) (K.faults sink.old) (K.faults sink.new) (O.faults out.old) (O.faults out.new) }
{
    match script.next_command(input) {
        Err(ScriptFault::BadLine(number)) => Err(bad_line(alloc, number, out)),
        Err(ScriptFault::ReadFault) => Err(ClientEnd::ReadFault),
        Err(ScriptFault::Memory) => Err(ClientEnd::Memory),
        Ok(None) => Err(ClientEnd::Done),
        Ok(Some(command)) => {
            let number = script.number();
            act(
                alloc, repo, host, command, number, txn, frames, source, sink, out,
            )
        }
    }
}
