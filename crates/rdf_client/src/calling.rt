//! One call and its answer.
ghost use Rattle.std.specs.Prelude.{◌≡◌, ◌↔◌, ◌++◌, IsTrue, ℕ, List, [], None, IfOk, OnOk, false};
ghost use Rattle.std.specs.List.{list_all};
ghost use Rattle.std.specs.Str.{chars};
ghost use Rattle.http_frame.specs.Streams.{IsStream};
ghost use Rattle.api_requests.specs.Spellable.{IsHost, IsSpellable};
ghost use Rattle.client_script.specs.Inputs.{Caused};
ghost use Rattle.rdf_client.specs.Causes.{ends_so, read_broke, write_broke};
ghost use Rattle.rdf_client.specs.Exchanges.{Exchanged, is_host_char, IsNamedGot, IsSent, request_bytes};
ghost use Rattle.rdf_io.specs.Sending.{Puts};
ghost use Rattle.rdf_client.specs.Turning.{Asks, IsGotOf, IsHeard};

use crate::end::ClientEnd;
use api_calls::Call;
use api_requests::write_call;
use http_frame::{FrameFault, Frames, Response, write_request};
use rdf_io::{Sink, Source, send};
use rdf_term::{Bytes, Memory, Text};
use reply_reading::{Got, ReplyFault, read_reply};
use std::alloc::Global;

fn is_host_char(character: char) -> bool
    ensures { result ≡ is_host_char character }
{
    character >= '!' && character <= '~'
}

fn is_host_text(text: &str) -> bool
    ensures { result ≡ list_all is_host_char (chars text.now) }
{
    text.chars().all(|character| is_host_char(character))
}

/// Whether a text may be a host: it has no characters but those from `!` to `~`.
pub fn is_host(text: &Text) -> bool
    ensures value { result ≡ list_all is_host_char text.now }
    ensures host { IsTrue result ↔ IsHost text.now }
{
    is_host_text(text.as_str())
}

/// The bytes of the request of a call.
fn request_bytes(alloc: Global, call: &Call, host: &Text) -> Result<Bytes, Memory>
    requires host { IsHost host.now }
    requires call { IsSpellable call.now }
    ensures { IfOk result (λ it. it.items ≡ request_bytes call.now host.now) }
{
    let request = write_call(alloc, call, host)?;
    let mut out = Bytes::new(alloc);
    write_request(&request, &mut out)?;
    Ok(out)
}

/// Writes the request of a call. What is sent of it is told in the clauses of `exchange`.
fn ask<K: Sink>(alloc: Global, call: &Call, host: &Text, sink: &mut K) -> Result<(), ClientEnd>
    requires host { IsHost host.now }
    requires call { IsSpellable call.now }
    ensures sent { (sent : List ℕ) × Asks (request_bytes call.now host.now) result sent × Puts (K.taken sink.old) (K.taken sink.new) sent }
    ensures sink { Caused (ends_so write_broke result) (K.faults sink.old) (K.faults sink.new) }
{
    let Ok(request) = request_bytes(alloc, call, host) else {
        return Err(ClientEnd::Memory);
    };
    match send(sink, request.as_slice()) {
        Ok(()) => Ok(()),
        Err(_) => Err(ClientEnd::WriteFault),
    }
}

/// What a response is to a call.
fn got_of(alloc: Global, call: &Call, response: &Response) -> Result<Got, ClientEnd>
    ensures got { IsGotOf call.now response.now result }
    ensures named { IfOk result IsNamedGot }
{
    match read_reply(alloc, call, response) {
        Ok(got) => Ok(got),
        Err(ReplyFault::BadReply(_)) => Err(ClientEnd::BadReply),
        Err(ReplyFault::Memory) => Err(ClientEnd::Memory),
    }
}

/// Reads the response to a call.
fn hear<S: Source>(
    alloc: Global,
    call: &Call,
    frames: &mut Frames,
    source: &mut S,
) -> Result<Got, ClientEnd>
    requires { frames.old.fault ≡ None }
    ensures answer { (b : List ℕ) → IsStream frames.old.held (S.left source.old) b
        → Exchanged call.now b frames.new.held (S.left source.new) result }
    ensures heard { IsHeard result }
    ensures named { IfOk result IsNamedGot }
    ensures frames { OnOk result (frames.new.fault ≡ None) }
    ensures source { Caused (ends_so read_broke result) (S.faults source.old) (S.faults source.new) }
    ensures sound { S.sound source.old → (ends_so read_broke result ≡ false) × S.sound source.new }
{
    match frames.next_response(source) {
        Ok(Some(response)) => got_of(alloc, call, &response),
        Ok(None) => Err(ClientEnd::BadReply),
        Err(FrameFault::ReadFault) => Err(ClientEnd::ReadFault),
        Err(FrameFault::Memory) => Err(ClientEnd::Memory),
        Err(FrameFault::BadHead) => Err(ClientEnd::BadReply),
        Err(FrameFault::BadHost) => Err(ClientEnd::BadReply),
        Err(FrameFault::BadBody) => Err(ClientEnd::BadReply),
        Err(FrameFault::BodyTooLong) => Err(ClientEnd::BadReply),
        Err(FrameFault::Coding) => Err(ClientEnd::BadReply),
        Err(FrameFault::Truncated) => Err(ClientEnd::BadReply),
    }
}

/// Writes the one request of a call, and then reads its response.
///
/// `BadReply` is answered where the responses have ended, the next one is refused by its frame, or it has
/// no reply to the call ([`read_reply`]).
pub fn exchange<S: Source, K: Sink>(
    alloc: Global,
    call: &Call,
    host: &Text,
    frames: &mut Frames,
    source: &mut S,
    sink: &mut K,
) -> Result<Got, ClientEnd>
    requires host { IsHost host.now }
    requires call { IsSpellable call.now }
    requires frames { frames.old.fault ≡ None }

    // The request is written whole before the response is read; a fault of the sink leaves a first part.
    ensures sent { (sent : List ℕ) × IsSent (request_bytes call.now host.now) result sent × Puts (K.taken sink.old) (K.taken sink.new) sent }

    // Where the source tells its bytes, what is got is what the response at their front is read as, and
    // `BadReply` says that there is none.
    ensures answer { (b : List ℕ) → IsStream frames.old.held (S.left source.old) b
        → Exchanged call.now b frames.new.held (S.left source.new) result }
    ensures named { IfOk result IsNamedGot }
    ensures frames { OnOk result (frames.new.fault ≡ None) }

    // A fault is answered only where its object failed in this call, and none is passed over.
    ensures source { Caused (ends_so read_broke result) (S.faults source.old) (S.faults source.new) }
    ensures sink { Caused (ends_so write_broke result) (K.faults sink.old) (K.faults sink.new) }
    ensures sound { S.sound source.old → (ends_so read_broke result ≡ false) × S.sound source.new }
{
    match ask(alloc, call, host, sink) {
        Ok(()) => hear(alloc, call, frames, source),
        Err(end) => Err(end),
    }
}
