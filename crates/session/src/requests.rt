//! A session: requests are read, answered and written, one after the other.
ghost use Rattle.std.specs.Prelude.{◌≡◌, ◌≢◌, ◌+◌, ◌≤◌, ◌<◌, ◌++◌, ℕ, List, [], Ok, Some, None, IfOk, OnOk, IsTrue, true, false, length, vec_len};
ghost use Rattle.std.specs.List.{list_all};
ghost use Rattle.std.specs.Vec.{vec_capacity};
ghost use Rattle.rdf_io.specs.Causes.{HasCause};
ghost use Rattle.journal.specs.declared.entry.Mark.{Mark as SeenMark};
ghost use Rattle.http_frame.specs.Answers.{NextHead};
ghost use Rattle.http_frame.specs.Messages.{SeenResponse};
ghost use Rattle.http_frame.specs.Streams.{IsStream};
ghost use Rattle.http_frame.specs.Wire.{continue_of};
ghost use Rattle.api_replies.specs.Ids.{is_id};
ghost use Rattle.api_replies.specs.Shorts.{short_bytes};
ghost use Rattle.session.specs.Answering.{IsWritten};
ghost use Rattle.session.specs.Causes.{Caused, sink_broke, source_broke};
ghost use Rattle.session.specs.Ends.{IsSession};
ghost use Rattle.session.specs.Marks.{Moves};
ghost use Rattle.session.specs.Refusals.{refusal_text};
ghost use Rattle.rdf_io.specs.Sending.{Puts, Sends};
ghost use Rattle.session.specs.Steps.{IsGoing, IsRefusing, IsRoom, IsServed, IsStep, IsStopping, Marked, is_read_fault, sink_broke_in, source_broke_in};
ghost use Rattle.session.specs.Turns.{ground, sent};

use crate::answer::{Written, answer_request, is_bodiless};
use crate::refusal::refusal_text;
use crate::report::{SessionEnd, Turn};
use crate::store::Store;
use crate::visit::Visit;
use api_replies::{Short, write_short};
use http_frame::{
    FrameFault, Frames, Head, Request, continue_of, heads_and_bodies_are_frames, write_response,
};
use journal::{Mark, reply_reads_no_later_entry};
use rdf_io::{Failed, Gate, GateMark, Sink, Source, send};
use rdf_term::{Bytes, Memory, Text};
use std::alloc::Global;

/// The most requests of a session.
pub const MOST_REQUESTS: u32 = 100_000;

/// The most entries of a request.
const MOST_ENTRIES: usize = 256;

/// How a session goes on after a step.
#[derive(Clone, Copy, Drop)]
pub(crate) enum Step {
    /// A request was answered.
    Answered,
    /// A request was answered, and it closes the connection.
    Closed,
    /// The turn of a request was made, and its response was not written whole.
    Lost,
    /// No turn was made, and the session ends.
    Stopped(SessionEnd),
}

/// Writes `100 Continue` where the head asks for it.
fn ask<K: Sink>(head: &Head, sink: &mut K) -> Result<(), Failed>
    ensures text { Sends (K.taken sink.old) (K.taken sink.new) (continue_of head.now) result }
    ensures cause { HasCause (K.faults sink.old) (K.faults sink.new) result }
{
    if head.expects {
        send(sink, continue_of(head))
    } else {
        Ok(())
    }
}

/// Writes a response that takes no memory, into the room that was taken for it and out of it.
fn send_short<K: Sink>(
    id: &Text,
    short: Short,
    closes: bool,
    bodiless: bool,
    room: &mut Bytes,
    sink: &mut K,
) -> Result<(), Failed>
    requires id { IsTrue (is_id id.now) }
    requires room { IsRoom room.old }
    ensures text { (minor : ℕ) → Sends (K.taken sink.old) (K.taken sink.new) (short_bytes id.now short minor closes bodiless) result }
    ensures cause { HasCause (K.faults sink.old) (K.faults sink.new) result }
    ensures room { IsRoom room.new }
{
    write_short(id, short, closes, bodiless, room);
    let written = send(sink, room.as_slice());
    room.clear();
    written
}

/// The last words of a session without memory.
fn go<K: Sink>(id: &Text, room: &mut Bytes, sink: &mut K) -> SessionEnd
    requires id { IsTrue (is_id id.now) }
    requires room { IsRoom room.old }
    ensures text { (text : List ℕ) × Puts (K.taken sink.old) (K.taken sink.new) text × IsGoing text result }
    ensures cause { Caused (sink_broke result) (K.faults sink.old) (K.faults sink.new) }
    ensures source { source_broke result ≡ false }
    ensures room { IsRoom room.new }
{
    match send_short(id, Short::OutOfMemory, true, false, room, sink) {
        Ok(()) => SessionEnd::Memory,
        Err(_) => SessionEnd::WriteFault,
    }
}

/// Refuses a frame.
fn refuse<K: Sink>(
    alloc: Global,
    fault: FrameFault,
    id: &Text,
    room: &mut Bytes,
    sink: &mut K,
) -> SessionEnd
    requires id { IsTrue (is_id id.now) }
    requires room { IsRoom room.old }
    ensures text { (text : List ℕ) × Puts (K.taken sink.old) (K.taken sink.new) text × IsRefusing fault text result }
    ensures cause { Caused (sink_broke result) (K.faults sink.old) (K.faults sink.new) }
    ensures source { source_broke result ≡ false }
    ensures room { IsRoom room.new }
{
    match refusal_text(alloc, fault) {
        Ok(text) => match send(sink, text.as_slice()) {
            Ok(()) => SessionEnd::Refused,
            Err(_) => SessionEnd::WriteFault,
        },
        Err(_) => go(id, room, sink),
    }
}

/// Ends the session at a fault of its frames.
fn stop<K: Sink>(
    alloc: Global,
    fault: FrameFault,
    id: &Text,
    room: &mut Bytes,
    sink: &mut K,
) -> SessionEnd
    requires id { IsTrue (is_id id.now) }
    requires room { IsRoom room.old }
    ensures text { (text : List ℕ) × Puts (K.taken sink.old) (K.taken sink.new) text × IsStopping fault text result }
    ensures cause { Caused (sink_broke result) (K.faults sink.old) (K.faults sink.new) }
    ensures source { source_broke result ≡ is_read_fault fault }
    ensures room { IsRoom room.new }
{
    match fault {
        FrameFault::ReadFault => SessionEnd::ReadFault,
        FrameFault::Memory => go(id, room, sink),
        FrameFault::BadHead => refuse(alloc, FrameFault::BadHead, id, room, sink),
        FrameFault::BadHost => refuse(alloc, FrameFault::BadHost, id, room, sink),
        FrameFault::BadBody => refuse(alloc, FrameFault::BadBody, id, room, sink),
        FrameFault::BodyTooLong => refuse(alloc, FrameFault::BodyTooLong, id, room, sink),
        FrameFault::Coding => refuse(alloc, FrameFault::Coding, id, room, sink),
        FrameFault::Truncated => refuse(alloc, FrameFault::Truncated, id, room, sink),
    }
}

/// Writes the response to the request of a head, to the repository of this ID.
fn write_out<K: Sink>(
    id: &Text,
    head: &Head,
    text: &Written,
    room: &mut Bytes,
    sink: &mut K,
) -> Result<(), Failed>
    requires id { IsTrue (is_id id.now) }
    requires room { IsRoom room.old }
    ensures text { (response : SeenResponse) → IsWritten id.now head.now text.now response
        → Sends (K.taken sink.old) (K.taken sink.new) (sent head.now response) result }
    ensures cause { HasCause (K.faults sink.old) (K.faults sink.new) result }
    ensures room { IsRoom room.new }
{
    match text {
        Written::Short(short) => {
            send_short(id, *short, head.closes, is_bodiless(head), room, sink)
        }
        Written::Whole(bytes) => send(sink, bytes.as_slice()),
    }
}

/// Room for one turn more and its marks.
fn take_room(turns: &mut Vec<Turn>, marks: &mut Vec<Mark>) -> bool
    ensures turns { turns.new.items ≡ turns.old.items }
    ensures marks { marks.new.items ≡ marks.old.items }
    ensures turn { result ≡ true → vec_len turns.new < vec_capacity turns.new }
    ensures room { result ≡ true → vec_len marks.new + 256 ≤ vec_capacity marks.new }
{
    if turns.reserve(1).is_err() {
        return false;
    }
    marks.reserve(MOST_ENTRIES).is_ok()
}

/// Serves one framed request: its turn is made, and its response is written.
fn serve_request<T: Store, K: Sink, G: Gate>(
    alloc: Global,
    store: &T,
    pass: &mut T::Pass,
    request: &Request,
    sink: &mut K,
    gate: &G,
    visit: Visit,
    room: &mut Bytes,
    turns: &mut Vec<Turn>,
    marks: &mut Vec<Mark>,
) -> Step
    requires serves { T.serves store.now pass.old }
    requires room { IsRoom room.old }
    ensures pass { T.serves store.now pass.new × (T.seats pass.new ≡ T.seats pass.old) }
    ensures marked { Marked (T.limits store.now).places (T.seats pass.old) (T.journals pass.old) (T.journals pass.new) marks.old.items marks.new.items }
    ensures served { (text : List ℕ) × Puts (K.taken sink.old) (K.taken sink.new) text
        × IsServed (ground (T.names store.now) (T.limits store.now) (T.journals pass.new) (T.seats pass.old)) request.now
        turns.old.items turns.new.items marks.old.items marks.new.items text result }
    ensures cause { Caused (sink_broke_in result) (K.faults sink.old) (K.faults sink.new) }
    ensures source { source_broke_in result ≡ false }
    ensures room { IsRoom room.new }
{
    let names = store.names_of();
    if !take_room(turns, marks) {
        return Step::Stopped(go(&names[0], room, sink));
    }
    let before = marks.len();
    let number = visit.first.saturating_add(turns.len() as u64);
    let mark = GateMark::Pinned {
        worker: visit.worker,
        request: number,
    };
    let answered = answer_request(alloc, store, pass, request, gate, mark, marks);
    turns.push_reserved(Turn {
        marks: (marks.len() - before) as u32,
        outcome: answered.outcome,
    });
    let id = &names[answered.repo as usize];
    match write_out(id, &request.head, &answered.text, room, sink) {
        Ok(()) => {
            gate.enter(GateMark::Written {
                worker: visit.worker,
                request: number,
            });
            if request.head.closes {
                Step::Closed
            } else {
                Step::Answered
            }
        }
        Err(_) => Step::Lost,
    }
}

/// The rest of a step, behind the head of a request: its body and its answer.
fn serve_head<T: Store, S: Source, K: Sink, G: Gate>(
    alloc: Global,
    store: &T,
    pass: &mut T::Pass,
    frames: &mut Frames,
    head: Head,
    source: &mut S,
    sink: &mut K,
    gate: &G,
    visit: Visit,
    room: &mut Bytes,
    turns: &mut Vec<Turn>,
    marks: &mut Vec<Mark>,
) -> Step
    requires serves { T.serves store.now pass.old }
    requires fault { frames.old.fault ≡ None }
    requires room { IsRoom room.old }
    ensures pass { T.serves store.now pass.new × (T.seats pass.new ≡ T.seats pass.old) }
    ensures marked { Marked (T.limits store.now).places (T.seats pass.old) (T.journals pass.old) (T.journals pass.new) marks.old.items marks.new.items }
    ensures step { (b : List ℕ) → NextHead b frames.old.held (S.left source.old) (Ok (Some head)) → (text : List ℕ) × Puts (K.taken sink.old) (K.taken sink.new) text
        × IsStep (ground (T.names store.now) (T.limits store.now) (T.journals pass.new) (T.seats pass.old)) b
        turns.old.items turns.new.items marks.old.items marks.new.items text frames.new.held (S.left source.new) result }
    ensures source { Caused (source_broke_in result) (S.faults source.old) (S.faults source.new) }
    ensures sink { Caused (sink_broke_in result) (K.faults sink.old) (K.faults sink.new) }
    ensures sound { S.sound source.old → (source_broke_in result ≡ false) × S.sound source.new }
    ensures kept { result ≡ Step.Answered → frames.new.fault ≡ None }
    ensures room { IsRoom room.new }
{
    heads_and_bodies_are_frames();
    match ask(&head, sink) {
        Err(_) => Step::Stopped(SessionEnd::WriteFault),
        Ok(()) => match frames.read_body(head, source) {
            Ok(request) => serve_request(
                alloc, store, pass, &request, sink, gate, visit, room, turns, marks,
            ),
            Err(fault) => Step::Stopped(stop(alloc, fault, &store.names_of()[0], room, sink)),
        },
    }
}

/// One step of a session: the next request, and what is done with it.
fn serve_one<T: Store, S: Source, K: Sink, G: Gate>(
    alloc: Global,
    store: &T,
    pass: &mut T::Pass,
    frames: &mut Frames,
    source: &mut S,
    sink: &mut K,
    gate: &G,
    visit: Visit,
    room: &mut Bytes,
    turns: &mut Vec<Turn>,
    marks: &mut Vec<Mark>,
) -> Step
    requires serves { T.serves store.now pass.old }
    requires fault { frames.old.fault ≡ None }
    requires room { IsRoom room.old }
    ensures pass { T.serves store.now pass.new × (T.seats pass.new ≡ T.seats pass.old) }
    ensures marked { Marked (T.limits store.now).places (T.seats pass.old) (T.journals pass.old) (T.journals pass.new) marks.old.items marks.new.items }
    ensures step { (b : List ℕ) → IsStream frames.old.held (S.left source.old) b → (text : List ℕ) × Puts (K.taken sink.old) (K.taken sink.new) text
        × IsStep (ground (T.names store.now) (T.limits store.now) (T.journals pass.new) (T.seats pass.old)) b
        turns.old.items turns.new.items marks.old.items marks.new.items text frames.new.held (S.left source.new) result }
    ensures source { Caused (source_broke_in result) (S.faults source.old) (S.faults source.new) }
    ensures sink { Caused (sink_broke_in result) (K.faults sink.old) (K.faults sink.new) }
    ensures sound { S.sound source.old → (source_broke_in result ≡ false) × S.sound source.new }
    ensures kept { result ≡ Step.Answered → frames.new.fault ≡ None }
    ensures room { IsRoom room.new }
{
    match frames.next_head(source) {
        Ok(None) => Step::Stopped(SessionEnd::Done),
        Ok(Some(head)) => serve_head(
            alloc, store, pass, frames, head, source, sink, gate, visit, room, turns, marks,
        ),
        Err(fault) => Step::Stopped(stop(alloc, fault, &store.names_of()[0], room, sink)),
    }
}

/// Serves the requests of a stream, in order.
pub(crate) fn run<T: Store, S: Source, K: Sink, G: Gate>(
    alloc: Global,
    store: &T,
    pass: &mut T::Pass,
    frames: &mut Frames,
    source: &mut S,
    sink: &mut K,
    gate: &G,
    visit: Visit,
    room: &mut Bytes,
    turns: &mut Vec<Turn>,
    marks: &mut Vec<Mark>,
) -> SessionEnd
    requires serves { T.serves store.now pass.old }
    requires fault { frames.old.fault ≡ None }
    requires room { IsRoom room.old }
    requires turns { turns.old.items ≡ [] }
    requires marks { marks.old.items ≡ [] }
    ensures pass { T.serves store.now pass.new × (T.seats pass.new ≡ T.seats pass.old) }
    ensures moves { Moves (T.seats pass.old) (T.journals pass.old) (T.journals pass.new) marks.new.items }
    ensures session { (b : List ℕ) → IsStream frames.old.held (S.left source.old) b → (text : List ℕ) × Puts (K.taken sink.old) (K.taken sink.new) text
        × IsSession (ground (T.names store.now) (T.limits store.now) (T.journals pass.new) (T.seats pass.old)) b (S.left source.new) result turns.new.items marks.new.items text }
    ensures source { Caused (source_broke result) (S.faults source.old) (S.faults source.new) }
    ensures sink { Caused (sink_broke result) (K.faults sink.old) (K.faults sink.new) }
    ensures sound { S.sound source.old → (source_broke result ≡ false) × S.sound source.new }
{
    reply_reads_no_later_entry();
    for turn in 0..MOST_REQUESTS {
        match serve_one(
            alloc, store, pass, frames, source, sink, gate, visit, room, turns, marks,
        ) {
            Step::Answered => {}
            Step::Closed => return SessionEnd::Done,
            Step::Lost => return SessionEnd::WriteFault,
            Step::Stopped(end) => return end,
        }
    }
    SessionEnd::Limit
}
