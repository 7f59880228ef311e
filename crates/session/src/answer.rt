//! The answer to a request.
ghost use Rattle.std.specs.Prelude.{◌≡◌, ◌≢◌, ◌+◌, ◌≤◌, ◌<◌, ◌^◌, ℕ, List, true, false, IfOk, IfNone, IsTrue, position, codes, length, vec_len, Ok, Some, slice_get, Contains};
ghost use Rattle.std.specs.Option.{option_copied};
ghost use Rattle.std.specs.Ordering.{eq_by_cmp};
ghost use Rattle.std.specs.Vec.{vec_capacity};
ghost use Rattle.rdf_term.specs.TextOrder.{text_cmp};
ghost use Rattle.api_calls.specs.declared.call.Call.TheVariants.{On, Protocol};
ghost use Rattle.api_replies.specs.Fits.{Fits};
ghost use Rattle.api_replies.specs.Responses.{refusal, response};
ghost use Rattle.repo_api.specs.Calls.{IsCallOf};
ghost use Rattle.media.specs.declared.form.Form.{Form};
ghost use Rattle.http_frame.specs.Messages.{SeenRequest, SeenResponse};
ghost use Rattle.journal.specs.declared.op.Op.{Op};
ghost use Rattle.repo_api.specs.Laws.{IsCallable};
ghost use Rattle.repo_api.specs.Resources.{is_text};
ghost use Rattle.repo_store.specs.Stores.{answered};
ghost use Rattle.session.specs.Answering.{AnswersBy, FitsEntered, Finishes, IsAnswered, IsLack, IsOn, IsWhole, ask_of};
ghost use Rattle.journal.specs.declared.reply.Reply.TheVariants as replies;
ghost use Rattle.session.specs.Entering.{IsEntered};
ghost use Rattle.session.specs.Turns.{Ground, IsRight, ground, number_of, repo_of, sent};

use crate::enter::{Entered, enter};
use crate::report::Outcome;
use crate::store::Store;
use api_calls::{ApiFault, Call};
use api_replies::{
    Short, last_reply_fits, others_take_memory, short_is_response, short_of, write_refusal,
    write_reply,
};
use http_frame::{Head, Request, Response, write_response};
use iso_txn::Pinned;
use journal::{Ask, Mark, Op, Reply};
use rdf_io::{Gate, GateMark};
use rdf_term::{Bytes, Memory, Text};
use repo_api::{calls_are_callable, calls_are_on_repositories, read_call};
use repo_store::answer;
use std::alloc::Global;

/// The bytes of a response.
#[derive(Drop)]
pub(crate) enum Written {
    /// Those of a response that takes no memory.
    Short(Short),
    /// These.
    Whole(Bytes),
}

/// A request that was answered: the number of the repository that it was on, its outcome and its
/// response.
#[derive(Drop)]
pub(crate) struct Answered {
    pub repo: u32,
    pub outcome: Outcome,
    pub text: Written,
}

/// Whether the response to a request of this head has no body (RFC 9110, section 9.3.2).
pub(crate) fn is_bodiless(head: &Head) -> bool
    ensures { result ≡ is_text head.now.method (codes "HEAD") }
{
    head.method.as_str().as_bytes() == b"HEAD".as_slice()
}

/// The bytes of a response to the request of this head.
fn text_of(alloc: Global, head: &Head, response: &Response) -> Result<Bytes, Memory>
    ensures { IfOk result (λ text. text.items ≡ sent head.now response.now) }
{
    let mut out = Bytes::new(alloc);
    write_response(
        response,
        head.minor,
        head.closes,
        is_bodiless(head),
        &mut out,
    )?;
    Ok(out)
}

/// The bytes of the response to a call, by its reply.
fn reply_text(
    alloc: Global,
    head: &Head,
    call: &Call,
    names: &[Text],
    reply: &Reply,
) -> Result<Bytes, Memory>
    requires { Fits call.now reply.now }
    ensures { IfOk result (λ text. text.items ≡ sent head.now (response call.now names.now reply.now)) }
{
    let response = write_reply(alloc, call, names, reply)?;
    text_of(alloc, head, &response)
}

/// The bytes of the response to a request that is no call.
fn refusal_text(alloc: Global, head: &Head, fault: &ApiFault) -> Result<Bytes, Memory>
    ensures { IfOk result (λ text. text.items ≡ sent head.now (refusal fault.now)) }
{
    let response = write_refusal(alloc, fault)?;
    text_of(alloc, head, &response)
}

/// A text that was found is the answer, and want of memory is answered else.
fn whole(text: Result<Bytes, Memory>) -> (Outcome, Written)
    ensures { IsWhole text result.0 result.1 }
{
    match text {
        Ok(text) => (Outcome::Answered, Written::Whole(text)),
        Err(_) => (Outcome::NoMemory, Written::Short(Short::OutOfMemory)),
    }
}

/// What an op asks, where it asks.
fn ask_of(op: &Op) -> Option<&Ask>
    ensures { option_copied result ≡ ask_of op.now }
{
    match op {
        Op::Read { txn: _, ask } => Some(ask),
        _ => None,
    }
}

/// The bytes of the response to a call over what is pinned of it.
fn pinned_text(
    alloc: Global,
    head: &Head,
    call: &Call,
    names: &[Text],
    pinned: &Pinned,
    ask: &Ask,
) -> Result<Bytes, Memory>
    requires { Fits call.now (answered pinned.now ask.now) }
    ensures { IfOk result (λ text. text.items ≡ sent head.now (response call.now names.now (answered pinned.now ask.now))) }
{
    let reply = answer(alloc, pinned, ask)?;
    reply_text(alloc, head, call, names, &reply)
}

/// The answer to a call on a repository, by what came of its entries.
fn finish(
    alloc: Global,
    head: &Head,
    call: &Call,
    op: &Op,
    names: &[Text],
    entered: Entered,
) -> (Outcome, Written)
    requires on { IsOn call.now op.now }
    requires fits { FitsEntered call.now entered }
    ensures { Finishes head.now names.now call.now entered result.0 result.1 }
{
    short_is_response();
    others_take_memory();
    match entered {
        Entered::Replied(reply) => match short_of(op, &reply) {
            Some(short) => (Outcome::Answered, Written::Short(short)),
            None => whole(reply_text(alloc, head, call, names, &reply)),
        },
        Entered::Pinned(pinned) => match ask_of(op) {
            Some(ask) => whole(pinned_text(alloc, head, call, names, &pinned, ask)),
            None => unreachable!(),
        },
        Entered::Full => (Outcome::JournalFull, Written::Short(Short::JournalFull)),
        Entered::NoMemory => (Outcome::NoMemory, Written::Short(Short::OutOfMemory)),
    }
}

/// The number of the repository of this ID.
fn number_of(names: &[Text], id: &Text) -> Option<usize>
    ensures value { result ≡ position (λ name. eq_by_cmp text_cmp name id.now) names.now }
    ensures none { IfNone result (Contains names.now id.now → ⊥) }
{
    names.iter().position(|name| *name == *id)
}

/// Want of memory, before any entry is made.
fn no_memory() -> Answered
    ensures { IsLack result }
{
    Answered {
        repo: 0,
        outcome: Outcome::NoMemory,
        text: Written::Short(Short::OutOfMemory),
    }
}

/// The answer to a request that is no call.
fn refuse(alloc: Global, head: &Head, fault: &ApiFault) -> Answered
    ensures { IsAnswered head.now (refusal fault.now) Outcome.FormRefused result }
{
    match refusal_text(alloc, head, fault) {
        Ok(text) => Answered {
            repo: 0,
            outcome: Outcome::FormRefused,
            text: Written::Whole(text),
        },
        Err(_) => no_memory(),
    }
}

/// The answer to a call without entries.
fn answer_plain(alloc: Global, head: &Head, call: &Call, names: &[Text]) -> Answered
    requires { Fits call.now replies.Done }
    ensures { IsAnswered head.now (response call.now names.now replies.Done) Outcome.Answered result }
{
    match reply_text(alloc, head, call, names, &Reply::Done) {
        Ok(text) => Answered {
            repo: 0,
            outcome: Outcome::Answered,
            text: Written::Whole(text),
        },
        Err(_) => no_memory(),
    }
}

/// The answer to a call on the repository of this ID: its entries are made, and then the reply to the
/// last one is answered.
fn answer_on<T: Store, G: Gate>(
    alloc: Global,
    store: &T,
    pass: &mut T::Pass,
    head: &Head,
    call: &Call,
    id: &Text,
    op: &Op,
    gate: &G,
    mark: GateMark,
    marks: &mut Vec<Mark>,
) -> Answered
    requires serves { T.serves store.now pass.old }
    requires on { (form : Form) × (call.now ≡ On id.now op.now form) }
    requires there { Contains (T.names store.now) id.now }
    requires call { IsCallable op.now }
    requires room { vec_len marks.old + 256 ≤ vec_capacity marks.old }
    ensures pass { T.serves store.now pass.new × (T.seats pass.new ≡ T.seats pass.old) }
    ensures answer { (r : SeenRequest) → r.head ≡ head.now → IsCallOf r (T.names store.now) (Ok call.now)
        → AnswersBy (ground (T.names store.now) (T.limits store.now) (T.journals pass.new) (T.seats pass.old)) (T.journals pass.old) r marks.old.items marks.new.items result }
    ensures few { vec_len marks.new ≤ vec_len marks.old + 256 }
{
    last_reply_fits();
    let names = store.names_of();
    match number_of(names, id) {
        None => unreachable!(),
        Some(number) => {
            let repo = number as u32;
            let entered = enter(store, pass, repo, alloc, op, marks);
            gate.enter(mark);
            let (outcome, text) = finish(alloc, head, call, op, names, entered);
            Answered {
                repo,
                outcome,
                text,
            }
        }
    }
}

/// Answers a request: its call is read, its entries are made, and its response is computed.
pub(crate) fn answer_request<T: Store, G: Gate>(
    alloc: Global,
    store: &T,
    pass: &mut T::Pass,
    request: &Request,
    gate: &G,
    mark: GateMark,
    marks: &mut Vec<Mark>,
) -> Answered
    requires serves { T.serves store.now pass.old }
    requires room { vec_len marks.old + 256 ≤ vec_capacity marks.old }
    ensures pass { T.serves store.now pass.new × (T.seats pass.new ≡ T.seats pass.old) }
    ensures answer { AnswersBy (ground (T.names store.now) (T.limits store.now) (T.journals pass.new) (T.seats pass.old)) (T.journals pass.old) request.now
        marks.old.items marks.new.items result }
    ensures few { vec_len marks.new ≤ vec_len marks.old + 256 }
{
    calls_are_on_repositories();
    calls_are_callable();
    let head = &request.head;
    let names = store.names_of();
    match read_call(alloc, request, names) {
        Err(fault) => match &fault {
            ApiFault::Memory => no_memory(),
            _ => refuse(alloc, head, &fault),
        },
        Ok(call) => match &call {
            Call::Protocol => answer_plain(alloc, head, &call, names),
            Call::Repositories(_) => answer_plain(alloc, head, &call, names),
            Call::On { repo, op, form: _ } => {
                answer_on(alloc, store, pass, head, &call, repo, op, gate, mark, marks)
            }
        },
    }
}
