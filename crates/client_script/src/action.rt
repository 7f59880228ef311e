//! What is done at a line of a script, and which transaction is the current one.
ghost use Rattle.std.specs.Prelude.{◌≡◌, [], None, IfOk};
ghost use Rattle.journal.specs.declared.ask.Ask.TheVariants as asks;
ghost use Rattle.journal.specs.declared.op.NamesOp.TheVariants as names;
ghost use Rattle.journal.specs.declared.op.Op.TheVariants as ops;
ghost use Rattle.client_script.specs.Actions.{begins, form_of, sent_or_refused, reads, removal, send, txn_after, writes};

use api_calls::Call;
use change_set::{Change, Changes};
use journal::{Ask, Graphs, NamesOp, Op, Reply, Txn};
use media::Form;
use query_text::Query;
use rdf_term::{Duplicate, GraphPick, Memory, Pattern, Quad, Text};
use std::alloc::Global;

/// What is done at a line of a script.
#[derive(Debug, Drop)]
pub enum Action {
    /// Nothing is sent, and the script goes on.
    Skip,
    /// The call is sent.
    Send(Call),
    /// The script ends.
    End,
    /// The line may not stand here.
    Refuse,
}

/// The form in which the answer of a query is asked for.
fn form_of(query: &Query) -> Form
    ensures { result ≡ form_of query.now }
{
    match query {
        Query::Select { .. } => Form::ResultsJson,
        Query::Ask { .. } => Form::ResultsJson,
        Query::Construct { .. } => Form::NQuads,
    }
}

/// The change that removes a quad.
pub fn removal(alloc: Global, txn: Option<Txn>, quad: Quad) -> Result<Change, Memory>
    ensures { IfOk result (λ it. it ≡ removal txn quad) }
{
    match txn {
        Some(_) => Ok(Change::Remove(quad)),
        None => Ok(Change::RemoveMatching(Pattern {
            s: Some(quad.s().copy(alloc)?),
            p: Some(quad.p().copy(alloc)?),
            o: Some(quad.o().copy(alloc)?),
            c: GraphPick::One(quad.c().copy(alloc)?),
        })),
    }
}

/// Every quad of every graph.
pub fn everything(alloc: Global) -> Ask
    ensures { result ≡ asks.List None None None [] }
{
    Ask::List {
        s: None,
        p: None,
        o: None,
        contexts: Graphs::new(alloc),
    }
}

/// The number of the quads of every graph.
pub fn all_sizes(alloc: Global) -> Ask
    ensures { result ≡ asks.Size [] }
{
    Ask::Size {
        contexts: Graphs::new(alloc),
    }
}

/// A call on the repository.
pub fn send(alloc: Global, repo: &Text, op: Op, form: Form) -> Result<Action, Memory>
    ensures { IfOk result (λ it. it ≡ send repo.now op form) }
{
    Ok(Action::Send(Call::On {
        repo: repo.copy(alloc)?,
        op,
        form,
    }))
}

/// A read.
pub fn reads(
    alloc: Global,
    repo: &Text,
    txn: Option<Txn>,
    ask: Ask,
    form: Form,
) -> Result<Action, Memory>
    ensures { IfOk result (λ it. it ≡ reads repo.now txn ask form) }
{
    send(alloc, repo, Op::Read { txn, ask }, form)
}

/// A write of one change.
pub fn writes(alloc: Global, repo: &Text, txn: Option<Txn>, one: Change) -> Result<Action, Memory>
    ensures { IfOk result (λ it. it ≡ writes repo.now txn one) }
{
    let mut changes = Changes::new(alloc);
    changes.push(one)?;
    send(alloc, repo, Op::Write { txn, changes }, Form::PlainText)
}

/// A query.
pub fn asks(alloc: Global, repo: &Text, txn: Option<Txn>, query: Query) -> Result<Action, Memory>
    ensures { IfOk result (λ it. it ≡ reads repo.now txn (asks.Query query) (form_of query)) }
{
    let form = form_of(&query);
    reads(alloc, repo, txn, Ask::Query(query), form)
}

/// What is asked of the namespaces or done to them.
pub fn names(alloc: Global, repo: &Text, op: NamesOp, form: Form) -> Result<Action, Memory>
    ensures { IfOk result (λ it. it ≡ send repo.now (ops.Names op) form) }
{
    send(alloc, repo, Op::Names(op), form)
}

/// A prefix is to stand for a name.
pub fn puts(alloc: Global, repo: &Text, prefix: Text, name: Text) -> Result<Action, Memory>
    ensures { IfOk result (λ it. it ≡ send repo.now (ops.Names (names.Put prefix name)) Form.PlainText) }
{
    names(alloc, repo, NamesOp::Put(prefix, name), Form::PlainText)
}

/// The begin of a transaction, where none is the current one.
pub fn begins(alloc: Global, repo: &Text, op: Op, txn: Option<Txn>) -> Result<Action, Memory>
    ensures { IfOk result (λ it. it ≡ begins repo.now op txn) }
{
    match txn {
        Some(_) => Ok(Action::Refuse),
        None => send(alloc, repo, op, Form::PlainText),
    }
}

/// The op on the current transaction, where there is one.
pub fn in_txn(alloc: Global, repo: &Text, op: Option<Op>) -> Result<Action, Memory>
    ensures { IfOk result (λ it. it ≡ sent_or_refused repo.now op) }
{
    match op {
        Some(op) => send(alloc, repo, op, Form::PlainText),
        None => Ok(Action::Refuse),
    }
}

/// The current transaction after the reply to an op: the one that was begun, until a commit or a
/// rollback of it is done. A commit that is refused leaves it.
pub fn txn_after(txn: Option<Txn>, op: &Op, reply: &Reply) -> Option<Txn>
    ensures { result ≡ txn_after txn op.now reply.now }
{
    match (op, reply) {
        (Op::Begin(_), Reply::Begun(begun)) => Some(*begun),
        (Op::Commit(_), Reply::Done) => None,
        (Op::Rollback(_), Reply::Done) => None,
        _ => txn,
    }
}
