//! The op that each task asks, with the form of its reply, or the first refusal of its checks.
ghost use Rattle.std.specs.Prelude.{◌≡◌, All, IfOk};
ghost use Rattle.rdf_term.specs.Terms.{IsGraph};
ghost use Rattle.repo_api.specs.Calls.{GetsAmong, changes_of, Queries, Writes, Asks};
ghost use Rattle.repo_api.specs.Checks.{Gives};
ghost use Rattle.repo_api.specs.Parameters.{all_parameters};
ghost use Rattle.repo_api.specs.declared.task.Task.TheVariants as tasks;

use crate::ApiFault;
use crate::accept::form_among;
use crate::content::{content, kind_of, namespace_of, type_of};
use crate::parameters::{
    all_parameters, in_contexts, level_in, prefixed, selected, target_parameters,
};
use crate::query::{forms_of, is_asked, query_in};
use crate::task::{Task, Writing};
use api_parts::{Graphs, Selection, additions, deletions, removals, replacements};
use change_set::Changes;
use http_frame::Request;
use journal::{Ask, NamesOp, Op, Txn};
use media::{Form, QUAD_FORMS, TABLE_FORMS};
use rdf_term::{Memory, Quads, Text};
use std::alloc::Global;

/// An op with the form that is chosen among these.
fn gets_among(
    alloc: Global,
    request: &Request,
    offers: &[Form],
    op: Op,
) -> Result<(Op, Form), ApiFault>
    ensures { Gives (GetsAmong request.now offers.now op) result }
{
    let form = form_among(alloc, &request.head.fields, offers)?;
    Ok((op, form))
}

fn query_with_parameters(
    alloc: Global,
    request: &Request,
    txn: Option<Txn>,
) -> Result<(Op, Form), ApiFault>
    ensures { Gives (Queries request.now txn (all_parameters request.now)) result }
{
    let parameters = all_parameters(alloc, request)?;
    let query = query_in(alloc, request, &parameters)?;
    let offers = forms_of(&query);
    let ask = Ask::Query(query);
    gets_among(alloc, request, offers, Op::Read { txn, ask })
}

/// The answer of a query.
fn queries(alloc: Global, request: &Request, txn: Option<Txn>) -> Result<(Op, Form), ApiFault>
    ensures { Gives (Asks request.now (tasks.Query txn)) result }
{
    is_asked(request)?;
    query_with_parameters(alloc, request, txn)
}

/// The quads that are selected.
fn lists(alloc: Global, request: &Request, txn: Option<Txn>) -> Result<(Op, Form), ApiFault>
    ensures { Gives (Asks request.now (tasks.List txn)) result }
{
    let parameters = target_parameters(alloc, request)?;
    let Selection { s, p, o, contexts } = selected(alloc, &parameters)?;
    let ask = Ask::List { s, p, o, contexts };
    gets_among(alloc, request, &QUAD_FORMS, Op::Read { txn, ask })
}

/// The number of quads.
fn sizes(alloc: Global, request: &Request, txn: Option<Txn>) -> Result<(Op, Form), ApiFault>
    ensures { Gives (Asks request.now (tasks.Size txn)) result }
{
    let parameters = target_parameters(alloc, request)?;
    let contexts = in_contexts(alloc, &parameters)?;
    let ask = Ask::Size { contexts };
    Ok((Op::Read { txn, ask }, Form::PlainText))
}

/// The changes of a write.
fn changes_of(
    alloc: Global,
    writing: Writing,
    contexts: &Graphs,
    quads: Quads,
) -> Result<Changes, Memory>
    requires { All IsGraph contexts.now }
    ensures { IfOk result (λ it. it ≡ changes_of writing contexts.now quads) }
{
    match writing {
        Writing::Adds => additions(alloc, contexts, quads),
        Writing::Replaces => replacements(alloc, contexts, quads),
        Writing::Removes => deletions(alloc, contexts, quads),
    }
}

/// The write of a document.
fn writes(
    alloc: Global,
    request: &Request,
    txn: Option<Txn>,
    writing: Writing,
) -> Result<(Op, Form), ApiFault>
    ensures { Gives (Asks request.now (tasks.Write txn writing)) result }
{
    let kind = kind_of(type_of(&request.head.fields))?;
    let parameters = target_parameters(alloc, request)?;
    let contexts = in_contexts(alloc, &parameters)?;
    let quads = content(alloc, kind, request.body.as_slice())?;
    let changes = changes_of(alloc, writing, &contexts, quads)?;
    Ok((Op::Write { txn, changes }, Form::PlainText))
}

/// To remove what is selected.
fn removes(alloc: Global, request: &Request) -> Result<(Op, Form), ApiFault>
    ensures { Gives (Asks request.now tasks.Remove) result }
{
    let parameters = target_parameters(alloc, request)?;
    let selection = selected(alloc, &parameters)?;
    let changes = removals(alloc, &selection)?;
    Ok((Op::Write { txn: None, changes }, Form::PlainText))
}

/// The namespace of a prefix.
fn gets_name(alloc: Global, request: &Request, prefix: Text) -> Result<(Op, Form), ApiFault>
    ensures { Gives (Asks request.now (tasks.GetName prefix)) result }
{
    prefixed(alloc, &prefix)?;
    Ok((Op::Names(NamesOp::Get(prefix)), Form::PlainText))
}

/// To set the namespace of a prefix.
fn puts_name(alloc: Global, request: &Request, prefix: Text) -> Result<(Op, Form), ApiFault>
    ensures { Gives (Asks request.now (tasks.PutName prefix)) result }
{
    prefixed(alloc, &prefix)?;
    let name = namespace_of(alloc, request.body.as_slice())?;
    Ok((Op::Names(NamesOp::Put(prefix, name)), Form::PlainText))
}

/// To remove the namespace of a prefix.
fn removes_name(alloc: Global, request: &Request, prefix: Text) -> Result<(Op, Form), ApiFault>
    ensures { Gives (Asks request.now (tasks.RemoveName prefix)) result }
{
    prefixed(alloc, &prefix)?;
    Ok((Op::Names(NamesOp::Remove(prefix)), Form::PlainText))
}

/// To begin a transaction.
fn begins(alloc: Global, request: &Request) -> Result<(Op, Form), ApiFault>
    ensures { Gives (Asks request.now tasks.Begin) result }
{
    let parameters = all_parameters(alloc, request)?;
    let level = level_in(alloc, &parameters)?;
    Ok((Op::Begin(level), Form::PlainText))
}

/// The op of a task with the form of its reply, or the first refusal of the checks of that task.
pub fn asks(alloc: Global, request: &Request, task: Task) -> Result<(Op, Form), ApiFault>
    ensures { Gives (Asks request.now task) result }
{
    match task {
        Task::Query(txn) => queries(alloc, request, txn),
        Task::List(txn) => lists(alloc, request, txn),
        Task::Size(txn) => sizes(alloc, request, txn),
        Task::Contexts => {
            let op = Op::Read {
                txn: None,
                ask: Ask::Contexts,
            };
            gets_among(alloc, request, &TABLE_FORMS, op)
        }
        Task::Write(txn, writing) => writes(alloc, request, txn, writing),
        Task::Remove => removes(alloc, request),
        Task::ListNames => gets_among(alloc, request, &TABLE_FORMS, Op::Names(NamesOp::List)),
        Task::ClearNames => Ok((Op::Names(NamesOp::Clear), Form::PlainText)),
        Task::GetName(prefix) => gets_name(alloc, request, prefix),
        Task::PutName(prefix) => puts_name(alloc, request, prefix),
        Task::RemoveName(prefix) => removes_name(alloc, request, prefix),
        Task::Begin => begins(alloc, request),
        Task::Commit(txn) => Ok((Op::Commit(txn), Form::PlainText)),
        Task::Rollback(txn) => Ok((Op::Rollback(txn), Form::PlainText)),
        Task::Ping(txn) => Ok((Op::Ping(txn), Form::PlainText)),
    }
}
