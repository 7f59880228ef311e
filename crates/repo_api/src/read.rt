//! The call that a request is, resource by resource.
ghost use Rattle.std.specs.Prelude.{◌≡◌, not, [], codes};
ghost use Rattle.api_calls.specs.declared.fault.ApiFault.TheVariants as faults;
ghost use Rattle.api_calls.specs.declared.fault.Allow.TheVariants as allow;
ghost use Rattle.repo_api.specs.Calls.{AsksPart, ActsByParameters, Acts, AsksTransaction, Uncoded, IsTransaction, OnlyGot, CallsFor, IsCallOf, Asks};
ghost use Rattle.repo_api.specs.Checks.{Gives, Passes, Is};
ghost use Rattle.repo_api.specs.Content.{is_coded};
ghost use Rattle.repo_api.specs.Resources.{is_text, method_of};
ghost use Rattle.repo_api.specs.Tasks.{task_at};
ghost use Rattle.repo_api.specs.declared.resource.Resource.TheVariants as resources;
ghost use Rattle.repo_api.specs.declared.task.Task.TheVariants as tasks;

use crate::accept::form_among;
use crate::asks::asks;
use crate::content::is_coded;
use crate::method::{Method, is_text, method_of};
use crate::parameters::{target_parameters, task_of_actions};
use crate::resource::{Part, Resource, is_there, resource_of};
use crate::task::{Task, Writing};
use crate::{Allow, ApiFault, Call};
use api_paths::read_transaction_name;
use http_frame::Request;
use journal::{Op, Txn};
use media::{Form, TABLE_FORMS};
use rdf_term::Text;
use std::alloc::Global;

/// Whether no body is coded.
fn is_uncoded(request: &Request) -> Result<(), ApiFault>
    ensures { Gives (Passes faults.Media (not (is_coded request.now.head.fields))) result }
{
    if is_coded(&request.head.fields) {
        Err(ApiFault::Media)
    } else {
        Ok(())
    }
}

/// What a task asks of a request whose body is not coded.
fn asks_uncoded(alloc: Global, request: &Request, task: Task) -> Result<(Op, Form), ApiFault>
    ensures { Gives (Uncoded request.now (Asks request.now task)) result }
{
    is_uncoded(request)?;
    asks(alloc, request, task)
}

/// What a method asks of a part of a repository, which has no other methods.
fn task_at(part: Part, method: Option<Method>) -> Result<Task, ApiFault>
    ensures { result ≡ task_at part method }
{
    match part {
        Part::Queries => match method {
            Some(Method::Get) | Some(Method::Post) => Ok(Task::Query(None)),
            _ => Err(ApiFault::Method(Allow::GetPost)),
        },
        Part::Statements => match method {
            Some(Method::Get) => Ok(Task::List(None)),
            Some(Method::Post) => Ok(Task::Write(None, Writing::Adds)),
            Some(Method::Put) => Ok(Task::Write(None, Writing::Replaces)),
            Some(Method::Delete) => Ok(Task::Remove),
            None => Err(ApiFault::Method(Allow::GetPostPutDelete)),
        },
        Part::Contexts => match method {
            Some(Method::Get) => Ok(Task::Contexts),
            _ => Err(ApiFault::Method(Allow::Get)),
        },
        Part::Size => match method {
            Some(Method::Get) => Ok(Task::Size(None)),
            _ => Err(ApiFault::Method(Allow::Get)),
        },
        Part::Namespaces => match method {
            Some(Method::Get) => Ok(Task::ListNames),
            Some(Method::Delete) => Ok(Task::ClearNames),
            _ => Err(ApiFault::Method(Allow::GetDelete)),
        },
        Part::Namespace(prefix) => match method {
            Some(Method::Get) => Ok(Task::GetName(prefix)),
            Some(Method::Put) => Ok(Task::PutName(prefix)),
            Some(Method::Delete) => Ok(Task::RemoveName(prefix)),
            _ => Err(ApiFault::Method(Allow::GetPutDelete)),
        },
        Part::Transactions => match method {
            Some(Method::Post) => Ok(Task::Begin),
            _ => Err(ApiFault::Method(Allow::Post)),
        },
    }
}

/// What a request asks of a part of a repository.
fn asks_part(alloc: Global, request: &Request, part: Part) -> Result<(Op, Form), ApiFault>
    ensures { Gives (AsksPart request.now part) result }
{
    let task = task_at(part, method_of(&request.head.method))?;
    asks_uncoded(alloc, request, task)
}

/// What an action asks in a transaction, by the parameters of the target.
fn acts_by_parameters(alloc: Global, request: &Request, txn: Txn) -> Result<(Op, Form), ApiFault>
    ensures { Gives (ActsByParameters request.now txn) result }
{
    let parameters = target_parameters(alloc, request)?;
    let task = task_of_actions(alloc, txn, &parameters)?;
    asks(alloc, request, task)
}

/// What an action asks in a transaction.
fn acts(alloc: Global, request: &Request, txn: Txn) -> Result<(Op, Form), ApiFault>
    ensures { Gives (Acts request.now txn) result }
{
    is_uncoded(request)?;
    acts_by_parameters(alloc, request, txn)
}

/// What a request asks of a transaction.
fn asks_transaction(
    alloc: Global,
    request: &Request,
    txn: Txn,
    method: Option<Method>,
) -> Result<(Op, Form), ApiFault>
    ensures { Gives (AsksTransaction request.now txn method) result }
{
    match method {
        Some(Method::Put) | Some(Method::Post) => acts(alloc, request, txn),
        Some(Method::Delete) => asks_uncoded(alloc, request, Task::Rollback(txn)),
        _ => Err(ApiFault::Method(Allow::PostPutDelete)),
    }
}

/// The transaction of a name.
fn transaction(name: &Text) -> Result<Txn, ApiFault>
    ensures { Gives (IsTransaction name.now) result }
{
    match read_transaction_name(name) {
        Some(txn) => Ok(txn),
        None => Err(ApiFault::BadName),
    }
}

/// Whether a resource that has GET alone is got.
fn is_got(request: &Request) -> Result<(), ApiFault>
    ensures { Gives (Passes (faults.Method allow.Get) (is_text request.now.head.method (codes "GET"))) result }
{
    if is_text(&request.head.method, b"GET") {
        Ok(())
    } else {
        Err(ApiFault::Method(Allow::Get))
    }
}

/// The version of the protocol.
fn protocol(request: &Request) -> Result<Call, ApiFault>
    ensures { Gives (CallsFor request.now [] resources.Protocol) result }
{
    is_got(request)?;
    is_uncoded(request)?;
    Ok(Call::Protocol)
}

/// The list of the repositories.
fn repositories(alloc: Global, request: &Request) -> Result<Call, ApiFault>
    ensures { Gives (CallsFor request.now [] resources.Repositories) result }
{
    is_got(request)?;
    is_uncoded(request)?;
    let form = form_among(alloc, &request.head.fields, &TABLE_FORMS)?;
    Ok(Call::Repositories(form))
}

/// A call on a part of a repository.
fn on_part(
    alloc: Global,
    request: &Request,
    repos: &[Text],
    id: Text,
    part: Part,
) -> Result<Call, ApiFault>
    ensures { Gives (CallsFor request.now repos.now (resources.Of id part)) result }
{
    is_there(repos, &id)?;
    let (op, form) = asks_part(alloc, request, part)?;
    Ok(Call::On { repo: id, op, form })
}

/// A call on a transaction of a repository.
fn on_transaction(
    alloc: Global,
    request: &Request,
    repos: &[Text],
    id: Text,
    name: &Text,
) -> Result<Call, ApiFault>
    ensures { Gives (CallsFor request.now repos.now (resources.Transaction id name.now)) result }
{
    is_there(repos, &id)?;
    let txn = transaction(name)?;
    let method = method_of(&request.head.method);
    let (op, form) = asks_transaction(alloc, request, txn, method)?;
    Ok(Call::On { repo: id, op, form })
}

/// The call of a request for a resource.
fn calls_for(
    alloc: Global,
    request: &Request,
    repos: &[Text],
    resource: Resource,
) -> Result<Call, ApiFault>
    ensures { Gives (CallsFor request.now repos.now resource) result }
{
    match resource {
        Resource::Protocol => protocol(request),
        Resource::Repositories => repositories(alloc, request),
        Resource::Of(id, part) => on_part(alloc, request, repos, id, part),
        Resource::Transaction(id, name) => on_transaction(alloc, request, repos, id, &name),
    }
}

/// The call that a request is, where these are the repositories, or its first refusal: 404 by the path,
/// 405, 415 by Content-Encoding, 400 by `action`, 415 by Content-Type, 400 by the other parameters, 400
/// by the query or the document, 406. `Memory` is answered where none is found, in the place of any.
pub fn read_call(alloc: Global, request: &Request, repos: &[Text]) -> Result<Call, ApiFault>
    ensures { Gives (IsCallOf request.now repos.now) result }
{
    let resource = resource_of(alloc, request.head.target.as_str().as_bytes())?;
    calls_for(alloc, request, repos, resource)
}
