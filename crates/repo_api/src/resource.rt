//! The resources of the interface, by their paths.
ghost use Rattle.std.specs.Prelude.{◌≡◌, IfOk};
ghost use Rattle.repo_api.specs.Checks.{Gives};
ghost use Rattle.repo_api.specs.Paths.{part_named, of_part, nested, in_repository, in_server, top, below, resource_at};
ghost use Rattle.repo_api.specs.Resources.{IsResource, IsThere};

use crate::ApiFault;
use crate::method::is_text;
use api_parts::path_of;
use api_paths::{origin_form, segments};
use rdf_term::{Duplicate, Memory, Text};
use std::alloc::Global;

/// A part of a repository.
#[derive(Debug, Drop)]
pub enum Part {
    /// The repository itself, which answers queries.
    Queries,
    Statements,
    Contexts,
    Size,
    Namespaces,
    /// The namespace of a prefix.
    Namespace(Text),
    Transactions,
}

/// What a path names.
#[derive(Debug, Drop)]
pub enum Resource {
    /// The version of the protocol.
    Protocol,
    /// The list of the repositories.
    Repositories,
    /// A part of the repository of this ID.
    Of(Text, Part),
    /// The transaction of this name in the repository of this ID.
    Transaction(Text, Text),
}

/// The part of a repository that has this name.
fn part_named(name: &Text) -> Option<Part>
    ensures { result ≡ part_named name.now }
{
    if is_text(name, b"statements") {
        return Some(Part::Statements);
    }
    if is_text(name, b"contexts") {
        return Some(Part::Contexts);
    }
    if is_text(name, b"size") {
        return Some(Part::Size);
    }
    if is_text(name, b"namespaces") {
        return Some(Part::Namespaces);
    }
    if is_text(name, b"transactions") {
        return Some(Part::Transactions);
    }
    None
}

/// The part with a name of its own.
fn plain(alloc: Global, id: &Text, name: &Text) -> Result<Option<Resource>, Memory>
    ensures { IfOk result (λ it. it ≡ of_part id.now (part_named name.now)) }
{
    match part_named(name) {
        None => Ok(None),
        Some(part) => Ok(Some(Resource::Of(id.copy(alloc)?, part))),
    }
}

/// What two segments behind a repository's ID name.
fn nested(alloc: Global, id: &Text, name: &Text, inner: &Text) -> Result<Option<Resource>, Memory>
    ensures { IfOk result (λ it. it ≡ nested id.now name.now inner.now) }
{
    if is_text(name, b"namespaces") {
        let part = Part::Namespace(inner.copy(alloc)?);
        return Ok(Some(Resource::Of(id.copy(alloc)?, part)));
    }
    if is_text(name, b"transactions") {
        let name = inner.copy(alloc)?;
        return Ok(Some(Resource::Transaction(id.copy(alloc)?, name)));
    }
    Ok(None)
}

/// What the segments behind a repository's ID name.
fn in_repository(alloc: Global, id: &Text, rest: &[Text]) -> Result<Option<Resource>, Memory>
    ensures { IfOk result (λ it. it ≡ in_repository id.now rest.now) }
{
    match rest {
        [] => Ok(Some(Resource::Of(id.copy(alloc)?, Part::Queries))),
        [name] => plain(alloc, id, name),
        [name, inner] => nested(alloc, id, name, inner),
        _ => Ok(None),
    }
}

/// What the segments behind the server's name.
fn in_server(alloc: Global, rest: &[Text]) -> Result<Option<Resource>, Memory>
    ensures { IfOk result (λ it. it ≡ in_server rest.now) }
{
    match rest {
        [] => Ok(None),
        [name] => Ok(top(name)),
        [name, id, rest @ ..] => if is_text(name, b"repositories") {
            in_repository(alloc, id, rest)
        } else {
            Ok(None)
        },
    }
}

/// What one segment behind the server's names.
fn top(name: &Text) -> Option<Resource>
    ensures { result ≡ top name.now }
{
    if is_text(name, b"protocol") {
        return Some(Resource::Protocol);
    }
    if is_text(name, b"repositories") {
        return Some(Resource::Repositories);
    }
    None
}

/// What the segments behind these two name.
fn below(
    alloc: Global,
    front: &Text,
    server: &Text,
    rest: &[Text],
) -> Result<Option<Resource>, Memory>
    ensures { IfOk result (λ it. it ≡ below front.now server.now rest.now) }
{
    if !is_text(front, b"") {
        return Ok(None);
    }
    if !is_text(server, b"rdf4j-server") {
        return Ok(None);
    }
    in_server(alloc, rest)
}

/// What the segments of a path name. The one in front of the first slash is empty.
fn resource_at(alloc: Global, segments: &[Text]) -> Result<Option<Resource>, Memory>
    ensures { IfOk result (λ it. it ≡ resource_at segments.now) }
{
    match segments {
        [front, server, rest @ ..] => below(alloc, front, server, rest),
        _ => Ok(None),
    }
}

/// The resource that a target names.
pub fn resource_of(alloc: Global, target: &[u8]) -> Result<Resource, ApiFault>
    ensures { Gives (IsResource target.now) result }
{
    let Some(segments) = segments(alloc, path_of(origin_form(target)))? else {
        return Err(ApiFault::NoResource);
    };
    match resource_at(alloc, segments.as_slice())? {
        Some(resource) => Ok(resource),
        None => Err(ApiFault::NoResource),
    }
}

/// Whether a repository is one of these.
pub fn is_there(repos: &[Text], id: &Text) -> Result<(), ApiFault>
    ensures { Gives (IsThere repos.now id.now) result }
{
    if repos.iter().any(|repo| *id == *repo) {
        Ok(())
    } else {
        Err(ApiFault::NoRepository)
    }
}
