//! The bodies of requests, and the statements that changes hold.
ghost use Rattle.std.specs.Prelude.{◌≡◌, ◌++◌, ◌∷◌, [], List, IfOk, OnOk, Some, option_to_list};
ghost use Rattle.std.specs.Option.{option_copied};
ghost use Rattle.rdf_term.specs.Statement.{Statement};
ghost use Rattle.api_requests.specs.Changes.{every, quads_in};
ghost use Rattle.api_requests.specs.Requests.{document_content, query_content, write_word};

use crate::sending::{Content, octets};
use change_set::Change;
use nquads::{Kind, write_quads};
use query_text::{Query, print_query};
use rdf_term::{Bytes, Duplicate, Memory, Quad, Quads};
use std::alloc::Global;

/// The body that is a query.
pub fn query_content(alloc: Global, query: &Query) -> Result<Content, Memory>
    ensures { IfOk result (λ it. Some it ≡ query_content query.now) }
{
    let text = print_query(alloc, query)?;
    let mut body = Bytes::new(alloc);
    body.append(text.as_str().as_bytes())?;
    Ok(Content {
        media_type: octets(alloc, b"application/sparql-query")?,
        body,
    })
}

/// A body of statements.
pub fn document_content(alloc: Global, quads: &Quads) -> Result<Content, Memory>
    ensures { IfOk result (λ it. Some it ≡ document_content quads.now) }
{
    let mut body = Bytes::new(alloc);
    write_quads(quads, Kind::Quads, &mut body)?;
    Ok(Content {
        media_type: octets(alloc, b"application/n-quads")?,
        body,
    })
}

/// The quad that a change names.
fn quad_of(change: &Change) -> Option<&Quad>
    ensures { option_to_list (option_copied result) ≡ quads_in (change.now ∷ []) }
{
    match change {
        Change::Add(quad) => Some(quad),
        Change::Remove(quad) => Some(quad),
        Change::RemoveMatching(_) => None,
    }
}

/// Adds the quad that a change names.
fn put_quad(alloc: Global, change: &Change, quads: &mut Quads) -> Result<(), Memory>
    ensures { OnOk result (quads.new ≡ quads.old ++ quads_in (change.now ∷ [])) }
{
    match quad_of(change) {
        None => Ok(()),
        Some(quad) => quads.push(quad.copy(alloc)?),
    }
}

/// The quads that changes name.
pub fn quads_in(alloc: Global, changes: &[Change]) -> Result<Quads, Memory>
    ensures { IfOk result (λ it. it ≡ quads_in changes.now) }
{
    let mut quads = Quads::new(alloc);
    let mut left = changes;
    while let Some((change, rest)) = left.split_first() {
        put_quad(alloc, change, &mut quads)?;
        left = rest;
    }
    Ok(quads)
}

/// Adds a quad, where none is to be passed over, and tells how many are to be passed over then.
#[tactic(auto, using(crate::proofs::EveryLemmas::every_taken, crate::proofs::EveryLemmas::every_skipped))]
fn put_one(
    alloc: Global,
    count: usize,
    skipped: usize,
    quad: &Quad,
    quads: &mut Quads,
) -> Result<usize, Memory>
    ensures { IfOk result (λ next. (rest : List Statement) → quads.new ++ every count next rest ≡ quads.old ++ every count skipped (quad.now ∷ rest)) }
{
    if skipped > 0 {
        return Ok(skipped - 1);
    }
    quads.push(quad.copy(alloc)?)?;
    Ok(count.saturating_sub(1))
}

/// One of each so many quads, from the first one on.
pub fn every(alloc: Global, count: usize, all: &Quads) -> Result<Quads, Memory>
    ensures { IfOk result (λ it. it ≡ every count 0 all.now) }
{
    let mut quads = Quads::new(alloc);
    let mut skipped = 0;
    let mut left = all.as_slice();
    while let Some((quad, rest)) = left.split_first() {
        skipped = put_one(alloc, count, skipped, quad, &mut quads)?;
        left = rest;
    }
    Ok(quads)
}

/// The action of a write in a transaction.
pub fn write_word(changes: &[Change]) -> &'static [u8]
    ensures { result.now ≡ write_word changes.now }
{
    match changes.first() {
        None => b"ADD",
        Some(change) => match change {
            Change::Add(_) => b"ADD",
            Change::Remove(_) => b"DELETE",
            Change::RemoveMatching(_) => b"DELETE",
        },
    }
}
