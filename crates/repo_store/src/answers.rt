ghost use Rattle.std.specs.Prelude.{◌≡◌, ◌↔◌, false, map, IfOk};
ghost use Rattle.branch.specs.Layers.{Layered};
ghost use Rattle.journal.specs.Found.{answer_of, found};
ghost use Rattle.query_model.specs.Found.{found as found_query};
ghost use Rattle.repo_store.specs.Stores.{HasTooManyRows, answered};

use crate::listing::listed;
use crate::names::graph_names;
use crate::size::sized;
use bgp_eval::{EvalFault, answer_query};
use branch::View;
use iso_txn::Pinned;
use journal::{Ask, Reply, Terms};
use query_model::{Found, Query};
use rdf_term::{Memory, Quads};
use std::alloc::Global;

/// What a query finds as a reply; one with too many solutions finds nothing.
fn queried(alloc: Global, query: &Query, views: &[View], most: u64) -> Result<Reply, Memory>
    ensures { IfOk result (λ reply. reply ≡ answer_of (found_query query.now (map (λ (view : Layered). view.quads) views.now) most)) }
{
    match answer_query(alloc, query, views, most) {
        Ok(Found::Table(table)) => Ok(Reply::Table(table)),
        Ok(Found::Truth(truth)) => Ok(Reply::Truth(truth)),
        Ok(Found::Quads(quads)) => Ok(Reply::Quads(quads)),
        Err(EvalFault::TooManyRows) => Ok(Reply::TooManyRows),
        Err(EvalFault::Memory) => Err(Memory),
    }
}

/// What an ask finds in the content of its first view, or a query in one for each of its patterns.
/// Where there is no view, nothing is found in it.
#[tactic(auto, unfolding(journal::specs::Found::found))]
pub(crate) fn found_in(alloc: Global, ask: &Ask, views: &[View], most: u64) -> Result<Reply, Memory>
    ensures { IfOk result (λ reply. reply ≡ found ask.now (map (λ (view : Layered). view.quads) views.now) most) }
{
    match (ask, views.first()) {
        (Ask::Query(query), _) => queried(alloc, query, views, most),
        (Ask::List { s, p, o, contexts }, Some(view)) => {
            Ok(Reply::Quads(listed(alloc, s, p, o, contexts, view)?))
        }
        (Ask::List { .. }, None) => Ok(Reply::Quads(Quads::new(alloc))),
        (Ask::Size { contexts }, Some(view)) => Ok(Reply::Count(sized(alloc, contexts, view)?)),
        (Ask::Size { .. }, None) => Ok(Reply::Count(0)),
        (Ask::Contexts, Some(view)) => Ok(Reply::Contexts(graph_names(alloc, view)?)),
        (Ask::Contexts, None) => Ok(Reply::Contexts(Terms::new(alloc))),
    }
}

/// The reply to an ask over what was pinned of it: what it finds there, with at most so many rows as
/// its repository allows, or `NoTransaction` exactly where it isn't live. It takes neither a store nor
/// a lock.
#[tactic(auto, unfolding(crate::specs::Stores::answered))]
pub fn answer(alloc: Global, pinned: &Pinned, ask: &Ask) -> Result<Reply, Memory>
    ensures reply { IfOk result (λ reply. reply ≡ answered pinned.now ask.now) }
    ensures too_many { IfOk result (λ reply. (reply ≡ Reply.TooManyRows) ↔ HasTooManyRows pinned.now ask.now) }
    ensures gone { IfOk result (λ reply. (reply ≡ Reply.NoTransaction) ↔ (pinned.now.live ≡ false)) }
{
    if !pinned.live() {
        return Ok(Reply::NoTransaction);
    }
    let seen = pinned.views();
    let most = pinned.rows();
    let reply = found_in(alloc, ask, seen, most)?;
    Ok(reply)
}
