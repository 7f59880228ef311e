//! The answers of a repository with several seats to entries that are plain data.
ghost use Rattle.iso_txn.specs.Repository.{AreAllowed};

use crate::acts::{Act, Naming, names_op};
use crate::asks::ask;
use crate::quads::{Edit, changes};
use crate::replies::{Answer, answer_of};
use iso_txn::RepoState;
use journal::{Limits, Reply, StoreFault, Txn};
use quad_index::Order;
use repo_store::answer;
use std::alloc::Global;

/// A repository without entries.
pub(crate) fn repository(alloc: Global, limits: Limits) -> Result<RepoState, StoreFault>
    requires { AreAllowed limits }
{
    let orders = Order::standard(alloc)?;
    Ok(RepoState::new(alloc, &orders, limits)?)
}

fn read(
    alloc: Global,
    repo: &mut RepoState,
    seat: u32,
    txn: Option<Txn>,
    number: usize,
) -> Result<Reply, StoreFault> {
    let ask = ask(alloc, number)?;
    let pinned = repo.pin_read(seat, txn, &ask)?;
    Ok(answer(alloc, &pinned, &ask)?)
}

fn written(
    alloc: Global,
    repo: &mut RepoState,
    seat: u32,
    txn: Option<Txn>,
    edits: &[Edit],
) -> Result<Reply, StoreFault> {
    let changes = changes(alloc, edits)?;
    repo.write(seat, txn, &changes)
}

fn renamed(
    alloc: Global,
    repo: &mut RepoState,
    seat: u32,
    naming: Naming,
) -> Result<Reply, StoreFault> {
    let op = names_op(alloc, naming)?;
    repo.names(seat, &op)
}

/// The reply of a repository to an entry of a seat. No seat makes Steps here.
fn reply(alloc: Global, repo: &mut RepoState, seat: u32, act: Act) -> Result<Reply, StoreFault> {
    match act {
        Act::Begin(level) => repo.begin(seat, level),
        Act::Read(txn, number) => read(alloc, repo, seat, txn, number),
        Act::Steps(txn, number) => read(alloc, repo, seat, Some(txn), number),
        Act::Write(txn, edits) => written(alloc, repo, seat, txn, edits),
        Act::Commit(txn) => repo.commit(seat, txn),
        Act::Rollback(txn) => Ok(repo.rollback(seat, txn)?),
        Act::Ping(txn) => Ok(repo.ping(seat, txn)?),
        Act::Names(naming) => renamed(alloc, repo, seat, naming),
    }
}

/// The answer of a repository to an entry of a seat.
pub(crate) fn entered(
    alloc: Global,
    repo: &mut RepoState,
    seat: u32,
    act: Act,
) -> Result<Answer, StoreFault> {
    let reply = reply(alloc, repo, seat, act)?;
    Ok(answer_of(&reply))
}
