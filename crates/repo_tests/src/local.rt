//! The answers of a local repository to entries that are plain data, and its journal beside theirs.
ghost use Rattle.std.specs.Prelude.{◌≡◌, [], true};
ghost use Rattle.journal.specs.declared.level.Level.TheVariants as levels;
ghost use Rattle.iso_txn.specs.Repository.{AreAllowed};

use crate::acts::{Act, Naming, names_op};
use crate::asks::{ask, query};
use crate::plain::Plain;
use crate::quads::{Edit, changes};
use crate::replies::{Answer, answer_of};
use iso_txn::Pinned;
use journal::{Ask, Entry, Level, Limits, Op, Reply, StoreFault, Txn};
use quad_index::Order;
use query_model::{Query, lookups_of};
use rdf_term::Memory;
use repo_store::{LocalRepo, answer, first_step_is_next};
use std::alloc::Global;

/// A repository without entries.
pub(crate) fn repository(alloc: Global, limits: Limits) -> Result<LocalRepo, StoreFault>
    requires { AreAllowed limits }
{
    let orders = Order::standard(alloc)?;
    Ok(LocalRepo::new(alloc, &orders, limits)?)
}

fn read(
    alloc: Global,
    repo: &mut LocalRepo,
    txn: Option<Txn>,
    number: usize,
) -> Result<(u64, Reply), StoreFault> {
    let ask = ask(alloc, number)?;
    let (place, pinned) = repo.pin(txn, &ask)?;
    Ok((place, answer(alloc, &pinned, &ask)?))
}

/// The Steps of a query that has one or two.
fn in_steps(
    repo: &mut LocalRepo,
    txn: Txn,
    query: &Query,
    pinned: &mut Pinned,
) -> Result<u64, StoreFault>
    requires level { txn.level ≡ levels.ReadCommitted }
    requires empty { pinned.old ≡ record { views = []; live = true; rows = 0 } }
{
    first_step_is_next();
    let place = repo.step(txn, query, 0, pinned)?;
    if lookups_of(query) < 2 {
        return Ok(place);
    }
    repo.step(txn, query, 1, pinned)
}

fn stepped(
    alloc: Global,
    repo: &mut LocalRepo,
    txn: Txn,
    number: usize,
) -> Result<(u64, Reply), StoreFault> {
    if txn.level != Level::ReadCommitted {
        return Err(StoreFault::Memory);
    }
    let query = query(alloc, number)?;
    let mut pinned = Pinned::empty(alloc);
    let place = in_steps(repo, txn, &query, &mut pinned)?;
    let ask = Ask::Query(query);
    Ok((place, answer(alloc, &pinned, &ask)?))
}

fn written(
    alloc: Global,
    repo: &mut LocalRepo,
    txn: Option<Txn>,
    edits: &[Edit],
) -> Result<(u64, Reply), StoreFault> {
    let changes = changes(alloc, edits)?;
    repo.write(txn, &changes)
}

fn renamed(
    alloc: Global,
    repo: &mut LocalRepo,
    naming: Naming,
) -> Result<(u64, Reply), StoreFault> {
    let op = names_op(alloc, naming)?;
    repo.names(&op)
}

/// The place of the last entry of an act, and the reply of the repository there.
fn reply(alloc: Global, repo: &mut LocalRepo, act: Act) -> Result<(u64, Reply), StoreFault> {
    match act {
        Act::Begin(level) => repo.begin(level),
        Act::Read(txn, number) => read(alloc, repo, txn, number),
        Act::Steps(txn, number) => stepped(alloc, repo, txn, number),
        Act::Write(txn, edits) => written(alloc, repo, txn, edits),
        Act::Commit(txn) => repo.commit(txn),
        Act::Rollback(txn) => repo.rollback(txn),
        Act::Ping(txn) => repo.ping(txn),
        Act::Names(naming) => renamed(alloc, repo, naming),
    }
}

/// The place of the last entry of an act, and the answer of the repository there.
pub(crate) fn entered(
    alloc: Global,
    repo: &mut LocalRepo,
    act: Act,
) -> Result<(u64, Answer), StoreFault> {
    let (place, reply) = reply(alloc, repo, act)?;
    Ok((place, answer_of(&reply)))
}

/// Whether a repository answers an act as the plain program does, at the last place.
pub(crate) fn agrees(
    alloc: Global,
    repo: &mut LocalRepo,
    plain: &mut Plain,
    act: Act,
) -> Result<bool, StoreFault> {
    let wanted = plain.enter(act)?;
    let (place, answer) = entered(alloc, repo, act)?;
    Ok(answer == wanted && place.saturating_add(1) == plain.length())
}

fn read_op(alloc: Global, txn: Option<Txn>, number: usize) -> Result<Op, Memory> {
    let ask = ask(alloc, number)?;
    Ok(Op::Read { txn, ask })
}

fn step_op(alloc: Global, txn: Txn, ask: usize, number: u32) -> Result<Op, Memory> {
    let query = query(alloc, ask)?;
    Ok(Op::Step { txn, query, number })
}

fn write_op(alloc: Global, txn: Option<Txn>, edits: &[Edit]) -> Result<Op, Memory> {
    let changes = changes(alloc, edits)?;
    Ok(Op::Write { txn, changes })
}

/// What the entry of a number of an act does.
fn op_of(alloc: Global, act: Act, number: u32) -> Result<Op, Memory> {
    match act {
        Act::Begin(level) => Ok(Op::Begin(level)),
        Act::Read(txn, ask) => read_op(alloc, txn, ask),
        Act::Steps(txn, ask) => step_op(alloc, txn, ask, number),
        Act::Write(txn, edits) => write_op(alloc, txn, edits),
        Act::Commit(txn) => Ok(Op::Commit(txn)),
        Act::Rollback(txn) => Ok(Op::Rollback(txn)),
        Act::Ping(txn) => Ok(Op::Ping(txn)),
        Act::Names(naming) => Ok(Op::Names(names_op(alloc, naming)?)),
    }
}

fn is_made(alloc: Global, entry: &Entry, made: Option<(Act, u32)>) -> Result<bool, Memory> {
    let Some((act, number)) = made else {
        return Ok(false);
    };
    let op = op_of(alloc, act, number)?;
    Ok(entry.seat == 0 && entry.op == op)
}

/// Whether the journal of a repository is that of the plain program.
pub(crate) fn is_journal(
    alloc: Global,
    repo: &LocalRepo,
    plain: &Plain,
) -> Result<bool, StoreFault> {
    let entries = repo.entries();
    for (place, entry) in entries.iter().enumerate() {
        if !is_made(alloc, entry, plain.made_at(place))? {
            return Ok(false);
        }
    }
    Ok(entries.len() as u64 == plain.length())
}
