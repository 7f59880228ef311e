//! What callers do and are answered, as plain data.
ghost use Rattle.shared_repo.specs.Passes.{IsPass};

use crate::quads::{Observed, evens, number_of, numbered, observed_by, set_of, size};
use change_set::{Change, Changes};
use journal::{Ask, Level, NamesOp, Reply, StoreFault, Txn};
use rdf_term::{Memory, Pattern, Quad};
use repo_store::{LocalRepo, answer};
use shared_repo::{Repo, RepoPass};
use std::alloc::Global;
use std::sync::Wait;

/// What an entry does.
#[derive(Clone, Copy)]
pub enum Act {
    Begin(Level),
    /// Asks for the number of quads.
    Size(Option<Txn>),
    /// Asks for the quads of even numbers.
    Evens(Option<Txn>),
    /// Adds the quad of a number.
    Add(Option<Txn>, u64),
    Commit(Txn),
    Rollback(Txn),
    Ping(Txn),
    /// Asks for the prefixes.
    Prefixes,
}

/// What an entry is answered.
#[derive(Clone, Copy, PartialEq, Eq)]
pub enum Answer {
    Begun(Txn),
    Done,
    NoTransaction,
    TooManyOpen,
    /// What a read observed, and the number of the quad that was changed.
    Conflict(Observed, u64),
    TooLarge,
    Count(u64),
    /// The numbers of the quads of a list, each below 64, as the bits of a set.
    Quads(u64),
    /// The number of prefixes, of which these entries give none.
    Prefixes(usize),
    /// Nothing else is answered by these entries: no other quad or pattern either.
    Other,
}

/// The answer that names a pattern and a quad.
fn conflict_of(alloc: Global, pattern: &Pattern, quad: &Quad) -> Result<Answer, Memory> {
    match (observed_by(pattern), number_of(alloc, quad)?) {
        (Some(observed), Some(number)) => Ok(Answer::Conflict(observed, number)),
        _ => Ok(Answer::Other),
    }
}

/// The answer of these quads.
fn quads_of(alloc: Global, quads: &[Quad]) -> Result<Answer, Memory> {
    match set_of(alloc, quads)? {
        Some(set) => Ok(Answer::Quads(set)),
        None => Ok(Answer::Other),
    }
}

/// The answer that a reply gives.
fn answer_of(alloc: Global, reply: &Reply) -> Result<Answer, Memory> {
    match reply {
        Reply::Begun(txn) => Ok(Answer::Begun(*txn)),
        Reply::Done => Ok(Answer::Done),
        Reply::NoTransaction => Ok(Answer::NoTransaction),
        Reply::TooManyOpen => Ok(Answer::TooManyOpen),
        Reply::Conflict(pattern, quad) => conflict_of(alloc, pattern, quad),
        Reply::TooLarge => Ok(Answer::TooLarge),
        Reply::Count(count) => Ok(Answer::Count(*count)),
        Reply::Quads(quads) => quads_of(alloc, quads.as_slice()),
        Reply::Prefixes(names) => Ok(Answer::Prefixes(names.len())),
        _ => Ok(Answer::Other),
    }
}

/// Adds the quad of a number.
fn adding(alloc: Global, number: u64) -> Result<Changes, Memory> {
    let mut changes = Changes::new(alloc);
    changes.push(Change::Add(numbered(alloc, number)?))?;
    Ok(changes)
}

fn enter_ask<R: Wait>(
    rt: &R,
    alloc: Global,
    repo: &Repo,
    pass: &mut RepoPass,
    txn: Option<Txn>,
    ask: &Ask,
) -> Result<(u64, Answer), StoreFault>
    requires { IsPass repo.now pass.old }
    ensures { IsPass repo.now pass.new }
{
    let (place, pinned) = repo.pin(rt, pass, txn, ask)?;
    let reply = answer(alloc, &pinned, ask)?;
    Ok((place, answer_of(alloc, &reply)?))
}

fn enter_add<R: Wait>(
    rt: &R,
    alloc: Global,
    repo: &Repo,
    pass: &mut RepoPass,
    txn: Option<Txn>,
    number: u64,
) -> Result<(u64, Answer), StoreFault>
    requires { IsPass repo.now pass.old }
    ensures { IsPass repo.now pass.new }
{
    let changes = adding(alloc, number)?;
    let (place, reply) = repo.write(rt, pass, txn, &changes)?;
    Ok((place, answer_of(alloc, &reply)?))
}

fn enter_commit<R: Wait>(
    rt: &R,
    alloc: Global,
    repo: &Repo,
    pass: &mut RepoPass,
    txn: Txn,
) -> Result<(u64, Answer), StoreFault>
    requires { IsPass repo.now pass.old }
    ensures { IsPass repo.now pass.new }
{
    let (place, reply) = repo.commit(rt, pass, txn)?;
    Ok((place, answer_of(alloc, &reply)?))
}

fn enter_rollback<R: Wait>(
    rt: &R,
    alloc: Global,
    repo: &Repo,
    pass: &mut RepoPass,
    txn: Txn,
) -> Result<(u64, Answer), StoreFault>
    requires { IsPass repo.now pass.old }
    ensures { IsPass repo.now pass.new }
{
    let (place, reply) = repo.rollback(rt, pass, txn)?;
    Ok((place, answer_of(alloc, &reply)?))
}

/// The place of an entry in a shared repository, and the answer to it.
pub fn enter<R: Wait>(
    rt: &R,
    alloc: Global,
    repo: &Repo,
    pass: &mut RepoPass,
    act: Act,
) -> Result<(u64, Answer), StoreFault>
    requires { IsPass repo.now pass.old }
    ensures { IsPass repo.now pass.new }
{
    match act {
        Act::Begin(level) => {
            let (place, reply) = repo.begin(rt, pass, level)?;
            Ok((place, answer_of(alloc, &reply)?))
        }
        Act::Size(txn) => enter_ask(rt, alloc, repo, pass, txn, &size(alloc)),
        Act::Evens(txn) => enter_ask(rt, alloc, repo, pass, txn, &evens(alloc)?),
        Act::Add(txn, number) => enter_add(rt, alloc, repo, pass, txn, number),
        Act::Commit(txn) => enter_commit(rt, alloc, repo, pass, txn),
        Act::Rollback(txn) => enter_rollback(rt, alloc, repo, pass, txn),
        Act::Ping(txn) => {
            let (place, reply) = repo.ping(rt, pass, txn)?;
            Ok((place, answer_of(alloc, &reply)?))
        }
        Act::Prefixes => {
            let (place, reply) = repo.names(rt, pass, &NamesOp::List)?;
            Ok((place, answer_of(alloc, &reply)?))
        }
    }
}

fn ask_locally(
    alloc: Global,
    repo: &mut LocalRepo,
    txn: Option<Txn>,
    ask: &Ask,
) -> Result<(u64, Reply), StoreFault> {
    let (place, pinned) = repo.pin(txn, ask)?;
    let reply = answer(alloc, &pinned, ask)?;
    Ok((place, reply))
}

/// The same of a repository for one caller.
pub fn enter_locally(
    alloc: Global,
    repo: &mut LocalRepo,
    act: Act,
) -> Result<(u64, Answer), StoreFault> {
    let (place, reply) = match act {
        Act::Begin(level) => repo.begin(level)?,
        Act::Size(txn) => ask_locally(alloc, repo, txn, &size(alloc))?,
        Act::Evens(txn) => ask_locally(alloc, repo, txn, &evens(alloc)?)?,
        Act::Add(txn, number) => repo.write(txn, &adding(alloc, number)?)?,
        Act::Commit(txn) => repo.commit(txn)?,
        Act::Rollback(txn) => repo.rollback(txn)?,
        Act::Ping(txn) => repo.ping(txn)?,
        Act::Prefixes => repo.names(&NamesOp::List)?,
    };
    Ok((place, answer_of(alloc, &reply)?))
}
