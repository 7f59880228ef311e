//! A repository of two passes.
ghost use Rattle.std.specs.Prelude.{◌≡◌, IfOk};
ghost use Rattle.iso_txn.specs.Repository.{AreAllowed};
ghost use Rattle.shared_repo.specs.Passes.{IsPass, passes_of};

use crate::acts::{Act, Answer, enter};
use iso_txn::RepoState;
use journal::{Limits, StoreFault};
use quad_index::Order;
use rdf_term::Memory;
use shared_repo::{Repo, RepoPass};
use std::alloc::Global;
use std::sync::Wait;

/// A repository without entries, and its two passes.
pub fn new_pair(alloc: Global, limits: Limits) -> Result<(Repo, RepoPass, RepoPass), Memory>
    requires { AreAllowed limits }
    ensures count { IfOk result (λ it. passes_of it.0 ≡ 2) }
    ensures first { IfOk result (λ it. IsPass it.0 it.1) }
    ensures second { IfOk result (λ it. IsPass it.0 it.2) }
{
    let orders = Order::standard(alloc)?;
    let (repo, mut passes) = Repo::new(alloc, &orders, limits, 2)?;
    let Some(second) = passes.pop() else {
        return Err(Memory);
    };
    let Some(first) = passes.pop() else {
        return Err(Memory);
    };
    Ok((repo, first, second))
}

/// The state of the repository at its end.
pub fn close_pair(
    alloc: Global,
    repo: Repo,
    first: RepoPass,
    second: RepoPass,
) -> Result<RepoState, Memory>
    requires count { passes_of repo ≡ 2 }
    requires first { IsPass repo first }
    requires second { IsPass repo second }
{
    let mut passes = Vec::with_capacity(alloc, 2)?;
    passes.push_reserved(first);
    passes.push_reserved(second);
    let (state, _) = repo.close(passes);
    Ok(state)
}

/// Which of the two passes.
#[derive(Clone, Copy, PartialEq, Eq)]
pub enum Seat {
    First,
    Second,
}

/// An entry by one of the passes, and the answer that it has to get.
#[derive(Clone, Copy)]
pub struct Case {
    pub seat: Seat,
    pub act: Act,
    pub answer: Answer,
}

/// Makes the entry of a case by its pass.
fn enter_case<R: Wait>(
    rt: &R,
    alloc: Global,
    repo: &Repo,
    first: &mut RepoPass,
    second: &mut RepoPass,
    case: &Case,
) -> Result<(u64, Answer), StoreFault>
    requires first { IsPass repo.now first.old }
    requires second { IsPass repo.now second.old }
    ensures first { IsPass repo.now first.new }
    ensures second { IsPass repo.now second.new }
{
    match case.seat {
        Seat::First => enter(rt, alloc, repo, first, case.act),
        Seat::Second => enter(rt, alloc, repo, second, case.act),
    }
}

/// The state at the end of these entries, where each stands at its place and gets its answer.
pub fn play<R: Wait>(
    rt: &R,
    alloc: Global,
    cases: &[Case],
) -> Result<Option<RepoState>, StoreFault> {
    let (repo, mut first, mut second) = new_pair(alloc, Limits::standard())?;
    let mut place = 0u64;
    for case in cases {
        let given = enter_case(rt, alloc, &repo, &mut first, &mut second, case)?;
        if given != (place, case.answer) {
            return Ok(None);
        }
        place = place.saturating_add(1);
    }
    Ok(Some(close_pair(alloc, repo, first, second)?))
}
