//! Random histories of a local repository at each level, each entry beside the answer of the plain
//! program.
use crate::acts::Act;
use crate::local::{entered, is_journal, repository};
use crate::numbers::{Numbers, limits, note};
use crate::plain::Plain;
use crate::replies::Answer;
use journal::{StoreFault, Txn};
use repo_store::LocalRepo;
use std::alloc::Global;

/// Enters an act, and answers it where the plain program does so.
fn answer(
    alloc: Global,
    repo: &mut LocalRepo,
    plain: &mut Plain,
    act: Act,
) -> Result<Option<Answer>, StoreFault> {
    let wanted = plain.enter(act)?;
    let (place, answer) = entered(alloc, repo, act)?;
    if answer == wanted && place.saturating_add(1) == plain.length() {
        Ok(Some(answer))
    } else {
        Ok(None)
    }
}

/// Enters a random act.
fn go_on(
    alloc: Global,
    numbers: &mut Numbers,
    repo: &mut LocalRepo,
    plain: &mut Plain,
    open: &mut Vec<Txn>,
) -> Result<bool, StoreFault> {
    let act = numbers.act(open.as_slice());
    let Some(answer) = answer(alloc, repo, plain, act)? else {
        return Ok(false);
    };
    note(open, act, answer)?;
    Ok(true)
}

/// Enters random acts, and whether each answer is that of the plain program.
fn are_answered(
    alloc: Global,
    numbers: &mut Numbers,
    repo: &mut LocalRepo,
    plain: &mut Plain,
    calls: u64,
) -> Result<bool, StoreFault> {
    let mut open = Vec::new(alloc);
    for _ in 0..calls {
        if !go_on(alloc, numbers, repo, plain, &mut open)? {
            return Ok(false);
        }
    }
    Ok(true)
}

/// The same by the numbers of a seed, and whether the repository keeps the journal.
fn agrees(alloc: Global, repo: &mut LocalRepo, seed: u64, calls: u64) -> Result<bool, StoreFault> {
    let mut numbers = Numbers::new(seed);
    let mut plain = Plain::new(alloc, limits());
    if !are_answered(alloc, &mut numbers, repo, &mut plain, calls)? {
        return Ok(false);
    }
    is_journal(alloc, repo, &plain)
}

/// The same of a repository without entries.
fn is_right(alloc: Global, seed: u64, calls: u64) -> Result<bool, StoreFault> {
    let mut repo = repository(alloc, limits())?;
    agrees(alloc, &mut repo, seed, calls)
}

#[test]
fn random_histories_are_answered_by_the_definitions(rt: HostRuntime) -> Result<(), StoreFault> {
    let alloc = rt.alloc();
    for seed in 1..6 {
        assert!(rt; is_right(alloc, seed, 1_000)?, "seed {seed}");
    }
    Ok(())
}

#[test]
fn a_long_history_is_answered_by_the_definitions(rt: HostRuntime) -> Result<(), StoreFault> {
    assert!(rt; is_right(rt.alloc(), 6, 2_000)?);
    Ok(())
}
