//! Thousands of SERIALIZABLE transactions, one after the other and side by side. Each is answered by what
//! was committed since it began, however many were before. Once all are closed, no change is kept.
use crate::acts::Act;
use crate::asks::{OF_A, SIZE};
use crate::quads::{Content, EMPTY, Edit, Looked, Part};
use crate::replies::Answer;
use crate::seats::{entered, repository};
use iso_txn::RepoState;
use journal::{Level, Limits, StoreFault, Txn};
use std::alloc::Global;

fn begun(alloc: Global, repo: &mut RepoState) -> Result<Txn, StoreFault> {
    match entered(alloc, repo, 0, Act::Begin(Level::Serializable))? {
        Answer::Begun(txn) => Ok(txn),
        _ => Err(StoreFault::JournalFull),
    }
}

/// Adds and takes away the second quad, in turn.
fn edits(number: u64) -> &'static [Edit] {
    if number % 2 == 0 {
        &[Edit::Add(1)]
    } else {
        &[Edit::Remove(1)]
    }
}

/// Whether a transaction that reads all quads and changes one is done.
fn is_done(alloc: Global, repo: &mut RepoState, number: u64) -> Result<bool, StoreFault> {
    let txn = begun(alloc, repo)?;
    let count = entered(alloc, repo, 0, Act::Read(Some(txn), SIZE))?;
    let written = entered(alloc, repo, 0, Act::Write(Some(txn), edits(number)))?;
    let ended = entered(alloc, repo, 0, Act::Commit(txn))?;
    Ok(count == Answer::Count(number % 2) && written == Answer::Done && ended == Answer::Done)
}

/// Whether so many in a row are, and leave nothing.
fn are_done(alloc: Global, repo: &mut RepoState, count: u64) -> Result<bool, StoreFault> {
    for number in 0..count {
        if !is_done(alloc, repo, number)? {
            return Ok(false);
        }
    }
    Ok(repo.quads() == 0 && repo.commits() == count && repo.kept_deltas() == 0)
}

fn are_done_alone(alloc: Global, count: u64) -> Result<bool, StoreFault> {
    let mut repo = repository(alloc, Limits::standard())?;
    are_done(alloc, &mut repo, count)
}

#[test]
fn ten_thousand_transactions_one_after_the_other(rt: HostRuntime) -> Result<(), StoreFault> {
    assert!(rt; are_done_alone(rt.alloc(), 10_000)?);
    Ok(())
}

/// What a read of the quads of a subject observes.
const OBSERVED: Looked = Looked {
    s: Part::Is(0),
    p: Part::Any,
    o: Part::Any,
    g: Part::Any,
};

/// A change outside: of three, the first touches what such a read observes, the others another subject.
fn edits_outside(number: u64) -> &'static [Edit] {
    match number % 6 {
        0 => &[Edit::Add(1)],
        3 => &[Edit::Remove(1)],
        1 | 4 => &[Edit::Add(6)],
        _ => &[Edit::Remove(6)],
    }
}

/// What a read of the quads of the subject finds behind so many changes.
fn held(number: u64) -> Content {
    let mut held = EMPTY;
    held[1] = number % 6 > 0 && number % 6 < 4;
    held
}

/// Reads in a transaction, begins the next one behind a change outside, and ends the first: it conflicts
/// where the change touched what it read, and is rolled back.
fn next(
    alloc: Global,
    repo: &mut RepoState,
    txn: Txn,
    number: u64,
) -> Result<Option<Txn>, StoreFault> {
    let seen = entered(alloc, repo, 0, Act::Read(Some(txn), OF_A))?;
    let _ = entered(alloc, repo, 1, Act::Write(None, edits_outside(number)))?;
    let next = begun(alloc, repo)?;
    let ended = entered(alloc, repo, 0, Act::Commit(txn))?;
    let wanted = if number % 3 == 0 {
        Answer::Conflict(OBSERVED, 1)
    } else {
        Answer::Done
    };
    let _ = entered(alloc, repo, 0, Act::Rollback(txn))?;
    if seen == Answer::Quads(held(number)) && ended == wanted {
        Ok(Some(next))
    } else {
        Ok(None)
    }
}

/// How many transactions in a row are right, of so many. The last one is rolled back.
fn right(alloc: Global, repo: &mut RepoState, count: u64) -> Result<u64, StoreFault> {
    let mut txn = begun(alloc, repo)?;
    for number in 0..count {
        match next(alloc, repo, txn, number)? {
            Some(other) => txn = other,
            None => return Ok(number),
        }
    }
    let _ = entered(alloc, repo, 0, Act::Rollback(txn))?;
    Ok(count)
}

#[test]
fn ten_thousand_transactions_side_by_side(rt: HostRuntime) -> Result<(), StoreFault> {
    let alloc = rt.alloc();
    let mut repo = repository(alloc, Limits::standard())?;
    assert!(rt; right(alloc, &mut repo, 10_000)? == 10_000);
    assert!(rt; repo.kept_deltas() == 0);
    Ok(())
}

/// Begins a transaction, and changes the content outside.
fn begun_before_a_change(
    alloc: Global,
    repo: &mut RepoState,
    number: u64,
) -> Result<Txn, StoreFault> {
    let txn = begun(alloc, repo)?;
    let _ = entered(alloc, repo, 1, Act::Write(None, edits(number)))?;
    Ok(txn)
}

/// Begins so many transactions, each before a change outside.
fn begun_before_changes(
    alloc: Global,
    repo: &mut RepoState,
    count: u64,
) -> Result<Vec<Txn>, StoreFault> {
    let mut open = Vec::new(alloc);
    for number in 0..count {
        open.push(begun_before_a_change(alloc, repo, number)?)?;
    }
    Ok(open)
}

/// Commits a transaction, or rolls it back, in turn.
fn ended(number: usize, txn: Txn) -> Act {
    if number % 2 == 0 {
        Act::Commit(txn)
    } else {
        Act::Rollback(txn)
    }
}

/// Whether each of these transactions can be ended, and changes are kept until the last one is.
fn are_ended(alloc: Global, repo: &mut RepoState, open: &[Txn]) -> Result<bool, StoreFault> {
    for (number, txn) in open.iter().enumerate() {
        let kept = repo.kept_deltas() > 0;
        let answer = entered(alloc, repo, 0, ended(number, *txn))?;
        if !kept || answer != Answer::Done {
            return Ok(false);
        }
    }
    Ok(repo.kept_deltas() == 0)
}

/// Whether so many transactions that are open at once keep changes, and none once they are closed.
fn is_emptied(alloc: Global, repo: &mut RepoState, count: u64) -> Result<bool, StoreFault> {
    let open = begun_before_changes(alloc, repo, count)?;
    Ok(repo.kept_deltas() as u64 == count && are_ended(alloc, repo, open.as_slice())?)
}

#[test]
fn ten_thousand_transactions_a_thousand_at_once(rt: HostRuntime) -> Result<(), StoreFault> {
    let alloc = rt.alloc();
    let mut repo = repository(alloc, Limits::standard())?;
    for round in 0..10 {
        assert!(rt; is_emptied(alloc, &mut repo, 1_000)?, "round {round}");
    }
    Ok(())
}
