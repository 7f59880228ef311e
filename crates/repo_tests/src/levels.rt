//! Every kind of ask at every level over one history.
use crate::acts::{Act, Naming};
use crate::asks::{
    ALL, ASKS, LOOP, NAMES, OF_A, PAIRS, SIZE, SUBJECTS, TRIPLES, TWO_STEPS, ask_at, counted,
    row_place, steps_of,
};
use crate::local::{agrees, entered, is_journal, repository};
use crate::numbers::limits;
use crate::plain::Plain;
use crate::quads::{Content, Edit};
use crate::replies::{Answer, Counts, NO_ROWS};
use journal::{Level, StoreFault, Txn};
use repo_store::LocalRepo;
use std::alloc::Global;

const LEVELS: [Level; 6] = [
    Level::NoIsolation,
    Level::ReadUncommitted,
    Level::ReadCommitted,
    Level::SnapshotRead,
    Level::Snapshot,
    Level::Serializable,
];

/// The transaction that reads.
fn reader(level: Level) -> Txn {
    Txn { place: 3, level }
}

const DIRTY: Txn = Txn {
    place: 1,
    level: Level::ReadUncommitted,
};

/// What comes before the asks: a transaction of the level begins between two commits, and one at
/// READ_UNCOMMITTED has a pending change.
fn history(level: Level) -> [Act; 6] {
    [
        Act::Write(None, &[Edit::Add(0), Edit::Add(1)]),
        Act::Begin(Level::ReadUncommitted),
        Act::Write(Some(DIRTY), &[Edit::Add(5)]),
        Act::Begin(level),
        Act::Write(None, &[Edit::Add(2), Edit::Remove(0)]),
        Act::Write(Some(reader(level)), &[Edit::Add(4)]),
    ]
}

/// Enters the history, and whether each answer is that of the plain program.
fn is_begun(
    alloc: Global,
    repo: &mut LocalRepo,
    plain: &mut Plain,
    level: Level,
) -> Result<bool, StoreFault> {
    for act in history(level) {
        if !agrees(alloc, repo, plain, act)? {
            return Ok(false);
        }
    }
    Ok(true)
}

/// Whether the ask of a number is answered right in the transaction, in Steps where it makes them, and
/// outside.
fn is_answered(
    alloc: Global,
    repo: &mut LocalRepo,
    plain: &mut Plain,
    txn: Txn,
    ask: usize,
) -> Result<bool, StoreFault> {
    let has_steps = txn.level == Level::ReadCommitted && steps_of(ask_at(ask)) > 0;
    if has_steps && !agrees(alloc, repo, plain, Act::Steps(txn, ask))? {
        return Ok(false);
    }
    Ok(
        agrees(alloc, repo, plain, Act::Read(Some(txn), ask))?
            && agrees(alloc, repo, plain, Act::Read(None, ask))?,
    )
}

fn are_answered(
    alloc: Global,
    repo: &mut LocalRepo,
    plain: &mut Plain,
    txn: Txn,
) -> Result<bool, StoreFault> {
    for ask in 0..ASKS.len() {
        if !is_answered(alloc, repo, plain, txn, ask)? {
            return Ok(false);
        }
    }
    Ok(true)
}

/// Behind the asks the transaction ends, and no ask of it is answered.
fn are_refused(
    alloc: Global,
    repo: &mut LocalRepo,
    plain: &mut Plain,
    txn: Txn,
) -> Result<bool, StoreFault> {
    Ok(
        agrees(alloc, repo, plain, Act::Ping(txn))?
            && agrees(alloc, repo, plain, Act::Rollback(txn))?
            && agrees(alloc, repo, plain, Act::Names(Naming::Put(0)))?
            && agrees(alloc, repo, plain, Act::Commit(DIRTY))?
            && are_answered(alloc, repo, plain, txn)?,
    )
}

/// Whether a repository without entries answers all this right.
fn is_right_in(alloc: Global, repo: &mut LocalRepo, level: Level) -> Result<bool, StoreFault> {
    let txn = reader(level);
    let mut plain = Plain::new(alloc, limits());
    let right = is_begun(alloc, repo, &mut plain, level)?
        && are_answered(alloc, repo, &mut plain, txn)?
        && are_refused(alloc, repo, &mut plain, txn)?;
    if !right {
        return Ok(false);
    }
    is_journal(alloc, repo, &plain)
}

fn is_right_at(alloc: Global, level: Level) -> Result<bool, StoreFault> {
    let mut repo = repository(alloc, limits())?;
    is_right_in(alloc, &mut repo, level)
}

#[test]
fn each_ask_is_answered_at_each_level(rt: HostRuntime) -> Result<(), StoreFault> {
    for level in LEVELS {
        assert!(rt; is_right_at(rt.alloc(), level)?, "{level:?}");
    }
    Ok(())
}

/// An answer that is wanted: rows by the numbers of their terms, or another one.
#[derive(Clone, Copy)]
enum Wanted {
    Rows(&'static [(usize, usize)]),
    Just(Answer),
}

/// An ask behind the history, and its answers where the latest commit is seen, where pending changes are
/// too, and where the commits before the Begin are.
#[derive(Clone, Copy)]
struct Worked {
    ask: usize,
    latest: Wanted,
    dirty: Wanted,
    begin: Wanted,
}

const NO_NAMES: [bool; 7] = [false; 7];

const G: [bool; 7] = [false, false, false, true, false, false, false];

const Q12: Content = [false, true, true, false, false, false, false, false];

const Q124: Content = [false, true, true, false, true, false, false, false];

const Q1245: Content = [false, true, true, false, true, true, false, false];

const Q14: Content = [false, true, false, false, true, false, false, false];

const Q01: Content = [true, true, false, false, false, false, false, false];

const Q014: Content = [true, true, false, false, true, false, false, false];

static WORKED: [Worked; 9] = [
    Worked {
        ask: SIZE,
        latest: Wanted::Just(Answer::Count(3)),
        dirty: Wanted::Just(Answer::Count(4)),
        begin: Wanted::Just(Answer::Count(3)),
    },
    Worked {
        ask: NAMES,
        latest: Wanted::Just(Answer::Contexts(G)),
        dirty: Wanted::Just(Answer::Contexts(G)),
        begin: Wanted::Just(Answer::Contexts(NO_NAMES)),
    },
    Worked {
        ask: OF_A,
        latest: Wanted::Just(Answer::Quads(Q12)),
        dirty: Wanted::Just(Answer::Quads(Q12)),
        begin: Wanted::Just(Answer::Quads(Q01)),
    },
    Worked {
        ask: PAIRS,
        latest: Wanted::Rows(&[(0, 1), (1, 2)]),
        dirty: Wanted::Rows(&[(0, 1), (1, 2)]),
        begin: Wanted::Rows(&[(0, 0), (0, 1), (1, 2)]),
    },
    Worked {
        ask: TWO_STEPS,
        latest: Wanted::Rows(&[]),
        dirty: Wanted::Rows(&[(0, 0)]),
        begin: Wanted::Rows(&[]),
    },
    Worked {
        ask: LOOP,
        latest: Wanted::Just(Answer::Truth(false)),
        dirty: Wanted::Just(Answer::Truth(false)),
        begin: Wanted::Just(Answer::Truth(true)),
    },
    Worked {
        ask: TRIPLES,
        latest: Wanted::Just(Answer::Quads(Q14)),
        dirty: Wanted::Just(Answer::Quads(Q14)),
        begin: Wanted::Just(Answer::Quads(Q014)),
    },
    Worked {
        ask: SUBJECTS,
        latest: Wanted::Rows(&[(0, 0), (1, 0)]),
        dirty: Wanted::Rows(&[(0, 0), (1, 0)]),
        begin: Wanted::Rows(&[(0, 0), (1, 0)]),
    },
    Worked {
        ask: ALL,
        latest: Wanted::Just(Answer::Quads(Q124)),
        dirty: Wanted::Just(Answer::Quads(Q1245)),
        begin: Wanted::Just(Answer::Quads(Q014)),
    },
];

fn rows(places: &[(usize, usize)]) -> Counts {
    let mut rows = NO_ROWS;
    for (first, second) in places {
        let next = counted(rows, row_place(*first, *second));
        rows = next;
    }
    rows
}

fn answer_of(wanted: Wanted) -> Answer {
    match wanted {
        Wanted::Rows(places) => Answer::Rows(rows(places)),
        Wanted::Just(answer) => answer,
    }
}

/// The answer that is wanted at a level.
fn wanted_at(worked: Worked, level: Level) -> Answer {
    match level {
        Level::NoIsolation | Level::ReadCommitted | Level::SnapshotRead => answer_of(worked.latest),
        Level::ReadUncommitted => answer_of(worked.dirty),
        Level::Snapshot | Level::Serializable => answer_of(worked.begin),
    }
}

fn is_as_worked(
    alloc: Global,
    repo: &mut LocalRepo,
    level: Level,
    worked: Worked,
) -> Result<bool, StoreFault> {
    let act = Act::Read(Some(reader(level)), worked.ask);
    let (_, answer) = entered(alloc, repo, act)?;
    Ok(answer == wanted_at(worked, level))
}

/// Whether the query of a number has this answer in Steps.
fn is_stepped(
    alloc: Global,
    repo: &mut LocalRepo,
    ask: usize,
    place: u64,
    wanted: Answer,
) -> Result<bool, StoreFault> {
    let act = Act::Steps(reader(Level::ReadCommitted), ask);
    Ok(entered(alloc, repo, act)? == (place, wanted))
}

/// Enters the history.
fn begin(alloc: Global, repo: &mut LocalRepo, level: Level) -> Result<(), StoreFault> {
    for act in history(level) {
        let _ = entered(alloc, repo, act)?;
    }
    Ok(())
}

fn are_as_worked(alloc: Global, repo: &mut LocalRepo, level: Level) -> Result<bool, StoreFault> {
    begin(alloc, repo, level)?;
    for worked in &WORKED {
        if !is_as_worked(alloc, repo, level, *worked)? {
            return Ok(false);
        }
    }
    Ok(true)
}

fn are_as_worked_at(alloc: Global, level: Level) -> Result<bool, StoreFault> {
    let mut repo = repository(alloc, limits())?;
    are_as_worked(alloc, &mut repo, level)
}

#[test]
fn worked_asks_at_each_level(rt: HostRuntime) -> Result<(), StoreFault> {
    for level in LEVELS {
        assert!(rt; are_as_worked_at(rt.alloc(), level)?, "{level:?}");
    }
    Ok(())
}

/// A change outside that the second pattern finds.
const LATER: Act = Act::Write(None, &[Edit::Add(5)]);

/// Queries in Steps behind the history: their places, and what they find before a change outside, behind it,
/// and behind the end of the transaction.
fn are_stepped(alloc: Global, repo: &mut LocalRepo) -> Result<bool, StoreFault> {
    begin(alloc, repo, Level::ReadCommitted)?;
    let pairs = answer_of(Wanted::Rows(&[(0, 1), (1, 2)]));
    let before = is_stepped(alloc, repo, PAIRS, 6, pairs)?
        && is_stepped(alloc, repo, TWO_STEPS, 8, answer_of(Wanted::Rows(&[])))?;
    let _ = entered(alloc, repo, LATER)?;
    let found = answer_of(Wanted::Rows(&[(0, 0)]));
    let behind = is_stepped(alloc, repo, TWO_STEPS, 11, found)?;
    let _ = entered(alloc, repo, Act::Commit(reader(Level::ReadCommitted)))?;
    let gone = is_stepped(alloc, repo, TWO_STEPS, 14, Answer::NoTransaction)?;
    Ok(before && behind && gone && repo.entries().len() == 15)
}

fn are_stepped_alone(alloc: Global) -> Result<bool, StoreFault> {
    let mut repo = repository(alloc, limits())?;
    are_stepped(alloc, &mut repo)
}

#[test]
fn queries_in_steps(rt: HostRuntime) -> Result<(), StoreFault> {
    assert!(rt; are_stepped_alone(rt.alloc())?);
    Ok(())
}
