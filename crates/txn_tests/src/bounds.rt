//! Full journals, and as many transactions as may be.
use crate::acts::{Act, Answer, Naming, answer_of, begun, entered, repository};
use crate::histories::limits;
use crate::quads::Step;
use iso_txn::RepoState;
use journal::{Level, Limits, StoreFault, Txn};
use std::alloc::Global;

const FIRST: Txn = Txn {
    place: 0,
    level: Level::ReadCommitted,
};

/// How many of so many Begins are accepted.
fn accepted_begins(repo: &mut RepoState, count: u64) -> Result<u64, StoreFault> {
    let mut accepted = 0u64;
    for _ in 0..count {
        match begun(repo, Level::ReadCommitted)? {
            Answer::Begun(_) => accepted = accepted.saturating_add(1),
            Answer::TooManyOpen => {}
            _ => return Ok(0),
        }
    }
    Ok(accepted)
}

#[test]
fn a_thousand_and_twenty_four_transactions_may_be_open(rt: HostRuntime) -> Result<(), StoreFault> {
    let mut repo = repository(rt.alloc(), Limits::standard())?;
    assert!(rt; accepted_begins(&mut repo, 1_024)? == 1_024);
    assert!(rt; begun(&mut repo, Level::ReadCommitted)? == Answer::TooManyOpen);
    assert!(rt; answer_of(&repo.rollback(0, FIRST)?) == Answer::Done);
    assert!(rt; accepted_begins(&mut repo, 2)? == 1);
    Ok(())
}

/// An entry of each kind.
static ACTS: &[Act] = &[
    Act::Begin(Level::Snapshot),
    Act::Read(None, 0),
    Act::Read(Some(FIRST), 0),
    Act::Write(None, &[Step::Add(0)]),
    Act::Write(Some(FIRST), &[]),
    Act::Commit(FIRST),
    Act::Rollback(FIRST),
    Act::Ping(FIRST),
    Act::Names(Naming::Put(0, 0)),
    Act::Names(Naming::List),
];

/// Whether a repository makes no entry of any kind, since its journal is full.
fn takes_nothing(alloc: Global, repo: &mut RepoState) -> bool {
    for act in ACTS {
        match entered(alloc, repo, *act) {
            Err(StoreFault::JournalFull) => {}
            _ => return false,
        }
    }
    true
}

/// Whether the journal of a repository is full behind so many entries, and not before.
fn is_full_behind(alloc: Global, repo: &mut RepoState, places: u64) -> Result<bool, StoreFault> {
    for place in 0..places {
        let txn = Txn {
            place,
            level: Level::ReadCommitted,
        };
        if begun(repo, Level::ReadCommitted)? != Answer::Begun(txn) {
            return Ok(false);
        }
    }
    Ok(takes_nothing(alloc, repo) && repo.length() == places && repo.quads() == 0)
}

#[test]
fn a_full_journal_takes_no_more(rt: HostRuntime) -> Result<(), StoreFault> {
    let alloc = rt.alloc();
    let one = Limits {
        places: 1,
        ..limits()
    };
    assert!(rt; is_full_behind(alloc, &mut repository(alloc, one)?, 1)?);
    let two = Limits {
        places: 2,
        ..limits()
    };
    assert!(rt; is_full_behind(alloc, &mut repository(alloc, two)?, 2)?);
    Ok(())
}
