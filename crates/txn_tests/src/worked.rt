//! Worked histories: what each level shows, and each refusal. The plain program gives the same answers.
ghost use Rattle.iso_txn.specs.Repository.{AreAllowed};

use crate::acts::{Act, Answer, NO_PREFIXES, Naming, Prefixes, entered, repository};
use crate::histories::limits;
use crate::plain::Plain;
use crate::quads::{Content, EMPTY, Step};
use iso_txn::RepoState;
use journal::{Level, Limits, StoreFault, Txn};
use std::alloc::Global;

/// Transactions by their levels and places.
const NONE_0: Txn = Txn {
    place: 0,
    level: Level::NoIsolation,
};

const DIRTY_0: Txn = Txn {
    place: 0,
    level: Level::ReadUncommitted,
};

const DIRTY_1: Txn = Txn {
    place: 1,
    level: Level::ReadUncommitted,
};

const READ_1: Txn = Txn {
    place: 1,
    level: Level::SnapshotRead,
};

const SNAPSHOT_0: Txn = Txn {
    place: 0,
    level: Level::Snapshot,
};

const SNAPSHOT_2: Txn = Txn {
    place: 2,
    level: Level::Snapshot,
};

const SERIALIZABLE_0: Txn = Txn {
    place: 0,
    level: Level::Serializable,
};

const SERIALIZABLE_1: Txn = Txn {
    place: 1,
    level: Level::Serializable,
};

/// Contents, by the numbers of their quads.
const Q0: Content = [true, false, false, false, false, false, false, false];

const Q1: Content = [false, true, false, false, false, false, false, false];

const Q01: Content = [true, true, false, false, false, false, false, false];

const Q3: Content = [false, false, false, true, false, false, false, false];

const Q12: Content = [false, true, true, false, false, false, false, false];

const Q014: Content = [true, true, false, false, true, false, false, false];

/// Prefixes, by what the first and the second stand for.
const P0: Prefixes = Prefixes {
    empty: None,
    a: Some(0),
    b: None,
};

const P10: Prefixes = Prefixes {
    empty: Some(1),
    a: Some(0),
    b: None,
};

/// Whether a repository and the plain program answer each entry as the history says.
fn are_answered(
    alloc: Global,
    repo: &mut RepoState,
    plain: &mut Plain,
    history: &[(Act, Answer)],
) -> Result<bool, StoreFault> {
    for (act, wanted) in history {
        let answer = entered(alloc, repo, *act)?;
        if answer != *wanted || plain.enter(*act)? != *wanted {
            return Ok(false);
        }
    }
    Ok(true)
}

/// The same of a repository with these limits that has no entry.
fn is_as_told(alloc: Global, limits: Limits, history: &[(Act, Answer)]) -> Result<bool, StoreFault>
    requires { AreAllowed limits }
{
    let mut repo = repository(alloc, limits)?;
    let mut plain = Plain::new(alloc, limits);
    are_answered(alloc, &mut repo, &mut plain, history)
}

static SNAPSHOT_BESIDE_SNAPSHOT_READ: &[(Act, Answer)] = &[
    (Act::Begin(Level::Snapshot), Answer::Begun(SNAPSHOT_0)),
    (Act::Begin(Level::SnapshotRead), Answer::Begun(READ_1)),
    (Act::Write(None, &[Step::Add(0)]), Answer::Done),
    (Act::Read(Some(SNAPSHOT_0), 0), Answer::Seen(EMPTY)),
    (Act::Read(Some(READ_1), 0), Answer::Seen(Q0)),
    (Act::Write(Some(SNAPSHOT_0), &[Step::Add(1)]), Answer::Done),
    (Act::Read(Some(SNAPSHOT_0), 0), Answer::Seen(Q1)),
    (Act::Read(None, 0), Answer::Seen(Q0)),
    (Act::Commit(SNAPSHOT_0), Answer::Done),
    (Act::Read(Some(READ_1), 0), Answer::Seen(Q01)),
    (Act::Ping(SNAPSHOT_0), Answer::NoTransaction),
];

#[test]
fn a_snapshot_stands_beside_reads_of_the_latest_commit(rt: HostRuntime) -> Result<(), StoreFault> {
    assert!(rt; is_as_told(rt.alloc(), limits(), SNAPSHOT_BESIDE_SNAPSHOT_READ)?);
    Ok(())
}

static PENDING_WRITES: &[(Act, Answer)] = &[
    (Act::Begin(Level::ReadUncommitted), Answer::Begun(DIRTY_0)),
    (Act::Begin(Level::ReadUncommitted), Answer::Begun(DIRTY_1)),
    (Act::Begin(Level::Snapshot), Answer::Begun(SNAPSHOT_2)),
    (Act::Write(Some(DIRTY_0), &[Step::Add(0)]), Answer::Done),
    (Act::Write(Some(DIRTY_1), &[Step::Add(1)]), Answer::Done),
    (Act::Write(Some(SNAPSHOT_2), &[Step::Add(2)]), Answer::Done),
    (Act::Read(Some(DIRTY_0), 0), Answer::Seen(Q01)),
    (Act::Read(Some(DIRTY_1), 0), Answer::Seen(Q01)),
    (Act::Read(None, 0), Answer::Seen(EMPTY)),
    (Act::Rollback(DIRTY_0), Answer::Done),
    (Act::Read(Some(DIRTY_1), 0), Answer::Seen(Q1)),
    (Act::Commit(DIRTY_1), Answer::Done),
    (Act::Read(None, 0), Answer::Seen(Q1)),
    (Act::Commit(SNAPSHOT_2), Answer::Done),
    (Act::Read(None, 0), Answer::Seen(Q12)),
];

#[test]
fn pending_writes_are_seen_until_one_rolls_back(rt: HostRuntime) -> Result<(), StoreFault> {
    assert!(rt; is_as_told(rt.alloc(), limits(), PENDING_WRITES)?);
    Ok(())
}

static ROLLBACK_AT_NONE: &[(Act, Answer)] = &[
    (Act::Begin(Level::NoIsolation), Answer::Begun(NONE_0)),
    (Act::Write(Some(NONE_0), &[Step::Add(3)]), Answer::Done),
    (Act::Read(None, 0), Answer::Seen(Q3)),
    (Act::Rollback(NONE_0), Answer::Done),
    (Act::Read(None, 0), Answer::Seen(Q3)),
    (
        Act::Write(Some(NONE_0), &[Step::Add(4)]),
        Answer::NoTransaction,
    ),
];

#[test]
fn a_rollback_at_none_takes_nothing_back(rt: HostRuntime) -> Result<(), StoreFault> {
    assert!(rt; is_as_told(rt.alloc(), limits(), ROLLBACK_AT_NONE)?);
    Ok(())
}

/// Two quads may be there. A commit that would leave three is refused and its transaction stays open,
/// with its changes, and is accepted once one of the quads is gone.
static FULL_REPOSITORY: &[(Act, Answer)] = &[
    (Act::Begin(Level::Snapshot), Answer::Begun(SNAPSHOT_0)),
    (
        Act::Write(None, &[Step::Add(0), Step::Add(1)]),
        Answer::Done,
    ),
    (
        Act::Write(None, &[Step::Add(1), Step::Add(0)]),
        Answer::Done,
    ),
    (Act::Write(None, &[Step::Add(2)]), Answer::TooLarge),
    (Act::Write(Some(SNAPSHOT_0), &[Step::Add(2)]), Answer::Done),
    (Act::Commit(SNAPSHOT_0), Answer::TooLarge),
    (Act::Commit(SNAPSHOT_0), Answer::TooLarge),
    (Act::Read(None, 0), Answer::Seen(Q01)),
    (
        Act::Write(Some(SNAPSHOT_0), &[Step::Remove(0)]),
        Answer::Done,
    ),
    (Act::Commit(SNAPSHOT_0), Answer::Done),
    (Act::Read(None, 0), Answer::Seen(Q12)),
    (Act::Commit(SNAPSHOT_0), Answer::NoTransaction),
];

#[test]
fn a_refused_commit_is_accepted_once_there_is_room(rt: HostRuntime) -> Result<(), StoreFault> {
    let limits = Limits {
        quads: 2,
        ..limits()
    };
    assert!(rt; is_as_told(rt.alloc(), limits, FULL_REPOSITORY)?);
    Ok(())
}

/// As many bytes may be there as two quads in the absent graph and two in named ones have.
static FULL_OF_BYTES: &[(Act, Answer)] = &[
    (
        Act::Write(
            None,
            &[Step::Add(1), Step::Add(3), Step::Add(4), Step::Add(0)],
        ),
        Answer::Done,
    ),
    (Act::Write(None, &[Step::Add(5)]), Answer::TooLarge),
    (
        Act::Write(None, &[Step::Add(5), Step::Remove(0)]),
        Answer::TooLarge,
    ),
    (Act::Write(None, &[Step::Remove(3)]), Answer::Done),
    (Act::Read(None, 0), Answer::Seen(Q014)),
];

#[test]
fn bytes_are_too_many_before_quads_are(rt: HostRuntime) -> Result<(), StoreFault> {
    let limits = Limits {
        bytes: 120,
        ..limits()
    };
    assert!(rt; is_as_told(rt.alloc(), limits, FULL_OF_BYTES)?);
    Ok(())
}

/// The changes of one write count in their order, in a transaction and outside.
static CHANGES_IN_ORDER: &[(Act, Answer)] = &[
    (Act::Begin(Level::ReadUncommitted), Answer::Begun(DIRTY_0)),
    (
        Act::Write(None, &[Step::Add(0), Step::RemoveMatching(0), Step::Add(3)]),
        Answer::Done,
    ),
    (Act::Read(None, 0), Answer::Seen(Q3)),
    (
        Act::Write(
            Some(DIRTY_0),
            &[
                Step::Remove(3),
                Step::Add(2),
                Step::Add(6),
                Step::RemoveMatching(2),
                Step::Add(1),
            ],
        ),
        Answer::Done,
    ),
    (Act::Read(Some(DIRTY_0), 0), Answer::Seen(Q1)),
    (Act::Write(Some(DIRTY_0), &[]), Answer::Done),
    (
        Act::Write(None, &[Step::Add(0), Step::Remove(3)]),
        Answer::Done,
    ),
    (Act::Read(Some(DIRTY_0), 0), Answer::Seen(Q01)),
    (Act::Commit(DIRTY_0), Answer::Done),
    (Act::Read(None, 0), Answer::Seen(Q01)),
];

#[test]
fn changes_of_one_write_count_in_their_order(rt: HostRuntime) -> Result<(), StoreFault> {
    assert!(rt; is_as_told(rt.alloc(), limits(), CHANGES_IN_ORDER)?);
    Ok(())
}

/// Two prefixes may be there. They belong to no transaction, and no rollback takes one back.
static PREFIXES: &[(Act, Answer)] = &[
    (Act::Begin(Level::Snapshot), Answer::Begun(SNAPSHOT_0)),
    (Act::Names(Naming::Get(1)), Answer::NoPrefix),
    (Act::Names(Naming::Put(1, 0)), Answer::Done),
    (Act::Names(Naming::Get(1)), Answer::Prefix(0)),
    (Act::Names(Naming::List), Answer::Prefixes(P0)),
    (Act::Rollback(SNAPSHOT_0), Answer::Done),
    (Act::Names(Naming::Put(0, 0)), Answer::Done),
    (Act::Names(Naming::Put(2, 0)), Answer::TooLarge),
    (Act::Names(Naming::Put(0, 1)), Answer::Done),
    (Act::Names(Naming::List), Answer::Prefixes(P10)),
    (Act::Names(Naming::Remove(2)), Answer::Done),
    (Act::Names(Naming::Remove(0)), Answer::Done),
    (Act::Names(Naming::List), Answer::Prefixes(P0)),
    (Act::Names(Naming::Clear), Answer::Done),
    (Act::Names(Naming::List), Answer::Prefixes(NO_PREFIXES)),
    (Act::Names(Naming::Get(1)), Answer::NoPrefix),
    (Act::Read(None, 0), Answer::Seen(EMPTY)),
];

#[test]
fn prefixes_belong_to_no_transaction(rt: HostRuntime) -> Result<(), StoreFault> {
    assert!(rt; is_as_told(rt.alloc(), limits(), PREFIXES)?);
    Ok(())
}

/// Each of two transactions reads what the other one writes. The first to commit is done.
static BOTH_READ_AND_WRITE: &[(Act, Answer)] = &[
    (
        Act::Begin(Level::Serializable),
        Answer::Begun(SERIALIZABLE_0),
    ),
    (
        Act::Begin(Level::Serializable),
        Answer::Begun(SERIALIZABLE_1),
    ),
    (Act::Read(Some(SERIALIZABLE_0), 0), Answer::Seen(EMPTY)),
    (Act::Read(Some(SERIALIZABLE_1), 1), Answer::Seen(EMPTY)),
    (
        Act::Write(Some(SERIALIZABLE_0), &[Step::Add(0)]),
        Answer::Done,
    ),
    (
        Act::Write(Some(SERIALIZABLE_1), &[Step::Add(1)]),
        Answer::Done,
    ),
    (Act::Read(Some(SERIALIZABLE_1), 0), Answer::Seen(Q1)),
    (Act::Commit(SERIALIZABLE_0), Answer::Done),
    (Act::Commit(SERIALIZABLE_1), Answer::Conflict(1, 0)),
    (Act::Commit(SERIALIZABLE_1), Answer::Conflict(1, 0)),
    (Act::Rollback(SERIALIZABLE_1), Answer::Done),
    (Act::Commit(SERIALIZABLE_1), Answer::NoTransaction),
    (Act::Read(None, 0), Answer::Seen(Q0)),
];

#[test]
fn the_second_of_two_that_read_and_write_conflicts(rt: HostRuntime) -> Result<(), StoreFault> {
    assert!(rt; is_as_told(rt.alloc(), limits(), BOTH_READ_AND_WRITE)?);
    Ok(())
}

/// A quad that was added and taken away again was changed.
static THERE_AND_BACK: &[(Act, Answer)] = &[
    (
        Act::Begin(Level::Serializable),
        Answer::Begun(SERIALIZABLE_0),
    ),
    (Act::Read(Some(SERIALIZABLE_0), 0), Answer::Seen(EMPTY)),
    (Act::Write(None, &[Step::Add(0)]), Answer::Done),
    (Act::Write(None, &[Step::Remove(0)]), Answer::Done),
    (Act::Commit(SERIALIZABLE_0), Answer::Conflict(0, 0)),
];

#[test]
fn a_quad_that_came_and_went_conflicts(rt: HostRuntime) -> Result<(), StoreFault> {
    assert!(rt; is_as_told(rt.alloc(), limits(), THERE_AND_BACK)?);
    Ok(())
}

/// A quad that was there already is not changed by being added, and a removal by pattern is no read.
static NOTHING_CHANGED: &[(Act, Answer)] = &[
    (Act::Write(None, &[Step::Add(0)]), Answer::Done),
    (
        Act::Begin(Level::Serializable),
        Answer::Begun(SERIALIZABLE_1),
    ),
    (Act::Read(Some(SERIALIZABLE_1), 1), Answer::Seen(Q0)),
    (
        Act::Write(Some(SERIALIZABLE_1), &[Step::RemoveMatching(0)]),
        Answer::Done,
    ),
    (
        Act::Write(None, &[Step::Add(0), Step::Add(4)]),
        Answer::Done,
    ),
    (Act::Commit(SERIALIZABLE_1), Answer::Done),
    (Act::Read(None, 0), Answer::Seen(EMPTY)),
];

#[test]
fn what_changes_nothing_that_was_read_conflicts_with_nothing(
    rt: HostRuntime,
) -> Result<(), StoreFault> {
    assert!(rt; is_as_told(rt.alloc(), limits(), NOTHING_CHANGED)?);
    Ok(())
}
