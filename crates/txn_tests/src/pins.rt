//! Pins of a large content that are held at once: each shares what it stands on.
use crate::acts::{Answer, begun, repository};
use crate::quads::{ask, pattern, quad_of};
use change_set::{Change, Changes};
use iso_txn::{Pinned, RepoState};
use journal::{Level, Limits, Reply, StoreFault, Txn};
use rdf_term::{GraphPick, Memory, Quad};
use std::alloc::Global;

const QUADS: u64 = 100_000;

const PINS: u64 = 10_000;

/// Levels, and how many quads a transaction of each sees that adds one.
const LEVELS: [(Level, u64); 6] = [
    (Level::NoIsolation, QUADS + 1),
    (Level::ReadUncommitted, QUADS + 2),
    (Level::ReadCommitted, QUADS + 2),
    (Level::SnapshotRead, QUADS + 2),
    (Level::Snapshot, QUADS + 2),
    (Level::Serializable, QUADS + 2),
];

/// The quad `<http://e/sN> <http://e/p> "N" .` of a number.
fn numbered(alloc: Global, number: u64) -> Result<Quad, Memory> {
    let line = format!(in alloc; "<http://e/s{number}> <http://e/p> \"{number}\" .")?;
    quad_of(alloc, line.as_str())
}

/// The changes that add the quads of these numbers.
fn adding(alloc: Global, start: u64, end: u64) -> Result<Changes, Memory> {
    let mut changes = Changes::new(alloc);
    for number in start..end {
        changes.push(Change::Add(numbered(alloc, number)?))?;
    }
    Ok(changes)
}

/// Adds the quads of these numbers, in a transaction or outside.
fn add(
    alloc: Global,
    repo: &mut RepoState,
    txn: Option<Txn>,
    start: u64,
    end: u64,
) -> Result<bool, StoreFault> {
    let changes = adding(alloc, start, end)?;
    let reply = repo.write(0, txn, &changes)?;
    Ok(matches!(&reply, Reply::Done))
}

/// Begins a transaction that adds the quad of the number of its Begin's place behind the others.
fn begun_adding(alloc: Global, repo: &mut RepoState, level: Level) -> Result<Txn, StoreFault> {
    let Answer::Begun(txn) = begun(repo, level)? else {
        return Err(StoreFault::JournalFull);
    };
    let number = QUADS.saturating_add(txn.place);
    if !add(alloc, repo, Some(txn), number, number.saturating_add(1))? {
        return Err(StoreFault::JournalFull);
    }
    Ok(txn)
}

fn pin(alloc: Global, repo: &mut RepoState, txn: Option<Txn>) -> Result<Pinned, StoreFault> {
    let ask = ask(alloc, 0)?;
    repo.pin_read(0, txn, &ask)
}

/// Reads of a transaction, or of none, so many.
fn pins(
    alloc: Global,
    repo: &mut RepoState,
    txn: Option<Txn>,
    count: u64,
) -> Result<Vec<Pinned>, StoreFault> {
    let mut pins = Vec::new(alloc);
    for _ in 0..count {
        pins.push(pin(alloc, repo, txn)?)?;
    }
    Ok(pins)
}

/// How many quads a pin sees.
fn count(pinned: Option<&Pinned>) -> u64 {
    match pinned {
        Some(pinned) => match pinned.views().first() {
            Some(view) => view.count(&pattern(None, None, GraphPick::Any)),
            None => 0,
        },
        None => 0,
    }
}

/// How many of the pins see a quad.
fn holding(pins: &[Pinned], quad: &Quad) -> u64 {
    let mut found = 0u64;
    for pinned in pins {
        if let Some(view) = pinned.views().first() {
            if view.holds(quad) {
                found = found.saturating_add(1);
            }
        }
    }
    found
}

/// A repository of the quads of the numbers below this one.
fn loaded(alloc: Global, count: u64) -> Result<RepoState, StoreFault> {
    let mut repo = repository(alloc, Limits::standard())?;
    let _ = add(alloc, &mut repo, None, 0, count)?;
    Ok(repo)
}

/// Whether pins outside of transactions all see the last quad, and none what is added behind them.
fn are_held_outside(alloc: Global, repo: &mut RepoState) -> Result<bool, StoreFault> {
    let last = numbered(alloc, QUADS - 1)?;
    let pins = pins(alloc, repo, None, PINS)?;
    let added = add(alloc, repo, None, QUADS, QUADS + 1)?;
    Ok(
        added
            && holding(pins.as_slice(), &last) == PINS
            && count(pins.first()) == QUADS
            && count(pins.last()) == QUADS,
    )
}

#[test]
fn pins_held(rt: HostRuntime) -> Result<(), StoreFault> {
    let alloc = rt.alloc();
    let mut repo = loaded(alloc, QUADS)?;
    assert!(rt; are_held_outside(alloc, &mut repo)?);
    assert!(rt; repo.quads() == QUADS + 1);
    Ok(())
}

/// Whether pins of a transaction of the level all see its own quad, and so many quads.
fn are_held(
    alloc: Global,
    repo: &mut RepoState,
    level: Level,
    wanted: u64,
) -> Result<bool, StoreFault> {
    let txn = begun_adding(alloc, repo, level)?;
    let own = numbered(alloc, QUADS.saturating_add(txn.place))?;
    let pins = pins(alloc, repo, Some(txn), 2_000)?;
    Ok(holding(pins.as_slice(), &own) == 2_000 && count(pins.last()) == wanted)
}

#[test]
fn pins_of_each_level_held(rt: HostRuntime) -> Result<(), StoreFault> {
    let alloc = rt.alloc();
    let mut repo = loaded(alloc, QUADS)?;
    for (level, wanted) in LEVELS {
        assert!(rt; are_held(alloc, &mut repo, level, wanted)?, "{level:?}");
    }
    Ok(())
}
