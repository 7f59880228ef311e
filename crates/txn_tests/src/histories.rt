//! Random histories at each level, each entry beside the answer of the plain program.
ghost use Rattle.std.specs.Prelude.{◌≡◌, ◌<◌};

use crate::acts::{Act, Answer, Naming, entered, repository};
use crate::plain::Plain;
use crate::quads::Step;
use iso_txn::RepoState;
use journal::{Level, Limits, StoreFault, Txn};
use std::alloc::Global;

const LEVELS: [Level; 6] = [
    Level::NoIsolation,
    Level::ReadUncommitted,
    Level::ReadCommitted,
    Level::SnapshotRead,
    Level::Snapshot,
    Level::Serializable,
];

/// Each write makes none to three changes that follow one another here.
const STEPS: [Step; 36] = [
    Step::Add(0),
    Step::Add(1),
    Step::Remove(0),
    Step::Add(7),
    Step::Add(2),
    Step::RemoveMatching(1),
    Step::Add(3),
    Step::Add(4),
    Step::Remove(4),
    Step::Add(5),
    Step::Add(0),
    Step::Remove(7),
    Step::Add(6),
    Step::RemoveMatching(2),
    Step::Add(2),
    Step::Remove(1),
    Step::Remove(5),
    Step::Add(1),
    Step::Add(4),
    Step::Add(7),
    Step::Remove(3),
    Step::RemoveMatching(3),
    Step::Add(6),
    Step::Add(3),
    Step::Remove(2),
    Step::Add(5),
    Step::Add(5),
    Step::Remove(6),
    Step::Add(0),
    Step::RemoveMatching(0),
    Step::Add(2),
    Step::Add(7),
    Step::Remove(0),
    Step::Add(4),
    Step::Remove(4),
    Step::Add(1),
];

/// The numbers of a linear congruential generator.
#[derive(Drop)]
struct Numbers {
    state: u64,
}

impl Numbers {
    /// The next number, below a bound.
    fn below(&mut self, bound: u64) -> usize
        requires { 0 < bound }
    {
        self.state = self
            .state
            .wrapping_mul(6_364_136_223_846_793_005)
            .wrapping_add(1_442_695_040_888_963_407);
        ((self.state >> 33) % bound) as usize
    }

    fn steps(&mut self) -> &'static [Step] {
        let start = self.below(36);
        let count = self.below(4);
        match STEPS.get(start..start.saturating_add(count)) {
            Some(steps) => steps,
            None => &STEPS,
        }
    }

    fn level(&mut self) -> Level {
        match LEVELS.get(self.below(LEVELS.len() as u64)) {
            Some(level) => *level,
            None => Level::Snapshot,
        }
    }

    /// One of the open transactions, or now and then one that may not be open.
    fn txn(&mut self, open: &[Txn]) -> Txn {
        let count = open.len() as u64;
        if count > 0 && self.below(8) > 0 {
            if let Some(txn) = open.get(self.below(count)) {
                return *txn;
            }
        }
        Txn {
            place: self.below(50) as u64,
            level: self.level(),
        }
    }

    fn maybe_txn(&mut self, open: &[Txn]) -> Option<Txn> {
        if self.below(4) == 0 {
            return None;
        }
        Some(self.txn(open))
    }

    fn naming(&mut self) -> Naming {
        match self.below(9) {
            0 | 1 => Naming::List,
            2 | 3 => Naming::Get(self.below(3)),
            4..=6 => Naming::Put(self.below(3), self.below(2)),
            7 => Naming::Remove(self.below(3)),
            _ => Naming::Clear,
        }
    }

    fn act(&mut self, open: &[Txn]) -> Act {
        match self.below(22) {
            0..=2 => Act::Begin(self.level()),
            3..=8 => Act::Write(self.maybe_txn(open), self.steps()),
            9..=14 => Act::Read(self.maybe_txn(open), self.below(4)),
            15..=17 => Act::Commit(self.txn(open)),
            18 => Act::Rollback(self.txn(open)),
            19 => Act::Ping(self.txn(open)),
            _ => Act::Names(self.naming()),
        }
    }
}

/// Few quads, bytes, transactions and prefixes, so that each limit is met. The bytes of five of the
/// eight quads may be too many, and not those of four.
pub(crate) fn limits() -> Limits
    ensures { result ≡ record { quads = 5; bytes = 145; rows = 10; txns = 4; names = 2; places = 1000000 } }
{
    Limits {
        quads: 5,
        bytes: 145,
        rows: 10,
        txns: 4,
        names: 2,
        places: 1_000_000,
    }
}

fn is_same_size(repo: &RepoState, plain: &Plain) -> bool {
    plain.is_kept_right()
        && repo.length() == plain.length()
        && repo.quads() == plain.quads()
        && repo.commits() == plain.commits()
}

/// Notes which transactions are open behind an entry.
fn note(open: &mut Vec<Txn>, act: Act, answer: Answer) -> Result<(), StoreFault> {
    match (act, answer) {
        (_, Answer::Begun(txn)) => open.push(txn)?,
        (Act::Commit(txn) | Act::Rollback(txn), Answer::Done) => open.retain(|other| *other != txn),
        _ => {}
    }
    Ok(())
}

/// Enters random entries, and whether each answer is that of the plain program.
fn are_answered(
    alloc: Global,
    numbers: &mut Numbers,
    repo: &mut RepoState,
    plain: &mut Plain,
    calls: u64,
) -> Result<bool, StoreFault> {
    let mut open = Vec::new(alloc);
    for _ in 0..calls {
        let act = numbers.act(open.as_slice());
        let answer = entered(alloc, repo, act)?;
        if answer != plain.enter(act)? {
            return Ok(false);
        }
        note(&mut open, act, answer)?;
    }
    Ok(is_same_size(repo, plain))
}

/// The same of a repository without entries and of numbers by their seed.
fn agree(alloc: Global, seed: u64, calls: u64) -> Result<bool, StoreFault> {
    let mut numbers = Numbers { state: seed };
    let mut repo = repository(alloc, limits())?;
    let mut plain = Plain::new(alloc, limits());
    are_answered(alloc, &mut numbers, &mut repo, &mut plain, calls)
}

#[test]
fn random_histories_are_answered_by_the_definitions(rt: HostRuntime) -> Result<(), StoreFault> {
    let alloc = rt.alloc();
    for seed in 1..11 {
        assert!(rt; agree(alloc, seed, 200)?, "seed {seed}");
    }
    Ok(())
}

#[test]
fn a_long_history_is_answered_by_the_definitions(rt: HostRuntime) -> Result<(), StoreFault> {
    assert!(rt; agree(rt.alloc(), 11, 2_000)?);
    Ok(())
}
