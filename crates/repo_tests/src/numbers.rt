//! Random entries.
ghost use Rattle.std.specs.Prelude.{◌<◌, ◌≡◌};

use crate::acts::{Act, Naming};
use crate::asks::{ASKS, ask_at, steps_of};
use crate::quads::Edit;
use crate::replies::Answer;
use journal::{Level, Limits, Txn};
use std::alloc::AllocError;

const LEVELS: [Level; 6] = [
    Level::NoIsolation,
    Level::ReadUncommitted,
    Level::ReadCommitted,
    Level::SnapshotRead,
    Level::Snapshot,
    Level::Serializable,
];

/// Each write makes none to three changes that follow one another here.
const EDITS: [Edit; 30] = [
    Edit::Add(0),
    Edit::Add(1),
    Edit::Remove(0),
    Edit::Add(7),
    Edit::Add(2),
    Edit::RemoveSubject(0),
    Edit::Add(3),
    Edit::Add(4),
    Edit::Remove(4),
    Edit::Add(5),
    Edit::Add(6),
    Edit::Add(1),
    Edit::Remove(7),
    Edit::Add(5),
    Edit::RemoveSubject(1),
    Edit::Add(2),
    Edit::Add(4),
    Edit::Remove(1),
    Edit::Remove(5),
    Edit::Add(1),
    Edit::Add(3),
    Edit::Add(7),
    Edit::Remove(3),
    Edit::RemoveSubject(2),
    Edit::Add(6),
    Edit::Add(4),
    Edit::Remove(2),
    Edit::Add(5),
    Edit::Remove(6),
    Edit::Add(0),
];

/// The numbers of a linear congruential generator.
#[derive(Drop)]
pub(crate) struct Numbers {
    state: u64,
}

impl Numbers {
    /// The numbers of a seed.
    pub(crate) fn new(seed: u64) -> Numbers {
        Numbers { state: seed }
    }

    /// The next number, below a bound.
    pub(crate) fn below(&mut self, bound: u64) -> usize
        requires { 0 < bound }
    {
        self.state = self
            .state
            .wrapping_mul(6_364_136_223_846_793_005)
            .wrapping_add(1_442_695_040_888_963_407);
        ((self.state >> 33) % bound) as usize
    }

    /// One of three seats.
    pub(crate) fn seat(&mut self) -> u32 {
        match self.below(3) {
            0 => 0,
            1 => 1,
            _ => 2,
        }
    }

    fn edits(&mut self) -> &'static [Edit] {
        let start = self.below(30);
        let count = self.below(4);
        match EDITS.get(start..start.saturating_add(count)) {
            Some(edits) => edits,
            None => &[Edit::Add(2)],
        }
    }

    fn level(&mut self) -> Level {
        match LEVELS.get(self.below(6)) {
            Some(level) => *level,
            None => Level::Serializable,
        }
    }

    /// One of the open transactions, or now and then one that may not be open.
    fn txn(&mut self, open: &[Txn]) -> Txn {
        let count = open.len() as u64;
        if count > 0 && self.below(10) > 0 {
            if let Some(txn) = open.get(self.below(count)) {
                return *txn;
            }
        }
        Txn {
            place: self.below(50) as u64,
            level: self.level(),
        }
    }

    fn maybe_txn(&mut self, open: &[Txn]) -> Option<Txn> {
        if self.below(4) == 0 {
            return None;
        }
        Some(self.txn(open))
    }

    fn naming(&mut self) -> Naming {
        match self.below(8) {
            0 | 1 => Naming::List,
            2 | 3 => Naming::Get,
            4 | 5 => Naming::Put(self.below(2)),
            6 => Naming::Remove,
            _ => Naming::Clear,
        }
    }

    /// An ask, at READ_COMMITTED also in Steps where it is a query.
    fn ask(&mut self, txn: Option<Txn>) -> Act {
        let ask = self.below(ASKS.len() as u64);
        let Some(txn) = txn else {
            return Act::Read(None, ask);
        };
        let can_step = txn.level == Level::ReadCommitted && steps_of(ask_at(ask)) > 0;
        if can_step && self.below(4) > 0 {
            return Act::Steps(txn, ask);
        }
        Act::Read(Some(txn), ask)
    }

    fn read(&mut self, open: &[Txn]) -> Act {
        let txn = self.maybe_txn(open);
        self.ask(txn)
    }

    /// An act of whatever kind but a Begin.
    fn later_act(&mut self, open: &[Txn]) -> Act {
        match self.below(20) {
            0..=6 => Act::Write(self.maybe_txn(open), self.edits()),
            7..=13 => self.read(open),
            14..=16 => Act::Commit(self.txn(open)),
            17 => Act::Rollback(self.txn(open)),
            18 => Act::Ping(self.txn(open)),
            _ => Act::Names(self.naming()),
        }
    }

    /// An act at whatever level.
    pub(crate) fn act(&mut self, open: &[Txn]) -> Act {
        if self.below(7) == 0 {
            return Act::Begin(self.level());
        }
        self.later_act(open)
    }

    /// An act where all transactions are SERIALIZABLE.
    pub(crate) fn serializable_act(&mut self, open: &[Txn]) -> Act {
        if self.below(6) == 0 {
            return Act::Begin(Level::Serializable);
        }
        self.later_act(open)
    }
}

fn take_out(open: &mut Vec<Txn>, txn: Txn) {
    for place in 0..open.len() {
        if open.get(place) == Some(&txn) {
            open.swap_remove(place);
            return;
        }
    }
}

/// Notes which transactions are open behind an entry.
pub(crate) fn note(open: &mut Vec<Txn>, act: Act, answer: Answer) -> Result<(), AllocError> {
    match (act, answer) {
        (_, Answer::Begun(txn)) => open.push(txn)?,
        (Act::Commit(txn) | Act::Rollback(txn), Answer::Done) => take_out(open, txn),
        _ => {}
    }
    Ok(())
}

/// Few quads, bytes, rows and transactions, so that each limit is met. The bytes of six of the eight
/// quads may be too many.
pub(crate) fn limits() -> Limits
    ensures { result ≡ record { quads = 6; bytes = 180; rows = 3; txns = 4; names = 1; places = 1000000 } }
{
    Limits {
        quads: 6,
        bytes: 180,
        rows: 3,
        txns: 4,
        names: 1,
        places: 1_000_000,
    }
}
