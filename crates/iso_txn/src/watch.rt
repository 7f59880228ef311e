ghost use Rattle.std.specs.Prelude.{◌≡◌, ◌<◌, ◌-◌, ◌^◌, length, OnOk, OnErr};
ghost use Rattle.std.specs.Option.{option_map};
ghost use Rattle.change_set.specs.Content.{named_quads};
ghost use Rattle.journal.specs.Found.{patterns_of};
ghost use Rattle.iso_txn.specs.Watch.{AllBefore, IsUntrimmed, nothing_watched, observed_in, observing, oldest_or, watch_begun, watch_ended, watch_noted, watch_read, watched_clash};

use change_set::ChangeSet;
use conflict::{CommitLog, Observed};
use journal::{Ask, Level, Txn, patterns_of};
use rdf_term::{Memory, Pattern, Quad};
use std::alloc::Global;
use std::collections::BTreeMap;
use std::marker::Model;
use std::sync::Arc;

/// What is kept for the open SERIALIZABLE transactions: what the reads of each observed, and what
/// entries changed in the committed content since the oldest of their Begins. Where none is open, no
/// change is kept.
pub(crate) struct Watch {
    alloc: Global,
    // Each transaction by the place of its Begin.
    readers: BTreeMap<u64, Observed>,
    log: CommitLog,
}

impl Model for Watch {
    ghost use Rattle.std.specs.Prelude.{map};
    ghost use Rattle.conflict.specs.Logs.{LoggedDelta};
    ghost use Rattle.change_set.specs.Content.{named_quads};
    ghost use Rattle.iso_txn.specs.Watch.{Watch};

    ghost Value = { Watch };

    ghost view = { λ it. record { readers = it.readers.entries; changed = map (λ (delta : LoggedDelta). record { place = delta.place; quads = named_quads delta.changes }) it.log.kept; trimmed = it.log.trimmed } };
}

// By hand: a derived drop is expanded down to each pattern wherever what is watched is let go.
impl Drop for Watch {
    fn drop(self) {
        let Watch {
            alloc: _,
            readers,
            log,
        } = self;
        drop(readers);
        drop(log);
    }
}

impl Watch {
    /// Nothing watched, which takes no memory.
    pub(crate) fn new(alloc: Global) -> Watch
        ensures { result ≡ nothing_watched }
    {
        Watch {
            alloc,
            readers: BTreeMap::new(alloc),
            log: CommitLog::new(alloc),
        }
    }

    /// How many changes are kept.
    pub(crate) fn kept_deltas(&self) -> usize
        ensures { result ≡ length self.now.changed }
    {
        self.log.len()
    }

    /// Watches a transaction that begins, where it is SERIALIZABLE.
    pub(crate) fn begin(&mut self, txn: Txn) -> Result<(), Memory>
        ensures ok { OnOk result (self.new ≡ watch_begun txn self.old) }
        ensures memory { OnErr result (self.new ≡ self.old) }
    {
        if txn.level == Level::Serializable {
            self.readers.insert(txn.place, Observed::new(self.alloc))?;
        }
        Ok(())
    }

    /// Adds the patterns of a read to what its transaction observed, where that is watched.
    pub(crate) fn read(&mut self, txn: Option<Txn>, ask: &Ask) -> Result<(), Memory>
        ensures ok { OnOk result (self.new ≡ watch_read txn (patterns_of ask.now) self.old) }
        ensures memory { OnErr result (self.new ≡ self.old) }
    {
        match txn {
            None => Ok(()),
            Some(txn) => {
                if txn.level == Level::Serializable {
                    self.observe(txn.place, ask)
                } else {
                    Ok(())
                }
            }
        }
    }

    /// Adds the patterns of a read to what the transaction that began at a place observed.
    fn observe(&mut self, place: u64, ask: &Ask) -> Result<(), Memory>
        ensures readers { OnOk result (self.new ≡ record self.old { readers = observing place (patterns_of ask.now) (observed_in place self.old.readers) self.old.readers }) }
        ensures memory { OnErr result (self.new ≡ self.old) }
    {
        let Some(observed) = self.readers.get_mut(&place) else {
            return Ok(());
        };
        let patterns = patterns_of(self.alloc, ask)?;
        observed.append(patterns)
    }

    /// Keeps what the entry at a place changed, while a transaction is watched. Without memory all stays
    /// as it was.
    pub(crate) fn note(&mut self, place: u64, delta: Arc<ChangeSet>) -> Result<(), Memory>
        requires { AllBefore place self.old.changed }
        ensures ok { OnOk result (self.new ≡ watch_noted place (named_quads delta.value) self.old) }
        ensures memory { OnErr result (self.new ≡ self.old) }
    {
        if !self.readers.is_empty() {
            self.log.note(place, delta)?;
        }
        Ok(())
    }

    /// The place of the oldest Begin that is watched, or this one where there is none.
    fn oldest_or(&self, place: u64) -> u64
        ensures { result ≡ oldest_or place self.now.readers }
    {
        match self.readers.first_key_value() {
            Some((oldest, _)) => *oldest,
            None => place,
        }
    }

    /// The entry at a place ends a transaction. What was changed before the oldest Begin that is left is
    /// dropped.
    pub(crate) fn end(&mut self, place: u64, txn: Txn)
        requires { place < 2 ^ 64 - 1 }
        ensures { self.new ≡ watch_ended place txn self.old }
    {
        if txn.level != Level::Serializable {
            return;
        }
        // Its clause says that the places ascend.
        let _ = self.readers.len();
        let _ = self.readers.remove(&txn.place);
        let oldest = self.oldest_or(place + 1);
        self.log.trim(oldest);
    }

    /// The least quad that was changed since the transaction began and that its reads observed, with the
    /// first pattern that matches it. It takes no memory.
    pub(crate) fn clash(&self, txn: Txn) -> Option<(&Pattern, &Quad)>
        requires { IsUntrimmed txn.place self.now }
        ensures { option_map (λ it. (it.0.now, it.1.now)) result ≡ watched_clash self.now txn }
    {
        if txn.level != Level::Serializable {
            return None;
        }
        let observed = self.readers.get(&txn.place)?;
        self.log.check(txn.place, observed)
    }
}
