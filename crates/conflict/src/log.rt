ghost use Rattle.std.specs.Prelude.{◌≡◌, ◌+◌, ◌<◌, ◌≤◌, ◌∷◌, ◌++◌, [], filter, length, max, nat_le, OnOk, OnErr};
ghost use Rattle.std.specs.Option.{option_map};
ghost use Rattle.conflict.specs.Logs.{AllBelow};
ghost use Rattle.conflict.specs.Clashes.{clash_above};

use crate::logged::Logged;
use crate::{Observed, search};
use change_set::ChangeSet;
use rdf_term::{Memory, Pattern, Quad};
use std::alloc::Global;
use std::marker::Model;
use std::sync::Arc;

/// What committed entries changed, from the oldest place that is kept to the newest.
///
/// Contracts see it as the list of its kept places, each with its delta, and the greatest number given
/// to `trim`, 0 at first.
pub struct CommitLog {
    kept: Vec<Logged>,
    trimmed: u64,
}

impl Model for CommitLog {
    ghost use Rattle.conflict.specs.Logs.{LogValue};

    ghost Value = { LogValue };

    ghost view = { λ it. record { kept = it.kept.items; trimmed = it.trimmed } };
}

// By hand: a derived drop is expanded down to each quad wherever a log is let go.
impl Drop for CommitLog {
    fn drop(self) {
        let CommitLog { kept, trimmed: _ } = self;
        drop(kept);
    }
}

impl CommitLog {
    /// A log that keeps nothing, which takes no memory.
    pub fn new(alloc: Global) -> CommitLog
        ensures { result ≡ record { kept = []; trimmed = 0 } }
    {
        CommitLog {
            kept: Vec::new(alloc),
            trimmed: 0,
        }
    }

    /// How many deltas are kept.
    pub fn len(&self) -> usize
        ensures { result ≡ length self.now.kept }
    {
        self.kept.len()
    }

    /// Keeps the quads that the entry at a place changed, which are those that the delta names. The
    /// place is above all kept ones. The delta is shared and not copied. Without memory the log stays
    /// as it was.
    pub fn note(&mut self, place: u64, delta: Arc<ChangeSet>) -> Result<(), Memory>
        requires above { AllBelow place self.old.kept }
        ensures kept { OnOk result (self.new.kept ≡ self.old.kept ++ record { place = place; changes = delta.value } ∷ []) }
        ensures trimmed { self.new.trimmed ≡ self.old.trimmed }
        ensures memory { OnErr result (self.new ≡ self.old) }
    {
        self.kept.push(Logged::new(place, delta))?;
        Ok(())
    }

    /// Drops the deltas of the places below this one. It takes no memory.
    pub fn trim(&mut self, before: u64)
        ensures kept { self.new.kept ≡ filter (λ it. nat_le before it.place) self.old.kept }
        ensures trimmed { self.new.trimmed ≡ max self.old.trimmed before }
    {
        self.kept.retain(|logged| logged.place() >= before);
        self.trimmed = self.trimmed.max(before);
    }

    /// The least quad that a kept delta of a place above `from` names and an observed pattern matches,
    /// with the first such pattern, or none exactly where there is no such quad. Nothing above `from`
    /// was trimmed. It takes no memory.
    pub fn check<'a>(&'a self, from: u64, observed: &'a Observed) -> Option<(&'a Pattern, &'a Quad)>
        requires { self.now.trimmed ≤ from + 1 }
        ensures { option_map (λ it. (it.0.now, it.1.now)) result ≡ clash_above from self.now.kept observed.now }
    {
        let patterns = observed.patterns();
        let quad = search::least_above(self.kept.as_slice(), from, patterns)?;
        let pattern = search::first_matching(patterns, quad)?;
        Some((pattern, quad))
    }
}
