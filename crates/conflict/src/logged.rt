ghost use Rattle.std.specs.Prelude.{◌≡◌, [], ◌∷◌};
ghost use Rattle.std.specs.Option.{option_copied};
ghost use Rattle.conflict.specs.Clashes.{least_observed, quads_above};

use change_set::ChangeSet;
use rdf_term::{Pattern, Quad};
use std::marker::Model;
use std::sync::Arc;

/// What the entry at a place changed. Contracts see it as the place with the changes.
#[derive(Drop)]
pub(crate) struct Logged {
    place: u64,
    delta: Arc<ChangeSet>,
}

impl Model for Logged {
    ghost use Rattle.conflict.specs.Logs.{LoggedDelta};

    ghost Value = { LoggedDelta };

    ghost view = { λ it. record { place = it.place; changes = it.delta.value } };
}

impl Logged {
    pub(crate) fn new(place: u64, delta: Arc<ChangeSet>) -> Logged
        ensures { result ≡ record { place = place; changes = delta.value } }
    {
        Logged { place, delta }
    }

    pub(crate) fn place(&self) -> u64
        ensures { result ≡ self.now.place }
    {
        self.place
    }

    /// The least quad of the delta that one of the patterns matches, where its place is above this one.
    pub(crate) fn least_above(&self, from: u64, patterns: &[Pattern]) -> Option<&Quad>
        ensures { option_copied result ≡ least_observed patterns.now (quads_above from (self.now ∷ [])) }
    {
        if self.place > from {
            self.delta.least_touched(patterns)
        } else {
            None
        }
    }
}
