//! A list of entries that is in the proofs alone: it takes no memory and no code is left of it.
//!
//! A value that stands for a list which it doesn't store keeps a `Story`, and its contracts speak of
//! that list as if it were stored.
#![tactic(auto)]

ghost use Rattle.std.specs.Prelude.{◌≡◌, ◌∷◌, ◌++◌, []};

use std::marker::Model;
use std::snapshot::Snapshot;

/// A list of entries, the oldest first. Contracts see it as that list.
#[derive(Drop)]
#[cycle(story)]
pub struct Story<E> {
    last: Link<E>,
}

/// A snapshot of an earlier story has no bytes, so a chain of these is one tag.
#[derive(Drop)]
#[cycle(story)]
enum Link<E> {
    Nothing,
    After(Snapshot<Story<E>>, Snapshot<E>),
}

impl<E> Model for Story<E> {
    ghost use Rattle.std.specs.Prelude.{List, length};

    ghost Value = { List E };

    ghost use Rattle.story.specs.Told.{told};

    ghost view = { λ s. told s.last };

    ghost size = { length };

    ghost use Rattle.std.proofs.Common.{arith, length-append};

    ghost size_decreases = { λ a h. Prim.grind (arith, length-append) };
}

impl<E> Story<E> {
    /// The story of no entry.
    pub fn new() -> Story<E>
        ensures { result ≡ [] }
    {
        Story {
            last: Link::Nothing,
        }
    }

    /// The story with this entry behind the others. The entry stays where it is.
    pub fn after(&self, entry: &E) -> Story<E>
        ensures { result ≡ self.now ++ entry.now ∷ [] }
    {
        Story {
            last: Link::After(Snapshot::of(self), Snapshot::of(entry)),
        }
    }
}
