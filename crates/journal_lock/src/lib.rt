//! A lock whose value stands for a list of entries, which threads lengthen by turns.
//!
//! A thread that has a [`Pass`] of the lock takes the turn, works on the value alone, and gives it
//! back with one entry more or with none. Contracts see a pass as its seat number, the list of
//! entries that it has seen, the fixed part of the lock's first value and whether it has the turn.
//! Each pass's list is a first part of one list, the same for all, so what two threads know of it
//! never contradicts; and every entry carries the seat number of the pass that added it.
//!
//! Nothing is said of progress: a pass that waits may wait for ever.
#![tactic(auto)]

ghost use Rattle.std.specs.Prelude.{◌≡◌, ℕ, List};

mod calls;
mod ends;
mod lock;
mod pass;
mod plays;
mod table;
mod waiting;

pub use lock::JournalLock;
pub use pass::{Held, Pass};

/// A value that stands for a list of entries, and has a part that no call changes.
pub trait Journaled {
    type Entry;

    /// What the fixed part is.
    ghost Fixed: { Type 0 };

    /// The list that the value stands for.
    ghost entries: { Self → List Self.Entry };

    /// The value's fixed part.
    ghost fixed: { Self → Fixed };

    /// The seat number that an entry carries.
    ghost number: { Self.Entry → ℕ };
}
