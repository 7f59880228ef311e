//! What each step on the table tells the seat that makes it. The specs say it in `Rule`.
ghost use Rattle.std.specs.Prelude.{List, []};

use crate::Journaled;
use crate::table::View;
use atomic_table::{Join, Play, Split};
use std::marker::{Brand, PhantomData};
use std::snapshot::Snapshot;

/// The turn was free and is taken with the value, or another pass has it.
pub(crate) struct TakeTurn;

impl<V: Journaled> Play<Option<V>, View<V::Entry, Snapshot<V>>> for TakeTurn {
    ghost use Rattle.journal_lock.specs.Rule.{takes};

    ghost then = { λ st m n m'. takes V.entries V.fixed (λ o. V.fixed o.value) V.number m n m' };
}

/// The entries that a step adds. A step is told numbers alone, so each call picks them by `Brand`.
pub(crate) trait Adding<E> {
    ghost added: { List E };
}

impl<E> Adding<E> for Brand {
    ghost added = { [] };
}

/// The pass with the turn adds entries.
pub(crate) struct AddEntry<B> {
    by: PhantomData<B>,
}

impl<V, E, F, B: Adding<E>> Play<Option<V>, View<E, F>> for AddEntry<B> {
    ghost use Rattle.journal_lock.specs.Rule.{counts};

    ghost then = { λ st m n m'. counts B.added m n m' };
}

/// The turn and the value are given back.
pub(crate) struct FreeTurn;

impl<V, E, F> Play<Option<V>, View<E, F>> for FreeTurn {
    ghost use Rattle.journal_lock.specs.Rule.{frees};

    ghost then = { λ st m n m'. frees m m' };
}

/// A pass is made, with the next number.
pub(crate) struct MakePass;

impl<E, F> Split<View<E, F>> for MakePass {
    ghost use Rattle.journal_lock.specs.Rule.{one_more, new_pass};

    ghost left = { one_more };

    ghost right = { new_pass };
}

/// A seat is made that takes in the passes.
pub(crate) struct EnterCloser;

impl<V, E, F> Play<Option<V>, View<E, F>> for EnterCloser {
    ghost use Rattle.journal_lock.specs.Rule.{enters};

    ghost then = { λ st m n m'. enters m n m' };
}

/// A pass is taken in, and what it had seen is kept.
pub(crate) struct GatherPass;

impl<E, F> Join<View<E, F>> for GatherPass {
    ghost use Rattle.journal_lock.specs.Rule.{gathered, spent};

    ghost both = { gathered };

    ghost spent = { spent };
}

/// With all passes taken in, the whole list is seen.
pub(crate) struct SeeWhole;

impl<V: Journaled> Play<Option<V>, View<V::Entry, Snapshot<V>>> for SeeWhole {
    ghost use Rattle.journal_lock.specs.Rule.{sees};

    ghost then = { λ st m n m'. sees V.number m n m' };
}

/// A seat is made that outlives the table, and knows the whole list.
pub(crate) struct LeaveWitness;

impl<E, F> Split<View<E, F>> for LeaveWitness {
    ghost use Rattle.journal_lock.specs.Rule.{witness};

    ghost left = { λ v. v };

    ghost right = { witness };
}
