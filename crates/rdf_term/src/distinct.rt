ghost use Rattle.std.specs.Prelude.{◌≡◌, ◌↔◌, [], ◌∷◌, ◌++◌, length, slice_get, OnOk, OnErr, Contains, IsTrue};
ghost use Rattle.std.specs.Cmp.Lexicographic.{pointwise, lists_per, lists_equiv};
ghost use Rattle.std.specs.Option.{option_copied};
ghost use Rattle.rdf_term.specs.EachOnce.{EachOnce};

use crate::seq::copied;
use crate::{Duplicate, Memory, ValueEq};
use std::alloc::Global;
use std::marker::Model;

/// A list whose items are distinct, which contracts see as the list of its items.
#[derive(Debug, Drop)]
pub struct Distinct<T> {
    items: Vec<T>,
}

impl<T> Model for Distinct<T> {
    ghost use Rattle.std.specs.Prelude.{List};
    ghost use Rattle.std.specs.Coded.{coded_list};
    ghost use Rattle.rdf_term.specs.EachOnce.{EachOnce};

    ghost Value = { List T };

    ghost coded = { coded_list T.code };

    ghost view = { λ it. it.items.items };

    ghost invariant = { λ it. EachOnce it.items.items };
}

impl<T> Distinct<T> {
    /// An empty list, which takes no memory.
    pub fn new(alloc: Global) -> Distinct<T>
        ensures { result ≡ [] }
    {
        Distinct {
            items: Vec::new(alloc),
        }
    }

    /// The number of items.
    pub fn len(&self) -> usize
        ensures { result ≡ length self.now }
    {
        self.items.len()
    }

    /// The item at a place, from 0, where there is one.
    pub fn at(&self, place: usize) -> Option<&T>
        ensures { option_copied result ≡ slice_get self.now place }
    {
        self.items.get(place)
    }

    /// All items in their order.
    pub fn as_slice(&self) -> &[T]
        ensures value { result.now ≡ self.now }
        ensures distinct { EachOnce self.now }
    {
        self.items.as_slice()
    }
}

impl<T: Drop> Distinct<T> {
    /// Adds an item that is not in the list at the end. Without memory the list stays as it was.
    pub fn push(&mut self, item: T) -> Result<(), Memory>
        requires { Contains self.old item → ⊥ }
        ensures ok { OnOk result (self.new ≡ self.old ++ item ∷ []) }
        ensures memory { OnErr result (self.new ≡ self.old) }
    {
        self.items.push(item)?;
        Ok(())
    }
}

impl<T: Duplicate> Duplicate for Distinct<T> {
    fn copy(&self, alloc: Global) -> Result<Distinct<T>, Memory> {
        Ok(Distinct {
            items: copied(alloc, self.items.as_slice())?,
        })
    }
}

impl<T: ValueEq> PartialEq for Distinct<T> {
    ghost eq = { pointwise T.eq };

    ghost laws = { lists_per T.PartialEq.laws };

    fn eq(&self, other: &Distinct<T>) -> bool
        ensures value { result ≡ pointwise T.eq self.now other.now }
        ensures same { IsTrue result ↔ (self.now ≡ other.now) }
    {
        self.as_slice() == other.as_slice()
    }
}

impl<T: ValueEq> Eq for Distinct<T> {
    ghost laws = { lists_equiv T.Eq.laws };
}
