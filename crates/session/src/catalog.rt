//! The repositories that a session serves, by their IDs.
ghost use Rattle.std.specs.Prelude.{◌≡◌, ◌∷◌, ◌++◌, [], IfOk, OnOk};
ghost use Rattle.session.specs.Houses.{AreNames};
ghost use Rattle.iso_txn.specs.Repository.{AreAllowed};

use journal::Limits;
use rdf_term::{Duplicate, Memory, Seq, Text};
use std::alloc::Global;
use std::marker::Model;

/// The IDs of the repositories of a house, in the order of their numbers, and the limits of each.
#[derive(Drop)]
pub struct Catalog {
    names: Seq<Text>,
    limits: Limits,
}

impl Model for Catalog {
    ghost use Rattle.session.specs.Houses.{Catalog as SeenCatalog, IsCatalog};

    ghost Value = { SeenCatalog };

    ghost view = { λ c. record { names = c.names; limits = c.limits } };

    ghost invariant = { λ c. IsCatalog (record { names = c.names; limits = c.limits }) };
}

/// Adds a copy of a text to a list.
fn add_copy(alloc: Global, out: &mut Seq<Text>, name: &Text) -> Result<(), Memory>
    ensures { OnOk result (out.new ≡ out.old ++ name.now ∷ []) }
{
    out.push(name.copy(alloc)?)
}

/// A list of the same texts.
fn copied(alloc: Global, names: &[Text]) -> Result<Seq<Text>, Memory>
    ensures { IfOk result (λ it. it ≡ names.now) }
{
    let mut out = Seq::new(alloc);
    for name in names {
        add_copy(alloc, &mut out, name)?;
    }
    Ok(out)
}

impl Catalog {
    pub fn new(alloc: Global, names: &[Text], limits: Limits) -> Result<Catalog, Memory>
        requires names { AreNames names.now }
        requires limits { AreAllowed limits }
        ensures names { IfOk result (λ it. it.names ≡ names.now) }
        ensures limits { IfOk result (λ it. it.limits ≡ limits) }
    {
        Ok(Catalog {
            names: copied(alloc, names)?,
            limits,
        })
    }

    /// The IDs.
    pub fn names(&self) -> &[Text]
        ensures names { result.now ≡ self.now.names }
        ensures are { AreNames self.now.names }
        ensures limits { AreAllowed self.now.limits }
    {
        self.names.as_slice()
    }
}
