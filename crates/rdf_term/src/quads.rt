ghost use Rattle.std.specs.Prelude.{◌≡◌, ◌↔◌, Contains, IfOk};
ghost use Rattle.std.specs.List.Sorted.{IsStrictlySortedBy};
ghost use Rattle.rdf_term.specs.Order.{quad_cmp};
ghost use Rattle.rdf_term.specs.Sets.{in_order};
ghost use Rattle.rdf_term.specs.Statement.{Statement};

use crate::{Memory, Quad, Quads, Seq};

impl Seq<Quad> {
    /// The set of these quads: in the order of quads, each once.
    ///
    /// Parts of the list that are in order already are kept as they are and merged.
    pub fn into_set(self) -> Result<Quads, Memory>
        ensures value { IfOk result (λ set. set ≡ in_order self) }
        ensures ascending { IfOk result (λ set. IsStrictlySortedBy quad_cmp set) }
        ensures members { IfOk result (λ set. (q : Statement) → Contains set q ↔ Contains self q) }
    {
        let mut quads = self.into_vec();
        quads.sort()?;
        quads.dedup();
        Ok(Quads::from_vec(quads))
    }
}
