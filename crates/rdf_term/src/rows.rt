ghost use Rattle.std.specs.Prelude.{◌≡◌, IfOk};
ghost use Rattle.std.specs.List.Sorted.{IsPermutation, IsSorted};
ghost use Rattle.rdf_term.specs.Order.{row_cmp};
ghost use Rattle.rdf_term.specs.Sets.{rows_in_order};

use crate::{Memory, Row, Rows, Seq};

impl Seq<Row> {
    /// The same rows in the order of rows, each as often as it stood there.
    pub fn into_sorted(self) -> Result<Rows, Memory>
        ensures value { IfOk result (λ rows. rows ≡ rows_in_order self) }
        ensures sorted { IfOk result (λ rows. IsSorted row_cmp rows) }
        ensures permutation { IfOk result (λ rows. IsPermutation self rows) }
    {
        let mut rows = self.into_vec();
        rows.sort()?;
        Ok(Rows::from_vec(rows))
    }
}
