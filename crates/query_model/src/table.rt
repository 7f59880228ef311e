use rdf_term::{Distinct, Duplicate, Memory, Rows, Text};
use std::alloc::Global;

/// Distinct names of variables.
pub type Names1 = Distinct<Text>;

/// A table of solutions: its variables, and rows with one place for each of them.
#[derive(Debug, Drop)]
pub struct Table {
    pub vars: Names1,
    pub rows: Rows,
}

impl Duplicate for Table {
    fn copy(&self, alloc: Global) -> Result<Table, Memory> {
        Ok(Table {
            vars: self.vars.copy(alloc)?,
            rows: self.rows.copy(alloc)?,
        })
    }
}
