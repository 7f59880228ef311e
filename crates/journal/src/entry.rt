use crate::Op;
use rdf_term::{Duplicate, Memory};
use std::alloc::Global;

/// An entry of a journal, with the number of the seat that made it.
#[derive(Debug, Drop)]
pub struct Entry {
    pub seat: u32,
    pub op: Op,
}

/// Where an entry stands: the number of its repository, and its place in that one's journal.
#[derive(Clone, Copy, Debug, PartialEq, Eq)]
pub struct Mark {
    pub repo: u32,
    pub place: u64,
}

impl Duplicate for Entry {
    fn copy(&self, alloc: Global) -> Result<Entry, Memory> {
        Ok(Entry {
            seat: self.seat,
            op: self.op.copy(alloc)?,
        })
    }
}
