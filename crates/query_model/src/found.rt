use crate::Table;
use rdf_term::{Duplicate, Memory, Quads};
use std::alloc::Global;

/// What is found for a query.
#[derive(Debug, Drop)]
pub enum Found {
    /// The rows of a SELECT.
    Table(Table),
    /// Whether there is a solution, for an ASK.
    Truth(bool),
    /// The triples of a CONSTRUCT, in the absent graph.
    Quads(Quads),
}

impl Duplicate for Found {
    fn copy(&self, alloc: Global) -> Result<Found, Memory> {
        Ok(match self {
            Found::Table(table) => Found::Table(table.copy(alloc)?),
            Found::Truth(truth) => Found::Truth(*truth),
            Found::Quads(quads) => Found::Quads(quads.copy(alloc)?),
        })
    }
}
