ghost use Rattle.std.specs.Prelude.{◌≡◌, List, filter, IfOk};
ghost use Rattle.std.specs.List.Sorted.{IsStrictlySortedBy};
ghost use Rattle.rdf_term.specs.Statement.{Statement};
ghost use Rattle.rdf_term.specs.Matching.{matches};
ghost use Rattle.rdf_term.specs.Order.{quad_cmp};

use crate::{Memory, Pattern, Quads};
use std::alloc::Global;

/// What has a content, a set of quads.
pub trait Scan {
    /// The quads of the content in their order, each once.
    ghost content: { Self → List Statement };

    /// The quads of the content that match the pattern, in the order of quads, each once.
    fn scan(&self, alloc: Global, pattern: &Pattern) -> Result<Quads, Memory>
        ensures value { IfOk result (λ quads. quads ≡ filter (matches pattern.now) (content self.now)) }
        ensures ascending { IfOk result (λ quads. IsStrictlySortedBy quad_cmp quads) };
}
