ghost use Rattle.std.specs.Prelude.{◌≡◌, ◌↔◌, IsTrue};
ghost use Rattle.std.specs.Cmp.Lexicographic.{pointwise_decides};
ghost use Rattle.rdf_term.specs.SameLaws.{text_same, term_same, graph_same, quad_same};

use crate::{Graph, Quad, Seq, Term, Text};

/// A type whose `==` is equality of values.
pub trait ValueEq: Eq {
    /// `==` holds exactly of a value and itself.
    ghost same: { (x y : Self) → IsTrue (Self.PartialEq.eq x y) ↔ (x ≡ y) };
}

impl ValueEq for Text {
    ghost same = { text_same };
}

impl ValueEq for Term {
    ghost same = { term_same };
}

impl ValueEq for Graph {
    ghost same = { graph_same };
}

impl ValueEq for Quad {
    ghost same = { quad_same };
}

impl<T: ValueEq> ValueEq for Seq<T> {
    ghost same = { pointwise_decides T.same };
}
