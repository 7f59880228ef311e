ghost use Rattle.std.specs.Prelude.{◌≡◌, IfOk, refl};
ghost use Rattle.std.specs.Ordering.{eq_by_cmp, as_partial_cmp};
ghost use Rattle.std.specs.Cmp.{partial_equiv_from_equiv, partial_order_from_total};
ghost use Rattle.std.proofs.lemmas.Cmp.{eq_by_cmp_equiv};
ghost use Rattle.rdf_term.specs.Order.{quad_cmp};
ghost use Rattle.change_set.specs.Kept.{marked_cmp, marked_total};

use crate::effect::Mark;
use rdf_term::{Duplicate, Memory, Quad};
use std::alloc::Global;
use std::cmp::Ordering;
use std::marker::Model;
use std::sync::Arc;

/// A named quad, which sets of changes share, with what the last change that touches it does.
///
/// They are ordered by their quads alone, so that of several marks of one quad one can be kept.
#[derive(Drop)]
pub struct Marked {
    quad: Arc<Quad>,
    mark: Mark,
}

impl Model for Marked {
    ghost use Rattle.rdf_term.specs.Statement.{Statement};
    ghost use Rattle.change_set.specs.declared.effect.Mark.{Mark};

    ghost Value = { Statement × Mark };

    ghost view = { λ it. (it.quad.value, it.mark) };
}

impl Marked {
    /// A copy of the quad with a mark.
    pub(crate) fn new(alloc: Global, quad: &Quad, mark: Mark) -> Result<Marked, Memory>
        ensures { IfOk result (λ it. it ≡ (quad.now, mark)) }
    {
        Ok(Marked {
            quad: Arc::new(alloc, quad.copy(alloc)?)?,
            mark,
        })
    }

    /// The same quad, shared, with the same mark.
    pub(crate) fn share(&self) -> Result<Marked, Memory>
        ensures { IfOk result (λ it. it ≡ self.now) }
    {
        Ok(Marked {
            quad: Arc::try_clone(&self.quad)?,
            mark: self.mark,
        })
    }

    /// The quad with another mark.
    pub(crate) fn with_mark(self, mark: Mark) -> Marked
        ensures { result ≡ (self.0, mark) }
    {
        let Marked { quad, mark: _ } = self;
        Marked { quad, mark }
    }

    /// The quad.
    pub fn quad(&self) -> &Quad
        ensures { result.now ≡ self.now.0 }
    {
        &self.quad
    }

    /// What the last change that touches it does.
    pub fn mark(&self) -> Mark
        ensures { result ≡ self.now.1 }
    {
        self.mark
    }

    /// Where the quad stands to another one.
    pub(crate) fn order_to(&self, quad: &Quad) -> Ordering
        ensures { result ≡ quad_cmp self.now.0 quad.now }
    {
        self.quad().cmp(quad)
    }

    /// The order of the quads.
    fn order(&self, other: &Marked) -> Ordering
        ensures { result ≡ marked_cmp self.now other.now }
    {
        self.order_to(other.quad())
    }
}

impl PartialEq for Marked {
    ghost eq = { eq_by_cmp marked_cmp };

    ghost laws = { partial_equiv_from_equiv (eq_by_cmp_equiv marked_total) };

    fn eq(&self, other: &Marked) -> bool {
        self.order(other).is_eq()
    }
}

impl Eq for Marked {
    ghost laws = { eq_by_cmp_equiv marked_total };
}

impl PartialOrd for Marked {
    ghost partial_cmp = { as_partial_cmp marked_cmp };

    ghost laws = { partial_order_from_total marked_total };

    fn partial_cmp(&self, other: &Marked) -> Option<Ordering> {
        Some(self.order(other))
    }
}

impl Ord for Marked {
    ghost cmp = { marked_cmp };

    ghost total = { marked_total };

    ghost matches_partial_cmp = { λ x y. refl };

    ghost matches_eq = { λ x y. refl };

    fn cmp(&self, other: &Marked) -> Ordering {
        self.order(other)
    }
}
