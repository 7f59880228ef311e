//! Quads as four numbers.
ghost use Rattle.std.specs.Prelude.{◌≡◌, ◌≤◌, [], ◌∷◌, ◌++◌, not, length, filter, IfOk, refl};
ghost use Rattle.std.specs.Ordering.{eq_by_cmp, as_partial_cmp};
ghost use Rattle.std.specs.Cmp.{partial_equiv_from_equiv, partial_order_from_total};
ghost use Rattle.std.proofs.lemmas.Cmp.{eq_by_cmp_equiv};
ghost use Rattle.rdf_term.specs.Sets.{sorted_set};
ghost use Rattle.quad_index.specs.Codes.{code_cmp, code_total, is_within, is_between};

use rdf_term::Memory;
use std::alloc::Global;
use std::cmp::Ordering;

/// The numbers of a quad's parts, in the order subject, predicate, object, graph or in another one:
/// a term's rank in a dictionary, and for a graph 0 where it is absent, otherwise one more than the
/// rank of its name.
#[derive(Clone, Copy, Debug)]
pub(crate) struct Code {
    pub(crate) first: u32,
    pub(crate) second: u32,
    pub(crate) third: u32,
    pub(crate) fourth: u32,
}

/// Whether a number lies between two others, both ends included.
fn is_between(low: u32, high: u32, number: u32) -> bool
    ensures { result ≡ is_between low high number }
{
    low <= number && number <= high
}

impl Code {
    /// The least code.
    pub(crate) fn first() -> Code {
        Code {
            first: 0,
            second: 0,
            third: 0,
            fourth: 0,
        }
    }

    /// The order of codes, number by number.
    pub(crate) fn order(&self, other: &Code) -> Ordering
        ensures { result ≡ code_cmp self.now other.now }
    {
        self.first
            .cmp(&other.first)
            .then(self.second.cmp(&other.second))
            .then(self.third.cmp(&other.third))
            .then(self.fourth.cmp(&other.fourth))
    }

    /// Whether each number lies between those of two other codes, both ends included.
    pub(crate) fn is_within(&self, low: &Code, high: &Code) -> bool
        ensures { result ≡ is_within low.now high.now self.now }
    {
        is_between(low.first, high.first, self.first)
            && is_between(low.second, high.second, self.second)
            && is_between(low.third, high.third, self.third)
            && is_between(low.fourth, high.fourth, self.fourth)
    }
}

impl PartialEq for Code {
    ghost eq = { eq_by_cmp code_cmp };

    ghost laws = { partial_equiv_from_equiv (eq_by_cmp_equiv code_total) };

    fn eq(&self, other: &Code) -> bool {
        self.order(other).is_eq()
    }
}

impl Eq for Code {
    ghost laws = { eq_by_cmp_equiv code_total };
}

impl PartialOrd for Code {
    ghost partial_cmp = { as_partial_cmp code_cmp };

    ghost laws = { partial_order_from_total code_total };

    fn partial_cmp(&self, other: &Code) -> Option<Ordering> {
        Some(self.order(other))
    }
}

impl Ord for Code {
    ghost cmp = { code_cmp };

    ghost total = { code_total };

    ghost matches_partial_cmp = { λ x y. refl };

    ghost matches_eq = { λ x y. refl };

    fn cmp(&self, other: &Code) -> Ordering {
        self.order(other)
    }
}

/// These codes in their order, each once. It takes no memory.
pub(crate) fn set_of(codes: Vec<Code>) -> Vec<Code>
    ensures { result.items ≡ sorted_set code_cmp codes.items }
{
    let mut codes = codes;
    codes.sort_unstable();
    codes.dedup();
    codes
}

/// These codes with another one, in their order, each once.
pub(crate) fn with(alloc: Global, codes: &[Code], code: Code) -> Result<Vec<Code>, Memory>
    ensures { IfOk result (λ more. more.items ≡ sorted_set code_cmp (codes.now ++ code ∷ [])) }
{
    let mut more = Vec::with_capacity(alloc, codes.len().saturating_add(1))?;
    for kept in codes {
        more.push(*kept)?;
    }
    more.push(code)?;
    Ok(set_of(more))
}

/// These codes but for one.
pub(crate) fn without(alloc: Global, codes: &[Code], code: &Code) -> Result<Vec<Code>, Memory>
    ensures { IfOk result (λ rest. rest.items ≡ filter (λ k. not (eq_by_cmp code_cmp k code.now)) codes.now) }
{
    let mut rest = Vec::with_capacity(alloc, codes.len())?;
    for kept in codes {
        if *kept != *code {
            rest.push(*kept)?;
        }
    }
    Ok(rest)
}
