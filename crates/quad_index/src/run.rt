//! Codes that are sorted in an order.
ghost use Rattle.std.specs.Prelude.{◌≡◌, ℕ, ◌<◌, ◌≤◌, Bool, true, false, ◌&&◌, length, slice_index_or, map, filter, IfOk};
ghost use Rattle.std.specs.List.{All, count_by};
ghost use Rattle.std.specs.List.Sorted.{IsSorted};
ghost use Rattle.std.specs.Ordering.{is_lt, is_le};
ghost use Rattle.quad_index.specs.declared.code.Code.{Code};
ghost use Rattle.quad_index.specs.Codes.{code_cmp, arrange, arrange_back, is_within, passes_at, HasSameWithin, IsFromTo, IsRun};
ghost use Rattle.quad_index.specs.Contents.{IsKept};

use crate::Test;
use crate::code::Code;
use crate::dictionary::Dictionary;
use crate::order::Order;
use rdf_term::Memory;
use std::alloc::Global;
use std::marker::Model;

/// Codes that are kept as their numbers stand in an order, ascending, so that the quads with the
/// same leading parts stand next to each other. Those of the order of quads themselves are kept
/// elsewhere, and its run is empty.
#[derive(Drop)]
pub(crate) struct Run {
    order: Order,
    keys: Vec<Code>,
}

impl Model for Run {
    ghost use Rattle.std.specs.Prelude.{map};
    ghost use Rattle.quad_index.specs.Codes.{arrange_back, IsRun};
    ghost use Rattle.quad_index.specs.Contents.{Arranged};

    ghost Value = { Arranged };

    ghost view = { λ run. record { order = run.order; codes = map (arrange_back run.order) run.keys.items } };

    ghost invariant = { λ run. IsRun run.order run.keys.items };
}

/// The numbers of these codes in an order.
fn arranged(alloc: Global, order: &Order, codes: &[Code]) -> Result<Vec<Code>, Memory>
    ensures { IfOk result (λ keys. keys.items ≡ map (arrange order.now) codes.now) }
{
    let mut keys = Vec::with_capacity(alloc, codes.len())?;
    for code in codes {
        keys.push(order.arrange(code))?;
    }
    Ok(keys)
}

/// The place of the first key that is not below another one.
fn lower(keys: &[Code], bound: &Code) -> usize
    requires { IsSorted code_cmp keys.now }
    ensures within { result ≤ length keys.now }
    ensures below { (k : ℕ) (d : Code) → k < result → is_lt (code_cmp (slice_index_or keys.now k d) bound.now) ≡ true }
{
    keys.partition_point(|key| key.order(bound).is_lt())
}

/// The place of the first key that is above another one.
fn upper(keys: &[Code], bound: &Code) -> usize
    requires { IsSorted code_cmp keys.now }
    ensures within { result ≤ length keys.now }
    ensures above { (k : ℕ) (d : Code) → result ≤ k → k < length keys.now → is_le (code_cmp (slice_index_or keys.now k d) bound.now) ≡ false }
{
    keys.partition_point(|key| key.order(bound).is_le())
}

/// The part of these keys that lies from one to another, and so has all that can pass a test which
/// only such keys pass.
fn between<'a>(keys: &'a [Code], first: &Code, last: &Code) -> &'a [Code]
    requires { IsSorted code_cmp keys.now }
    ensures { (test : Code → Bool) → All (λ key. test key ≡ true → IsFromTo first.now last.now key) keys.now → filter test result.now ≡ filter test keys.now }
{
    let start = lower(keys, first);
    let end = upper(keys, last).max(start);
    &keys[start..end]
}

/// The codes of these keys that lie within bounds.
fn codes_within(
    alloc: Global,
    order: &Order,
    keys: &[Code],
    low: &Code,
    high: &Code,
) -> Result<Vec<Code>, Memory>
    ensures { IfOk result (λ found. found.items ≡ filter (is_within low.now high.now) (map (arrange_back order.now) keys.now)) }
{
    let mut found = Vec::new(alloc);
    for key in keys {
        let code = order.arrange_back(key);
        if code.is_within(low, high) {
            found.push(code)?;
        }
    }
    Ok(found)
}

/// The codes of a run's keys that lie within bounds. It looks at those alone whose leading numbers
/// can.
pub(crate) fn matching(
    alloc: Global,
    order: &Order,
    keys: &[Code],
    low: &Code,
    high: &Code,
) -> Result<Vec<Code>, Memory>
    requires { IsRun order.now keys.now }
    ensures { IfOk result (λ found. found.items ≡ filter (is_within low.now high.now) (map (arrange_back order.now) keys.now)) }
{
    let first = order.arrange(low);
    let last = order.arrange(high);
    let found = codes_within(alloc, order, between(keys, &first, &last), low, high)?;
    Ok(found)
}

/// The part of a run's keys that has all whose codes lie within bounds. It is found by halves.
pub(crate) fn near<'a>(order: &Order, keys: &'a [Code], low: &Code, high: &Code) -> &'a [Code]
    requires { IsRun order.now keys.now }
    ensures { HasSameWithin low.now high.now (map (arrange_back order.now) keys.now) (map (arrange_back order.now) result.now) }
{
    let first = order.arrange(low);
    let last = order.arrange(high);
    between(keys, &first, &last)
}

/// How many codes of these keys lie within bounds.
pub(crate) fn count_within(order: &Order, keys: &[Code], low: &Code, high: &Code) -> usize
    ensures { result ≡ count_by (λ key. is_within low.now high.now (arrange_back order.now key)) keys.now }
{
    keys.iter()
        .filter(|key| order.arrange_back(key).is_within(low, high))
        .count()
}

/// Whether a code lies within two bounds, and the quad that it is the code of passes a test.
fn is_found<T: Test>(
    terms: &Dictionary,
    code: &Code,
    bounds: &(Code, Code),
    others: &(Code, Code),
    test: &T,
) -> bool
    ensures { result ≡ (is_within bounds.now.0 bounds.now.1 code.now && (is_within others.now.0 others.now.1 code.now && passes_at (T.passes test.now) terms.now code.now)) }
{
    if !code.is_within(&bounds.0, &bounds.1) || !code.is_within(&others.0, &others.1) {
        return false;
    }
    match terms.parts(code) {
        Some(parts) => test.passes(&parts),
        None => false,
    }
}

/// How many codes of these keys lie within two bounds and are the codes of quads that pass a test.
pub(crate) fn count_found<T: Test>(
    terms: &Dictionary,
    order: &Order,
    keys: &[Code],
    bounds: &(Code, Code),
    others: &(Code, Code),
    test: &T,
) -> usize
    ensures { result ≡ count_by (λ key. is_within bounds.now.0 bounds.now.1 (arrange_back order.now key) && (is_within others.now.0 others.now.1 (arrange_back order.now key)
        && passes_at (T.passes test.now) terms.now (arrange_back order.now key))) keys.now }
{
    keys.iter()
        .filter(|key| is_found(terms, &order.arrange_back(key), bounds, others, test))
        .count()
}

impl Run {
    /// These codes in an order.
    pub(crate) fn build(alloc: Global, order: Order, codes: &[Code]) -> Result<Run, Memory>
        ensures order { IfOk result (λ run. run.order ≡ order) }
        ensures codes { IfOk result (λ run. IsKept codes.now run) }
    {
        order.has_each_letter();
        if order.is_term_order() {
            let keys = Vec::new(alloc);
            return Ok(Run { order, keys });
        }
        let mut keys = arranged(alloc, &order, codes)?;
        keys.sort_unstable();
        Ok(Run { order, keys })
    }

    /// The run's order.
    pub(crate) fn order(&self) -> Order
        ensures { result ≡ self.now.order }
    {
        self.order
    }

    /// The run's keys.
    pub(crate) fn keys(&self) -> &[Code]
        ensures run { IsRun self.now.order result.now }
        ensures codes { map (arrange_back self.now.order) result.now ≡ self.now.codes }
    {
        self.keys.as_slice()
    }
}
