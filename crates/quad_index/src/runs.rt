//! Runs of the same codes in several orders.
ghost use Rattle.std.specs.Prelude.{◌≡◌, ◌<◌, length, map, IfOk};
ghost use Rattle.std.specs.List.{All};
ghost use Rattle.std.specs.List.Sorted.{IsStrictlySortedBy};
ghost use Rattle.quad_index.specs.Codes.{code_cmp, arrange_back, HasSame, HasSameWithin, IsRun};
ghost use Rattle.quad_index.specs.Contents.{IsBest, IsKept};

use crate::code::Code;
use crate::order::Order;
use crate::run::{self, Run};
use rdf_term::{Memory, Pattern};
use std::alloc::Global;

/// Runs of these codes in these orders.
pub(crate) fn build(alloc: Global, orders: &[Order], codes: &[Code]) -> Result<Vec<Run>, Memory>
    ensures orders { IfOk result (λ runs. map (λ run. run.order) runs.items ≡ orders.now) }
    ensures codes { IfOk result (λ runs. All (λ run. IsKept codes.now run) runs.items) }
{
    let mut runs = Vec::new(alloc);
    for order in orders {
        let run = Run::build(alloc, *order, codes)?;
        runs.push(run)?;
    }
    Ok(runs)
}

/// The orders of these runs.
pub(crate) fn orders(alloc: Global, runs: &[Run]) -> Result<Vec<Order>, Memory>
    ensures { IfOk result (λ orders. orders.items ≡ map (λ run. run.order) runs.now) }
{
    let mut orders = Vec::new(alloc);
    for run in runs {
        orders.push(run.order())?;
    }
    Ok(orders)
}

/// Runs of other codes in the orders of these runs.
pub(crate) fn of_codes(alloc: Global, runs: &[Run], codes: &[Code]) -> Result<Vec<Run>, Memory>
    ensures orders { IfOk result (λ made. map (λ run. run.order) made.items ≡ map (λ run. run.order) runs.now) }
    ensures codes { IfOk result (λ made. All (λ run. IsKept codes.now run) made.items) }
{
    let orders = orders(alloc, runs)?;
    let made = build(alloc, orders.as_slice(), codes)?;
    Ok(made)
}

/// The place of the run whose order has the longest run of leading letters whose parts the pattern
/// gives, the earlier one of two that are as good.
pub(crate) fn best(runs: &[Run], pattern: &Pattern) -> usize
    requires { 0 < length runs.now }
    ensures { IsBest pattern.now runs.now result }
{
    let mut best = 0;
    let mut longest = runs[0].order().run(pattern);
    for place in 1..runs.len() {
        let run = runs[place].order().run(pattern);
        if longest < run {
            best = place;
            longest = run;
        }
    }
    best
}

/// The order and the keys by which a pattern is answered: those of the best run, or the codes
/// themselves where they are its keys or it has no leading part that the pattern gives.
pub(crate) fn serving<'a>(
    codes: &'a [Code],
    runs: &'a [Run],
    pattern: &Pattern,
) -> (Order, &'a [Code])
    requires some { 0 < length runs.now }
    requires ascending { IsStrictlySortedBy code_cmp codes.now }
    requires kept { All (λ run. IsKept codes.now run) runs.now }
    ensures run { IsRun result.0 result.1.now }
    ensures same { HasSame codes.now (map (arrange_back result.0) result.1.now) }
{
    let run = &runs[best(runs, pattern)];
    let order = run.order();
    if order.is_term_order() {
        return (Order::spoc(), codes);
    }
    if order.run(pattern) == 0 {
        return (Order::spoc(), codes);
    }
    (order, run.keys())
}

/// An order, and keys in it that have all codes which lie within the bounds of a pattern.
pub(crate) fn near<'a>(
    codes: &'a [Code],
    runs: &'a [Run],
    pattern: &Pattern,
    bounds: &(Code, Code),
) -> (Order, &'a [Code])
    requires some { 0 < length runs.now }
    requires ascending { IsStrictlySortedBy code_cmp codes.now }
    requires kept { All (λ run. IsKept codes.now run) runs.now }
    ensures { HasSameWithin bounds.now.0 bounds.now.1 codes.now (map (arrange_back result.0) result.1.now) }
{
    let (order, keys) = serving(codes, runs, pattern);
    (order, run::near(&order, keys, &bounds.0, &bounds.1))
}
