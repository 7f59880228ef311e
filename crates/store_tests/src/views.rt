//! Views: that a view shows what its branch and its stack made of the quads, and shares their layers.
use crate::branches::{adding, emptying, numbered_below, of_two, pattern};
use branch::{Branch, Stack, View};
use rdf_term::{GraphPick, Memory, Quad, Scan};
use std::alloc::Global;
use std::sync::Arc;

/// A stack that removes everything and adds one quad.
fn replacing(alloc: Global, quad: &Quad) -> Result<Stack, Memory> {
    let mut stack = Stack::new(alloc);
    stack.push_shared(Arc::new(alloc, emptying(alloc)?)?)?;
    stack.push_shared(Arc::new(alloc, adding(alloc, quad)?)?)?;
    Ok(stack)
}

/// Whether each call of a view shows this quad alone.
fn is_just(alloc: Global, view: &View, quad: &Quad, others: &[Quad]) -> Result<bool, Memory> {
    let everything = pattern(None, None, GraphPick::Any);
    let found = view.scan(alloc, &everything)?;
    Ok(
        found.len() == 1
            && found.as_slice().contains(quad)
            && view.count(&everything) == 1
            && view.holds(quad)
            && !view.is_empty()
            && !others.iter().any(|other| view.holds(other)),
    )
}

/// Whether a view of a branch and of what replaces its quads by another one stays as it is when both
/// get one more.
fn stays(
    alloc: Global,
    branch: &mut Branch,
    others: &[Quad],
    quad: &Quad,
    more: &Quad,
) -> Result<bool, Memory> {
    let mut own = replacing(alloc, quad)?;
    let view = branch.view(&own)?;
    let layers = branch.layers().saturating_add(own.layers());
    branch.push(adding(alloc, more)?)?;
    own.push_shared(Arc::new(alloc, adding(alloc, more)?)?)?;
    Ok(view.layers() == layers && !view.holds(more) && is_just(alloc, &view, quad, others)?)
}

#[test]
fn views_share_a_branch_and_a_stack(rt: HostRuntime) -> Result<(), Memory> {
    let alloc = rt.alloc();
    let quads = numbered_below(alloc, 4)?;
    let mut branch = of_two(alloc, quads.as_slice())?;
    match quads.as_slice() {
        [first, second, third, last] => {
            let others = &quads.as_slice()[..quads.len().min(2)];
            assert!(rt; branch.holds(first) && branch.holds(second));
            assert!(rt; stays(alloc, &mut branch, others, third, last)?);
            assert!(rt; branch.holds(first) && branch.holds(last));
        }
        _ => return Err(Memory),
    }
    Ok(())
}
