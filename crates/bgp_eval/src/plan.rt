ghost use Rattle.std.specs.Prelude.{◌<◌, ◌≤◌, length, IfOk};
ghost use Rattle.std.specs.List.Sorted.{IsPermutation};

use crate::part::Part;
use crate::step::{Reach, Step};
use rdf_term::Memory;
use std::alloc::Global;

/// What a bound subject, object, graph and predicate is worth. Few triples share a subject, more an
/// object, and most a predicate.
const SUBJECT: u32 = 8;

const OBJECT: u32 = 4;

const GRAPH: u32 = 2;

const PREDICATE: u32 = 1;

/// What a part is worth where these unknowns are bound.
fn worth(part: &Part, bound: &[bool], weight: u32) -> u32
    ensures { result ≤ weight }
{
    let is_bound = match part {
        Part::Given(_) => true,
        Part::Unknown(number) => bound.get(*number).copied().unwrap_or(false),
        Part::Unbound => false,
    };
    if is_bound { weight } else { 0 }
}

/// How much a step is narrowed by its terms and by the unknowns that are bound.
fn rank(step: &Step, bound: &[bool]) -> u32 {
    let graph = match &step.reach {
        Reach::Anywhere => 0,
        Reach::In(part) => worth(part, bound, GRAPH),
    };
    worth(&step.s, bound, SUBJECT)
        + worth(&step.p, bound, PREDICATE)
        + worth(&step.o, bound, OBJECT)
        + graph
}

/// The place of the step with the highest rank, the first of these where several have it.
fn best(steps: &[Step], bound: &[bool]) -> usize
    requires { 0 < length steps.now }
    ensures { result < length steps.now }
{
    let mut place = 0;
    let mut most = 0;
    for (at, step) in steps.iter().enumerate() {
        let rank = rank(step, bound);
        if rank > most {
            place = at;
            most = rank;
        }
    }
    place
}

fn mark(part: &Part, bound: &mut [bool]) {
    if let Part::Unknown(number) = part {
        if let Some(place) = bound.get_mut(*number) {
            *place = true;
        }
    }
}

/// Marks the unknowns of a step as bound.
fn mark_step(step: &Step, bound: &mut [bool]) {
    mark(&step.s, bound);
    mark(&step.p, bound);
    mark(&step.o, bound);
    if let Reach::In(part) = &step.reach {
        mark(part, bound);
    }
}

/// These steps in the order in which they are looked up: always the one that is narrowed most by its
/// terms and by what the earlier ones bind.
pub fn planned(alloc: Global, steps: Vec<Step>, unknowns: usize) -> Result<Vec<Step>, Memory>
    ensures { IfOk result (λ plan. IsPermutation steps.items plan.items) }
{
    let mut bound = vec![in alloc; false; unknowns]?;
    let mut left = steps;
    let mut plan = Vec::new(alloc);
    while !left.is_empty() {
        let step = left.remove(best(left.as_slice(), bound.as_slice()));
        mark_step(&step, bound.as_mut_slice());
        plan.push(step)?;
    }
    Ok(plan)
}
