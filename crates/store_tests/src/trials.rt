//! Branches compared with the plain rule that the last change that touches a quad decides, on small
//! generated lists of changes of eight quads, by four patterns.
ghost use Rattle.std.specs.Prelude.{◌<◌};

use crate::branches::{index, iri, pattern};
use branch::Branch;
use change_set::{Change, ChangeSet, Changes};
use rdf_term::{Duplicate, Graph, GraphPick, Memory, Pattern, Quad, Quads, Scan, Term, Text};
use std::alloc::Global;
use std::mem;

/// The numbers of the quads that each pattern matches.
const MATCHED: [&[usize]; 4] = [
    &[0, 1, 2, 3, 4, 5, 6, 7],
    &[0, 1, 2, 3],
    &[2, 3, 6, 7],
    &[1, 3, 5, 7],
];

/// A change, by the number of its quad or of its pattern.
#[derive(Clone, Copy)]
enum Step {
    Add(usize),
    Remove(usize),
    RemoveMatching(usize),
}

/// The numbers of a linear congruential generator.
#[derive(Drop)]
struct Numbers {
    state: u64,
}

/// A branch, and the steps that made its content out of nothing.
#[derive(Drop)]
struct Trial {
    branch: Branch,
    steps: Vec<Step>,
}

fn plain(alloc: Global, text: &str) -> Result<Term, Memory> {
    Ok(Term::Plain(Text::from_chars(alloc, text)?))
}

fn quad(alloc: Global, subject: &str, object: &str, graph: Graph) -> Result<Quad, Memory> {
    let predicate = iri(alloc, "urn:p")?;
    let subject = iri(alloc, subject)?;
    let object = plain(alloc, object)?;
    match Quad::new(subject, predicate, object, graph) {
        Ok(quad) => Ok(quad),
        Err(_) => Err(Memory),
    }
}

/// The eight quads in their order: of two subjects, two objects and two graphs.
fn eight_quads(alloc: Global) -> Result<Quads, Memory> {
    let mut quads = Quads::new(alloc);
    for subject in ["urn:a", "urn:b"] {
        for object in ["1", "2"] {
            quads.push(quad(alloc, subject, object, Graph::Absent)?)?;
            let name = iri(alloc, "urn:g")?;
            quads.push(quad(alloc, subject, object, Graph::Named(name))?)?;
        }
    }
    Ok(quads)
}

/// The pattern of a number.
fn pattern_of(alloc: Global, number: usize) -> Result<Pattern, Memory> {
    Ok(match number {
        0 => pattern(None, None, GraphPick::Any),
        1 => pattern(Some(iri(alloc, "urn:a")?), None, GraphPick::Any),
        2 => pattern(None, Some(plain(alloc, "2")?), GraphPick::Any),
        _ => pattern(None, None, GraphPick::NamedOnly),
    })
}

fn scan(alloc: Global, branch: &Branch, number: usize) -> Result<Quads, Memory> {
    let pattern = pattern_of(alloc, number)?;
    branch.scan(alloc, &pattern)
}

fn count(alloc: Global, branch: &Branch, number: usize) -> Result<u64, Memory> {
    let pattern = pattern_of(alloc, number)?;
    Ok(branch.count(&pattern))
}

fn is_matched(pattern: usize, quad: usize) -> bool {
    match MATCHED.get(pattern) {
        Some(quads) => quads.contains(&quad),
        None => false,
    }
}

fn touches(step: Step, quad: usize) -> bool {
    match step {
        Step::Add(number) | Step::Remove(number) => number == quad,
        Step::RemoveMatching(pattern) => is_matched(pattern, quad),
    }
}

/// Whether a quad is in the set after the steps: whether the last one that touches it adds it.
fn is_held(steps: &[Step], quad: usize) -> bool {
    let last = steps.iter().rev().find(|step| touches(**step, quad));
    matches!(last, Some(Step::Add(_)))
}

/// Whether these are the quads that a pattern matches after the steps, in their order.
fn are_found(quads: &Quads, pattern: usize, steps: &[Step], found: &Quads) -> bool {
    let mut rest = found.as_slice();
    for (number, quad) in quads.as_slice().iter().enumerate() {
        if is_matched(pattern, number) && is_held(steps, number) {
            match rest {
                [first, more @ ..] if *first == *quad => rest = more,
                _ => return false,
            }
        }
    }
    rest.is_empty()
}

impl Numbers {
    /// The next number, below a bound.
    fn below(&mut self, bound: u64) -> usize
        requires { 0 < bound }
    {
        self.state = self
            .state
            .wrapping_mul(6_364_136_223_846_793_005)
            .wrapping_add(1_442_695_040_888_963_407);
        ((self.state >> 33) % bound) as usize
    }

    fn step(&mut self) -> Step {
        match self.below(10) {
            0..=4 => Step::Add(self.below(8)),
            5..=7 => Step::Remove(self.below(8)),
            _ => Step::RemoveMatching(self.below(4)),
        }
    }
}

fn copy_at(alloc: Global, quads: &Quads, number: usize) -> Result<Quad, Memory> {
    match quads.at(number) {
        Some(quad) => quad.copy(alloc),
        None => Err(Memory),
    }
}

fn change(alloc: Global, quads: &Quads, step: Step) -> Result<Change, Memory> {
    Ok(match step {
        Step::Add(number) => Change::Add(copy_at(alloc, quads, number)?),
        Step::Remove(number) => Change::Remove(copy_at(alloc, quads, number)?),
        Step::RemoveMatching(number) => Change::RemoveMatching(pattern_of(alloc, number)?),
    })
}

/// Adds up to four generated steps to a list.
fn generate(steps: &mut Vec<Step>, numbers: &mut Numbers) -> Result<(), Memory> {
    for _ in 0..numbers.below(5) {
        steps.push(numbers.step())?;
    }
    Ok(())
}

/// The change set of the steps.
fn set_of(alloc: Global, quads: &Quads, steps: &[Step]) -> Result<ChangeSet, Memory> {
    let mut changes = Changes::new(alloc);
    for step in steps {
        changes.push(change(alloc, quads, *step)?)?;
    }
    ChangeSet::from_changes(alloc, changes.as_slice())
}

impl Trial {
    /// A branch over an index of some of the quads.
    fn begin(alloc: Global, quads: &Quads, numbers: &mut Numbers) -> Result<Trial, Memory> {
        let mut held = Quads::new(alloc);
        let mut steps = Vec::new(alloc);
        for _ in 0..numbers.below(5) {
            let number = numbers.below(8);
            held.push(copy_at(alloc, quads, number)?)?;
            steps.push(Step::Add(number))?;
        }
        let branch = Branch::new(alloc, index(alloc, &held)?)?;
        Ok(Trial { branch, steps })
    }

    fn push(&mut self, alloc: Global, quads: &Quads, numbers: &mut Numbers) -> Result<(), Memory> {
        let mut more = Vec::new(alloc);
        generate(&mut more, numbers)?;
        self.branch.push(set_of(alloc, quads, more.as_slice())?)?;
        self.steps.append(&mut more)?;
        Ok(())
    }

    fn pin(&self, alloc: Global) -> Result<Trial, Memory> {
        Ok(Trial {
            branch: self.branch.pin()?,
            steps: Vec::from_slice(alloc, self.steps.as_slice())?,
        })
    }

    fn fold(&mut self, alloc: Global) -> Result<(), Memory> {
        self.branch = Branch::new(alloc, self.branch.fold()?)?;
        Ok(())
    }

    fn holds_alike(&self, quads: &Quads) -> bool {
        for (number, quad) in quads.as_slice().iter().enumerate() {
            if self.branch.holds(quad) != is_held(self.steps.as_slice(), number) {
                return false;
            }
        }
        true
    }

    /// Whether the branch finds and holds what the steps say.
    fn is_right(&self, alloc: Global, quads: &Quads) -> Result<bool, Memory> {
        for number in 0..MATCHED.len() {
            let found = scan(alloc, &self.branch, number)?;
            if !are_found(quads, number, self.steps.as_slice(), &found) {
                return Ok(false);
            }
            if count(alloc, &self.branch, number)? != found.len() as u64 {
                return Ok(false);
            }
        }
        Ok(self.holds_alike(quads))
    }
}

/// Pushes, pins and folds by turns. The list has each pin and, last, the branch that went on; which
/// of the two goes on at a pin is drawn.
fn trials(alloc: Global, quads: &Quads, numbers: &mut Numbers) -> Result<Vec<Trial>, Memory> {
    let mut trial = Trial::begin(alloc, quads, numbers)?;
    let mut pins = Vec::new(alloc);
    for _ in 0..numbers.below(6) {
        trial.push(alloc, quads, numbers)?;
        match numbers.below(4) {
            0 => pins.push(trial.pin(alloc)?)?,
            1 => {
                let pin = trial.pin(alloc)?;
                pins.push(mem::replace(&mut trial, pin))?;
            }
            2 => trial.fold(alloc)?,
            _ => {}
        }
    }
    pins.push(trial)?;
    Ok(pins)
}

#[test]
fn last_touch_decides(rt: HostRuntime) -> Result<(), Memory> {
    let alloc = rt.alloc();
    let quads = eight_quads(alloc)?;
    let mut numbers = Numbers { state: 1 };
    for _ in 0..300u32 {
        for trial in trials(alloc, &quads, &mut numbers)? {
            assert!(rt; trial.is_right(alloc, &quads)?);
        }
    }
    Ok(())
}
