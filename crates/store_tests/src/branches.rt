//! Branches: that each call finds memory, that a scan costs what it finds, how many layers there are,
//! and that pins share what they stand on.
//!
//! Quads stand in lists here, and patterns in small functions: a local that holds terms is let go at
//! every early return behind it, which makes proofs long.
use branch::Branch;
use change_set::{Change, ChangeSet, Changes};
use quad_index::{Index, Order};
use rdf_term::{Duplicate, Graph, GraphPick, Memory, Pattern, Quad, Quads, Scan, Term, Text};
use std::alloc::Global;
use std::sync::Arc;

pub(crate) fn iri(alloc: Global, text: &str) -> Result<Term, Memory> {
    Ok(Term::Iri(Text::from_chars(alloc, text)?))
}

/// The subject of a number, `<http://e/sN>`.
fn subject(alloc: Global, number: u64) -> Result<Term, Memory> {
    let text = format!(in alloc; "http://e/s{number}")?;
    iri(alloc, text.as_str())
}

/// The object of a number, `"N"`.
fn object(alloc: Global, number: u64) -> Result<Term, Memory> {
    let text = format!(in alloc; "{number}")?;
    Ok(Term::Plain(Text::from_chars(alloc, text.as_str())?))
}

/// The quad `<http://e/sN> <http://e/p> "N" .` of a number.
fn numbered(alloc: Global, number: u64) -> Result<Quad, Memory> {
    let predicate = iri(alloc, "http://e/p")?;
    let subject = subject(alloc, number)?;
    let object = object(alloc, number)?;
    match Quad::new(subject, predicate, object, Graph::Absent) {
        Ok(quad) => Ok(quad),
        Err(_) => Err(Memory),
    }
}

/// The quads of the numbers below this one.
pub(crate) fn numbered_below(alloc: Global, end: u64) -> Result<Quads, Memory> {
    let mut quads = Quads::new(alloc);
    for number in 0..end {
        quads.push(numbered(alloc, number)?)?;
    }
    Ok(quads)
}

/// The pattern that gives these parts, and otherwise picks every quad.
pub(crate) fn pattern(s: Option<Term>, o: Option<Term>, c: GraphPick) -> Pattern {
    Pattern { s, p: None, o, c }
}

pub(crate) fn index(alloc: Global, quads: &Quads) -> Result<Index, Memory> {
    let orders = Order::standard(alloc)?;
    Index::build(alloc, &orders, quads)
}

pub(crate) fn adding(alloc: Global, quad: &Quad) -> Result<ChangeSet, Memory> {
    let mut changes = Changes::new(alloc);
    changes.push(Change::Add(quad.copy(alloc)?))?;
    ChangeSet::from_changes(alloc, changes.as_slice())
}

pub(crate) fn emptying(alloc: Global) -> Result<ChangeSet, Memory> {
    let mut changes = Changes::new(alloc);
    changes.push(Change::RemoveMatching(pattern(None, None, GraphPick::Any)))?;
    ChangeSet::from_changes(alloc, changes.as_slice())
}

fn all(alloc: Global, branch: &Branch) -> Result<Quads, Memory> {
    branch.scan(alloc, &pattern(None, None, GraphPick::Any))
}

/// Whether the content is one quad, and not the other.
fn is_just(alloc: Global, branch: &Branch, quad: &Quad, other: &Quad) -> Result<bool, Memory> {
    let found = all(alloc, branch)?;
    let folded = branch.fold()?;
    Ok(
        found.len() == 1
            && found.as_slice().contains(quad)
            && branch.holds(quad)
            && !branch.holds(other)
            && folded.len() == 1
            && folded.has(quad),
    )
}

#[test]
fn last_wins(rt: HostRuntime) -> Result<(), Memory> {
    let alloc = rt.alloc();
    let quads = numbered_below(alloc, 3)?;
    let one = quads.at(1).expect(&rt, "the quad of 1");
    let two = quads.at(2).expect(&rt, "the quad of 2");
    let mut branch = Branch::new(alloc, index(alloc, &Quads::new(alloc))?)?;
    branch.push(adding(alloc, one)?)?;
    let pin = branch.pin()?;
    branch.push(emptying(alloc)?)?;
    branch.push(adding(alloc, two)?)?;
    assert!(rt; is_just(alloc, &branch, two, one)?);
    assert!(rt; is_just(alloc, &pin, one, two)?);
    assert_eq!(rt; branch.layers(), 2);
    assert_eq!(rt; pin.layers(), 1);
    Ok(())
}

/// The content that the load is measured on: a hundred thousand quads and one change set above
/// them.
fn loaded(alloc: Global) -> Result<Branch, Memory> {
    let quads = numbered_below(alloc, 100_000)?.into_set()?;
    let mut branch = Branch::new(alloc, index(alloc, &quads)?)?;
    let more = numbered_below(alloc, 2)?;
    let one = more.at(1).ok_or(Memory)?;
    branch.push(adding(alloc, one)?)?;
    Ok(branch)
}

/// How many quads have the subject of a number.
fn count(alloc: Global, branch: &Branch, number: u64) -> Result<usize, Memory> {
    let pattern = pattern(Some(subject(alloc, number)?), None, GraphPick::Any);
    branch.scan(alloc, &pattern).map(|found| found.len())
}

#[test]
fn scan_load(rt: HostRuntime) -> Result<(), Memory> {
    let alloc = rt.alloc();
    let branch = loaded(alloc)?;
    for number in 0..200_000u64 {
        assert_eq!(rt; count(alloc, &branch, number % 100_000)?, 1);
    }
    Ok(())
}

fn pins(alloc: Global, branch: &Branch, count: u64) -> Result<Vec<Branch>, Memory> {
    let mut pins = Vec::new(alloc);
    for _ in 0..count {
        pins.push(branch.pin()?)?;
    }
    Ok(pins)
}

#[test]
fn pins_held(rt: HostRuntime) -> Result<(), Memory> {
    let alloc = rt.alloc();
    let branch = loaded(alloc)?;
    let pins = pins(alloc, &branch, 10_000)?;
    let last = numbered(alloc, 99_999)?;
    assert_eq!(rt; pins.len(), 10_000);
    for pin in pins.iter() {
        assert!(rt; pin.holds(&last));
    }
    Ok(())
}

/// How many layers there are after so many pushes of one Add each, of distinct quads: layers of the
/// powers of two that make the number.
const LAYERS: [(u64, usize); 6] = [(0, 0), (1, 1), (2, 1), (3, 2), (7, 3), (100, 3)];

#[test]
fn pushes_leave_layers_that_halve(rt: HostRuntime) -> Result<(), Memory> {
    let alloc = rt.alloc();
    for (pushes, layers) in LAYERS {
        let mut branch = Branch::new(alloc, index(alloc, &Quads::new(alloc))?)?;
        let quads = numbered_below(alloc, pushes)?;
        for quad in quads.as_slice() {
            branch.push(adding(alloc, quad)?)?;
        }
        branch.push(ChangeSet::new(alloc))?;
        assert_eq!(rt; branch.layers(), layers);
        assert!(rt; all(alloc, &branch)?.len() as u64 == pushes);
    }
    Ok(())
}

/// A branch of the first two of four quads, the second in a layer.
pub(crate) fn of_two(alloc: Global, quads: &[Quad]) -> Result<Branch, Memory> {
    let mut base = Quads::new(alloc);
    for quad in &quads[..quads.len().min(1)] {
        base.push(quad.copy(alloc)?)?;
    }
    let mut branch = Branch::new(alloc, index(alloc, &base)?)?;
    for quad in &quads[quads.len().min(1)..quads.len().min(2)] {
        branch.push(adding(alloc, quad)?)?;
    }
    Ok(branch)
}

/// Whether a pushed delta makes of the branch what the set itself makes of it, and changes so many
/// quads.
fn swaps(
    alloc: Global,
    branch: &Branch,
    set: ChangeSet,
    added: usize,
    removed: usize,
) -> Result<bool, Memory> {
    let delta = branch.delta(&set)?;
    let mut one = branch.pin()?;
    let mut other = branch.pin()?;
    one.push(set)?;
    other.push_shared(Arc::new(alloc, delta.changes(alloc)?)?)?;
    let same = all(alloc, &one)?.as_slice() == all(alloc, &other)?.as_slice();
    Ok(same && delta.added.len() == added && delta.removed.len() == removed)
}

#[test]
fn deltas_name_what_changes(rt: HostRuntime) -> Result<(), Memory> {
    let alloc = rt.alloc();
    let quads = numbered_below(alloc, 4)?;
    let branch = of_two(alloc, quads.as_slice())?;
    for (place, one) in quads.as_slice().chunks(1).enumerate() {
        let (added, removed) = if place < 2 { (0, 1) } else { (1, 0) };
        let adds = ChangeSet::swapping(alloc, one, &[])?;
        assert!(rt; swaps(alloc, &branch, adds, added, 0)?);
        let removes = ChangeSet::swapping(alloc, &[], one)?;
        assert!(rt; swaps(alloc, &branch, removes, 0, removed)?);
    }
    assert!(rt; swaps(alloc, &branch, emptying(alloc)?, 0, 2)?);
    Ok(())
}
