//! Eight quads and four patterns, by their numbers, and contents of them as lists of flags.
//!
//! Terms stand in texts here: a local that holds terms is let go at every early return behind it, which
//! makes proofs long.
use branch::View;
use change_set::{Change, Changes};
use iso_txn::Pinned;
use journal::{Ask, Graphs};
use nquads_line::{Kind, read_line};
use rdf_term::{Graph, GraphPick, Memory, Pattern, Quad, Term, Text};
use std::alloc::Global;

/// Which of the eight quads are there.
pub(crate) type Content = [bool; 8];

/// Nothing is there.
pub(crate) const EMPTY: Content = [false; 8];

/// A change, by the number of its quad or of its pattern.
#[derive(Clone, Copy)]
pub(crate) enum Step {
    Add(usize),
    Remove(usize),
    RemoveMatching(usize),
}

/// The quads, in their order, as canonical lines without their ends.
const LINES: [&str; 8] = [
    "<urn:a> <urn:p> <urn:1> .",
    "<urn:a> <urn:p> <urn:1> <urn:g> .",
    "<urn:a> <urn:p> <urn:2> .",
    "<urn:a> <urn:p> <urn:2> <urn:g> .",
    "<urn:b> <urn:p> <urn:1> .",
    "<urn:b> <urn:p> <urn:1> <urn:g> .",
    "<urn:b> <urn:p> <urn:2> .",
    "<urn:b> <urn:p> <urn:2> <urn:g> .",
];

/// Which of the eight quads each pattern matches: all, those of the subject `<urn:a>`, those of the
/// object `<urn:2>`, and those in named graphs.
const MATCHED: [Content; 4] = [
    [true; 8],
    [true, true, true, true, false, false, false, false],
    [false, false, true, true, false, false, true, true],
    [false, true, false, true, false, true, false, true],
];

/// The quad of a line.
pub(crate) fn quad_of(alloc: Global, line: &str) -> Result<Quad, Memory> {
    match read_line(alloc, Kind::Quads, line.as_bytes()) {
        Ok(Some(quad)) => Ok(quad),
        _ => Err(Memory),
    }
}

/// The quad of a number.
fn quad(alloc: Global, number: usize) -> Result<Quad, Memory> {
    match LINES.get(number) {
        Some(line) => quad_of(alloc, line),
        None => Err(Memory),
    }
}

pub(crate) fn is_iri(term: &Term, text: &str) -> bool {
    match term {
        Term::Iri(iri) => iri.as_str() == text,
        _ => false,
    }
}

/// The number of a quad that is one of the eight.
pub(crate) fn number_of(quad: &Quad) -> usize {
    let subject = if is_iri(quad.s(), "urn:b") { 4 } else { 0 };
    let object = if is_iri(quad.o(), "urn:2") { 2 } else { 0 };
    let graph = if *quad.c() == Graph::Absent { 0 } else { 1 };
    subject + object + graph
}

pub(crate) fn iri(alloc: Global, text: &str) -> Result<Term, Memory> {
    Ok(Term::Iri(Text::from_chars(alloc, text)?))
}

pub(crate) fn pattern(s: Option<Term>, o: Option<Term>, c: GraphPick) -> Pattern {
    Pattern { s, p: None, o, c }
}

/// The pattern of a number.
fn pattern_of(alloc: Global, number: usize) -> Result<Pattern, Memory> {
    match number {
        0 => Ok(pattern(None, None, GraphPick::Any)),
        1 => Ok(pattern(Some(iri(alloc, "urn:a")?), None, GraphPick::Any)),
        2 => Ok(pattern(None, Some(iri(alloc, "urn:2")?), GraphPick::Any)),
        _ => Ok(pattern(None, None, GraphPick::NamedOnly)),
    }
}

/// The number of a pattern that is one of the four.
pub(crate) fn number_of_pattern(pattern: &Pattern) -> usize {
    match &pattern.c {
        GraphPick::NamedOnly => 3,
        _ if pattern.o.is_some() => 2,
        _ if pattern.s.is_some() => 1,
        _ => 0,
    }
}

fn listed(alloc: Global, s: Option<Term>, o: Option<Term>) -> Ask {
    Ask::List {
        s,
        p: None,
        o,
        contexts: Graphs::new(alloc),
    }
}

/// An ask that observes just the pattern of a number.
pub(crate) fn ask(alloc: Global, number: usize) -> Result<Ask, Memory> {
    match number {
        0 => Ok(Ask::Size {
            contexts: Graphs::new(alloc),
        }),
        1 => Ok(listed(alloc, Some(iri(alloc, "urn:a")?), None)),
        2 => Ok(listed(alloc, None, Some(iri(alloc, "urn:2")?))),
        _ => Ok(Ask::Contexts),
    }
}

fn change(alloc: Global, step: Step) -> Result<Change, Memory> {
    match step {
        Step::Add(number) => Ok(Change::Add(quad(alloc, number)?)),
        Step::Remove(number) => Ok(Change::Remove(quad(alloc, number)?)),
        Step::RemoveMatching(number) => Ok(Change::RemoveMatching(pattern_of(alloc, number)?)),
    }
}

/// The changes of these steps.
pub(crate) fn changes(alloc: Global, steps: &[Step]) -> Result<Changes, Memory> {
    let mut changes = Changes::new(alloc);
    for step in steps {
        changes.push(change(alloc, *step)?)?;
    }
    Ok(changes)
}

/// Whether the pattern of a number matches the quad of a number.
pub(crate) fn is_matched(pattern: usize, number: usize) -> bool {
    match MATCHED.get(pattern) {
        Some(matched) => matched.get(number) == Some(&true),
        None => false,
    }
}

fn after(step: Step, number: usize, was: bool) -> bool {
    match step {
        Step::Add(added) => was || added == number,
        Step::Remove(removed) => was && removed != number,
        Step::RemoveMatching(pattern) => was && !is_matched(pattern, number),
    }
}

/// What a step leaves of a content.
fn stepped(content: Content, step: Step) -> Content {
    let mut next = content;
    for number in 0..8 {
        next[number] = after(step, number, content[number]);
    }
    next
}

/// What these steps leave of a content, one after the other.
pub(crate) fn walked(content: Content, steps: &[Step]) -> Content {
    let mut content = content;
    for step in steps {
        let next = stepped(content, *step);
        content = next;
    }
    content
}

/// How many of the quads are there.
pub(crate) fn size(content: &Content) -> u64 {
    content.iter().filter(|held| **held).count() as u64
}

/// How many bytes the canonical lines of the quads have that are there, with their ends.
pub(crate) fn bytes(content: &Content) -> u64 {
    let mut sum = 0u64;
    for (line, held) in LINES.iter().zip(content) {
        if *held {
            sum = sum.saturating_add(line.len() as u64).saturating_add(1);
        }
    }
    sum
}

fn holds(alloc: Global, view: &View, number: usize) -> Result<bool, Memory> {
    let quad = quad(alloc, number)?;
    Ok(view.holds(&quad))
}

/// Which quads a view holds.
fn content_of(alloc: Global, view: &View) -> Result<Content, Memory> {
    let mut content = EMPTY;
    for number in 0..8 {
        content[number] = holds(alloc, view, number)?;
    }
    Ok(content)
}

/// Which quads a read sees; none where its transaction is not open.
pub(crate) fn seen(alloc: Global, pinned: &Pinned) -> Result<Option<Content>, Memory> {
    match pinned.views().first() {
        Some(view) if pinned.live() => Ok(Some(content_of(alloc, view)?)),
        _ => Ok(None),
    }
}
