//! Terms, eight quads and patterns of them as plain numbers, contents of the quads as lists of flags, and
//! changes of these.
use change_set::{Change, Changes};
use nquads_line::{Kind, read_line};
use rdf_term::{Graph, GraphPick, Memory, Pattern, Quad, Term, Text};
use std::alloc::Global;

/// The texts of the terms, in their order.
pub(crate) const TERMS: [&str; 7] = [
    "urn:a", "urn:b", "urn:c", "urn:g", "urn:h", "urn:p", "urn:q",
];

/// The number of the absent graph, which is no term.
pub(crate) const ABSENT: usize = 7;

/// The numbers of the terms of a quad.
#[derive(Clone, Copy, PartialEq, Eq)]
pub(crate) struct Parts {
    pub(crate) s: usize,
    pub(crate) p: usize,
    pub(crate) o: usize,
    pub(crate) g: usize,
}

/// The quads, in their order.
pub(crate) const QUADS: [Parts; 8] = [
    Parts {
        s: 0,
        p: 5,
        o: 0,
        g: ABSENT,
    },
    Parts {
        s: 0,
        p: 5,
        o: 1,
        g: ABSENT,
    },
    Parts {
        s: 0,
        p: 5,
        o: 1,
        g: 3,
    },
    Parts {
        s: 0,
        p: 6,
        o: 2,
        g: 4,
    },
    Parts {
        s: 1,
        p: 5,
        o: 2,
        g: ABSENT,
    },
    Parts {
        s: 1,
        p: 6,
        o: 0,
        g: 3,
    },
    Parts {
        s: 2,
        p: 5,
        o: 0,
        g: ABSENT,
    },
    Parts {
        s: 2,
        p: 6,
        o: 1,
        g: 4,
    },
];

/// The quads as canonical lines without their ends.
const LINES: [&str; 8] = [
    "<urn:a> <urn:p> <urn:a> .",
    "<urn:a> <urn:p> <urn:b> .",
    "<urn:a> <urn:p> <urn:b> <urn:g> .",
    "<urn:a> <urn:q> <urn:c> <urn:h> .",
    "<urn:b> <urn:p> <urn:c> .",
    "<urn:b> <urn:q> <urn:a> <urn:g> .",
    "<urn:c> <urn:p> <urn:a> .",
    "<urn:c> <urn:q> <urn:b> <urn:h> .",
];

/// Which of the eight quads are there.
pub(crate) type Content = [bool; 8];

/// Nothing is there.
pub(crate) const EMPTY: Content = [false; 8];

/// What a pattern wants at a place.
#[derive(Clone, Copy, PartialEq, Eq)]
pub(crate) enum Part {
    /// Anything, and as a graph the absent one too.
    Any,
    /// A named graph.
    Named,
    /// The term or the graph of a number.
    Is(usize),
    /// The term that stands for the first variable.
    X,
    /// The term that stands for the second variable.
    Y,
}

/// A pattern of quads.
#[derive(Clone, Copy, PartialEq, Eq)]
pub(crate) struct Looked {
    pub(crate) s: Part,
    pub(crate) p: Part,
    pub(crate) o: Part,
    pub(crate) g: Part,
}

/// The terms that stand for the variables.
#[derive(Clone, Copy)]
pub(crate) struct Bound {
    pub(crate) x: usize,
    pub(crate) y: usize,
}

/// Nothing stands for a variable.
pub(crate) const UNBOUND: Bound = Bound {
    x: ABSENT,
    y: ABSENT,
};

fn fits(part: Part, bound: Bound, number: usize) -> bool {
    match part {
        Part::Any => true,
        Part::Named => number != ABSENT,
        Part::Is(wanted) => number == wanted,
        Part::X => number == bound.x,
        Part::Y => number == bound.y,
    }
}

/// Whether the quad of these parts is what the pattern wants.
pub(crate) fn is_wanted(looked: Looked, bound: Bound, quad: Parts) -> bool {
    fits(looked.s, bound, quad.s)
        && fits(looked.p, bound, quad.p)
        && fits(looked.o, bound, quad.o)
        && fits(looked.g, bound, quad.g)
}

/// A change, by the number of its quad. The last one takes away all quads of the subject of a number.
#[derive(Clone, Copy)]
pub(crate) enum Edit {
    Add(usize),
    Remove(usize),
    RemoveSubject(usize),
}

fn is_of_subject(number: usize, subject: usize) -> bool {
    match QUADS.get(number) {
        Some(quad) => quad.s == subject,
        None => false,
    }
}

fn after(edit: Edit, number: usize, was: bool) -> bool {
    match edit {
        Edit::Add(added) => was || added == number,
        Edit::Remove(removed) => was && removed != number,
        Edit::RemoveSubject(subject) => was && !is_of_subject(number, subject),
    }
}

fn after_one(content: Content, edit: Edit) -> Content {
    let mut next = content;
    for number in 0..8 {
        next[number] = after(edit, number, content[number]);
    }
    next
}

/// What these changes leave of a content, one after the other.
pub(crate) fn edited(content: Content, edits: &[Edit]) -> Content {
    let mut content = content;
    for edit in edits {
        let next = after_one(content, *edit);
        content = next;
    }
    content
}

/// How many of the quads are there.
pub(crate) fn size(content: &Content) -> u64 {
    let mut count = 0u64;
    for held in content {
        if *held {
            count = count.saturating_add(1);
        }
    }
    count
}

/// How many bytes the canonical lines of the quads have that are there, with their ends.
pub(crate) fn bytes(content: &Content) -> u64 {
    let mut sum = 0u64;
    for (line, held) in LINES.iter().zip(content) {
        if *held {
            sum = sum.saturating_add(line.len() as u64).saturating_add(1);
        }
    }
    sum
}

/// The term of a number.
pub(crate) fn term(alloc: Global, number: usize) -> Result<Term, Memory> {
    match TERMS.get(number) {
        Some(text) => Ok(Term::Iri(Text::from_chars(alloc, text)?)),
        None => Err(Memory),
    }
}

/// The graph of a number.
pub(crate) fn graph(alloc: Global, number: usize) -> Result<Graph, Memory> {
    if number == ABSENT {
        return Ok(Graph::Absent);
    }
    Ok(Graph::Named(term(alloc, number)?))
}

/// The number of a text among others.
pub(crate) fn number_in(texts: &[&str], wanted: &Text) -> Option<usize> {
    for (number, text) in texts.iter().enumerate() {
        if *text == wanted.as_str() {
            return Some(number);
        }
    }
    None
}

/// The number of a term.
pub(crate) fn number_of_term(term: &Term) -> Option<usize> {
    match term {
        Term::Iri(iri) => number_in(&TERMS, iri),
        _ => None,
    }
}

/// The number of a graph.
pub(crate) fn number_of_graph(graph: &Graph) -> Option<usize> {
    match graph {
        Graph::Absent => Some(ABSENT),
        Graph::Named(name) => number_of_term(name),
    }
}

/// The number of the quad of these parts.
pub(crate) fn number_of_parts(parts: Parts) -> Option<usize> {
    for (number, quad) in QUADS.iter().enumerate() {
        if *quad == parts {
            return Some(number);
        }
    }
    None
}

/// The number of a quad that is one of the eight.
pub(crate) fn number_of_quad(quad: &Quad) -> Option<usize> {
    number_of_parts(Parts {
        s: number_of_term(quad.s())?,
        p: number_of_term(quad.p())?,
        o: number_of_term(quad.o())?,
        g: number_of_graph(quad.c())?,
    })
}

/// The quad of a number.
fn quad(alloc: Global, number: usize) -> Result<Quad, Memory> {
    let Some(line) = LINES.get(number) else {
        return Err(Memory);
    };
    match read_line(alloc, Kind::Quads, line.as_bytes()) {
        Ok(Some(quad)) => Ok(quad),
        _ => Err(Memory),
    }
}

fn of_subject(subject: Term) -> Pattern {
    Pattern {
        s: Some(subject),
        p: None,
        o: None,
        c: GraphPick::Any,
    }
}

fn change(alloc: Global, edit: Edit) -> Result<Change, Memory> {
    match edit {
        Edit::Add(number) => Ok(Change::Add(quad(alloc, number)?)),
        Edit::Remove(number) => Ok(Change::Remove(quad(alloc, number)?)),
        Edit::RemoveSubject(number) => Ok(Change::RemoveMatching(of_subject(term(alloc, number)?))),
    }
}

/// These changes.
pub(crate) fn changes(alloc: Global, edits: &[Edit]) -> Result<Changes, Memory> {
    let mut changes = Changes::new(alloc);
    for edit in edits {
        changes.push(change(alloc, *edit)?)?;
    }
    Ok(changes)
}
