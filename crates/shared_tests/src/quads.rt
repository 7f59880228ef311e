//! Quads by their numbers, and what is asked of them.
use journal::{Ask, Graphs};
use nquads_line::{Kind, read_line};
use rdf_term::{GraphPick, Memory, Pattern, Quad, Term, Text};
use std::alloc::Global;

/// Which quads a read observes.
#[derive(Clone, Copy, PartialEq, Eq)]
pub enum Observed {
    All,
    /// Those of even numbers, which have a predicate of their own.
    Evens,
}

const EVEN: &str = "urn:even";

const ODD: &str = "urn:odd";

/// The quad of a line.
pub(crate) fn quad_of(alloc: Global, line: &str) -> Result<Quad, Memory> {
    match read_line(alloc, Kind::Quads, line.as_bytes()) {
        Ok(Some(quad)) => Ok(quad),
        _ => Err(Memory),
    }
}

/// The quad of a number.
pub(crate) fn numbered(alloc: Global, number: u64) -> Result<Quad, Memory> {
    let predicate = if number % 2 == 0 { EVEN } else { ODD };
    let line = format!(in alloc; "<urn:s> <{predicate}> \"{number}\" .")?;
    quad_of(alloc, line.as_str())
}

/// The number that a quad's object spells.
fn spelled(quad: &Quad) -> Option<u64> {
    match quad.o() {
        Term::Plain(text) => text.as_str().parse::<u64>().ok(),
        _ => None,
    }
}

/// The number of a quad, where it is the quad of a number in all its parts.
pub(crate) fn number_of(alloc: Global, quad: &Quad) -> Result<Option<u64>, Memory> {
    match spelled(quad) {
        Some(number) if *quad == numbered(alloc, number)? => Ok(Some(number)),
        _ => Ok(None),
    }
}

/// The bit of a number below 64 that isn't in a set yet, with the set.
fn with_bit(set: u64, number: u64) -> Option<u64> {
    let bit = match number {
        0..=63 => 1u64 << number,
        _ => return None,
    };
    if set & bit == 0 {
        Some(set | bit)
    } else {
        None
    }
}

/// The numbers of quads as the bits of a set, where each is the quad of another number below 64.
pub(crate) fn set_of(alloc: Global, quads: &[Quad]) -> Result<Option<u64>, Memory> {
    let mut set = 0u64;
    for quad in quads {
        let Some(number) = number_of(alloc, quad)? else {
            return Ok(None);
        };
        let Some(more) = with_bit(set, number) else {
            return Ok(None);
        };
        set = more;
    }
    Ok(Some(set))
}

fn is_even(predicate: &Term) -> bool {
    match predicate {
        Term::Iri(text) => text.as_str() == EVEN,
        _ => false,
    }
}

/// Which quads a pattern matches, where it is one of the two that are asked for.
pub(crate) fn observed_by(pattern: &Pattern) -> Option<Observed> {
    match (&pattern.s, &pattern.o, &pattern.c) {
        (None, None, GraphPick::Any) => {}
        _ => return None,
    }
    match &pattern.p {
        None => Some(Observed::All),
        Some(predicate) if is_even(predicate) => Some(Observed::Evens),
        Some(_) => None,
    }
}

/// Asks for the number of all quads.
pub(crate) fn size(alloc: Global) -> Ask {
    Ask::Size {
        contexts: Graphs::new(alloc),
    }
}

/// Asks for the quads of even numbers, by their predicate.
pub(crate) fn evens(alloc: Global) -> Result<Ask, Memory> {
    let predicate = Term::Iri(Text::from_chars(alloc, EVEN)?);
    Ok(Ask::List {
        s: None,
        p: Some(predicate),
        o: None,
        contexts: Graphs::new(alloc),
    })
}
