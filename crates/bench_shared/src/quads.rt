//! Generated quads by their numbers, and what is asked of them.
use change_set::{Change, Changes};
use journal::{Ask, Graphs};
use nquads_line::{Kind, read_line};
use rdf_term::{Memory, Quad, Term, Text};
use std::alloc::Global;

/// The number of the subject of a quad's number, where each subject has some.
fn subject_of(number: u64, each: u64) -> u64 {
    number.checked_div(each).unwrap_or(0)
}

/// The quad of a number.
fn numbered(alloc: Global, number: u64, each: u64) -> Result<Quad, Memory> {
    let line = format!(in alloc;
        "<http://example.org/subject/{}> <http://example.org/predicate/{}> \"{number}\" .",
        subject_of(number, each),
        number % 10
    )?;
    match read_line(alloc, Kind::Quads, line.as_str().as_bytes()) {
        Ok(Some(quad)) => Ok(quad),
        _ => Err(Memory),
    }
}

/// The changes that add the quads of these numbers.
pub fn adding(alloc: Global, start: u64, end: u64, each: u64) -> Result<Changes, Memory> {
    let mut changes = Changes::new(alloc);
    for number in start..end {
        changes.push(Change::Add(numbered(alloc, number, each)?))?;
    }
    Ok(changes)
}

/// Asks for the quads of the subject that the quad of a number has.
pub fn asking(alloc: Global, number: u64, each: u64) -> Result<Ask, Memory> {
    let text = format!(in alloc; "http://example.org/subject/{}", subject_of(number, each))?;
    Ok(Ask::List {
        s: Some(Term::Iri(Text::from_chars(alloc, text.as_str())?)),
        p: None,
        o: None,
        contexts: Graphs::new(alloc),
    })
}
