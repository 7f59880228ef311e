//! Replies as plain data.
use crate::asks::{counted, row_place};
use crate::quads::{
    ABSENT, Content, EMPTY, Looked, Part, number_in, number_of_graph, number_of_quad,
    number_of_term,
};
use journal::{Names, Reply, Terms, Txn};
use query_model::Table;
use rdf_term::{GraphPick, Pattern, Quads, Row, Term, Text};

/// How often each row stands in a table, by the numbers of its one or two terms.
pub(crate) type Counts = [u8; 49];

pub(crate) const NO_ROWS: Counts = [0; 49];

/// What an entry is answered.
#[derive(Clone, Copy, PartialEq, Eq)]
pub(crate) enum Answer {
    Begun(Txn),
    Done,
    Rows(Counts),
    Truth(bool),
    /// Quads that are among the eight, in order.
    Quads(Content),
    Count(u64),
    /// The names of graphs, by the numbers of terms.
    Contexts([bool; 7]),
    /// The name that the one prefix stands for, where it is there.
    Prefixes(Option<usize>),
    Prefix(usize),
    NoPrefix,
    NoTransaction,
    TooManyOpen,
    /// A pattern and the number of a quad.
    Conflict(Looked, usize),
    TooLarge,
    TooManyRows,
    /// What nothing here is answered.
    Other,
}

/// The one prefix.
pub(crate) const PREFIX: &str = "e";

/// The names that it may stand for.
pub(crate) const NAMES: [&str; 2] = ["urn:x", "urn:y"];

/// The term at a place of a row. Behind a row of one place stands 0.
fn column(row: &Row, place: usize) -> Option<usize> {
    match row.at(place) {
        Some(Some(term)) => number_of_term(term),
        Some(None) => None,
        None if place == 1 => Some(0),
        None => None,
    }
}

fn with_row(rows: Counts, row: &Row) -> Option<Counts> {
    let first = column(row, 0)?;
    let second = column(row, 1)?;
    if row.len() > 2 {
        return None;
    }
    Some(counted(rows, row_place(first, second)))
}

fn rows_of(table: &Table) -> Option<Counts> {
    let mut rows = NO_ROWS;
    for row in table.rows.as_slice() {
        let next = with_row(rows, row)?;
        rows = next;
    }
    Some(rows)
}

/// The content of quads that are among the eight and in order, each once.
fn content_of(quads: &Quads) -> Option<Content> {
    let mut content = EMPTY;
    let mut least = 0usize;
    for quad in quads.as_slice() {
        let number = number_of_quad(quad)?;
        if number < least || number >= 8 {
            return None;
        }
        content[number] = true;
        least = number + 1;
    }
    Some(content)
}

/// The names of graphs in order, each once.
fn contexts_of(terms: &Terms) -> Option<[bool; 7]> {
    let mut names = [false; 7];
    let mut least = 0usize;
    for term in terms.as_slice() {
        let number = number_of_term(term)?;
        if number < least || number >= 7 {
            return None;
        }
        names[number] = true;
        least = number + 1;
    }
    Some(names)
}

fn number_of_name(name: &Text) -> Option<usize> {
    number_in(&NAMES, name)
}

fn prefixes_of(names: &Names) -> Answer {
    match names.as_slice() {
        [] => Answer::Prefixes(None),
        [(prefix, name)] if prefix.as_str() == PREFIX => Answer::Prefixes(number_of_name(name)),
        _ => Answer::Other,
    }
}

fn part_of(term: &Option<Term>) -> Option<Part> {
    match term {
        Some(term) => Some(Part::Is(number_of_term(term)?)),
        None => Some(Part::Any),
    }
}

fn graph_of(pick: &GraphPick) -> Option<Part> {
    match pick {
        GraphPick::Any => Some(Part::Any),
        GraphPick::NamedOnly => Some(Part::Named),
        GraphPick::One(graph) => Some(Part::Is(number_of_graph(graph)?)),
    }
}

fn looked_of(pattern: &Pattern) -> Option<Looked> {
    let s = part_of(&pattern.s)?;
    let p = part_of(&pattern.p)?;
    let o = part_of(&pattern.o)?;
    let g = graph_of(&pattern.c)?;
    Some(Looked { s, p, o, g })
}

fn conflict_of(pattern: Option<Looked>, quad: Option<usize>) -> Answer {
    match (pattern, quad) {
        (Some(pattern), Some(quad)) => Answer::Conflict(pattern, quad),
        _ => Answer::Other,
    }
}

/// The answer of a reply to an ask.
fn found_of(reply: &Reply) -> Option<Answer> {
    match reply {
        Reply::Table(table) => Some(Answer::Rows(rows_of(table)?)),
        Reply::Truth(truth) => Some(Answer::Truth(*truth)),
        Reply::Quads(quads) => Some(Answer::Quads(content_of(quads)?)),
        Reply::Count(count) => Some(Answer::Count(*count)),
        Reply::Contexts(names) => Some(Answer::Contexts(contexts_of(names)?)),
        Reply::Prefix(name) => Some(Answer::Prefix(number_of_name(name)?)),
        _ => None,
    }
}

/// The answer that a reply gives.
pub(crate) fn answer_of(reply: &Reply) -> Answer {
    match reply {
        Reply::Begun(txn) => Answer::Begun(*txn),
        Reply::Done => Answer::Done,
        Reply::Prefixes(names) => prefixes_of(names),
        Reply::NoPrefix => Answer::NoPrefix,
        Reply::NoTransaction => Answer::NoTransaction,
        Reply::TooManyOpen => Answer::TooManyOpen,
        Reply::Conflict(pattern, quad) => conflict_of(looked_of(pattern), number_of_quad(quad)),
        Reply::TooLarge => Answer::TooLarge,
        Reply::TooManyRows => Answer::TooManyRows,
        _ => match found_of(reply) {
            Some(answer) => answer,
            None => Answer::Other,
        },
    }
}

/// Whether an entry that is answered so was not accepted.
pub(crate) fn is_refusal(answer: Answer) -> bool {
    match answer {
        Answer::NoTransaction | Answer::TooManyOpen | Answer::Conflict(_, _) | Answer::TooLarge =>
            true,
        _ => false,
    }
}
