//! Asks as plain data, by their numbers, what each of them observes, and what is found for it in a
//! content: each choice of terms for the variables of a query is tried.
ghost use Rattle.std.specs.Prelude.{◌≡◌, Contains, IsTrue};
ghost use Rattle.std.specs.List.{list_any};
ghost use Rattle.std.specs.Ordering.{eq_by_cmp};
ghost use Rattle.rdf_term.specs.Order.{graph_cmp};

use crate::quads::{
    ABSENT, Bound, Content, EMPTY, Looked, Part, Parts, QUADS, TERMS, UNBOUND, graph, is_wanted,
    number_of_parts, size, term,
};
use crate::replies::{Answer, Counts, NO_ROWS};
use journal::{Ask, Graphs};
use query_grammar::parse_query;
use query_model::Query;
use rdf_term::{Graph, Memory, Term};
use std::alloc::Global;

/// What is asked.
#[derive(Clone, Copy)]
pub(crate) enum Asked {
    Query(Queried),
    /// The quads of a subject, a predicate and an object in some graphs.
    List(Option<usize>, Option<usize>, Option<usize>, &'static [usize]),
    /// The number of quads in some graphs.
    Size(&'static [usize]),
    Contexts,
}

/// A query of one pattern or two, and the terms that may stand for its second variable.
#[derive(Clone, Copy)]
pub(crate) struct Queried {
    text: &'static str,
    form: Form,
    patterns: &'static [Looked],
    /// Whether the query has a second variable.
    two: bool,
}

/// What is made of the solutions.
#[derive(Clone, Copy)]
enum Form {
    X,
    DistinctX,
    Y,
    XAndY,
    Truth,
    /// The triples of the first variable, the predicate `<urn:p>`, and the second variable.
    Triples,
}

fn looked(s: Part, p: Part, o: Part, g: Part) -> Looked {
    Looked { s, p, o, g }
}

const P: Part = Part::Is(5);

const Q: Part = Part::Is(6);

/// Numbers of asks that tests name.
pub(crate) const SIZE: usize = 0;

pub(crate) const NAMES: usize = 1;

pub(crate) const OF_A: usize = 2;

pub(crate) const PAIRS: usize = 3;

pub(crate) const TWO_STEPS: usize = 4;

pub(crate) const LOOP: usize = 5;

pub(crate) const TRIPLES: usize = 6;

pub(crate) const SUBJECTS: usize = 7;

pub(crate) const ALL: usize = 18;

/// The asks, by their numbers.
pub(crate) static ASKS: [Asked; 19] = [
    Asked::Size(&[]),
    Asked::Contexts,
    Asked::List(Some(0), None, None, &[]),
    Asked::Query(Queried {
        text: "SELECT ?x ?y { ?x <urn:p> ?y }",
        form: Form::XAndY,
        patterns: &[Looked {
            s: Part::X,
            p: P,
            o: Part::Y,
            g: Part::Any,
        }],
        two: true,
    }),
    Asked::Query(Queried {
        text: "SELECT ?x { ?x <urn:p> ?y . ?y <urn:q> ?x }",
        form: Form::X,
        patterns: &[
            Looked {
                s: Part::X,
                p: P,
                o: Part::Y,
                g: Part::Any,
            },
            Looked {
                s: Part::Y,
                p: Q,
                o: Part::X,
                g: Part::Any,
            },
        ],
        two: true,
    }),
    Asked::Query(Queried {
        text: "ASK { ?x <urn:p> ?x }",
        form: Form::Truth,
        patterns: &[Looked {
            s: Part::X,
            p: P,
            o: Part::X,
            g: Part::Any,
        }],
        two: false,
    }),
    Asked::Query(Queried {
        text: "CONSTRUCT { ?x <urn:p> ?y } { ?x <urn:p> ?y }",
        form: Form::Triples,
        patterns: &[Looked {
            s: Part::X,
            p: P,
            o: Part::Y,
            g: Part::Any,
        }],
        two: true,
    }),
    Asked::Query(Queried {
        text: "SELECT DISTINCT ?x { ?x <urn:p> ?y }",
        form: Form::DistinctX,
        patterns: &[Looked {
            s: Part::X,
            p: P,
            o: Part::Y,
            g: Part::Any,
        }],
        two: true,
    }),
    Asked::Query(Queried {
        text: "SELECT ?y { GRAPH ?y { <urn:a> ?x <urn:b> } }",
        form: Form::Y,
        patterns: &[Looked {
            s: Part::Is(0),
            p: Part::X,
            o: Part::Is(1),
            g: Part::Y,
        }],
        two: true,
    }),
    Asked::Query(Queried {
        text: "SELECT ?x { GRAPH <urn:h> { ?x <urn:q> ?y } }",
        form: Form::X,
        patterns: &[Looked {
            s: Part::X,
            p: Q,
            o: Part::Y,
            g: Part::Is(4),
        }],
        two: true,
    }),
    Asked::Query(Queried {
        text: "ASK { ?x <urn:p> <urn:c> . <urn:c> <urn:q> ?x }",
        form: Form::Truth,
        patterns: &[
            Looked {
                s: Part::X,
                p: P,
                o: Part::Is(2),
                g: Part::Any,
            },
            Looked {
                s: Part::Is(2),
                p: Q,
                o: Part::X,
                g: Part::Any,
            },
        ],
        two: false,
    }),
    Asked::Query(Queried {
        text: "CONSTRUCT { ?x <urn:p> ?y } { ?x <urn:p> ?y . ?y <urn:q> ?x }",
        form: Form::Triples,
        patterns: &[
            Looked {
                s: Part::X,
                p: P,
                o: Part::Y,
                g: Part::Any,
            },
            Looked {
                s: Part::Y,
                p: Q,
                o: Part::X,
                g: Part::Any,
            },
        ],
        two: true,
    }),
    Asked::List(None, Some(5), None, &[ABSENT, 3]),
    Asked::List(None, None, Some(0), &[3]),
    Asked::List(Some(1), None, Some(2), &[ABSENT]),
    Asked::Size(&[4]),
    Asked::Size(&[3, ABSENT]),
    Asked::List(Some(2), Some(6), Some(1), &[]),
    Asked::List(None, None, None, &[]),
];

/// The ask of a number.
pub(crate) fn ask_at(number: usize) -> Asked {
    match ASKS.get(number) {
        Some(asked) => *asked,
        None => Asked::Contexts,
    }
}

fn graph_at(contexts: &[usize], place: usize) -> Option<Part> {
    if contexts.is_empty() && place == 0 {
        return Some(Part::Any);
    }
    match contexts.get(place) {
        Some(graph) => Some(Part::Is(*graph)),
        None => None,
    }
}

fn part(number: Option<usize>) -> Part {
    match number {
        Some(number) => Part::Is(number),
        None => Part::Any,
    }
}

fn without_variable(part: Part, instead: Part) -> Part {
    match part {
        Part::X | Part::Y => instead,
        _ => part,
    }
}

fn observed(pattern: Looked) -> Looked {
    Looked {
        s: without_variable(pattern.s, Part::Any),
        p: without_variable(pattern.p, Part::Any),
        o: without_variable(pattern.o, Part::Any),
        g: without_variable(pattern.g, Part::Named),
    }
}

/// The observed pattern at a place of the list of an ask's.
fn observed_at(asked: Asked, place: usize) -> Option<Looked> {
    match asked {
        Asked::Query(query) => match query.patterns.get(place) {
            Some(pattern) => Some(observed(*pattern)),
            None => None,
        },
        Asked::List(s, p, o, contexts) => {
            let g = graph_at(contexts, place)?;
            Some(looked(part(s), part(p), part(o), g))
        }
        Asked::Size(contexts) => {
            let g = graph_at(contexts, place)?;
            Some(looked(Part::Any, Part::Any, Part::Any, g))
        }
        Asked::Contexts if place == 0 => {
            Some(looked(Part::Any, Part::Any, Part::Any, Part::Named))
        }
        Asked::Contexts => None,
    }
}

fn observed_if_wanted(asked: Asked, place: usize, quad: Parts) -> Option<Looked> {
    let looked = observed_at(asked, place)?;
    if is_wanted(looked, UNBOUND, quad) {
        Some(looked)
    } else {
        None
    }
}

/// The first pattern that an ask observes and that matches the quad of a number.
pub(crate) fn observer(asked: Asked, number: usize) -> Option<Looked> {
    let quad = *QUADS.get(number)?;
    match observed_if_wanted(asked, 0, quad) {
        Some(looked) => Some(looked),
        None => observed_if_wanted(asked, 1, quad),
    }
}

/// Which quads of a content the patterns of a list or a size match.
fn matched(asked: Asked, view: Content) -> Content {
    let mut matched = EMPTY;
    for number in 0..8 {
        matched[number] = view[number] && observer(asked, number).is_some();
    }
    matched
}

/// The names of the graphs of a content, by the numbers of terms.
fn names(view: Content) -> [bool; 7] {
    let mut names = [false; 7];
    for (quad, held) in QUADS.iter().zip(view.as_slice()) {
        if *held && quad.g < 7 {
            names[quad.g] = true;
        }
    }
    names
}

fn is_found(looked: Looked, bound: Bound, view: Content) -> bool {
    for (quad, held) in QUADS.iter().zip(view.as_slice()) {
        if *held && is_wanted(looked, bound, *quad) {
            return true;
        }
    }
    false
}

fn is_solution(patterns: &[Looked], bound: Bound, view: Content) -> bool {
    for looked in patterns {
        if !is_found(*looked, bound, view) {
            return false;
        }
    }
    true
}

/// What the solutions make.
#[derive(Clone, Copy)]
struct Tally {
    solutions: u64,
    rows: Counts,
    triples: Content,
}

const NOTHING: Tally = Tally {
    solutions: 0,
    rows: NO_ROWS,
    triples: EMPTY,
};

/// The place of a row among the counted ones.
pub(crate) fn row_place(first: usize, second: usize) -> usize {
    first.saturating_mul(7).saturating_add(second)
}

/// One row more.
pub(crate) fn counted(rows: Counts, place: usize) -> Counts {
    let mut rows = rows;
    if place < 49 {
        rows[place] = rows[place].saturating_add(1);
    }
    rows
}

fn once(rows: Counts, place: usize) -> Counts {
    if rows.get(place) == Some(&0) {
        return counted(rows, place);
    }
    rows
}

fn with_row(rows: Counts, form: Form, bound: Bound) -> Counts {
    match form {
        Form::X => counted(rows, row_place(bound.x, 0)),
        Form::DistinctX => once(rows, row_place(bound.x, 0)),
        Form::Y => counted(rows, row_place(bound.y, 0)),
        Form::XAndY => counted(rows, row_place(bound.x, bound.y)),
        Form::Truth | Form::Triples => rows,
    }
}

fn with_triple(triples: Content, bound: Bound) -> Content {
    let mut triples = triples;
    let made = Parts {
        s: bound.x,
        p: 5,
        o: bound.y,
        g: ABSENT,
    };
    if let Some(number) = number_of_parts(made) {
        if number < 8 {
            triples[number] = true;
        }
    }
    triples
}

fn with_solution(tally: Tally, form: Form, bound: Bound) -> Tally {
    Tally {
        solutions: tally.solutions.saturating_add(1),
        rows: with_row(tally.rows, form, bound),
        triples: with_triple(tally.triples, bound),
    }
}

/// What the solutions of a query with this term for the first variable add.
fn with_first(tally: Tally, query: Queried, view: Content, x: usize) -> Tally {
    let mut tally = tally;
    let ys = if query.two { TERMS.len() } else { 1 };
    for y in 0..ys {
        let bound = Bound { x, y };
        if is_solution(query.patterns, bound, view) {
            let next = with_solution(tally, query.form, bound);
            tally = next;
        }
    }
    tally
}

fn tallied(query: Queried, view: Content) -> Tally {
    let mut tally = NOTHING;
    for x in 0..TERMS.len() {
        let next = with_first(tally, query, view, x);
        tally = next;
    }
    tally
}

fn found_for(query: Queried, view: Content, most: u64) -> Answer {
    let tally = tallied(query, view);
    match query.form {
        Form::Truth => Answer::Truth(tally.solutions > 0),
        _ if tally.solutions > most => Answer::TooManyRows,
        Form::Triples => Answer::Quads(tally.triples),
        _ => Answer::Rows(tally.rows),
    }
}

/// What is found for an ask in a content, with at most so many rows.
pub(crate) fn found(asked: Asked, view: Content, most: u64) -> Answer {
    match asked {
        Asked::Query(query) => found_for(query, view, most),
        Asked::List(_, _, _, _) => Answer::Quads(matched(asked, view)),
        Asked::Size(_) => Answer::Count(size(&matched(asked, view))),
        Asked::Contexts => Answer::Contexts(names(view)),
    }
}

/// How many Steps a query makes; none for another ask.
pub(crate) fn steps_of(asked: Asked) -> u32 {
    match asked {
        Asked::Query(query) if query.patterns.len() > 1 => 2,
        Asked::Query(_) => 1,
        _ => 0,
    }
}

/// Whether a graph is among these.
fn is_among(graphs: &[Graph], graph: &Graph) -> bool
    ensures value { result ≡ list_any (eq_by_cmp graph_cmp graph.now) graphs.now }
    ensures fact { Contains graphs.now graph.now → IsTrue result }
{
    graphs.iter().any(|other| *graph == *other)
}

/// Adds a graph that is not there yet.
fn push_new(graphs: &mut Graphs, graph: Graph) -> Result<(), Memory> {
    if is_among(graphs.as_slice(), &graph) {
        return Ok(());
    }
    graphs.push(graph)
}

fn graphs(alloc: Global, contexts: &[usize]) -> Result<Graphs, Memory> {
    let mut graphs = Graphs::new(alloc);
    for number in contexts {
        push_new(&mut graphs, graph(alloc, *number)?)?;
    }
    Ok(graphs)
}

fn given(alloc: Global, number: Option<usize>) -> Result<Option<Term>, Memory> {
    match number {
        Some(number) => Ok(Some(term(alloc, number)?)),
        None => Ok(None),
    }
}

fn list(
    alloc: Global,
    s: Option<usize>,
    p: Option<usize>,
    o: Option<usize>,
    contexts: &[usize],
) -> Result<Ask, Memory> {
    let contexts = graphs(alloc, contexts)?;
    let s = given(alloc, s)?;
    let p = given(alloc, p)?;
    let o = given(alloc, o)?;
    Ok(Ask::List { s, p, o, contexts })
}

/// The query of a text.
fn query_of(alloc: Global, text: &str) -> Result<Query, Memory> {
    match parse_query(alloc, text) {
        Ok(query) => Ok(query),
        Err(_) => Err(Memory),
    }
}

/// The query of the ask of a number.
pub(crate) fn query(alloc: Global, number: usize) -> Result<Query, Memory> {
    match ask_at(number) {
        Asked::Query(query) => query_of(alloc, query.text),
        _ => Err(Memory),
    }
}

/// The ask of a number.
pub(crate) fn ask(alloc: Global, number: usize) -> Result<Ask, Memory> {
    match ask_at(number) {
        Asked::Query(query) => Ok(Ask::Query(query_of(alloc, query.text)?)),
        Asked::List(s, p, o, contexts) => list(alloc, s, p, o, contexts),
        Asked::Size(contexts) => Ok(Ask::Size {
            contexts: graphs(alloc, contexts)?,
        }),
        Asked::Contexts => Ok(Ask::Contexts),
    }
}
