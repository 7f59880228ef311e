//! Queries and tables: their copies, their equality, and which of them are well formed.
use query_model::{
    Cut, Names1, Patterns, Query, Scope, Slot, Table, TriplePattern, is_well_formed,
};
use query_text::parse_query;
use rdf_term::{Duplicate, Memory, Row, Rows, Term, Text};
use std::alloc::Global;
use std::process::Abort;

fn text(alloc: Global, characters: &str) -> Result<Text, Memory> {
    Text::from_chars(alloc, characters)
}

/// The query of a text, which is one.
fn read(rt: &impl Abort, alloc: Global, text: &str) -> Query {
    match parse_query(alloc, text) {
        Ok(query) => query,
        Err(_) => panic!(rt; "no query: {text}"),
    }
}

#[test]
fn a_query_equals_its_copy_and_no_other(rt: HostRuntime) -> Result<(), Memory> {
    let alloc = rt.alloc();
    let texts = [
        "ASK {}",
        "ASK { ?s ?p ?o }",
        "ASK { ?s ?p _:o }",
        "ASK { ?s ?p <e:o> }",
        "ASK { GRAPH ?g { ?s ?p ?o } }",
        "ASK { GRAPH <e:g> { ?s ?p ?o } }",
        "SELECT ?s ?o { ?s ?p ?o }",
        "SELECT ?o ?s { ?s ?p ?o }",
        "SELECT DISTINCT ?s ?o { ?s ?p ?o }",
        "SELECT ?s ?o { ?s ?p ?o } LIMIT 1",
        "SELECT ?s ?o { ?s ?p ?o } OFFSET 1",
        "CONSTRUCT { ?s ?p ?o } { ?o ?p ?s }",
        "CONSTRUCT { ?o ?p ?s } { ?s ?p ?o }",
        "CONSTRUCT { ?o ?p ?s } { ?s ?p ?o } LIMIT 0",
    ];
    for (place, one) in texts.iter().enumerate() {
        let query = read(&rt, alloc, *one);
        for (number, other) in texts.iter().enumerate() {
            let copy = read(&rt, alloc, *other).copy(alloc)?;
            assert_eq!(rt; query == copy, place == number, "{one} and {other}");
        }
    }
    Ok(())
}

/// A table of one column and so many rows of one term.
fn table(alloc: Global, name: &str, rows: usize) -> Result<Table, Memory> {
    let mut vars = Names1::new(alloc);
    vars.push(text(alloc, name)?)?;
    let mut list = Rows::new(alloc);
    for _ in 0..rows {
        let mut row = Row::new(alloc);
        row.push(Some(Term::Plain(text(alloc, "a")?)))?;
        list.push(row)?;
    }
    Ok(Table { vars, rows: list })
}

#[test]
fn tables_are_copied_and_compared(rt: HostRuntime) -> Result<(), Memory> {
    let alloc = rt.alloc();
    let one = table(alloc, "x", 1)?;
    let copy = one.copy(alloc)?;
    assert!(rt; one == copy);
    let renamed = table(alloc, "y", 1)?;
    assert!(rt; one != renamed);
    let longer = table(alloc, "x", 2)?;
    assert!(rt; one != longer);
    Ok(())
}

/// A part of a pattern.
#[derive(Clone, Copy)]
enum Part {
    Var(&'static str),
    Blank(&'static str),
    Iri(&'static str),
    Literal,
}

/// A pattern's place outside GRAPH or inside it.
#[derive(Clone, Copy)]
enum Place {
    Outside,
    Inside(Part),
}

/// A pattern whose object is a variable.
#[derive(Clone, Copy)]
struct Shape {
    s: Part,
    p: Part,
    g: Place,
}

const PLAIN: Shape = Shape {
    s: Part::Var("s"),
    p: Part::Var("p"),
    g: Place::Outside,
};

fn slot(alloc: Global, part: Part) -> Result<Slot, Memory> {
    Ok(match part {
        Part::Var(name) => Slot::Var(text(alloc, name)?),
        Part::Blank(label) => Slot::Blank(text(alloc, label)?),
        Part::Iri(iri) => Slot::Fixed(Term::Iri(text(alloc, iri)?)),
        Part::Literal => Slot::Fixed(Term::Plain(text(alloc, "a")?)),
    })
}

fn scope(alloc: Global, place: Place) -> Result<Scope, Memory> {
    Ok(match place {
        Place::Outside => Scope::Any,
        Place::Inside(part) => Scope::Graph(slot(alloc, part)?),
    })
}

fn pattern(alloc: Global, shape: Shape) -> Result<TriplePattern, Memory> {
    Ok(TriplePattern {
        s: slot(alloc, shape.s)?,
        p: slot(alloc, shape.p)?,
        o: slot(alloc, Part::Var("o"))?,
        g: scope(alloc, shape.g)?,
    })
}

/// A pattern, so many times.
fn patterns(alloc: Global, shape: Shape, count: usize) -> Result<Patterns, Memory> {
    let mut patterns = Patterns::new(alloc);
    for _ in 0..count {
        patterns.push(pattern(alloc, shape)?)?;
    }
    Ok(patterns)
}

/// Whether an ASK of a pattern, so many times, is well formed.
fn is_asked(alloc: Global, shape: Shape, count: usize) -> Result<bool, Memory> {
    let query = Query::Ask {
        group: patterns(alloc, shape, count)?,
    };
    Ok(is_well_formed(&query))
}

/// Whether a CONSTRUCT with a template of one pattern and a limit is well formed.
fn is_constructed(alloc: Global, shape: Shape, limit: Option<u64>) -> Result<bool, Memory> {
    let query = Query::Construct {
        template: patterns(alloc, shape, 1)?,
        group: patterns(alloc, PLAIN, 1)?,
        cut: Cut { limit, offset: 0 },
    };
    Ok(is_well_formed(&query))
}

#[test]
fn a_group_with_a_refused_part_is_not_well_formed(rt: HostRuntime) -> Result<(), Memory> {
    let alloc = rt.alloc();
    let cases = [
        (PLAIN, 0, true),
        (PLAIN, 256, true),
        (PLAIN, 257, false),
        (
            Shape {
                s: Part::Blank("a:b"),
                ..PLAIN
            },
            1,
            false,
        ),
        (
            Shape {
                p: Part::Var("a-b"),
                ..PLAIN
            },
            1,
            false,
        ),
        (
            Shape {
                p: Part::Iri("p"),
                ..PLAIN
            },
            1,
            false,
        ),
        (
            Shape {
                p: Part::Literal,
                ..PLAIN
            },
            1,
            false,
        ),
        (
            Shape {
                g: Place::Inside(Part::Literal),
                ..PLAIN
            },
            1,
            false,
        ),
        (
            Shape {
                g: Place::Inside(Part::Iri("e:g")),
                ..PLAIN
            },
            1,
            true,
        ),
    ];
    for (number, (shape, count, wanted)) in cases.into_iter().enumerate() {
        assert_eq!(rt; is_asked(alloc, shape, count)?, wanted, "{number}");
    }
    Ok(())
}

#[test]
fn a_template_or_a_cut_that_is_refused_is_not_well_formed(rt: HostRuntime) -> Result<(), Memory> {
    let alloc = rt.alloc();
    let blank = Shape {
        s: Part::Blank("b"),
        ..PLAIN
    };
    let inside = Shape {
        g: Place::Inside(Part::Var("g")),
        ..PLAIN
    };
    let cases = [
        (PLAIN, Some(999_999_999_999_999_999), true),
        (PLAIN, Some(1_000_000_000_000_000_000), false),
        (blank, None, false),
        (inside, None, false),
    ];
    for (number, (shape, limit, wanted)) in cases.into_iter().enumerate() {
        assert_eq!(rt; is_constructed(alloc, shape, limit)?, wanted, "{number}");
    }
    Ok(())
}
