//! A plain program for the answers of queries: it follows the definition of a solution (SPARQL 1.1,
//! sections 18.1 and 18.3) to the letter. Each assignment of the terms of the quads to the unknowns
//! is tried, and each pattern compared with every quad.
use query_model::{Cut, Found, Names1, Patterns, Query, Scope, Slot, Table, TriplePattern};
use rdf_term::{Duplicate, Graph, Memory, Quad, Quads, Row, Rows, Term, Text};
use std::alloc::Global;

/// Whether both are one variable or one blank node.
fn is_same(left: &Slot, right: &Slot) -> bool {
    match (left, right) {
        (Slot::Var(name), Slot::Var(other)) => *name == *other,
        (Slot::Blank(label), Slot::Blank(other)) => *label == *other,
        _ => false,
    }
}

fn add_unknown(alloc: Global, unknowns: &mut Vec<Slot>, slot: &Slot) -> Result<(), Memory> {
    if let Slot::Fixed(_) = slot {
        return Ok(());
    }
    for unknown in unknowns.as_slice() {
        if is_same(unknown, slot) {
            return Ok(());
        }
    }
    unknowns.push(slot.copy(alloc)?)?;
    Ok(())
}

/// The unknowns of patterns, each once, in the order in which they first stand.
pub(crate) fn unknowns_of(alloc: Global, patterns: &[TriplePattern]) -> Result<Vec<Slot>, Memory> {
    let mut unknowns = Vec::new(alloc);
    for pattern in patterns {
        if let Scope::Graph(name) = &pattern.g {
            add_unknown(alloc, &mut unknowns, name)?;
        }
        add_unknown(alloc, &mut unknowns, &pattern.s)?;
        add_unknown(alloc, &mut unknowns, &pattern.p)?;
        add_unknown(alloc, &mut unknowns, &pattern.o)?;
    }
    Ok(unknowns)
}

/// The terms that stand in quads, each once.
fn terms_of(alloc: Global, quads: &[Quad]) -> Result<Vec<Term>, Memory> {
    let mut terms = Vec::new(alloc);
    for quad in quads {
        terms.push(quad.s().copy(alloc)?)?;
        terms.push(quad.p().copy(alloc)?)?;
        terms.push(quad.o().copy(alloc)?)?;
        if let Graph::Named(name) = quad.c() {
            terms.push(name.copy(alloc)?)?;
        }
    }
    terms.sort()?;
    terms.dedup();
    Ok(terms)
}

/// An assignment: the unknowns, and for each of them the place of its term among the terms.
#[derive(Clone, Copy)]
struct Trial<'a> {
    unknowns: &'a [Slot],
    places: &'a [usize],
    terms: &'a [Term],
}

/// The term that the assignment gives a slot.
fn value<'a>(trial: &Trial<'a>, slot: &'a Slot) -> Option<&'a Term> {
    if let Slot::Fixed(term) = slot {
        return Some(term);
    }
    for (unknown, place) in trial.unknowns.iter().zip(trial.places) {
        if is_same(unknown, slot) {
            return trial.terms.get(*place);
        }
    }
    None
}

/// Whether the assignment gives the slot this term.
fn gives(trial: &Trial, slot: &Slot, term: &Term) -> bool {
    match value(trial, slot) {
        Some(value) => *value == *term,
        None => false,
    }
}

fn is_in_scope(trial: &Trial, scope: &Scope, graph: &Graph) -> bool {
    match (scope, graph) {
        (Scope::Any, _) => true,
        (Scope::Graph(_), Graph::Absent) => false,
        (Scope::Graph(name), Graph::Named(term)) => gives(trial, name, term),
    }
}

/// Whether the quad is the instance of the pattern.
fn is_instance(trial: &Trial, pattern: &TriplePattern, quad: &Quad) -> bool {
    gives(trial, &pattern.s, quad.s())
        && gives(trial, &pattern.p, quad.p())
        && gives(trial, &pattern.o, quad.o())
        && is_in_scope(trial, &pattern.g, quad.c())
}

fn is_found(trial: &Trial, pattern: &TriplePattern, quads: &[Quad]) -> bool {
    for quad in quads {
        if is_instance(trial, pattern, quad) {
            return true;
        }
    }
    false
}

fn is_solution(trial: &Trial, patterns: &[TriplePattern], quads: &[Quad]) -> bool {
    for pattern in patterns {
        if !is_found(trial, pattern, quads) {
            return false;
        }
    }
    true
}

/// The row of the terms that an assignment gives its unknowns.
fn row_of(alloc: Global, trial: &Trial) -> Result<Row, Memory> {
    let mut row = Row::new(alloc);
    for unknown in trial.unknowns {
        row.push(bound(alloc, trial, unknown)?)?;
    }
    Ok(row)
}

fn bound(alloc: Global, trial: &Trial, slot: &Slot) -> Result<Option<Term>, Memory> {
    match value(trial, slot) {
        Some(term) => Ok(Some(term.copy(alloc)?)),
        None => Ok(None),
    }
}

/// How many assignments there are: the power of a number of terms.
fn power(terms: usize, unknowns: usize) -> usize {
    let mut product: usize = 1;
    for _ in 0..unknowns {
        product = product.saturating_mul(terms);
    }
    product
}

/// The digits of a number to a base, so many of them.
fn digits(alloc: Global, number: usize, base: usize, count: usize) -> Result<Vec<usize>, Memory> {
    let mut digits = Vec::new(alloc);
    let mut rest = number;
    for _ in 0..count {
        digits.push(rest.checked_rem(base).unwrap_or(0))?;
        rest = rest.checked_div(base).unwrap_or(0);
    }
    Ok(digits)
}

/// The solutions of patterns over quads, in no order: a row with a place for each unknown.
pub(crate) fn solutions(
    alloc: Global,
    patterns: &[TriplePattern],
    quads: &[Quad],
) -> Result<Rows, Memory> {
    let unknowns = unknowns_of(alloc, patterns)?;
    let terms = terms_of(alloc, quads)?;
    let mut rows = Rows::new(alloc);
    for number in 0..power(terms.len(), unknowns.len()) {
        let places = digits(alloc, number, terms.len(), unknowns.len())?;
        let trial = Trial {
            unknowns: unknowns.as_slice(),
            places: places.as_slice(),
            terms: terms.as_slice(),
        };
        if is_solution(&trial, patterns, quads) {
            rows.push(row_of(alloc, &trial)?)?;
        }
    }
    Ok(rows)
}

/// The term that a row gives a slot.
fn value_in<'a>(unknowns: &[Slot], row: &'a Row, slot: &'a Slot) -> Option<&'a Term> {
    if let Slot::Fixed(term) = slot {
        return Some(term);
    }
    for (unknown, value) in unknowns.iter().zip(row.as_slice()) {
        if is_same(unknown, slot) {
            return value.as_ref();
        }
    }
    None
}

/// The row of these variables.
fn projected(alloc: Global, unknowns: &[Slot], row: &Row, vars: &[Text]) -> Result<Row, Memory> {
    let mut out = Row::new(alloc);
    for name in vars {
        let slot = Slot::Var(name.copy(alloc)?);
        match value_in(unknowns, row, &slot) {
            Some(term) => out.push(Some(term.copy(alloc)?))?,
            None => out.push(None)?,
        }
    }
    Ok(out)
}

/// Behind OFFSET rows at most LIMIT of them.
fn cut_rows(alloc: Global, rows: &[Row], cut: Cut) -> Result<Rows, Memory> {
    let mut out = Rows::new(alloc);
    for (place, row) in rows.iter().enumerate() {
        let place = place as u64;
        let is_left = match cut.limit {
            Some(limit) => place < cut.offset.saturating_add(limit),
            None => true,
        };
        if place >= cut.offset && is_left {
            out.push(row.copy(alloc)?)?;
        }
    }
    Ok(out)
}

fn select(
    alloc: Global,
    distinct: bool,
    vars: &Names1,
    group: &Patterns,
    quads: &[Quad],
) -> Result<Rows, Memory> {
    let unknowns = unknowns_of(alloc, group.as_slice())?;
    let found = solutions(alloc, group.as_slice(), quads)?;
    let mut rows = Vec::new(alloc);
    for row in found.as_slice() {
        rows.push(projected(alloc, unknowns.as_slice(), row, vars.as_slice())?)?;
    }
    rows.sort()?;
    if distinct {
        rows.dedup();
    }
    Ok(Rows::from_vec(rows))
}

/// Adds the triple that a row makes of a pattern of the template, where it makes one.
fn add_triple(
    alloc: Global,
    unknowns: &[Slot],
    row: &Row,
    pattern: &TriplePattern,
    quads: &mut Vec<Quad>,
) -> Result<(), Memory> {
    let s = value_in(unknowns, row, &pattern.s);
    let p = value_in(unknowns, row, &pattern.p);
    let o = value_in(unknowns, row, &pattern.o);
    if let (Some(s), Some(p), Some(o)) = (s, p, o) {
        let (s, p, o) = (s.copy(alloc)?, p.copy(alloc)?, o.copy(alloc)?);
        if let Ok(quad) = Quad::new(s, p, o, Graph::Absent) {
            quads.push(quad)?;
        }
    }
    Ok(())
}

fn add_triples(
    alloc: Global,
    unknowns: &[Slot],
    row: &Row,
    template: &[TriplePattern],
    quads: &mut Vec<Quad>,
) -> Result<(), Memory> {
    for pattern in template {
        add_triple(alloc, unknowns, row, pattern, quads)?;
    }
    Ok(())
}

fn construct(
    alloc: Global,
    template: &Patterns,
    group: &Patterns,
    cut: Cut,
    quads: &[Quad],
) -> Result<Quads, Memory> {
    let unknowns = unknowns_of(alloc, group.as_slice())?;
    let mut rows = solutions(alloc, group.as_slice(), quads)?.into_vec();
    rows.sort()?;
    let rows = cut_rows(alloc, rows.as_slice(), cut)?;
    let mut made = Vec::new(alloc);
    for row in rows.as_slice() {
        add_triples(
            alloc,
            unknowns.as_slice(),
            row,
            template.as_slice(),
            &mut made,
        )?;
    }
    made.sort()?;
    made.dedup();
    Ok(Quads::from_vec(made))
}

/// The answer of a query over these quads.
pub(crate) fn answer(alloc: Global, query: &Query, quads: &[Quad]) -> Result<Found, Memory> {
    Ok(match query {
        Query::Select {
            distinct,
            vars,
            group,
            cut,
        } => {
            let rows = select(alloc, *distinct, vars, group, quads)?;
            Found::Table(Table {
                vars: vars.copy(alloc)?,
                rows: cut_rows(alloc, rows.as_slice(), *cut)?,
            })
        }
        Query::Ask { group } => {
            Found::Truth(solutions(alloc, group.as_slice(), quads)?.len() > 0)
        }
        Query::Construct {
            template,
            group,
            cut,
        } => Found::Quads(construct(alloc, template, group, *cut, quads)?),
    })
}
