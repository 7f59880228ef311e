//! A query of two patterns by one pass, with a write of another one between its steps.
ghost use Rattle.std.specs.Prelude.{◌≡◌, [], true};
ghost use Rattle.query_model.specs.Solutions.{lookups_of};
ghost use Rattle.shared_repo.specs.Passes.{IsPass};

use crate::pair::new_pair;
use crate::quads::quad_of;
use change_set::{Change, Changes};
use iso_txn::Pinned;
use journal::{Ask, Level, Limits, Reply, StoreFault, Txn};
use query_model::{Cut, Names1, Patterns, Query, Scope, Slot, TriplePattern, lookups_of};
use rdf_term::{Memory, Row, Term, Text};
use repo_store::{answer, first_step_is_next};
use shared_repo::{Repo, RepoPass};
use std::alloc::Global;
use std::sync::Wait;

/// A part of a triple pattern, by its text.
#[derive(Clone, Copy)]
enum Part {
    Var(&'static str),
    Iri(&'static str),
}

const PARTS: [(Part, Part, Part); 2] = [
    (Part::Iri("urn:a"), Part::Iri("urn:p"), Part::Var("x")),
    (Part::Var("x"), Part::Iri("urn:q"), Part::Var("y")),
];

fn slot(alloc: Global, part: Part) -> Result<Slot, Memory> {
    match part {
        Part::Var(name) => Ok(Slot::Var(Text::from_chars(alloc, name)?)),
        Part::Iri(text) => Ok(Slot::Fixed(Term::Iri(Text::from_chars(alloc, text)?))),
    }
}

fn triple(alloc: Global, s: Part, p: Part, o: Part) -> Result<TriplePattern, Memory> {
    let s = slot(alloc, s)?;
    let p = slot(alloc, p)?;
    let o = slot(alloc, o)?;
    Ok(TriplePattern {
        s,
        p,
        o,
        g: Scope::Any,
    })
}

fn group(alloc: Global) -> Result<Patterns, Memory> {
    let mut group = Patterns::new(alloc);
    for (s, p, o) in PARTS {
        group.push(triple(alloc, s, p, o)?)?;
    }
    Ok(group)
}

fn vars(alloc: Global) -> Result<Names1, Memory> {
    let name = Text::from_chars(alloc, "x")?;
    let mut names = Names1::new(alloc);
    names.push(name)?;
    Ok(names)
}

/// The query `SELECT ?x { <urn:a> <urn:p> ?x . ?x <urn:q> ?y }`.
fn query(alloc: Global) -> Result<Query, Memory> {
    let group = group(alloc)?;
    let vars = vars(alloc)?;
    Ok(Query::Select {
        distinct: false,
        vars,
        group,
        cut: Cut {
            limit: None,
            offset: 0,
        },
    })
}

/// Adds the first pattern's quad.
fn before(alloc: Global) -> Result<Changes, Memory> {
    let mut changes = Changes::new(alloc);
    changes.push(Change::Add(quad_of(alloc, "<urn:a> <urn:p> <urn:b> .")?))?;
    Ok(changes)
}

/// Takes the first pattern's quad away and adds the second one's.
fn between(alloc: Global) -> Result<Changes, Memory> {
    let mut changes = Changes::new(alloc);
    changes.push(Change::Remove(quad_of(alloc, "<urn:a> <urn:p> <urn:b> .")?))?;
    changes.push(Change::Add(quad_of(alloc, "<urn:b> <urn:q> <urn:c> .")?))?;
    Ok(changes)
}

/// The transaction that is begun at place 1.
const READ_COMMITTED: Txn = Txn {
    place: 1,
    level: Level::ReadCommitted,
};

/// Both steps of a query by one pass, and a write of another one between them.
fn step_twice<R: Wait>(
    rt: &R,
    repo: &Repo,
    first: &mut RepoPass,
    second: &mut RepoPass,
    query: &Query,
    changes: &Changes,
    pinned: &mut Pinned,
) -> Result<(), StoreFault>
    requires first { IsPass repo.now first.old }
    requires second { IsPass repo.now second.old }
    requires two { lookups_of query.now ≡ 2 }
    requires empty { pinned.old ≡ record { views = []; live = true; rows = 0 } }
{
    first_step_is_next();
    repo.step(rt, first, READ_COMMITTED, query, 0, pinned)?;
    let _ = repo.write(rt, second, None, changes)?;
    repo.step(rt, first, READ_COMMITTED, query, 1, pinned)?;
    Ok(())
}

fn is_b(row: &Row) -> bool {
    match row.at(0) {
        Some(Some(Term::Iri(iri))) => row.len() == 1 && iri.as_str() == "urn:b",
        _ => false,
    }
}

/// Whether the reply is a table of one row, which is just `<urn:b>`.
fn is_b_alone(reply: &Reply) -> bool {
    match reply {
        Reply::Table(table) => {
            table.rows.len() == 1 && table.rows.as_slice().iter().all(|row| is_b(row))
        }
        _ => false,
    }
}

/// Whether a query finds `<urn:b>` whose first pattern holds before a write of another pass and whose
/// second one holds behind it.
pub fn query_with_a_write_between<R: Wait>(rt: &R, alloc: Global) -> Result<bool, StoreFault> {
    let (repo, mut first, mut second) = new_pair(alloc, Limits::standard())?;
    let query = query(alloc)?;
    if lookups_of(&query) != 2 {
        return Ok(false);
    }
    let _ = repo.write(rt, &mut second, None, &before(alloc)?)?;
    let _ = repo.begin(rt, &mut first, Level::ReadCommitted)?;
    let mut pinned = Pinned::empty(alloc);
    let changes = between(alloc)?;
    step_twice(
        rt,
        &repo,
        &mut first,
        &mut second,
        &query,
        &changes,
        &mut pinned,
    )?;
    let reply = answer(alloc, &pinned, &Ask::Query(query))?;
    Ok(is_b_alone(&reply))
}
