//! A query of two patterns in a READ_COMMITTED transaction, with a write of another seat between its
//! steps, and the same query by one read at another level.
ghost use Rattle.std.specs.Prelude.{◌≡◌, []};
ghost use Rattle.journal.specs.declared.level.Level.TheVariants as levels;
ghost use Rattle.query_model.specs.Solutions.{lookups_of};

use crate::acts::{begun, repository};
use crate::quads::{iri, is_iri, quad_of};
use bgp_eval::{Found, answer_query};
use change_set::{Change, Changes};
use iso_txn::{Pinned, RepoState};
use journal::{Ask, Level, Limits, StoreFault, Txn};
use query_model::{Cut, Names1, Patterns, Query, Scope, Slot, TriplePattern, lookups_of};
use rdf_term::{Duplicate, Memory, Row, Text};
use std::alloc::Global;

/// A part of a triple pattern, by its text.
#[derive(Clone, Copy)]
enum Part {
    Var(&'static str),
    Iri(&'static str),
}

fn slot(alloc: Global, part: Part) -> Result<Slot, Memory> {
    match part {
        Part::Var(name) => Ok(Slot::Var(Text::from_chars(alloc, name)?)),
        Part::Iri(text) => Ok(Slot::Fixed(iri(alloc, text)?)),
    }
}

fn triple(alloc: Global, s: Part, p: Part, o: Part) -> Result<TriplePattern, Memory> {
    let s = slot(alloc, s)?;
    let p = slot(alloc, p)?;
    let o = slot(alloc, o)?;
    Ok(TriplePattern {
        s,
        p,
        o,
        g: Scope::Any,
    })
}

const PARTS: [(Part, Part, Part); 2] = [
    (Part::Iri("urn:a"), Part::Iri("urn:p"), Part::Var("x")),
    (Part::Var("x"), Part::Iri("urn:q"), Part::Var("y")),
];

fn group(alloc: Global) -> Result<Patterns, Memory> {
    let mut group = Patterns::new(alloc);
    for (s, p, o) in PARTS {
        group.push(triple(alloc, s, p, o)?)?;
    }
    Ok(group)
}

fn of_one(alloc: Global, name: Text) -> Result<Names1, Memory> {
    let mut names = Names1::new(alloc);
    names.push(name)?;
    Ok(names)
}

fn vars(alloc: Global) -> Result<Names1, Memory> {
    let name = Text::from_chars(alloc, "x")?;
    of_one(alloc, name)
}

/// The query `SELECT ?x { <urn:a> <urn:p> ?x . ?x <urn:q> ?y }`.
fn query(alloc: Global) -> Result<Query, Memory> {
    let group = group(alloc)?;
    let vars = vars(alloc)?;
    Ok(Query::Select {
        distinct: false,
        vars,
        group,
        cut: Cut {
            limit: None,
            offset: 0,
        },
    })
}

/// Adds the first pattern's quad.
fn before(alloc: Global) -> Result<Changes, Memory> {
    let mut changes = Changes::new(alloc);
    changes.push(Change::Add(quad_of(alloc, "<urn:a> <urn:p> <urn:b> .")?))?;
    Ok(changes)
}

/// Takes the first pattern's quad away and adds the second one's.
fn between(alloc: Global) -> Result<Changes, Memory> {
    let mut changes = Changes::new(alloc);
    changes.push(Change::Remove(quad_of(alloc, "<urn:a> <urn:p> <urn:b> .")?))?;
    changes.push(Change::Add(quad_of(alloc, "<urn:b> <urn:q> <urn:c> .")?))?;
    Ok(changes)
}

/// Both steps of a query by one seat, and a write of another one between them.
fn step_twice(
    repo: &mut RepoState,
    txn: Txn,
    query: &Query,
    changes: &Changes,
    pinned: &mut Pinned,
) -> Result<(), StoreFault>
    requires level { txn.level ≡ levels.ReadCommitted }
    requires two { lookups_of query.now ≡ 2 }
    requires views { pinned.old.views ≡ [] }
{
    repo.step(0, txn, query, 0, pinned)?;
    let _ = repo.write(1, None, changes)?;
    repo.step(0, txn, query, 1, pinned)
}

fn is_b(row: &Row) -> bool {
    match row.at(0) {
        Some(Some(term)) => row.len() == 1 && is_iri(term, "urn:b"),
        _ => false,
    }
}

/// How many rows are found in what a read sees, and how many of them are just `<urn:b>`.
fn rows(alloc: Global, query: &Query, pinned: &Pinned) -> Option<(usize, usize)> {
    match answer_query(alloc, query, pinned.views(), pinned.rows()) {
        Ok(Found::Table(table)) => Some((
            table.rows.len(),
            table.rows.as_slice().iter().filter(|row| is_b(row)).count(),
        )),
        _ => None,
    }
}

const READ_COMMITTED: Txn = Txn {
    place: 1,
    level: Level::ReadCommitted,
};

const SNAPSHOT_READ: Txn = Txn {
    place: 1,
    level: Level::SnapshotRead,
};

/// A repository of the first pattern's quad, with a transaction of the level.
fn begun_behind(alloc: Global, level: Level) -> Result<RepoState, StoreFault> {
    let mut repo = repository(alloc, Limits::standard())?;
    let _ = repo.write(1, None, &before(alloc)?)?;
    let _ = begun(&mut repo, level)?;
    Ok(repo)
}

#[test]
fn each_pattern_sees_what_is_committed_at_its_step(rt: HostRuntime) -> Result<(), StoreFault> {
    let alloc = rt.alloc();
    let query = query(alloc)?;
    assert!(rt; lookups_of(&query) == 2);
    let mut repo = begun_behind(alloc, Level::ReadCommitted)?;
    let mut pinned = Pinned::empty(alloc);
    step_twice(
        &mut repo,
        READ_COMMITTED,
        &query,
        &between(alloc)?,
        &mut pinned,
    )?;
    assert!(rt; pinned.live() && repo.length() == 5);
    assert!(rt; rows(alloc, &query, &pinned) == Some((1, 1)));
    Ok(())
}

fn read(
    alloc: Global,
    repo: &mut RepoState,
    query: &Query,
) -> Result<Option<(usize, usize)>, StoreFault> {
    let ask = Ask::Query(query.copy(alloc)?);
    let pinned = repo.pin_read(0, Some(SNAPSHOT_READ), &ask)?;
    Ok(rows(alloc, query, &pinned))
}

#[test]
fn one_read_sees_both_patterns_at_one_place(rt: HostRuntime) -> Result<(), StoreFault> {
    let alloc = rt.alloc();
    let query = query(alloc)?;
    let mut repo = begun_behind(alloc, Level::SnapshotRead)?;
    assert!(rt; read(alloc, &mut repo, &query)? == Some((0, 0)));
    let _ = repo.write(1, None, &between(alloc)?)?;
    assert!(rt; read(alloc, &mut repo, &query)? == Some((0, 0)));
    Ok(())
}
