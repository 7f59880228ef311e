//! Passes for each worker, made of the passes of each repository.
ghost use Rattle.std.specs.Prelude.{◌≡◌, ◌<◌, ◌≤◌, [], length, IfOk, vec_len};
ghost use Rattle.iso_txn.specs.Repository.{AreAllowed};
ghost use Rattle.shared_session.specs.Houses.{HaveLimits, HaveRoom, HaveSeats, Spread};
ghost use Rattle.shared_session.specs.Rows.{AreRows};

use crate::passes::Passes;
use journal::Limits;
use quad_index::Orders;
use rdf_term::Memory;
use shared_repo::{Repo, RepoPass};
use std::alloc::Global;

/// Gives each list the pass at its place.
pub fn spread(from: &mut Vec<RepoPass>, into: &mut [Passes])
    requires count { vec_len from.old ≡ length into.old }
    requires room { HaveRoom into.old }
    ensures { Spread into.old from.old.items into.new }
{
    let Some((last, rest)) = into.split_last_mut() else {
        return;
    };
    let Some(pass) = from.pop() else {
        unreachable!()
    };
    last.list.push_reserved(pass);
    spread(from, rest);
}

/// So many empty lists, each with room for so many passes.
pub(crate) fn make_rows(alloc: Global, count: u32, room: usize) -> Result<Vec<Passes>, Memory>
    ensures rows { IfOk result (λ it. AreRows [] 0 room it.items) }
    ensures count { IfOk result (λ it. vec_len it ≡ count) }
{
    let mut rows = Vec::with_capacity(alloc, count as usize)?;
    for _ in 0..count {
        let list = Vec::with_capacity(alloc, room)?;
        rows.push_reserved(Passes { list });
    }
    Ok(rows)
}

/// So many repositories, whose passes go to the workers.
pub(crate) fn make_repos(
    alloc: Global,
    count: usize,
    room: usize,
    orders: &Orders,
    limits: Limits,
    seats: u32,
    rows: &mut [Passes],
) -> Result<Vec<Repo>, Memory>
    requires some { 1 ≤ length orders.now }
    requires few { length orders.now ≤ 6 }
    requires limits { AreAllowed limits }
    requires seats { 0 < seats }
    requires room { count ≤ room }
    requires rows { (length rows.old ≡ seats) × AreRows [] 0 room rows.old }
    ensures rows { IfOk result (λ it. AreRows it.items 0 room rows.new) }
    ensures limits { IfOk result (λ it. HaveLimits limits it.items) }
    ensures seats { IfOk result (λ it. HaveSeats seats it.items) }
    ensures count { IfOk result (λ it. vec_len it ≡ count) }
{
    if count == 0 {
        return Ok(Vec::new(alloc));
    }
    let mut repos = make_repos(alloc, count - 1, room, orders, limits, seats, rows)?;
    let (repo, mut column) = Repo::new(alloc, orders, limits, seats)?;
    repos.push(repo)?;
    spread(&mut column, rows);
    Ok(repos)
}
