//! The program over doors that workers serve side by side.
ghost use Rattle.std.specs.Prelude.{◌≡◌, ◌<◌, ◌≤◌, ◌↔◌, ℕ, List, All, IfOk, OnErr, false, length, vec_len};
ghost use Rattle.quad_index.specs.declared.letter.Letter.{Letter};
ghost use Rattle.rdf_server.specs.declared.plan.Plan.{Plan};
ghost use Rattle.rdf_server.specs.declared.serve_option.ServeOption.{ServeOption};
ghost use Rattle.rdf_server.specs.Readings.{AreOnce, AreRead};
ghost use Rattle.rdf_server.specs.Programs.{standard_limits};
ghost use Rattle.rdf_server.specs.Serving.{IsServeRun};
ghost use Rattle.rdf_server.specs.ServeWords.{IsServe};
ghost use Rattle.session.specs.Houses.{AreNames};
ghost use Rattle.shared_session.specs.Houses.{AllOf, AreFirst, HaveSeats};
ghost use Rattle.worker_pool.specs.Served.{view_of};
ghost use Rattle.worker_pool.specs.declared.house_end.HouseEnd.{HouseEnd};

use crate::serve_end::ServeEnd;
use crate::serve_words::{serve_orders, serve_words};
use journal::Limits;
use quad_index::Orders;
use rdf_io::{Door, Gate};
use rdf_term::{Memory, Text};
use shared_session::{House, Passes};
use std::alloc::Global;
use std::sync::Wait;
use std::thread::Threads;
use worker_pool::{HouseEnd, serve_all};

/// A house of new repositories of these IDs, which keep their quads in these orders, and the passes of so
/// many workers.
fn new_house(
    alloc: Global,
    ids: &[Text],
    orders: &Orders,
    workers: u32,
) -> Result<(House, Vec<Passes>), Memory>
    requires ids { AreNames ids.now }
    requires some { 1 ≤ length orders.now }
    requires few { length orders.now ≤ 6 }
    requires workers { 0 < workers }
    ensures names { IfOk result (λ it. it.0.names ≡ ids.now) }
    ensures limits { IfOk result (λ it. it.0.limits ≡ standard_limits) }
    ensures repos { IfOk result (λ it. length it.0.repos ≡ length ids.now) }
    ensures passes { IfOk result (λ it. AllOf it.0 it.1.items) }
    ensures first { IfOk result (λ it. AreFirst 0 it.1.items) }
    ensures count { IfOk result (λ it. vec_len it.1 ≡ workers) }
    ensures seats { IfOk result (λ it. HaveSeats workers it.0.repos) }
{
    let (house, passes) = House::new(alloc, ids, orders, Limits::standard(), workers)?;
    // What tells the names tells that there is a repository for each.
    let _names = house.names();
    Ok((house, passes))
}

/// Serves doors on a house of new repositories of these IDs, which keep their quads in these orders.
pub(crate) fn serve_doors<
    R: Threads + Wait + Sync,
    D: Door<In: Send, Out: Send> + Send + Drop,
    G: Gate + Sync,
>(
    rt: &R,
    alloc: Global,
    ids: &[Text],
    orders: &Orders,
    doors: &mut Vec<D>,
    gate: &G,
) -> Result<HouseEnd, Memory>
    requires ids { AreNames ids.now }
    requires kept { 1 ≤ length orders.now }
    requires most { length orders.now ≤ 6 }
    requires some { 0 < vec_len doors.old }
    requires few { vec_len doors.old ≤ 32 }
    requires out { All (λ d. D.out d ≡ false) doors.old.items }
    ensures served { IfOk result (λ it. IsServeRun D.out (view_of D.links D.backs D.given D.ends D.faults D.broken_sources D.broken_sinks)
        ids.now doors.old.items doors.new.items it) }
    ensures memory { OnErr result (doors.new.items ≡ doors.old.items) }
{
    let workers = doors.len() as u32;
    let (house, passes) = new_house(alloc, ids, orders, workers)?;
    serve_all(rt, alloc, house, passes, doors, gate)
}

/// The orders that options name.
fn kept_orders(alloc: Global, options: &[Text], ids: &[Text]) -> Result<Orders, Memory>
    requires { (named : List ServeOption) × AreRead options.now named ids.now × AreOnce named }
    ensures some { IfOk result (λ it. 1 ≤ length it) }
    ensures few { IfOk result (λ it. length it ≤ 6) }
{
    serve_orders(alloc, options)
}

/// Serves doors on a house of new repositories of these IDs, with the orders that the options name.
fn serve_house<
    R: Threads + Wait + Sync,
    D: Door<In: Send, Out: Send> + Send + Drop,
    G: Gate + Sync,
>(
    rt: &R,
    alloc: Global,
    options: &[Text],
    ids: &[Text],
    doors: &mut Vec<D>,
    gate: &G,
) -> Result<HouseEnd, Memory>
    requires options { (named : List ServeOption) × AreRead options.now named ids.now × AreOnce named }
    requires some { 0 < vec_len doors.old }
    requires few { vec_len doors.old ≤ 32 }
    requires out { All (λ d. D.out d ≡ false) doors.old.items }
    ensures served { IfOk result (λ it. IsServeRun D.out (view_of D.links D.backs D.given D.ends D.faults D.broken_sources D.broken_sinks)
        ids.now doors.old.items doors.new.items it) }
    ensures memory { OnErr result (doors.new.items ≡ doors.old.items) }
{
    let orders = kept_orders(alloc, options, ids)?;
    serve_doors(rt, alloc, ids, &orders, doors, gate)
}

/// The program `serve OPTIONS ID..` over these doors, 1 to 32, each with a worker of its own: they serve
/// the repositories of these IDs, 1 to 16, which are empty at first, until each door has no more
/// connections or has failed.
///
/// An option `--order O`, up to six times with distinct orders, names an order in which each repository
/// keeps its quads; without one they are `spoc` and `posc`. The options `--port P`, `--workers W` and
/// `--connections C` say what [`read_plan`](crate::read_plan) tells to whoever makes the doors.
pub fn run_serve<
    R: Threads + Wait + Sync,
    D: Door<In: Send, Out: Send> + Send + Drop,
    G: Gate + Sync,
>(rt: &R, alloc: Global, words: &[Text], doors: &mut Vec<D>, gate: &G) -> ServeEnd
    // No link is out.
    requires some { 0 < vec_len doors.old }
    requires few { vec_len doors.old ≤ 32 }
    requires out { All (λ d. D.out d ≡ false) doors.old.items }

    // `Words` comes exactly where the words are none of this program. There and at `Memory` no connection
    // was accepted.
    ensures words { result ≡ ServeEnd.Words ↔ ((plan : Plan) (orders : List (List Letter)) (ids : List (List ℕ)) → IsServe words.now plan orders ids → ⊥) }
    ensures unread { result ≡ ServeEnd.Words → doors.new.items ≡ doors.old.items }
    ensures memory { result ≡ ServeEnd.Memory → doors.new.items ≡ doors.old.items }

    // Else all doors were served on repositories of the words' IDs, whose journals had no entry.
    ensures served { (end : HouseEnd) → result ≡ ServeEnd.Served end → (plan : Plan) (orders : List (List Letter)) (ids : List (List ℕ)) → IsServe words.now plan orders ids
        → IsServeRun D.out (view_of D.links D.backs D.given D.ends D.faults D.broken_sources D.broken_sinks) ids doors.old.items doors.new.items end }
{
    match serve_words(words) {
        None => ServeEnd::Words,
        Some((_, options, ids)) => match serve_house(rt, alloc, options, ids, doors, gate) {
            Ok(end) => ServeEnd::Served(end),
            Err(_) => ServeEnd::Memory,
        },
    }
}
