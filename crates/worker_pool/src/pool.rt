//! A house that several workers serve until all doors have stopped.
ghost use Rattle.std.specs.Prelude.{◌≡◌, ◌<◌, ◌^◌, All, IfOk, OnErr, false, length, vec_len};
ghost use Rattle.shared_session.specs.Houses.{AllOf, HaveSeats, lists};
ghost use Rattle.worker_pool.specs.Served.{AllServed, AreWhole, seats_at, view_of};

use crate::columns::{close_all, make_columns, make_jobs, part_jobs};
use crate::house_end::HouseEnd;
use crate::jobs::serve_jobs;
use journal::reply_reads_no_later_entry;
use rdf_io::{Door, Gate};
use rdf_term::Memory;
use shared_session::{House, Passes};
use std::alloc::Global;
use std::sync::Wait;
use std::thread::Threads;

/// Serves all doors side by side, each by a worker in a thread of its own, and closes the house when all
/// have stopped.
///
/// All memory but that of the reports is taken before any connection is accepted. Without it the doors
/// are as before, and the house and its passes are dropped.
pub fn serve_all<
    R: Threads + Wait + Sync,
    D: Door<In: Send, Out: Send> + Send + Drop,
    G: Gate + Sync,
>(
    rt: &R,
    alloc: Global,
    house: House,
    mut passes: Vec<Passes>,
    doors: &mut Vec<D>,
    gate: &G,
) -> Result<HouseEnd, Memory>
    // These are all passes of the house, one worker's for each door, and no link is out.
    requires passes { AllOf house passes.items }
    requires all { HaveSeats (vec_len passes) house.repos }
    requires count { vec_len doors.old ≡ vec_len passes }
    requires few { vec_len passes < 2 ^ 32 }
    requires out { All (λ d. D.out d ≡ false) doors.old.items }

    // Each door was served by its worker, and all that `serve_door` promises of it holds by the closing
    // journals. These begin with what the worker has seen, and have no further entry with its number.
    ensures served { IfOk result (λ it. AllServed D.out (view_of D.links D.backs D.given D.ends D.faults D.broken_sources D.broken_sinks)
        house (lists it.closing.items) passes.items doors.old.items doors.new.items it.doors.items) }

    // For each repository there is a pass that has seen its whole journal, and what it held is counted.
    ensures whole { IfOk result (λ it. AreWhole house.limits (seats_at passes.items) it.closing.items it.counts.items) }
    ensures each { IfOk result (λ it. (vec_len it.closing ≡ length house.names) × (vec_len it.counts ≡ length house.names)) }

    // Without memory no connection was accepted.
    ensures memory { OnErr result (doors.new.items ≡ doors.old.items) }
{
    reply_reads_no_later_entry();
    let workers = passes.len();
    let count = house.names().len();
    let mut jobs = Vec::with_capacity(alloc, workers)?;
    let mut ends = Vec::with_capacity(alloc, workers)?;
    let mut columns = make_columns(alloc, count, workers)?;
    let mut closing = Vec::with_capacity(alloc, count)?;
    let mut counts = Vec::with_capacity(alloc, count)?;
    make_jobs(doors, &mut passes, &mut jobs);
    serve_jobs(rt, alloc, &house, jobs.as_mut_slice(), gate);
    part_jobs(&house, &mut jobs, doors, &mut ends, columns.as_mut_slice());
    let mut repos = house.into_repos();
    close_all(&mut repos, &mut columns, &mut closing, &mut counts);
    Ok(HouseEnd {
        doors: ends,
        closing,
        counts,
    })
}
