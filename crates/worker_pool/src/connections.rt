//! The connections of a door, one after another.
ghost use Rattle.std.specs.Prelude.{◌≡◌, ℕ, List, false, length, Some};
ghost use Rattle.rdf_io.specs.Doors.{Link};
ghost use Rattle.session.specs.Marks.{Moves};
ghost use Rattle.session.specs.Turns.{ground};
ghost use Rattle.shared_session.specs.Houses.{IsOf, journals, numbers};
ghost use Rattle.worker_pool.specs.Doors.{CountsStop, Doored, all_marks, count_after, sink_faults, source_faults};
ghost use Rattle.worker_pool.specs.Nexts.{CountsNext, Nexts, reports_of};

use crate::door_end::{DoorEnd, DoorStop, Next};
use journal::reply_reads_no_later_entry;
use rdf_io::{Door, Gate};
use shared_session::{House, Passes, serve_shared};
use std::alloc::Global;
use std::sync::Wait;

/// Serves the next connection, where the worker has answered so many requests, and hands it back.
fn serve_next<R: Wait, D: Door, G: Gate>(
    rt: &R,
    alloc: Global,
    house: &House,
    passes: &mut Passes,
    worker: u32,
    first: u64,
    door: &mut D,
    gate: &G,
) -> Next
    requires passes { IsOf house.now passes.old }
    requires out { D.out door.old ≡ false }
    ensures passes { IsOf house.now passes.new × (numbers passes.new ≡ numbers passes.old) }
    ensures out { D.out door.new ≡ false }
    ensures next { Nexts (ground house.now.names house.now.limits (journals passes.new) (numbers passes.old)) (journals passes.old)
        (D.links door.old) (D.links door.new) (D.backs door.old) (D.backs door.new) result }
    ensures given { D.given door.new ≡ count_after (D.given door.old) (length (reports_of result)) }
    ensures sources { D.broken_sources door.new ≡ count_after (D.broken_sources door.old) (source_faults (reports_of result)) }
    ensures sinks { D.broken_sinks door.new ≡ count_after (D.broken_sinks door.old) (sink_faults (reports_of result)) }
    ensures stop { CountsNext (D.ends door.old) (D.ends door.new) (D.faults door.old) (D.faults door.new) result }
{
    match door.accept() {
        Ok(Some((mut input, mut output))) => {
            let report = serve_shared(
                rt,
                alloc,
                house,
                passes,
                worker,
                first,
                &mut input,
                &mut output,
                gate,
            );
            door.give_back(input, output);
            Next::Served(report)
        }
        Ok(None) => Next::Shut,
        Err(_) => Next::Broken,
    }
}

/// Does the whole work of one worker: serves the connections of a door, one after another, until the door
/// has no more of them or fails, or there is no memory for one more report.
///
/// Room for a report is taken before its connection is accepted. A connection is handed back to the door
/// when its session has ended. The worker's requests are numbered over all its connections.
pub fn serve_door<R: Wait, D: Door, G: Gate>(
    rt: &R,
    alloc: Global,
    house: &House,
    passes: &mut Passes,
    worker: u32,
    door: &mut D,
    gate: &G,
) -> DoorEnd
    // The passes are of this house, at the end too, and keep their seat numbers. No link is out.
    requires passes { IsOf house.now passes.old }
    requires out { D.out door.old ≡ false }
    ensures passes { IsOf house.now passes.new × (numbers passes.new ≡ numbers passes.old) }
    ensures out { D.out door.new ≡ false }

    // Each journal begins with all that the worker had seen of it, and past that the entries with the
    // worker's seat number stand exactly at the marks of the reports, in order.
    ensures moves { Moves (numbers passes.old) (journals passes.old) (journals passes.new) (all_marks result.reports.items) }

    // Where the door tells its connections, the n-th report is right for the n-th that it gave, by the
    // journals at the end; and where it tells what the sinks handed back took, that is what was written.
    ensures reports { (told : List Link) → D.links door.old ≡ Some told
        → Doored (ground house.now.names house.now.limits (journals passes.new) (numbers passes.old)) told
        (D.links door.new) (D.backs door.old) (D.backs door.new) result.reports.items }

    // There are as many reports as links were given, and as many that end with a fault of the source or of
    // the sink as links came back with a source or a sink that had failed.
    ensures given { D.given door.new ≡ count_after (D.given door.old) (length result.reports.items) }
    ensures sources { D.broken_sources door.new ≡ count_after (D.broken_sources door.old) (source_faults result.reports.items) }
    ensures sinks { D.broken_sinks door.new ≡ count_after (D.broken_sinks door.old) (sink_faults result.reports.items) }

    // A worker stops at a closed door only where the door's count of its answers that there is none rose,
    // and at a fault of the door only where its count of faults rose.
    ensures stop { CountsStop (D.ends door.old) (D.ends door.new) (D.faults door.old) (D.faults door.new) result.stop }
{
    reply_reads_no_later_entry();
    let mut reports = Vec::new(alloc);
    let mut first = 0u64;
    for _ in rt.forever() {
        if reports.reserve(1).is_err() {
            return DoorEnd {
                reports,
                stop: DoorStop::Memory,
            };
        }
        match serve_next(rt, alloc, house, passes, worker, first, door, gate) {
            Next::Served(report) => {
                first = first.saturating_add(report.turns.len() as u64);
                reports.push_reserved(report);
            }
            Next::Shut => {
                return DoorEnd {
                    reports,
                    stop: DoorStop::Closed,
                };
            }
            Next::Broken => {
                return DoorEnd {
                    reports,
                    stop: DoorStop::DoorFault,
                };
            }
        }
    }
    unreachable!()
}
