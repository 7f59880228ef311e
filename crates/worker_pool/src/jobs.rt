//! Doors that are served side by side.
ghost use Rattle.std.specs.Prelude.{ℕ, ◌<◌, All, length, slice_index_or};
ghost use Rattle.worker_pool.specs.declared.jobs.Job.{Job};
ghost use Rattle.worker_pool.specs.Jobs.{IsDone, IsReady};
ghost use Rattle.worker_pool.specs.Served.{view_of};

use crate::connections::serve_door;
use crate::crossing::houses_cross_threads;
use crate::door_end::DoorEnd;
use rdf_io::{Door, Gate};
use shared_repo::states_cross_threads;
use shared_session::{House, Passes};
use std::alloc::Global;
use std::sync::Wait;
use std::thread;
use std::thread::Threads;

/// What one worker has to do, and a place for what it did.
#[derive(Drop)]
pub(crate) struct Job<D> {
    pub door: D,
    pub passes: Passes,
    pub worker: u32,
    pub end: Option<DoorEnd>,
}

/// Does the work of one worker.
fn serve_job<R: Wait, D: Door, G: Gate>(
    rt: &R,
    alloc: Global,
    house: &House,
    job: &mut Job<D>,
    gate: &G,
)
    requires { IsReady D.out house.now job.old }
    ensures { IsDone D.out (view_of D.links D.backs D.given D.ends D.faults D.broken_sources D.broken_sinks) house.now job.old job.new }
{
    let end = serve_door(
        rt,
        alloc,
        house,
        &mut job.passes,
        job.worker,
        &mut job.door,
        gate,
    );
    job.end = Some(end);
}

/// Does the work of all, side by side, each in a thread of its own where one can be made.
pub(crate) fn serve_jobs<
    R: Threads + Wait + Sync,
    D: Door<In: Send, Out: Send> + Send,
    G: Gate + Sync,
>(rt: &R, alloc: Global, house: &House, jobs: &mut [Job<D>], gate: &G)
    requires { All (IsReady D.out house.now) jobs.old }
    ensures { (i : ℕ) (d : Job D) → i < length jobs.old
        → IsDone D.out (view_of D.links D.backs D.given D.ends D.faults D.broken_sources D.broken_sinks) house.now (slice_index_or jobs.old i d) (slice_index_or jobs.new i d) }
{
    states_cross_threads();
    houses_cross_threads();
    if jobs.is_empty() {
        return;
    }
    thread::for_each_mut(
        rt,
        jobs,
        jobs.len(),
        &|_: usize, job: &mut Job<D>|
            requires { IsReady D.out house.now job.now }
            ensures { IsDone D.out (view_of D.links D.backs D.given D.ends D.faults D.broken_sources D.broken_sinks) house.entry.now job.entry.now job.exit.now }
        { serve_job(rt, alloc, house, job, gate) },
    );
}
