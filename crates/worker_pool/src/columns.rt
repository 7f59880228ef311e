//! The jobs of a house, and the passes of all workers put together by repository.
ghost use Rattle.std.specs.Prelude.{◌≡◌, ◌<◌, ◌≤◌, ◌^◌, ℕ, [], length, IfOk, vec_len};
ghost use Rattle.std.specs.Vec.{vec_capacity};
ghost use Rattle.journal.specs.declared.limits.Limits.{Limits};
ghost use Rattle.shared_repo.specs.Passes.{ArePasses, limits_of, passes_of};
ghost use Rattle.worker_pool.specs.Columns.{AreClosed, AreColumns, IsClosed, MayClose};
ghost use Rattle.worker_pool.specs.Jobs.{AreJobs, AreParted, HaveEnded, rows_of};

use crate::door_end::DoorEnd;
use crate::house_end::RepoCount;
use crate::jobs::Job;
use journal::committed_reads_as_if_alone;
use rdf_term::Memory;
use shared_repo::{Repo, RepoPass};
use shared_session::{House, Passes, spread};
use std::alloc::Global;

/// Makes a job of each door and the passes at its place.
pub(crate) fn make_jobs<D>(doors: &mut Vec<D>, passes: &mut Vec<Passes>, jobs: &mut Vec<Job<D>>)
    requires count { vec_len doors.old ≡ vec_len passes.old }
    requires few { vec_len doors.old < 2 ^ 32 }
    requires room { (jobs.old.items ≡ []) × (vec_len doors.old ≤ vec_capacity jobs.old) }
    ensures jobs { AreJobs doors.old.items passes.old.items jobs.new.items × (vec_capacity jobs.new ≡ vec_capacity jobs.old) }
    ensures doors { (doors.new.items ≡ []) × (vec_capacity doors.new ≡ vec_capacity doors.old) }
{
    let Some(door) = doors.pop() else {
        return;
    };
    let Some(own) = passes.pop() else {
        unreachable!()
    };
    let worker = doors.len() as u32;
    make_jobs(doors, passes, jobs);
    jobs.push_reserved(Job {
        door,
        passes: own,
        worker,
        end: None,
    });
}

/// An empty list for each of so many repositories, with room for so many passes.
pub(crate) fn make_columns(
    alloc: Global,
    repos: usize,
    workers: usize,
) -> Result<Vec<Passes>, Memory>
    ensures columns { IfOk result (λ it. AreColumns workers [] it.items) }
    ensures count { IfOk result (λ it. vec_len it ≡ repos) }
{
    let mut columns = Vec::with_capacity(alloc, repos)?;
    for _ in 0..repos {
        let list = Vec::with_capacity(alloc, workers)?;
        columns.push_reserved(Passes { list });
    }
    Ok(columns)
}

/// Takes the jobs apart: the doors and the ends in order, and the passes by repository.
pub(crate) fn part_jobs<D>(
    house: &House,
    jobs: &mut Vec<Job<D>>,
    doors: &mut Vec<D>,
    ends: &mut Vec<DoorEnd>,
    columns: &mut [Passes],
)
    requires ended { HaveEnded house.now jobs.old.items }
    requires doors { (doors.old.items ≡ []) × (vec_len jobs.old ≤ vec_capacity doors.old) }
    requires ends { (ends.old.items ≡ []) × (vec_len jobs.old ≤ vec_capacity ends.old) }
    requires columns { AreColumns (vec_len jobs.old) [] columns.old × (length columns.old ≡ length house.now.repos) }
    ensures parts { AreParted jobs.old.items doors.new.items ends.new.items }
    ensures kept { (vec_capacity doors.new ≡ vec_capacity doors.old) × (vec_capacity ends.new ≡ vec_capacity ends.old) }
    ensures columns { (room : ℕ) → AreColumns room [] columns.old → AreColumns room (rows_of jobs.old.items) columns.new }
{
    let Some(job) = jobs.pop() else {
        return;
    };
    let Job {
        door,
        passes,
        worker: _,
        end,
    } = job;
    part_jobs(house, jobs, doors, ends, columns);
    let Some(end) = end else { unreachable!() };
    doors.push_reserved(door);
    ends.push_reserved(end);
    let Passes { mut list } = passes;
    spread(&mut list, columns);
}

/// Closes a repository with all its passes, and counts what it held.
fn close_one(repo: Repo, passes: Vec<RepoPass>) -> (RepoPass, RepoCount)
    requires passes { ArePasses repo passes.items }
    requires all { vec_len passes ≡ passes_of repo }
    ensures { IsClosed (limits_of repo) passes.items result.0 result.1 }
{
    committed_reads_as_if_alone();
    let (state, pass) = repo.close(passes);
    let count = RepoCount {
        quads: state.quads(),
        commits: state.commits(),
        entries: state.length(),
    };
    (pass, count)
}

/// Closes each repository with all its passes.
pub(crate) fn close_all(
    repos: &mut Vec<Repo>,
    columns: &mut Vec<Passes>,
    closing: &mut Vec<RepoPass>,
    counts: &mut Vec<RepoCount>,
)
    requires columns { (limits : Limits) × MayClose limits repos.old.items columns.old.items }
    requires closing { (closing.old.items ≡ []) × (vec_len repos.old ≤ vec_capacity closing.old) }
    requires counts { (counts.old.items ≡ []) × (vec_len repos.old ≤ vec_capacity counts.old) }
    ensures closed { (limits : Limits) → MayClose limits repos.old.items columns.old.items → AreClosed limits columns.old.items closing.new.items counts.new.items }
    ensures kept { (vec_capacity closing.new ≡ vec_capacity closing.old) × (vec_capacity counts.new ≡ vec_capacity counts.old) }
    ensures count { (vec_len closing.new ≡ vec_len repos.old) × (vec_len counts.new ≡ vec_len repos.old) }
{
    let Some(repo) = repos.pop() else {
        return;
    };
    let Some(column) = columns.pop() else {
        unreachable!()
    };
    close_all(repos, columns, closing, counts);
    let (pass, count) = close_one(repo, column.list);
    closing.push_reserved(pass);
    counts.push_reserved(count);
}
