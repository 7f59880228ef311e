//! Threads that share calls on one repository, each by a pass of its own.
ghost use Rattle.std.specs.Prelude.{◌≡◌, ◌<◌, vec_len, vec_capacity, IfOk};
ghost use Rattle.std.specs.Thread.{IsSync};
ghost use Rattle.shared_repo.specs.Passes.{ArePasses, IsPass};

use crate::quads::{adding, asking};
use journal::{Limits, Reply, StoreFault};
use quad_index::Order;
use rdf_term::Memory;
use repo_store::answer;
use shared_repo::{Repo, RepoPass, states_cross_threads};
use std::alloc::Global;
use std::sync::Wait;
use std::thread::{Threads, join};

/// How many quads one write loads at most.
const PIECE: usize = 10_000;

/// The kind of the calls.
#[derive(Clone, Copy)]
pub enum Work {
    /// Writes of many quads.
    Load,
    /// Reads of the quads of one subject.
    Reads,
    /// Writes of one quad.
    Writes,
}

/// Numbers of quads, which threads share, and how many quads each subject has.
#[derive(Clone, Copy)]
pub struct Share {
    pub first: u64,
    pub count: u64,
    pub each: u64,
}

impl Share {
    /// The part of a thread of so many.
    fn part(self, seat: u32, threads: u32) -> (u64, u64) {
        let threads = u64::from(threads);
        let seat = u64::from(seat);
        let start = self
            .count
            .saturating_mul(seat)
            .checked_div(threads)
            .unwrap_or(0);
        let end = self
            .count
            .saturating_mul(seat.saturating_add(1))
            .checked_div(threads)
            .unwrap_or(0);
        (
            self.first.saturating_add(start),
            self.first.saturating_add(end),
        )
    }
}

impl Share {
    /// A quad below the first one of these, for each of them another one.
    fn spread(self, number: u64) -> u64 {
        number
            .saturating_mul(7_919)
            .checked_rem(self.first)
            .unwrap_or(0)
    }
}

/// Writes the quads of these numbers by one call, and answers how many they are, where that is done.
fn write<R: Wait>(
    rt: &R,
    alloc: Global,
    repo: &Repo,
    pass: &mut RepoPass,
    numbers: (u64, u64),
    each: u64,
) -> Result<u64, StoreFault>
    requires { IsPass repo.now pass.old }
    ensures { IsPass repo.now pass.new }
{
    let (start, end) = numbers;
    let changes = adding(alloc, start, end, each)?;
    let (_, reply) = repo.write(rt, pass, None, &changes)?;
    match &reply {
        Reply::Done => Ok(end.saturating_sub(start)),
        _ => Ok(0),
    }
}

/// Reads the quads of a subject, and answers how many they are.
fn read<R: Wait>(
    rt: &R,
    alloc: Global,
    repo: &Repo,
    pass: &mut RepoPass,
    number: u64,
    each: u64,
) -> Result<u64, StoreFault>
    requires { IsPass repo.now pass.old }
    ensures { IsPass repo.now pass.new }
{
    let ask = asking(alloc, number, each)?;
    let (_, pinned) = repo.pin(rt, pass, None, &ask)?;
    let reply = answer(alloc, &pinned, &ask)?;
    match &reply {
        Reply::Quads(quads) => Ok(quads.len() as u64),
        _ => Ok(0),
    }
}

/// Writes many quads, some by each call.
fn load_all<R: Wait>(
    rt: &R,
    alloc: Global,
    repo: &Repo,
    pass: &mut RepoPass,
    numbers: (u64, u64),
    each: u64,
) -> Result<u64, StoreFault>
    requires { IsPass repo.now pass.old }
    ensures { IsPass repo.now pass.new }
{
    let mut found = 0u64;
    let (first, last) = numbers;
    for start in (first..last).step_by(PIECE) {
        let end = start.saturating_add(PIECE as u64).min(last);
        let more = write(rt, alloc, repo, pass, (start, end), each)?;
        found = found.saturating_add(more);
    }
    Ok(found)
}

fn read_all<R: Wait>(
    rt: &R,
    alloc: Global,
    repo: &Repo,
    pass: &mut RepoPass,
    numbers: (u64, u64),
    share: Share,
) -> Result<u64, StoreFault>
    requires { IsPass repo.now pass.old }
    ensures { IsPass repo.now pass.new }
{
    let mut found = 0u64;
    let (first, last) = numbers;
    for number in first..last {
        let more = read(rt, alloc, repo, pass, share.spread(number), share.each)?;
        found = found.saturating_add(more);
    }
    Ok(found)
}

fn write_all<R: Wait>(
    rt: &R,
    alloc: Global,
    repo: &Repo,
    pass: &mut RepoPass,
    numbers: (u64, u64),
    each: u64,
) -> Result<u64, StoreFault>
    requires { IsPass repo.now pass.old }
    ensures { IsPass repo.now pass.new }
{
    let mut found = 0u64;
    let (first, last) = numbers;
    for number in first..last {
        let more = write(
            rt,
            alloc,
            repo,
            pass,
            (number, number.saturating_add(1)),
            each,
        )?;
        found = found.saturating_add(more);
    }
    Ok(found)
}

/// Makes the calls of one thread, or fewer without memory, and answers what they found.
fn make_calls<R: Wait>(
    rt: &R,
    alloc: Global,
    repo: &Repo,
    mut pass: RepoPass,
    threads: u32,
    work: Work,
    share: Share,
) -> (RepoPass, u64)
    requires { IsPass repo.now pass }
    ensures { IsPass repo.now result.0 }
{
    let numbers = share.part(pass.seat(), threads);
    let each = share.each;
    let found = match work {
        Work::Load => load_all(rt, alloc, repo, &mut pass, numbers, each),
        Work::Reads => read_all(rt, alloc, repo, &mut pass, numbers, share),
        Work::Writes => write_all(rt, alloc, repo, &mut pass, numbers, each),
    };
    (pass, found.unwrap_or(0))
}

/// Works with each pass, in a thread of its own.
pub fn work_each<R: Threads + Wait + Sync>(
    rt: &R,
    alloc: Global,
    repo: &Repo,
    mut passes: Vec<RepoPass>,
    threads: u32,
    kind: Work,
    share: Share,
) -> (Vec<RepoPass>, u64)
    requires { ArePasses repo.now passes.items }
    ensures passes { ArePasses repo.now result.0.items }
    ensures all { (vec_len result.0 ≡ vec_len passes) × (vec_capacity result.0 ≡ vec_capacity passes) }
{
    states_cross_threads();
    let Some(last) = passes.pop() else {
        return (passes, 0);
    };
    let ((last, found), (mut rest, more)) = join(
        rt,
        || -> (RepoPass, u64)
            requires { IsSync R.row × IsPass repo.now last }
            ensures { IsPass repo.entry.now result.0 }
        { make_calls(rt, alloc, repo, last, threads, kind, share) },
        || -> (Vec<RepoPass>, u64)
            requires { IsSync R.row × ArePasses repo.now passes.items }
            ensures passes { ArePasses repo.entry.now result.0.items }
            ensures all { (vec_len result.0 ≡ vec_len passes) × (vec_capacity result.0 ≡ vec_capacity passes) }
        { work_each(rt, alloc, repo, passes, threads, kind, share) },
    );
    rest.push_reserved(last);
    (rest, found.saturating_add(more))
}

/// An empty repository, and so many passes of it.
pub fn repository(alloc: Global, threads: u32) -> Result<(Repo, Vec<RepoPass>), Memory>
    requires { 0 < threads }
    ensures { IfOk result (λ it. ArePasses it.0 it.1.items) }
{
    let orders = Order::standard(alloc)?;
    let (repo, passes) = Repo::new(alloc, &orders, Limits::standard(), threads)?;
    Ok((repo, passes))
}
