//! The program that `bench/shared` times: threads that read and write a repository of generated quads, each
//! by a pass of its own.
//!
//! The arguments are the number of quads, the number of quads of each subject, the number of reads and
//! of writes, and the word `times`. One thread and then four share these calls, over a repository of
//! their own. It prints what was found at each step and, after that word, how long the step took.
#![tactic(auto)]

mod crew;
mod quads;

ghost use Rattle.std.specs.Prelude.{◌<◌, IfOk};
ghost use Rattle.shared_repo.specs.Passes.{ArePasses};

use crate::crew::{Share, Work, repository, work_each};
use shared_repo::{Repo, RepoPass};
use std::alloc::Global;
use std::rt::Runtime;
use std::sync::Wait;
use std::thread::Threads;
use std::time::Instant;
use std::{env, io};

/// How many quads there are, how many of them each subject has, and how many calls there are of each kind.
#[derive(Clone, Copy)]
struct Size {
    quads: u64,
    each: u64,
    calls: u64,
}

/// The passes after a step, what it found, and the microseconds that it took.
fn step<R: Runtime + Threads + Wait + Sync>(
    rt: &R,
    alloc: Global,
    repo: &Repo,
    passes: Vec<RepoPass>,
    threads: u32,
    work: Work,
    share: Share,
) -> io::Result<(Vec<RepoPass>, u64, u128)>
    requires { ArePasses repo.now passes.items }
    ensures { IfOk result (λ it. ArePasses repo.now it.0.items) }
{
    let start = Instant::now(rt)?;
    let (passes, found) = work_each(rt, alloc, repo, passes, threads, work, share);
    Ok((passes, found, start.elapsed(rt)?.as_micros()))
}

/// Prints what a step found and, where times are asked for, what it took.
fn report<R: Runtime>(
    rt: &R,
    is_timed: bool,
    name: &str,
    found: u64,
    micros: u128,
) -> io::Result<()> {
    if is_timed {
        println!(rt; "  {name}: {found} in {micros} us")
    } else {
        println!(rt; "  {name}: {found}")
    }
}

/// All steps by so many threads.
fn run<R: Runtime + Threads + Wait + Sync>(
    rt: &R,
    alloc: Global,
    threads: u32,
    size: Size,
    is_timed: bool,
) -> io::Result<()>
    requires { 0 < threads }
{
    let Ok((repo, mut passes)) = repository(alloc, threads) else {
        return Err(io::Error::from(io::ErrorKind::OutOfMemory));
    };
    let each = size.each;
    let quads = Share {
        first: 0,
        count: size.quads,
        each,
    };
    let calls = Share {
        first: size.quads,
        count: size.calls,
        each,
    };
    let steps = [
        ("loaded", Work::Load, quads),
        ("read", Work::Reads, calls),
        ("written", Work::Writes, calls),
    ];
    println!(rt; "threads: {threads}")?;
    for (name, work, share) in steps {
        let (kept, found, micros) = step(rt, alloc, &repo, passes, threads, work, share)?;
        passes = kept;
        report(rt, is_timed, name, found, micros)?;
    }
    Ok(())
}

/// The number that an argument gives.
fn number(argument: Option<String>) -> Option<u64> {
    argument?.as_str().parse::<u64>().ok()
}

fn main(rt: HostRuntime) -> io::Result<()> {
    let mut arguments = env::args(&rt)?;
    let _name = arguments.next();
    let size = Size {
        quads: number(arguments.next()).unwrap_or(1_000),
        each: number(arguments.next()).unwrap_or(10),
        calls: number(arguments.next()).unwrap_or(100),
    };
    let is_timed = arguments.next().is_some();
    run(&rt, rt.alloc(), 1, size, is_timed)?;
    run(&rt, rt.alloc(), 4, size, is_timed)
}
