//! Threads that make entries in one repository, each by a pass of its own.
ghost use Rattle.std.specs.Prelude.{◌≡◌, ◌<◌, vec_len, vec_capacity};
ghost use Rattle.std.specs.Thread.{IsSync};
ghost use Rattle.shared_repo.specs.Passes.{ArePasses, IsPass};

use crate::acts::{Act, Answer, enter};
use iso_txn::RepoState;
use journal::{Level, Limits, StoreFault, Txn};
use quad_index::Order;
use rdf_term::Memory;
use shared_repo::{Repo, RepoPass, states_cross_threads};
use std::alloc::Global;
use std::sync::Wait;
use std::thread::{Threads, join};

/// An entry that a caller made, and its answer.
#[derive(Clone, Copy)]
pub struct Heard {
    pub place: u64,
    pub act: Act,
    pub answer: Answer,
}

const LEVELS: [Level; 6] = [
    Level::NoIsolation,
    Level::ReadUncommitted,
    Level::ReadCommitted,
    Level::SnapshotRead,
    Level::Snapshot,
    Level::Serializable,
];

/// The numbers of a linear congruential generator.
#[derive(Drop)]
struct Numbers {
    state: u64,
}

impl Numbers {
    /// The next number, below a bound.
    fn below(&mut self, bound: u64) -> u64
        requires { 0 < bound }
    {
        self.state = self
            .state
            .wrapping_mul(6_364_136_223_846_793_005)
            .wrapping_add(1_442_695_040_888_963_407);
        (self.state >> 33) % bound
    }

    fn level(&mut self) -> Level {
        match LEVELS.get(self.below(6) as usize) {
            Some(level) => *level,
            None => Level::Snapshot,
        }
    }

    /// What a caller does without an open transaction.
    fn act_alone(&mut self) -> Act {
        match self.below(8) {
            0..=3 => Act::Begin(self.level()),
            4 | 5 => Act::Add(None, self.below(20)),
            6 => Act::Evens(None),
            _ => Act::Prefixes,
        }
    }

    /// What a caller does with one.
    fn act_in(&mut self, txn: Txn) -> Act {
        match self.below(10) {
            0..=2 => Act::Add(Some(txn), self.below(20)),
            3 | 4 => Act::Evens(Some(txn)),
            5 => Act::Size(Some(txn)),
            6 | 7 => Act::Commit(txn),
            8 => Act::Rollback(txn),
            _ => Act::Ping(txn),
        }
    }

    fn act(&mut self, open: Option<Txn>) -> Act {
        match open {
            Some(txn) => self.act_in(txn),
            None => self.act_alone(),
        }
    }
}

/// The caller's transaction that is open behind an entry.
fn open_behind(open: Option<Txn>, act: Act, answer: Answer) -> Option<Txn> {
    match (act, answer) {
        (_, Answer::Begun(txn)) => Some(txn),
        (Act::Commit(_) | Act::Rollback(_), Answer::Done) => None,
        _ => open,
    }
}

/// Makes so many entries, and notes what is heard of them.
fn make_entries<R: Wait>(
    rt: &R,
    alloc: Global,
    repo: &Repo,
    pass: &mut RepoPass,
    heard: &mut Vec<Heard>,
    calls: u64,
) -> Result<(), StoreFault>
    requires { IsPass repo.now pass.old }
    ensures { IsPass repo.now pass.new }
{
    let mut numbers = Numbers {
        state: u64::from(pass.seat()),
    };
    let mut open = None;
    for _ in 0..calls {
        let act = numbers.act(open);
        let (place, answer) = enter(rt, alloc, repo, pass, act)?;
        open = open_behind(open, act, answer);
        heard.push(Heard { place, act, answer })?;
    }
    Ok(())
}

/// Makes so many entries, or fewer without memory.
fn work<R: Wait>(
    rt: &R,
    alloc: Global,
    repo: &Repo,
    mut pass: RepoPass,
    calls: u64,
) -> (RepoPass, Vec<Heard>)
    requires { IsPass repo.now pass }
    ensures { IsPass repo.now result.0 }
{
    let mut heard = Vec::new(alloc);
    let _ = make_entries(rt, alloc, repo, &mut pass, &mut heard, calls);
    (pass, heard)
}

/// Works with each pass, in a thread of its own.
fn work_each<R: Threads + Wait + Sync>(
    rt: &R,
    alloc: Global,
    repo: &Repo,
    mut passes: Vec<RepoPass>,
    calls: u64,
) -> (Vec<RepoPass>, Vec<Vec<Heard>>)
    requires { ArePasses repo.now passes.items }
    ensures passes { ArePasses repo.now result.0.items }
    ensures all { (vec_len result.0 ≡ vec_len passes) × (vec_capacity result.0 ≡ vec_capacity passes) }
{
    states_cross_threads();
    let Some(last) = passes.pop() else {
        return (passes, Vec::new(alloc));
    };
    let ((last, heard), (mut rest, mut lists)) = join(
        rt,
        || -> (RepoPass, Vec<Heard>)
            requires { IsSync R.row × IsPass repo.now last }
            ensures { IsPass repo.entry.now result.0 }
        { work(rt, alloc, repo, last, calls) },
        || -> (Vec<RepoPass>, Vec<Vec<Heard>>)
            requires { IsSync R.row × ArePasses repo.now passes.items }
            ensures passes { ArePasses repo.entry.now result.0.items }
            ensures all { (vec_len result.0 ≡ vec_len passes) × (vec_capacity result.0 ≡ vec_capacity passes) }
        { work_each(rt, alloc, repo, passes, calls) },
    );
    rest.push_reserved(last);
    let _ = lists.push(heard);
    (rest, lists)
}

/// What several callers left: the state, and what each of them heard.
#[derive(Drop)]
pub struct Crew {
    pub state: RepoState,
    pub heard: Vec<Vec<Heard>>,
}

/// So many threads with so many calls each.
pub fn work_by<R: Threads + Wait + Sync>(
    rt: &R,
    alloc: Global,
    threads: u32,
    calls: u64,
) -> Result<Crew, Memory>
    requires { 0 < threads }
{
    let orders = Order::standard(alloc)?;
    let (repo, passes) = Repo::new(alloc, &orders, Limits::standard(), threads)?;
    let (passes, heard) = work_each(rt, alloc, &repo, passes, calls);
    let (state, _) = repo.close(passes);
    Ok(Crew { state, heard })
}
