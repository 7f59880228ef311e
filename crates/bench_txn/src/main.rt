//! The program that `bench/store` times beside `bench_store`: a repository of generated quads, and at each
//! level transactions that begin, add one quad, pin, read by subject and commit.
//!
//! The arguments are the number of quads, the number of quads of each subject, the number of
//! transactions at each level, and the word `times`. It prints what was found at each step and, after
//! that word, how long the step took; of the calls of a transaction, in nanoseconds all together.
#![tactic(auto)]

ghost use Rattle.std.specs.Prelude.{◌<◌};

use change_set::{Change, Changes};
use iso_txn::{Pinned, RepoState};
use journal::{Ask, Graphs, Level, Limits, Reply, StoreFault, Txn};
use nquads_line::{Kind, read_line};
use quad_index::Order;
use rdf_term::{GraphPick, Memory, Pattern, Quad, Scan, Term, Text};
use std::alloc::Global;
use std::rt::Runtime;
use std::time::Instant;
use std::{env, fs, io};

const LEVELS: [(&str, Level); 6] = [
    ("NONE", Level::NoIsolation),
    ("READ_UNCOMMITTED", Level::ReadUncommitted),
    ("READ_COMMITTED", Level::ReadCommitted),
    ("SNAPSHOT_READ", Level::SnapshotRead),
    ("SNAPSHOT", Level::Snapshot),
    ("SERIALIZABLE", Level::Serializable),
];

/// How many quads one write loads at most: their lines are about 12 MB.
const PIECE: usize = 100_000;

/// What the calls of transactions took, all together.
#[derive(Clone, Copy)]
struct Spent {
    begin: u128,
    add: u128,
    pin: u128,
    read: u128,
    commit: u128,
}

/// The quad of a number, where each subject has some.
fn numbered(alloc: Global, number: u64, each: u64) -> Result<Quad, Memory>
    requires { 0 < each }
{
    let line = format!(in alloc;
        "<http://example.org/subject/{}> <http://example.org/predicate/{}> \"{number}\" .",
        number / each,
        number % each
    )?;
    match read_line(alloc, Kind::Quads, line.as_str().as_bytes()) {
        Ok(Some(quad)) => Ok(quad),
        _ => Err(Memory),
    }
}

/// The changes that add the quads of these numbers.
fn adding(alloc: Global, start: u64, end: u64, each: u64) -> Result<Changes, Memory>
    requires { 0 < each }
{
    let mut changes = Changes::new(alloc);
    for number in start..end {
        changes.push(Change::Add(numbered(alloc, number, each)?))?;
    }
    Ok(changes)
}

fn subject(alloc: Global, number: u64) -> Result<Term, Memory> {
    let text = format!(in alloc; "http://example.org/subject/{number}")?;
    Ok(Term::Iri(Text::from_chars(alloc, text.as_str())?))
}

/// The pattern that gives a subject.
fn of_subject(alloc: Global, number: u64) -> Result<Pattern, Memory> {
    Ok(Pattern {
        s: Some(subject(alloc, number)?),
        p: None,
        o: None,
        c: GraphPick::Any,
    })
}

fn repository(alloc: Global) -> Result<RepoState, StoreFault> {
    let orders = Order::standard(alloc)?;
    Ok(RepoState::new(alloc, &orders, Limits::standard())?)
}

/// A fault as an error of this program.
fn or_fault<T>(outcome: Result<T, StoreFault>) -> io::Result<T> {
    outcome.map_err(|_| io::Error::from(io::ErrorKind::OutOfMemory))
}

/// Want of memory as an error of this program.
fn or_memory<T>(outcome: Result<T, Memory>) -> io::Result<T> {
    outcome.map_err(|_| io::Error::from(io::ErrorKind::OutOfMemory))
}

/// The nanoseconds since then.
fn since(rt: &impl Runtime, start: Instant) -> io::Result<u128> {
    Ok(start.elapsed(rt)?.as_nanos())
}

/// Begins a transaction.
fn begun(repo: &mut RepoState, level: Level) -> Result<Txn, StoreFault> {
    match &repo.begin(0, level)? {
        Reply::Begun(txn) => Ok(*txn),
        _ => Err(StoreFault::JournalFull),
    }
}

fn timed_begin(
    rt: &impl Runtime,
    repo: &mut RepoState,
    level: Level,
    spent: &mut Spent,
) -> io::Result<Txn> {
    let start = Instant::now(rt)?;
    let txn = or_fault(begun(repo, level))?;
    spent.begin = spent.begin.saturating_add(since(rt, start)?);
    Ok(txn)
}

fn timed_add(
    rt: &impl Runtime,
    repo: &mut RepoState,
    txn: Txn,
    changes: &Changes,
    spent: &mut Spent,
) -> io::Result<()> {
    let start = Instant::now(rt)?;
    let _ = or_fault(repo.write(0, Some(txn), changes))?;
    spent.add = spent.add.saturating_add(since(rt, start)?);
    Ok(())
}

fn timed_pin(
    rt: &impl Runtime,
    repo: &mut RepoState,
    txn: Txn,
    ask: &Ask,
    spent: &mut Spent,
) -> io::Result<Pinned> {
    let start = Instant::now(rt)?;
    let pinned = or_fault(repo.pin_read(0, Some(txn), ask))?;
    spent.pin = spent.pin.saturating_add(since(rt, start)?);
    Ok(pinned)
}

/// How many quads of a pattern a read sees.
fn found(alloc: Global, pinned: &Pinned, pattern: &Pattern) -> Result<u64, Memory> {
    match pinned.views().first() {
        Some(view) => Ok(view.scan(alloc, pattern)?.len() as u64),
        None => Ok(0),
    }
}

fn timed_read(
    rt: &impl Runtime,
    alloc: Global,
    pinned: &Pinned,
    pattern: &Pattern,
    spent: &mut Spent,
) -> io::Result<u64> {
    let start = Instant::now(rt)?;
    let found = or_memory(found(alloc, pinned, pattern))?;
    spent.read = spent.read.saturating_add(since(rt, start)?);
    Ok(found)
}

fn timed_commit(
    rt: &impl Runtime,
    repo: &mut RepoState,
    txn: Txn,
    spent: &mut Spent,
) -> io::Result<()> {
    let start = Instant::now(rt)?;
    let _ = or_fault(repo.commit(0, txn))?;
    spent.commit = spent.commit.saturating_add(since(rt, start)?);
    Ok(())
}

/// What a transaction adds and asks for.
#[derive(Drop)]
struct Wanted {
    changes: Changes,
    pattern: Pattern,
    ask: Ask,
}

/// Adds the quad of a number, and asks for the quads of its subject.
fn wanted_of(alloc: Global, number: u64, each: u64) -> Result<Wanted, Memory>
    requires { 0 < each }
{
    let changes = adding(alloc, number, number.saturating_add(1), each)?;
    let pattern = of_subject(alloc, number / each)?;
    Ok(Wanted {
        changes,
        pattern,
        ask: Ask::Size {
            contexts: Graphs::new(alloc),
        },
    })
}

/// A whole transaction, and how many quads its read found.
fn transaction(
    rt: &impl Runtime,
    alloc: Global,
    repo: &mut RepoState,
    level: Level,
    wanted: &Wanted,
    spent: &mut Spent,
) -> io::Result<u64> {
    let txn = timed_begin(rt, repo, level, spent)?;
    timed_add(rt, repo, txn, &wanted.changes, spent)?;
    let pinned = timed_pin(rt, repo, txn, &wanted.ask, spent)?;
    let found = timed_read(rt, alloc, &pinned, &wanted.pattern, spent)?;
    timed_commit(rt, repo, txn, spent)?;
    Ok(found)
}

/// So many transactions of a level, each of which adds a quad behind those of the numbers below the start.
fn transactions(
    rt: &impl Runtime,
    alloc: Global,
    repo: &mut RepoState,
    level: Level,
    start: u64,
    count: u64,
    each: u64,
    spent: &mut Spent,
) -> io::Result<u64>
    requires { 0 < each }
{
    let mut found = 0u64;
    for place in 0..count {
        let wanted = or_memory(wanted_of(alloc, start.saturating_add(place), each))?;
        let more = transaction(rt, alloc, repo, level, &wanted, spent)?;
        found = found.saturating_add(more);
    }
    Ok(found)
}

/// Prints what transactions of a level found and, where times are asked for, what their calls took.
fn report(
    rt: &impl Runtime,
    is_timed: bool,
    name: &str,
    found: u64,
    spent: &Spent,
) -> io::Result<()> {
    println!(rt; "{name}: {found}")?;
    if !is_timed {
        return Ok(());
    }
    println!(rt; "  begin: {} ns", spent.begin)?;
    println!(rt; "  add: {} ns", spent.add)?;
    println!(rt; "  pin: {} ns", spent.pin)?;
    println!(rt; "  read: {} ns", spent.read)?;
    println!(rt; "  commit: {} ns", spent.commit)
}

/// The transactions of a level, timed.
fn level(
    rt: &impl Runtime,
    alloc: Global,
    repo: &mut RepoState,
    of: (&str, Level),
    count: u64,
    each: u64,
    is_timed: bool,
) -> io::Result<()>
    requires { 0 < each }
{
    let mut spent = Spent {
        begin: 0,
        add: 0,
        pin: 0,
        read: 0,
        commit: 0,
    };
    let start = repo.quads();
    let (name, level) = of;
    let found = transactions(rt, alloc, repo, level, start, count, each, &mut spent)?;
    report(rt, is_timed, name, found, &spent)
}

/// Prints the memory in use now and at most.
fn print_memory(rt: &impl Runtime) -> io::Result<()> {
    let status = fs::read_to_string(rt, "/proc/self/status")?;
    for line in status.as_str().lines() {
        if line.starts_with("VmRSS") || line.starts_with("VmHWM") {
            println!(rt; "  {line}")?;
        }
    }
    Ok(())
}

/// Writes the quads of these numbers by one call, and answers what it took.
fn timed_load(
    rt: &impl Runtime,
    alloc: Global,
    repo: &mut RepoState,
    start: u64,
    end: u64,
    each: u64,
) -> io::Result<u128>
    requires { 0 < each }
{
    let changes = or_memory(adding(alloc, start, end, each))?;
    let begun = Instant::now(rt)?;
    let _ = or_fault(repo.write(0, None, &changes))?;
    since(rt, begun)
}

/// Writes so many quads, as many by each call as one body may have.
fn load(
    rt: &impl Runtime,
    alloc: Global,
    repo: &mut RepoState,
    count: u64,
    each: u64,
) -> io::Result<u128>
    requires { 0 < each }
{
    let mut nanos = 0u128;
    for start in (0..count).step_by(PIECE) {
        let end = start.saturating_add(PIECE as u64).min(count);
        let more = timed_load(rt, alloc, repo, start, end, each)?;
        nanos = nanos.saturating_add(more);
    }
    Ok(nanos)
}

/// Prints what the load left and, where times are asked for, what it took.
fn report_load(rt: &impl Runtime, is_timed: bool, quads: u64, nanos: u128) -> io::Result<()> {
    println!(rt; "loaded: {quads}")?;
    if !is_timed {
        return Ok(());
    }
    println!(rt; "  load: {nanos} ns")?;
    print_memory(rt)
}

/// All levels over so many quads.
fn run(
    rt: &impl Runtime,
    alloc: Global,
    count: u64,
    each: u64,
    rounds: u64,
    is_timed: bool,
) -> io::Result<()> {
    if each == 0 {
        return Ok(());
    }
    let mut repo = or_fault(repository(alloc))?;
    let nanos = load(rt, alloc, &mut repo, count, each)?;
    report_load(rt, is_timed, repo.quads(), nanos)?;
    for of in LEVELS {
        level(rt, alloc, &mut repo, of, rounds, each, is_timed)?;
    }
    Ok(())
}

/// The number that an argument gives.
fn number(argument: Option<String>) -> Option<u64> {
    argument?.as_str().parse::<u64>().ok()
}

fn main(rt: HostRuntime) -> io::Result<()> {
    let mut arguments = env::args(&rt)?;
    let _name = arguments.next();
    let count = number(arguments.next()).unwrap_or(1_000);
    let each = number(arguments.next()).unwrap_or(10);
    let rounds = number(arguments.next()).unwrap_or(10);
    let is_timed = arguments.next().is_some();
    run(&rt, rt.alloc(), count, each, rounds, is_timed)
}
