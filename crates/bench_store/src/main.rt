//! The program that `bench/store` times: an index of generated quads in two orders, look-ups by
//! subject, scans, pushes of change sets of one quad each, and folds of a branch.
//!
//! The arguments are the number of quads, the number of quads of each subject, and the word `times`.
//! It prints what was found at each step and, after that word, how long the step took and the memory
//! in use.
#![tactic(auto)]

ghost use Rattle.std.specs.Prelude.{◌<◌};

use branch::Branch;
use change_set::ChangeSet;
use quad_index::{Index, Order};
use rdf_term::{Graph, GraphPick, Memory, Pattern, Quad, Quads, Scan, Seq, Term, Text};
use std::alloc::Global;
use std::rt::Runtime;
use std::time::Instant;
use std::{env, fs, io};

/// How many look-ups by subject are made, and how many change sets are pushed.
const LOOKUPS: u64 = 200_000;

const PUSHES: u64 = 20_000;

fn iri(alloc: Global, text: &str) -> Result<Term, Memory> {
    Ok(Term::Iri(Text::from_chars(alloc, text)?))
}

fn subject(alloc: Global, number: u64) -> Result<Term, Memory> {
    let text = format!(in alloc; "http://example.org/subject/{number}")?;
    iri(alloc, text.as_str())
}

/// The quad of a number, where each subject has some.
fn numbered(alloc: Global, number: u64, each: u64) -> Result<Quad, Memory>
    requires { 0 < each }
{
    let predicate = format!(in alloc; "http://example.org/predicate/{}", number % each)?;
    let object = format!(in alloc; "{number}")?;
    let quad = Quad::new(
        subject(alloc, number / each)?,
        iri(alloc, predicate.as_str())?,
        Term::Plain(Text::from_chars(alloc, object.as_str())?),
        Graph::Absent,
    );
    quad.map_err(|_| Memory)
}

/// The quads of the numbers below a count.
fn generated(alloc: Global, count: u64, each: u64) -> Result<Quads, Memory>
    requires { 0 < each }
{
    let mut quads = Quads::new(alloc);
    for number in 0..count {
        quads.push(numbered(alloc, number, each)?)?;
    }
    Ok(quads)
}

fn pattern(s: Option<Term>) -> Pattern {
    Pattern {
        s,
        p: None,
        o: None,
        c: GraphPick::Any,
    }
}

/// The index of these quads in the standard orders.
fn built(alloc: Global, quads: &Quads) -> Result<Index, Memory> {
    let orders = Order::standard(alloc)?;
    Index::build(alloc, &orders, quads)
}

/// The patterns of the subjects that are looked up, one after the other.
fn asked(alloc: Global, subjects: u64) -> Result<Seq<Pattern>, Memory>
    requires { 0 < subjects }
{
    let mut patterns = Seq::new(alloc);
    for lookup in 0..LOOKUPS {
        patterns.push(pattern(Some(subject(alloc, lookup * 7_919 % subjects)?)))?;
    }
    Ok(patterns)
}

/// How many quads are counted by these patterns.
fn counted(branch: &Branch, patterns: &[Pattern]) -> u64 {
    let mut found = 0u64;
    for pattern in patterns {
        found = found.saturating_add(branch.count(pattern));
    }
    found
}

/// How many quads are found by these patterns.
fn scanned(alloc: Global, branch: &Branch, patterns: &[Pattern]) -> Result<u64, Memory> {
    let mut found = 0u64;
    for pattern in patterns {
        let quads = branch.scan(alloc, pattern)?;
        found = found.saturating_add(quads.len() as u64);
    }
    Ok(found)
}

/// Pushes change sets of one added quad each.
fn pushed(alloc: Global, branch: &mut Branch, quads: &[Quad]) -> Result<usize, Memory> {
    for one in quads.chunks(1) {
        branch.push(ChangeSet::swapping(alloc, one, &[])?)?;
    }
    Ok(branch.layers())
}

/// Want of memory as an error of this program.
fn or_memory<T>(outcome: Result<T, Memory>) -> io::Result<T> {
    outcome.map_err(|_| io::Error::from(io::ErrorKind::OutOfMemory))
}

/// Prints the memory in use now and at most.
fn print_memory(rt: &impl Runtime) -> io::Result<()> {
    let status = fs::read_to_string(rt, "/proc/self/status")?;
    for line in status.as_str().lines() {
        if line.starts_with("VmRSS") || line.starts_with("VmHWM") {
            println!(rt; "  {line}")?;
        }
    }
    Ok(())
}

/// Prints what a step found, and, where times are asked for, how long it took.
fn report(
    rt: &impl Runtime,
    is_timed: bool,
    step: &str,
    found: u64,
    start: Instant,
) -> io::Result<()> {
    println!(rt; "{step}: {found}")?;
    if !is_timed {
        return Ok(());
    }
    let micros = start.elapsed(rt)?.as_micros();
    println!(rt; "  {micros} us")?;
    print_memory(rt)
}

/// Builds the index of these quads.
fn index(rt: &impl Runtime, alloc: Global, is_timed: bool, quads: &Quads) -> io::Result<Index> {
    let start = Instant::now(rt)?;
    let index = or_memory(built(alloc, quads))?;
    report(rt, is_timed, "indexed", index.len(), start)?;
    Ok(index)
}

/// Looks subjects up in a branch, with copies and without.
fn look_up(
    rt: &impl Runtime,
    alloc: Global,
    is_timed: bool,
    branch: &Branch,
    subjects: u64,
) -> io::Result<()>
    requires { 0 < subjects }
{
    let patterns = or_memory(asked(alloc, subjects))?;
    let start = Instant::now(rt)?;
    let found = counted(branch, patterns.as_slice());
    report(rt, is_timed, "counted by subject", found, start)?;
    let start = Instant::now(rt)?;
    let found = or_memory(scanned(alloc, branch, patterns.as_slice()))?;
    report(rt, is_timed, "found by subject", found, start)
}

/// Scans the whole content, with copies and without.
fn scan_all(rt: &impl Runtime, alloc: Global, is_timed: bool, branch: &Branch) -> io::Result<()> {
    let everything = pattern(None);
    let start = Instant::now(rt)?;
    report(rt, is_timed, "counted", branch.count(&everything), start)?;
    let start = Instant::now(rt)?;
    let quads = or_memory(branch.scan(alloc, &everything))?;
    report(rt, is_timed, "scanned", quads.len() as u64, start)
}

/// Pushes change sets of one quad each, and folds.
fn push_and_fold(
    rt: &impl Runtime,
    alloc: Global,
    is_timed: bool,
    branch: &mut Branch,
    quads: &[Quad],
) -> io::Result<()> {
    let start = Instant::now(rt)?;
    let layers = or_memory(pushed(alloc, branch, quads))?;
    report(rt, is_timed, "pushed, layers", layers as u64, start)?;
    scan_all(rt, alloc, is_timed, branch)?;
    let start = Instant::now(rt)?;
    let folded = or_memory(branch.fold())?;
    report(rt, is_timed, "folded", folded.len(), start)
}

/// All steps over so many quads.
fn run(rt: &impl Runtime, alloc: Global, count: u64, each: u64, is_timed: bool) -> io::Result<()> {
    if each == 0 || count / each == 0 {
        return Ok(());
    }
    let start = Instant::now(rt)?;
    let quads = or_memory(generated(alloc, count, each))?;
    report(rt, is_timed, "generated", quads.len() as u64, start)?;
    let index = index(rt, alloc, is_timed, &quads)?;
    drop(quads);
    let mut branch = or_memory(Branch::new(alloc, index))?;
    look_up(rt, alloc, is_timed, &branch, count / each)?;
    scan_all(rt, alloc, is_timed, &branch)?;
    let more = or_memory(generated(alloc, PUSHES.min(count), 1))?;
    push_and_fold(rt, alloc, is_timed, &mut branch, more.as_slice())
}

/// The number that an argument gives.
fn number(argument: Option<String>) -> Option<u64> {
    argument?.as_str().parse::<u64>().ok()
}

fn main(rt: HostRuntime) -> io::Result<()> {
    let mut arguments = env::args(&rt)?;
    let _name = arguments.next();
    let count = number(arguments.next()).unwrap_or(1_000);
    let each = number(arguments.next()).unwrap_or(10);
    let is_timed = arguments.next().is_some();
    run(&rt, rt.alloc(), count, each, is_timed)
}
