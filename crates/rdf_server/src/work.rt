//! The program `workload` over memory.
ghost use Rattle.std.specs.Prelude.{◌≡◌, ◌<◌, ◌≤◌, ◌↔◌, ◌⊎◌, ◌==◌, ℕ, List, All, IfOk, IfSome, IsSome, OnErr, None, false, vec_len};
ghost use Rattle.rdf_server.specs.WorkDoors.{ServesDoors};
ghost use Rattle.session.specs.Causes.{Caused};
ghost use Rattle.session.specs.Houses.{AreNames};
ghost use Rattle.rdf_io.specs.Sending.{IsPartOf, Puts};
ghost use Rattle.rdf_server.specs.Workloads.{IsWorked};
ghost use Rattle.rdf_server.specs.WorkTexts.{summary, work_names};
ghost use Rattle.rdf_server.specs.WorkWords.{IsWorkload};
ghost use Rattle.worker_pool.specs.declared.house_end.HouseEnd.{HouseEnd};

use crate::serve::serve_doors;
use crate::work_doors::session_doors;
use crate::work_end::{WorkEnd, have_finished};
use crate::work_summary::{put_counts, work_names};
use crate::work_words::work_words;
use quad_index::Order;
use rdf_io::{MemDoor, OpenGate, Sink, send};
use rdf_term::{Bytes, Memory, Text};
use std::alloc::Global;
use std::sync::Wait;
use std::thread::Threads;
use worker_pool::HouseEnd;

/// Serves the sessions of these doors on a house of new repositories.
fn serve_sessions<R: Threads + Wait + Sync>(
    rt: &R,
    alloc: Global,
    names: &[Text],
    doors: &mut Vec<MemDoor>,
) -> Result<HouseEnd, Memory>
    requires names { AreNames names.now }
    requires some { 0 < vec_len doors.old }
    requires few { vec_len doors.old ≤ 15 }
    requires out { All (λ d. d.out ≡ false) doors.old.items }
    ensures { IfOk result (λ it. ServesDoors names.now doors.old.items doors.new.items it) }
{
    let orders = Order::standard(alloc)?;
    serve_doors(rt, alloc, names, &orders, doors, &OpenGate)
}

/// Lets so many workers finish their sessions, or finds that one did not: there a request found no memory.
fn finish_sessions<R: Threads + Wait + Sync>(
    rt: &R,
    alloc: Global,
    names: &[Text],
    workers: u32,
    rounds: u32,
) -> Result<HouseEnd, Memory>
    requires names { names.now ≡ work_names workers }
    requires some { 1 ≤ workers }
    requires few { workers ≤ 15 }
    requires rounds { rounds ≤ 10000 }
    ensures { IfOk result (λ it. IsWorked workers rounds it) }
{
    let mut doors = session_doors(alloc, workers, rounds)?;
    let end = serve_sessions(rt, alloc, names, &mut doors)?;
    if have_finished(end.doors.as_slice()) {
        return Ok(end);
    }
    Err(Memory)
}

/// The end of the workers, and the text on what their repositories hold then.
fn work<R: Threads + Wait + Sync>(
    rt: &R,
    alloc: Global,
    workers: u32,
    rounds: u32,
) -> Result<(HouseEnd, Bytes), Memory>
    requires some { 1 ≤ workers }
    requires few { workers ≤ 15 }
    requires rounds { rounds ≤ 10000 }
    ensures worked { IfOk result (λ it. IsWorked workers rounds it.0) }
    ensures text { IfOk result (λ it. it.1.items ≡ summary workers it.0.counts.items) }
{
    let names = work_names(alloc, workers)?;
    let end = finish_sessions(rt, alloc, names.as_slice(), workers, rounds)?;
    let mut text = Bytes::new(alloc);
    put_counts(names.as_slice(), end.counts.as_slice(), &mut text)?;
    Ok((end, text))
}

/// Prints a text. The status is 0, or 3 where the sink failed.
fn print<O: Sink>(out: &mut O, text: &[u8]) -> u8
    ensures statuses { (result ≡ 0) ⊎ (result ≡ 3) }
    ensures printed { result ≡ 0 → Puts (O.taken out.old) (O.taken out.new) text.now }
    ensures part { result ≡ 3 → (part : List ℕ) × IsPartOf part text.now × Puts (O.taken out.old) (O.taken out.new) part }
    ensures sink { Caused (result == 3) (O.faults out.old) (O.faults out.new) }
{
    match send(out, text) {
        Ok(()) => 0,
        Err(_) => 3,
    }
}

/// The program `workload N ROUNDS`: N workers, 1 to 15, serve the repositories `w0` to `w(N-1)` and `all`,
/// each one connection in memory that holds the session of its number with so many rounds, 1 to 10,000.
/// At the end one line for each repository is printed: its name, how many quads it holds, how many commits
/// were accepted, and how many entries its journal has. It is the same at every run.
///
/// | Status | Cause |
/// |---|---|
/// | 0 | the text was printed |
/// | 3 | the sink failed; a first part of the text went out |
/// | 5 | the words are no words of this program; nothing was printed |
/// | 6 | no memory was found, or a request found none; nothing was printed |
pub fn run_workload<R: Threads + Wait + Sync, O: Sink>(
    rt: &R,
    alloc: Global,
    words: &[Text],
    out: &mut O,
) -> WorkEnd
    // 5 comes exactly where the words are none of this program.
    ensures words { result.status ≡ 5 ↔ ((workers rounds : ℕ) → IsWorkload words.now workers rounds → ⊥) }
    ensures statuses { (result.status ≡ 0) ⊎ ((result.status ≡ 3) ⊎ ((result.status ≡ 5) ⊎ (result.status ≡ 6))) }

    // The end of the house is told exactly where the workers finished, and only then the sink is called.
    ensures house { IsSome result.house ↔ ((result.status ≡ 0) ⊎ (result.status ≡ 3)) }
    ensures unwritten { result.house ≡ None → O.taken out.new ≡ O.taken out.old }

    // All workers finished their sessions, by the closing journals, whose contents are counted.
    ensures worked { (workers rounds : ℕ) → IsWorkload words.now workers rounds → IfSome result.house (λ end. IsWorked workers rounds end) }

    // The lines of what the closing journals hold are printed, or where the sink failed a first part of them.
    ensures printed { (workers rounds : ℕ) → IsWorkload words.now workers rounds → result.status ≡ 0
        → IfSome result.house (λ end. Puts (O.taken out.old) (O.taken out.new) (summary workers end.counts.items)) }
    ensures part { (workers rounds : ℕ) → IsWorkload words.now workers rounds → result.status ≡ 3
        → IfSome result.house (λ end. (part : List ℕ) × IsPartOf part (summary workers end.counts.items) × Puts (O.taken out.old) (O.taken out.new) part) }
    ensures sink { Caused (result.status == 3) (O.faults out.old) (O.faults out.new) }
{
    let Some((workers, rounds)) = work_words(words) else {
        return WorkEnd {
            status: 5,
            house: None,
        };
    };
    let Ok((house, text)) = work(rt, alloc, workers, rounds) else {
        return WorkEnd {
            status: 6,
            house: None,
        };
    };
    WorkEnd {
        status: print(out, text.as_slice()),
        house: Some(house),
    }
}
