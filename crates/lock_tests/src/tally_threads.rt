//! Threads that give to a tally by turns.
ghost use Rattle.std.specs.Prelude.{◌≡◌, ◌<◌, false, vec_len, vec_capacity};
ghost use Rattle.std.specs.Thread.{IsSync};
ghost use Rattle.journal_lock.specs.Passes.{has_turn, IsPassOf, AreIdle};

use crate::tally::{Gift, Tally};
use journal_lock::{JournalLock, Pass};
use rdf_term::Memory;
use std::alloc::Global;
use std::sync::Wait;
use std::thread::{Threads, join};

/// Gives the numbers from 0 on, so many, each in one turn of the pass.
fn give_many<R: Wait>(
    rt: &R,
    lock: &JournalLock<Tally>,
    mut pass: Pass<Tally>,
    count: u64,
) -> Pass<Tally>
    requires pass { IsPassOf lock.now pass }
    requires idle { has_turn pass ≡ false }
    ensures pass { IsPassOf lock.now result }
    ensures idle { has_turn result ≡ false }
{
    let seat = pass.seat();
    for amount in 0..count {
        let gift = Gift { seat, amount };
        let mut held = lock.take(rt, &mut pass);
        if held.value().add(&gift) {
            let _ = lock.give_with(&mut pass, held, &gift);
        } else {
            lock.give(&mut pass, held);
        }
    }
    pass
}

/// Gives with each pass, in a thread of its own.
fn give_each<R: Threads + Wait + Sync>(
    rt: &R,
    lock: &JournalLock<Tally>,
    mut passes: Vec<Pass<Tally>>,
    count: u64,
) -> Vec<Pass<Tally>>
    requires { AreIdle lock.now passes.items }
    ensures idle { AreIdle lock.now result.items }
    ensures all { (vec_len result ≡ vec_len passes) × (vec_capacity result ≡ vec_capacity passes) }
{
    let Some(last) = passes.pop() else {
        return passes;
    };
    let (last, mut rest) = join(
        rt,
        || -> Pass<Tally>
            requires { IsPassOf lock.now last × (has_turn last ≡ false) }
            ensures { IsPassOf lock.entry.now result × (has_turn result ≡ false) }
        { give_many(rt, lock, last, count) },
        || -> Vec<Pass<Tally>>
            requires { IsSync R.row × AreIdle lock.now passes.items }
            ensures idle { AreIdle lock.entry.now result.items }
            ensures all { (vec_len result ≡ vec_len passes) × (vec_capacity result ≡ vec_capacity passes) }
        { give_each(rt, lock, passes, count) },
    );
    rest.push_reserved(last);
    rest
}

/// The tally to which so many threads have given so many numbers each.
pub fn give_by<R: Threads + Wait + Sync>(
    rt: &R,
    alloc: Global,
    threads: u32,
    count: u64,
) -> Result<Tally, Memory>
    requires { 0 < threads }
{
    let (lock, passes) = JournalLock::new(alloc, Tally::new(), threads)?;
    let passes = give_each(rt, &lock, passes, count);
    let (tally, _pass) = lock.close(passes);
    Ok(tally)
}
