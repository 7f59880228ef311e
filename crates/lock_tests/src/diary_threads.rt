//! Threads that write into a diary by turns.
ghost use Rattle.std.specs.Prelude.{◌≡◌, ◌<◌, ◌^◌, false, length, IfOk, IfErr, vec_len, vec_capacity};
ghost use Rattle.std.specs.Thread.{IsSync};
ghost use Rattle.journal_lock.specs.Passes.{seen, seat_of, has_turn, IsPassOf, IsSamePass, GoesOn, AreIdle};

use crate::diary::{Diary, Note};
use journal_lock::{JournalLock, Pass};
use rdf_term::{Memory, Text};
use std::alloc::Global;
use std::sync::Wait;
use std::thread::{Threads, join};

/// Writes a note in one turn of the pass, and answers its place.
fn write<R: Wait>(
    rt: &R,
    lock: &JournalLock<Diary>,
    pass: &mut Pass<Diary>,
    note: &Note,
) -> Result<u64, Memory>
    requires pass { IsPassOf lock.now pass.old }
    requires idle { has_turn pass.old ≡ false }
    requires seat { note.now.seat ≡ seat_of pass.old }
    ensures pass { IsPassOf lock.now pass.new }
    ensures idle { has_turn pass.new ≡ false }
    ensures seat { IsSamePass pass.old pass.new }
{
    let mut held = lock.take(rt, pass);
    if held.value().add(note).is_err() {
        lock.give(pass, held);
        return Err(Memory);
    }
    Ok(lock.give_with(pass, held, note))
}

/// The note of a number: its digits.
fn numbered(alloc: Global, seat: u32, number: u64) -> Result<Note, Memory>
    ensures { IfOk result (λ note. note.seat ≡ seat) }
{
    let digits = format!(in alloc; "{number}")?;
    let text = Text::from_chars(alloc, digits.as_str())?;
    Ok(Note { seat, text })
}

/// Writes the notes of the numbers from 0 on, so many, or fewer without memory.
fn write_many<R: Wait>(
    rt: &R,
    alloc: Global,
    lock: &JournalLock<Diary>,
    mut pass: Pass<Diary>,
    count: u64,
) -> Pass<Diary>
    requires pass { IsPassOf lock.now pass }
    requires idle { has_turn pass ≡ false }
    ensures pass { IsPassOf lock.now result }
    ensures idle { has_turn result ≡ false }
{
    for number in 0..count {
        let Ok(note) = numbered(alloc, pass.seat(), number) else {
            break;
        };
        if write(rt, lock, &mut pass, &note).is_err() {
            break;
        }
    }
    pass
}

/// Writes with each pass, in a thread of its own.
fn write_each<R: Threads + Wait + Sync>(
    rt: &R,
    alloc: Global,
    lock: &JournalLock<Diary>,
    mut passes: Vec<Pass<Diary>>,
    count: u64,
) -> Vec<Pass<Diary>>
    requires { AreIdle lock.now passes.items }
    ensures idle { AreIdle lock.now result.items }
    ensures all { (vec_len result ≡ vec_len passes) × (vec_capacity result ≡ vec_capacity passes) }
{
    let Some(last) = passes.pop() else {
        return passes;
    };
    let (last, mut rest) = join(
        rt,
        || -> Pass<Diary>
            requires { IsPassOf lock.now last × (has_turn last ≡ false) }
            ensures { IsPassOf lock.entry.now result × (has_turn result ≡ false) }
        { write_many(rt, alloc, lock, last, count) },
        || -> Vec<Pass<Diary>>
            requires { IsSync R.row × AreIdle lock.now passes.items }
            ensures idle { AreIdle lock.entry.now result.items }
            ensures all { (vec_len result ≡ vec_len passes) × (vec_capacity result ≡ vec_capacity passes) }
        { write_each(rt, alloc, lock, passes, count) },
    );
    rest.push_reserved(last);
    rest
}

/// The diary into which so many threads have written so many notes each.
pub fn write_by<R: Threads + Wait + Sync>(
    rt: &R,
    alloc: Global,
    threads: u32,
    count: u64,
) -> Result<Diary, Memory>
    requires { 0 < threads }
{
    let (lock, passes) = JournalLock::new(alloc, Diary::new(alloc, u32::MAX), threads)?;
    let passes = write_each(rt, alloc, &lock, passes, count);
    let (diary, _pass) = lock.close(passes);
    Ok(diary)
}
