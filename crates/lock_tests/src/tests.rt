//! What no clause says: that memory is found, that threads get on, and that the value under the lock
//! is what its entries make.
use crate::{Diary, give_by, write_by};
use rdf_term::Memory;
use std::alloc::Global;
use std::test::Fail;

/// How many notes each thread writes.
const NOTES: u64 = 10_000;

/// How many notes of the seat have the next number of their thread.
fn in_order(alloc: Global, diary: &Diary, seat: u32) -> Result<u64, Memory> {
    let mut next = 0u64;
    for note in diary.notes() {
        if note.seat == seat {
            let digits = format!(in alloc; "{next}")?;
            if note.text.as_str() != digits.as_str() {
                return Ok(next);
            }
            next = next.saturating_add(1);
        }
    }
    Ok(next)
}

/// Each note stands in the list once, and each thread's in its order.
fn is_whole(alloc: Global, diary: &Diary, threads: u32) -> Result<bool, Memory> {
    for seat in 0..threads {
        if in_order(alloc, diary, seat)? != NOTES {
            return Ok(false);
        }
    }
    Ok(diary.notes().len() as u64 == u64::from(threads) * NOTES)
}

#[test]
fn two_threads_write_by_turns(rt: HostRuntime) -> Result<(), Fail> {
    let diary = write_by(&rt, rt.alloc(), 2, NOTES)?;
    let whole = is_whole(rt.alloc(), &diary, 2)?;
    assert!(rt; whole);
    Ok(())
}

#[test]
fn eight_threads_write_by_turns(rt: HostRuntime) -> Result<(), Fail> {
    let diary = write_by(&rt, rt.alloc(), 8, NOTES)?;
    let whole = is_whole(rt.alloc(), &diary, 8)?;
    assert!(rt; whole);
    Ok(())
}

#[test]
fn two_threads_give_to_a_story(rt: HostRuntime) -> Result<(), Fail> {
    let tally = give_by(&rt, rt.alloc(), 2, NOTES)?;
    assert_eq!(rt;
        (tally.gifts(), tally.sum()),
        (2 * NOTES, NOTES * (NOTES - 1))
    );
    Ok(())
}
