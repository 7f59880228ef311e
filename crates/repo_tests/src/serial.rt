//! Random histories of SERIALIZABLE transactions of several seats, beside their serial journals: in one
//! of these each committed transaction is one block at its Commit.
use crate::acts::{Act, named};
use crate::asks::ALL;
use crate::numbers::{Numbers, limits, note};
use crate::replies::{Answer, is_refusal};
use crate::seats::{entered, repository};
use iso_txn::RepoState;
use journal::{StoreFault, Txn};
use std::alloc::{AllocError, Global};

/// An entry with its answer.
#[derive(Clone, Copy)]
struct Made {
    seat: u32,
    act: Act,
    answer: Answer,
}

fn is_accepted(made: &Made) -> bool {
    !is_refusal(made.answer)
}

/// Whether an entry is the Begin of a transaction or names it.
fn is_of(made: &Made, txn: Txn) -> bool {
    made.answer == Answer::Begun(txn) || named(made.act) == Some(txn)
}

/// The act with another transaction in the place of the one that it names.
fn renamed_act(act: Act, to: Txn) -> Act {
    match act {
        Act::Read(Some(_), ask) => Act::Read(Some(to), ask),
        Act::Steps(_, ask) => Act::Steps(to, ask),
        Act::Write(Some(_), edits) => Act::Write(Some(to), edits),
        Act::Commit(_) => Act::Commit(to),
        Act::Rollback(_) => Act::Rollback(to),
        Act::Ping(_) => Act::Ping(to),
        _ => act,
    }
}

fn renamed_answer(answer: Answer, to: Txn) -> Answer {
    match answer {
        Answer::Begun(_) => Answer::Begun(to),
        _ => answer,
    }
}

fn renamed(made: &Made, to: Txn) -> Made {
    Made {
        seat: made.seat,
        act: renamed_act(made.act, to),
        answer: renamed_answer(made.answer, to),
    }
}

/// Adds the accepted entries of a transaction as one block.
fn push_block(serial: &mut Vec<Made>, past: &[Made], txn: Txn) -> Result<(), AllocError> {
    let to = Txn {
        place: serial.len() as u64,
        level: txn.level,
    };
    for made in past {
        if is_accepted(made) && is_of(made, txn) {
            serial.push(renamed(made, to))?;
        }
    }
    Ok(())
}

/// Adds what the last accepted one of these entries puts into the serial journal.
fn push_last(serial: &mut Vec<Made>, past: &[Made], made: Made) -> Result<(), AllocError> {
    match made.act {
        Act::Commit(txn) => push_block(serial, past, txn)?,
        Act::Read(None, _) | Act::Write(None, _) | Act::Names(_) => serial.push(made)?,
        _ => {}
    }
    Ok(())
}

/// The serial journal.
fn serial_of(alloc: Global, past: &[Made]) -> Result<Vec<Made>, AllocError> {
    let mut serial = Vec::new(alloc);
    for (place, made) in past.iter().enumerate() {
        if is_accepted(made) {
            push_last(&mut serial, &past[..place + 1], *made)?;
        }
    }
    Ok(serial)
}

/// Whether a repository answers each entry as it was answered.
fn are_answered(alloc: Global, repo: &mut RepoState, journal: &[Made]) -> Result<bool, StoreFault> {
    for made in journal {
        if entered(alloc, repo, made.seat, made.act)? != made.answer {
            return Ok(false);
        }
    }
    Ok(true)
}

/// Enters a random act by a random seat.
fn go_on(
    alloc: Global,
    numbers: &mut Numbers,
    repo: &mut RepoState,
    open: &mut Vec<Txn>,
) -> Result<Made, StoreFault> {
    let seat = numbers.seat();
    let act = numbers.serializable_act(open.as_slice());
    let answer = entered(alloc, repo, seat, act)?;
    note(open, act, answer)?;
    Ok(Made { seat, act, answer })
}

/// Random entries with their answers.
fn entries(
    alloc: Global,
    numbers: &mut Numbers,
    repo: &mut RepoState,
    calls: u64,
) -> Result<Vec<Made>, StoreFault> {
    let mut open = Vec::new(alloc);
    let mut past = Vec::new(alloc);
    for _ in 0..calls {
        past.push(go_on(alloc, numbers, repo, &mut open)?)?;
    }
    Ok(past)
}

fn conflicts(past: &[Made]) -> usize {
    let mut count = 0usize;
    for made in past {
        if let Answer::Conflict(_, _) = made.answer {
            count = count.saturating_add(1);
        }
    }
    count
}

fn content(alloc: Global, repo: &mut RepoState) -> Result<Answer, StoreFault> {
    entered(alloc, repo, 0, Act::Read(None, ALL))
}

/// Whether a repository without entries answers a journal so, and leaves the content and the number of
/// commits of another one.
fn is_alike(
    alloc: Global,
    alone: &mut RepoState,
    repo: &mut RepoState,
    journal: &[Made],
) -> Result<bool, StoreFault> {
    Ok(
        are_answered(alloc, alone, journal)?
            && content(alloc, alone)? == content(alloc, repo)?
            && alone.commits() == repo.commits(),
    )
}

fn is_alike_alone(
    alloc: Global,
    repo: &mut RepoState,
    journal: &[Made],
) -> Result<bool, StoreFault> {
    let mut alone = repository(alloc, limits())?;
    is_alike(alloc, &mut alone, repo, journal)
}

/// Whether random entries by a seed are answered alike in their serial journal. Many commits and conflicts
/// are among them.
fn is_serial(alloc: Global, repo: &mut RepoState, seed: u64) -> Result<bool, StoreFault> {
    let mut numbers = Numbers::new(seed);
    let past = entries(alloc, &mut numbers, repo, 600)?;
    if repo.commits() < 8 || conflicts(past.as_slice()) < 8 {
        return Ok(false);
    }
    let serial = serial_of(alloc, past.as_slice())?;
    is_alike_alone(alloc, repo, serial.as_slice())
}

fn is_right(alloc: Global, seed: u64) -> Result<bool, StoreFault> {
    let mut repo = repository(alloc, limits())?;
    is_serial(alloc, &mut repo, seed)
}

#[test]
fn serial_journals_are_answered_alike(rt: HostRuntime) -> Result<(), StoreFault> {
    for seed in 1..21 {
        assert!(rt; is_right(rt.alloc(), seed)?, "seed {seed}");
    }
    Ok(())
}
