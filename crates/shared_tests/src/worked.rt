//! What no clause says: that memory is found, that threads get on, and the worked answers.
use crate::acts::{Act, Answer};
use crate::pair::{Case, Seat, play};
use crate::quads::Observed;
use crate::query::query_with_a_write_between;
use crate::replay::is_replayed;
use crate::threads::work_by;
use journal::{Level, StoreFault, Txn};

/// The transaction that a level's Begin at a place begins.
const fn txn(place: u64, level: Level) -> Txn {
    Txn { place, level }
}

/// An entry of the first pass.
const fn first(act: Act, answer: Answer) -> Case {
    Case {
        seat: Seat::First,
        act,
        answer,
    }
}

/// An entry of the second pass.
const fn second(act: Act, answer: Answer) -> Case {
    Case {
        seat: Seat::Second,
        act,
        answer,
    }
}

#[test]
fn each_call_is_answered_at_its_place(rt: HostRuntime) -> Result<(), StoreFault> {
    let read = txn(0, Level::ReadCommitted);
    let none = txn(6, Level::NoIsolation);
    let cases = [
        first(Act::Begin(Level::ReadCommitted), Answer::Begun(read)),
        first(Act::Add(Some(read), 0), Answer::Done),
        second(Act::Size(None), Answer::Count(0)),
        first(Act::Size(Some(read)), Answer::Count(1)),
        first(Act::Commit(read), Answer::Done),
        second(Act::Size(None), Answer::Count(1)),
        second(Act::Begin(Level::NoIsolation), Answer::Begun(none)),
        first(Act::Ping(none), Answer::Done),
        second(Act::Rollback(none), Answer::Done),
        first(Act::Ping(none), Answer::NoTransaction),
        second(Act::Prefixes, Answer::Prefixes(0)),
    ];
    match play(&rt, rt.alloc(), &cases)? {
        Some(state) => {
            assert!(rt; state.length() == 11 && state.quads() == 1 && state.commits() == 1);
        }
        None => assert!(rt; false, "an answer differs"),
    }
    Ok(())
}

#[test]
fn serializable_transactions_of_two_passes_conflict(rt: HostRuntime) -> Result<(), StoreFault> {
    let one = txn(0, Level::Serializable);
    let other = txn(1, Level::Serializable);
    let cases = [
        first(Act::Begin(Level::Serializable), Answer::Begun(one)),
        second(Act::Begin(Level::Serializable), Answer::Begun(other)),
        first(Act::Evens(Some(one)), Answer::Quads(0)),
        second(Act::Evens(Some(other)), Answer::Quads(0)),
        first(Act::Add(Some(one), 3), Answer::Done),
        first(Act::Add(Some(one), 6), Answer::Done),
        second(Act::Add(Some(other), 8), Answer::Done),
        first(Act::Commit(one), Answer::Done),
        second(Act::Commit(other), Answer::Conflict(Observed::Evens, 6)),
        second(Act::Ping(other), Answer::Done),
        second(Act::Rollback(other), Answer::Done),
        second(Act::Size(None), Answer::Count(2)),
    ];
    match play(&rt, rt.alloc(), &cases)? {
        Some(state) => assert!(rt; state.quads() == 2 && state.commits() == 1),
        None => assert!(rt; false, "an answer differs"),
    }
    Ok(())
}

#[test]
fn serializable_transactions_that_observe_apart_commit(rt: HostRuntime) -> Result<(), StoreFault> {
    let one = txn(0, Level::Serializable);
    let other = txn(1, Level::Serializable);
    let cases = [
        first(Act::Begin(Level::Serializable), Answer::Begun(one)),
        second(Act::Begin(Level::Serializable), Answer::Begun(other)),
        first(Act::Evens(Some(one)), Answer::Quads(0)),
        second(Act::Evens(Some(other)), Answer::Quads(0)),
        first(Act::Add(Some(one), 3), Answer::Done),
        second(Act::Add(Some(other), 5), Answer::Done),
        first(Act::Commit(one), Answer::Done),
        second(Act::Commit(other), Answer::Done),
        first(Act::Size(None), Answer::Count(2)),
    ];
    match play(&rt, rt.alloc(), &cases)? {
        Some(state) => assert!(rt; state.quads() == 2 && state.commits() == 2),
        None => assert!(rt; false, "an answer differs"),
    }
    Ok(())
}

#[test]
fn query_sees_a_write_of_another_pass_between_its_steps(rt: HostRuntime) -> Result<(), StoreFault> {
    assert!(rt; query_with_a_write_between(&rt, rt.alloc())?);
    Ok(())
}

#[test]
fn lists_of_a_pass_have_what_the_other_committed(rt: HostRuntime) -> Result<(), StoreFault> {
    let cases = [
        first(Act::Add(None, 4), Answer::Done),
        first(Act::Add(None, 7), Answer::Done),
        second(Act::Add(None, 0), Answer::Done),
        second(Act::Evens(None), Answer::Quads(0b10001)),
        first(Act::Evens(None), Answer::Quads(0b10001)),
    ];
    match play(&rt, rt.alloc(), &cases)? {
        Some(state) => assert!(rt; state.quads() == 3 && state.commits() == 0),
        None => assert!(rt; false, "an answer differs"),
    }
    Ok(())
}

#[test]
fn answers_to_two_threads_are_those_of_one_caller(rt: HostRuntime) -> Result<(), StoreFault> {
    let alloc = rt.alloc();
    let crew = work_by(&rt, alloc, 2, 1_000)?;
    assert!(rt; crew.state.length() == 2_000 && crew.heard.len() == 2);
    assert!(rt; is_replayed(alloc, crew.heard.as_slice())?);
    Ok(())
}

#[test]
fn answers_to_eight_threads_are_those_of_one_caller(rt: HostRuntime) -> Result<(), StoreFault> {
    let alloc = rt.alloc();
    let crew = work_by(&rt, alloc, 8, 1_000)?;
    assert!(rt; crew.state.length() == 8_000 && crew.heard.len() == 8);
    assert!(rt; is_replayed(alloc, crew.heard.as_slice())?);
    Ok(())
}
