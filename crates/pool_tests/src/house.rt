//! A house that doors are served on, requests to it, and what is answered.
ghost use Rattle.std.specs.Prelude.{◌≡◌, ◌<◌, ◌^◌, ◌∷◌, [], All, IfOk, false, vec_len};
ghost use Rattle.shared_session.specs.Houses.{AllOf, HaveSeats};

use journal::Limits;
use quad_index::Order;
use rdf_io::{Door, Gate};
use rdf_term::{Memory, Text};
use session::{Outcome, SessionEnd, Turn};
use shared_session::{House, Passes};
use std::alloc::Global;
use std::sync::Wait;
use std::thread::Threads;
use worker_pool::{DoorEnd, DoorStop, HouseEnd, RepoCount, serve_all};

pub const SIZE: &str = "GET /rdf4j-server/repositories/r/size HTTP/1.1\r\nHost: h\r\n\r\n";

pub const LAST_SIZE: &str =
    "GET /rdf4j-server/repositories/r/size HTTP/1.1\r\nHost: h\r\nConnection: close\r\n\r\n";

pub const NO_CONTENT: &str = "HTTP/1.1 204 No Content\r\n\r\n";

/// A POST of one quad, whose object is this text.
pub fn post(alloc: Global, object: &str) -> Result<String, Memory> {
    let line = format!(in alloc; "<urn:s> <urn:p> \"{object}\" .\n")?;
    let length = line.len();
    Ok(format!(in alloc;
        "POST /rdf4j-server/repositories/r/statements HTTP/1.1\r\nHost: h\r\nContent-Type: application/n-quads\r\nContent-Length: {length}\r\n\r\n{line}"
    )?)
}

/// The answer that tells a size.
pub fn told(alloc: Global, size: u64, close: &str) -> Result<String, Memory> {
    let size = format!(in alloc; "{size}")?;
    let length = size.len();
    Ok(format!(in alloc;
        "HTTP/1.1 200 OK\r\nContent-Type: text/plain;charset=UTF-8\r\nContent-Length: {length}\r\n{close}\r\n{size}"
    )?)
}

/// What came of a door: why its worker stopped, how many sessions there were, how the last one ended, and
/// how many of its requests were answered by the reply to their entries.
#[derive(Clone, Copy, Debug, PartialEq, Eq, Drop)]
pub struct Came {
    pub stop: DoorStop,
    pub sessions: usize,
    pub end: Option<SessionEnd>,
    pub answered: usize,
}

impl Came {
    /// A door that closed after one session, in which so many requests were answered.
    pub fn one_session(answered: usize) -> Came {
        Came {
            stop: DoorStop::Closed,
            sessions: 1,
            end: Some(SessionEnd::Done),
            answered,
        }
    }

    /// What came of this door.
    fn of_door(door: &DoorEnd) -> Came {
        let (end, answered) = match door.reports.last() {
            None => (None, 0),
            Some(report) => (Some(report.end), answered(&report.turns)),
        };
        Came {
            stop: door.stop,
            sessions: door.reports.len(),
            end,
            answered,
        }
    }
}

/// What came of the doors, how many repositories were closed, and what they held.
#[derive(Drop)]
pub struct Ended {
    pub doors: Vec<Came>,
    pub closing: usize,
    pub counts: Vec<RepoCount>,
}

impl Ended {
    /// What is told of this end.
    fn of_house(alloc: Global, end: &HouseEnd) -> Result<Ended, Memory> {
        let mut doors = Vec::new(alloc);
        for door in &end.doors {
            doors.push(Came::of_door(door))?;
        }
        Ok(Ended {
            doors,
            closing: end.closing.len(),
            counts: end.counts.to_vec(alloc)?,
        })
    }
}

fn answered(turns: &[Turn]) -> usize {
    turns
        .iter()
        .filter(|turn| turn.outcome == Outcome::Answered)
        .count()
}

/// The ID `r`.
fn ids(alloc: Global) -> Result<Vec<Text>, Memory>
    ensures { IfOk result (λ it. it.items ≡ (114 ∷ []) ∷ []) }
{
    let mut ids = Vec::new(alloc);
    ids.push(Text::from_char_slice(alloc, &['r'])?)?;
    Ok(ids)
}

/// A house with a repository `r`, and the passes of so many workers.
fn new_house(alloc: Global, workers: u32) -> Result<(House, Vec<Passes>), Memory>
    requires { 0 < workers }
    ensures passes { IfOk result (λ it. AllOf it.0 it.1.items) }
    ensures count { IfOk result (λ it. vec_len it.1 ≡ workers) }
    ensures seats { IfOk result (λ it. HaveSeats workers it.0.repos) }
{
    let ids = ids(alloc)?;
    let orders = Order::standard(alloc)?;
    House::new(alloc, &ids, &orders, Limits::standard(), workers)
}

/// Serves these doors on a new house with a repository `r`.
pub fn serve<R: Threads + Wait + Sync, D: Door<In: Send, Out: Send> + Send + Drop, G: Gate + Sync>(
    rt: &R,
    alloc: Global,
    doors: &mut Vec<D>,
    gate: &G,
) -> Result<Ended, Memory>
    requires some { 0 < vec_len doors.old }
    requires few { vec_len doors.old < 2 ^ 32 }
    requires out { All (λ d. D.out d ≡ false) doors.old.items }
{
    let (house, passes) = new_house(alloc, doors.len() as u32)?;
    let end = serve_all(rt, alloc, house, passes, doors, gate)?;
    Ended::of_house(alloc, &end)
}
