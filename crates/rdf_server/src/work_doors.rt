//! The doors of `workload`: one connection in memory for each worker.
ghost use Rattle.std.specs.Prelude.{◌≡◌, All, IfOk, false, vec_len};
ghost use Rattle.rdf_server.specs.WorkDoors.{HasSession, HaveSessions};

use rdf_io::{MemDoor, MemSink, MemSource};
use rdf_term::Memory;
use std::alloc::Global;
use workload::make_session;

/// A door with the session of this number.
fn session_door(alloc: Global, session: u32, rounds: u32) -> Result<MemDoor, Memory>
    ensures session { IfOk result (λ it. HasSession session rounds it) }
    ensures out { IfOk result (λ it. it.out ≡ false) }
{
    let bytes = make_session(alloc, session, rounds)?;
    let source = MemSource::new(bytes, Vec::new(alloc), Vec::new(alloc));
    let sink = MemSink::new(alloc, Vec::new(alloc));
    let links = Vec::from_array(alloc, [(source, sink)])?;
    Ok(MemDoor::new(links, Vec::new(alloc)))
}

/// A door for each of so many workers, in order, with the session of its number.
pub(crate) fn session_doors(
    alloc: Global,
    workers: u32,
    rounds: u32,
) -> Result<Vec<MemDoor>, Memory>
    ensures sessions { IfOk result (λ it. HaveSessions 0 rounds it.items) }
    ensures count { IfOk result (λ it. vec_len it ≡ workers) }
    ensures out { IfOk result (λ it. All (λ d. d.out ≡ false) it.items) }
{
    let mut doors = Vec::new(alloc);
    for session in 0..workers {
        doors.push(session_door(alloc, session, rounds)?)?;
    }
    Ok(doors)
}
