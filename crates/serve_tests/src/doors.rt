//! The program over doors in memory.
ghost use Rattle.std.specs.Prelude.{◌≡◌, ◌<◌, ◌≤◌, All, IfOk, false, vec_len};
ghost use Rattle.rdf_io.specs.Memory.{DoorState};

use crate::words::words;
use rdf_io::{MemDoor, MemSink, MemSource, OpenGate};
use rdf_server::{ServeEnd, run_serve};
use rdf_term::{Bytes, Memory};
use std::alloc::Global;
use std::sync::Wait;
use std::thread::Threads;

const SIZE: &str = "GET /rdf4j-server/repositories/r/size HTTP/1.1\r\nHost: h\r\n\r\n";

const OTHER_SIZE: &str =
    "GET /rdf4j-server/repositories/s/size HTTP/1.1\r\nHost: h\r\nConnection: close\r\n\r\n";

const NONE: &str =
    "HTTP/1.1 200 OK\r\nContent-Type: text/plain;charset=UTF-8\r\nContent-Length: 1\r\n\r\n0";

const NONE_LAST: &str =
    "HTTP/1.1 200 OK\r\nContent-Type: text/plain;charset=UTF-8\r\nContent-Length: 1\r\nConnection: close\r\n\r\n0";

/// How the program ended: its status, and of how many doors and repositories it tells.
#[derive(Clone, Copy, Debug, PartialEq, Eq, Drop)]
struct Ended {
    status: u8,
    doors: usize,
    repositories: usize,
}

/// A door with one connection of these bytes, of which the accepts with these numbers fail.
fn door(alloc: Global, input: &str, fails: &[u64]) -> Result<MemDoor, Memory>
    ensures { IfOk result (λ door. door.out ≡ false) }
{
    let mut bytes = Bytes::new(alloc);
    bytes.append(input.as_bytes())?;
    let source = MemSource::new(bytes, Vec::new(alloc), Vec::new(alloc));
    let link = (source, MemSink::new(alloc, Vec::new(alloc)));
    let links = Vec::from_array(alloc, [link])?;
    Ok(MemDoor::new(links, fails.to_vec(alloc)?))
}

/// Two doors, of which the second fails at the accepts with these numbers.
fn two_doors(alloc: Global, fails: &[u64]) -> Result<Vec<MemDoor>, Memory>
    ensures count { IfOk result (λ it. vec_len it ≡ 2) }
    ensures out { IfOk result (λ it. All (λ d. d.out ≡ false) it.items) }
{
    let first = door(alloc, SIZE, &[])?;
    let second = door(alloc, OTHER_SIZE, fails)?;
    Ok(Vec::from_array(alloc, [first, second])?)
}

/// Runs the program with these words over two doors.
fn run<R: Threads + Wait + Sync>(
    rt: &R,
    alloc: Global,
    line: &str,
    doors: &mut Vec<MemDoor>,
) -> Result<Ended, Memory>
    requires count { vec_len doors.old ≡ 2 }
    requires out { All (λ (d : DoorState). d.out ≡ false) doors.old.items }
{
    let words = words(alloc, line)?;
    let end = run_serve(rt, alloc, &words, doors, &OpenGate);
    let status = end.status();
    let (doors, repositories) = match &end {
        ServeEnd::Served(house) => (house.doors.len(), house.counts.len()),
        ServeEnd::Words | ServeEnd::Memory => (0, 0),
    };
    Ok(Ended {
        status,
        doors,
        repositories,
    })
}

/// What the first connection of a door was sent.
fn sent(doors: &[MemDoor], number: usize) -> Option<&[u8]> {
    match doors.get(number) {
        None => None,
        Some(door) => door.taken(0),
    }
}

/// Whether this text was sent.
fn is_text(sent: Option<&[u8]>, want: &str) -> bool {
    match sent {
        None => false,
        Some(bytes) => bytes == want.as_bytes(),
    }
}

#[test]
fn two_doors_are_served(rt: HostRuntime) -> Result<(), Memory> {
    let alloc = rt.alloc();
    let mut doors = two_doors(alloc, &[])?;
    let end = run(&rt, alloc, "serve --port 80 --workers 2 r s", &mut doors)?;
    let want = Ended {
        status: 0,
        doors: 2,
        repositories: 2,
    };
    assert_eq!(rt; end, want);
    assert!(rt; is_text(sent(&doors, 0), NONE));
    assert!(rt; is_text(sent(&doors, 1), NONE_LAST));
    Ok(())
}

#[test]
fn a_door_that_fails_is_told(rt: HostRuntime) -> Result<(), Memory> {
    let alloc = rt.alloc();
    let mut doors = two_doors(alloc, &[0])?;
    let end = run(&rt, alloc, "serve --port 80 --workers 2 r s", &mut doors)?;
    let want = Ended {
        status: 2,
        doors: 2,
        repositories: 2,
    };
    assert_eq!(rt; end, want);
    assert!(rt; is_text(sent(&doors, 0), NONE));
    assert!(rt; sent(&doors, 1).is_none());
    Ok(())
}

#[test]
fn other_words_serve_no_door(rt: HostRuntime) -> Result<(), Memory> {
    let alloc = rt.alloc();
    let mut doors = two_doors(alloc, &[])?;
    let end = run(&rt, alloc, "serve --port 80 r s", &mut doors)?;
    let want = Ended {
        status: 5,
        doors: 0,
        repositories: 0,
    };
    assert_eq!(rt; end, want);
    assert_eq!(rt; doors.len(), 2);
    assert!(rt; sent(&doors, 0).is_none());
    assert!(rt; sent(&doors, 1).is_none());
    Ok(())
}
