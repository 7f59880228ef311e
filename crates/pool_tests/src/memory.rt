//! Doors in memory.
ghost use Rattle.std.specs.Prelude.{◌≡◌, All, IfOk, false, vec_len};

use crate::house::{Came, NO_CONTENT, SIZE, post, serve, told};
use rdf_io::{Gate, GateMark, MemDoor, MemSink, MemSource, OpenGate};
use rdf_term::{Bytes, Memory};
use std::alloc::Global;
use std::sync::atomic::{AtomicU64, Ordering};
use std::test::Fail;
use std::thread;
use worker_pool::{DoorStop, RepoCount};

/// How often worker 0 looks whether worker 1 has written, at most.
const TURNS: u64 = 10_000_000;

/// Holds worker 0 at `Pinned` of its first request until worker 1 has written its first response.
#[derive(Drop)]
struct Hold {
    written: AtomicU64,
    late: AtomicU64,
}

impl Hold {
    /// Waits until worker 1 has written.
    fn wait(&self) {
        for _ in 0..TURNS {
            if self.written.load(Ordering::SeqCst) == 1 {
                return;
            }
            thread::yield_now();
        }
        self.late.store(1, Ordering::SeqCst);
    }
}

impl Gate for Hold {
    fn enter(&self, mark: GateMark) {
        match mark {
            GateMark::Pinned {
                worker: 0,
                request: 0,
            } => self.wait(),
            GateMark::Written {
                worker: 1,
                request: 0,
            } => self.written.store(1, Ordering::SeqCst),
            _ => {}
        }
    }
}

/// A door with one connection of these bytes, of which the accepts with these numbers fail.
fn door(alloc: Global, input: &str, fails: &[u64]) -> Result<MemDoor, Memory>
    ensures { IfOk result (λ door. door.out ≡ false) }
{
    let mut bytes = Bytes::new(alloc);
    bytes.append(input.as_bytes())?;
    let source = MemSource::new(bytes, Vec::new(alloc), Vec::new(alloc));
    let link = (source, MemSink::new(alloc, Vec::new(alloc)));
    let links = Vec::from_array(alloc, [link])?;
    Ok(MemDoor::new(links, fails.to_vec(alloc)?))
}

/// Two doors, with a connection of these bytes each, of which the second fails at the accepts with these
/// numbers.
fn two_doors(alloc: Global, input: &str, other: &str, fails: &[u64]) -> Result<Vec<MemDoor>, Memory>
    ensures count { IfOk result (λ it. vec_len it ≡ 2) }
    ensures out { IfOk result (λ it. All (λ d. d.out ≡ false) it.items) }
{
    let first = door(alloc, input, &[])?;
    let second = door(alloc, other, fails)?;
    Ok(Vec::from_array(alloc, [first, second])?)
}

/// What the first connection of a door was sent.
fn sent(doors: &[MemDoor], number: usize) -> Option<&[u8]> {
    match doors.get(number) {
        None => None,
        Some(door) => door.taken(0),
    }
}

/// Whether this text was sent.
fn is_text(sent: Option<&[u8]>, want: &str) -> bool {
    match sent {
        None => false,
        Some(bytes) => bytes == want.as_bytes(),
    }
}

#[test]
fn two_workers_run_beside_one_another(rt: HostRuntime) -> Result<(), Fail> {
    let alloc = rt.alloc();
    let mut doors = two_doors(alloc, SIZE, post(alloc, "1")?.as_str(), &[])?;
    let gate = Hold {
        written: AtomicU64::new(0),
        late: AtomicU64::new(0),
    };
    let end = serve(&rt, alloc, &mut doors, &gate)?;
    assert_eq!(rt; gate.late.load(Ordering::SeqCst), 0);
    let one = Came::one_session(1);
    assert_eq!(rt; end.doors.as_slice(), [one, one].as_slice());
    let before = told(alloc, 0, "")?;
    let behind = told(alloc, 1, "")?;
    let size = sent(&doors, 0);
    assert!(rt; is_text(size, before.as_str()) || is_text(size, behind.as_str()));
    assert!(rt; is_text(sent(&doors, 1), NO_CONTENT));
    let want = RepoCount {
        quads: 1,
        commits: 0,
        entries: 2,
    };
    assert_eq!(rt; end.counts.as_slice(), [want].as_slice());
    assert_eq!(rt; end.closing, 1);
    Ok(())
}

#[test]
fn a_door_that_fails_stops_alone(rt: HostRuntime) -> Result<(), Fail> {
    let alloc = rt.alloc();
    let mut doors = two_doors(alloc, SIZE, SIZE, &[0])?;
    let end = serve(&rt, alloc, &mut doors, &OpenGate)?;
    let none = Came {
        stop: DoorStop::DoorFault,
        sessions: 0,
        end: None,
        answered: 0,
    };
    assert_eq!(rt;
        end.doors.as_slice(),
        [Came::one_session(1), none].as_slice()
    );
    assert!(rt; is_text(sent(&doors, 0), told(alloc, 0, "")?.as_str()));
    assert!(rt; sent(&doors, 1).is_none());
    Ok(())
}
