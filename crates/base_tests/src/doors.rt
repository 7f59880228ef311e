//! Doors in memory, failing as they are told, and the gate that holds nobody up.
ghost use Rattle.std.specs.Prelude.{◌≡◌, false, IfOk};
ghost use Rattle.rdf_io.specs.Memory.{IsUnused};

use rdf_io::{Door, Failed, Gate, GateMark, MemDoor, MemSink, MemSource, OpenGate, Sink, Source};
use rdf_term::{Bytes, Memory};
use std::alloc::Global;

/// A link over these bytes, of which the reads with these numbers fail.
fn link(alloc: Global, bytes: &[u8], fails: &[u64]) -> Result<(MemSource, MemSink), Memory>
    ensures { IfOk result IsUnused }
{
    let bytes = Bytes::from_vec(bytes.to_vec(alloc)?);
    let source = MemSource::new(bytes, Vec::new(alloc), fails.to_vec(alloc)?);
    Ok((source, MemSink::new(alloc, Vec::new(alloc))))
}

/// Writes back what one read gives.
fn echo<S: Source, K: Sink>(input: &mut S, output: &mut K) -> Result<(), Failed> {
    let mut buf = [0u8; 8];
    let count = input.read(&mut buf)?;
    output.write(&buf[..count])?;
    output.flush()
}

/// What became of one turn at a door.
#[derive(Debug, PartialEq, Eq, Drop)]
enum Turn {
    Served,
    Broke,
    Ended,
    DoorFailed,
}

/// Serves the next connection of a door.
fn serve<D: Door>(door: &mut D) -> Turn
    requires { D.out door.old ≡ false }
    ensures { D.out door.new ≡ false }
{
    match door.accept() {
        Ok(Some((mut input, mut output))) => {
            let served = echo(&mut input, &mut output);
            door.give_back(input, output);
            match served {
                Ok(()) => Turn::Served,
                Err(Failed) => Turn::Broke,
            }
        }
        Ok(None) => Turn::Ended,
        Err(Failed) => Turn::DoorFailed,
    }
}

#[test]
fn doors_in_memory_give_their_links_and_fail_as_told(rt: HostRuntime) -> Result<(), Memory> {
    let alloc = rt.alloc();
    let first = link(alloc, b"ab", &[])?;
    let second = link(alloc, b"cd", &[0])?;
    let third = link(alloc, b"efg", &[1])?;
    let links = Vec::from_array(alloc, [first, second, third])?;
    let mut door = MemDoor::new(links, [0u64, 3].to_vec(alloc)?);
    assert!(rt; door.taken(0).is_none());
    assert_eq!(rt; serve(&mut door), Turn::DoorFailed);
    assert_eq!(rt; serve(&mut door), Turn::Served);
    assert_eq!(rt; serve(&mut door), Turn::Broke);
    assert_eq!(rt; serve(&mut door), Turn::DoorFailed);
    assert!(rt; door.taken(2).is_none());
    assert_eq!(rt; serve(&mut door), Turn::Served);
    assert_eq!(rt; serve(&mut door), Turn::Ended);
    assert_eq!(rt; serve(&mut door), Turn::Ended);
    assert_eq!(rt; door.taken(0), Some(b"ab".as_slice()));
    assert_eq!(rt; door.taken(1), Some(b"".as_slice()));
    assert_eq!(rt; door.taken(2), Some(b"efg".as_slice()));
    assert!(rt; door.taken(3).is_none());
    Ok(())
}

#[test]
fn an_open_gate_lets_pass() {
    OpenGate.enter(GateMark::Pinned {
        worker: 0,
        request: 0,
    });
    OpenGate.enter(GateMark::Written {
        worker: 0,
        request: 1,
    });
}
