//! A session over any store.
ghost use Rattle.std.specs.Prelude.{◌≡◌, ℕ, List, [], Some, None, IfOk, OnOk, false};
ghost use Rattle.session.specs.Causes.{Caused, sink_broke, source_broke};
ghost use Rattle.session.specs.Ends.{IsSession};
ghost use Rattle.session.specs.Marks.{Moves};
ghost use Rattle.rdf_io.specs.Sending.{Puts};
ghost use Rattle.session.specs.Steps.{IsRoom};
ghost use Rattle.session.specs.Turns.{ground};

use crate::report::{SessionEnd, SessionReport};
use crate::requests::run;
use crate::store::Store;
use http_frame::Frames;
use rdf_io::{Gate, Sink, Source};
use rdf_term::{Bytes, Memory};
use std::alloc::Global;

/// The spare bytes that a session keeps for responses that take no memory.
const ROOM: usize = 1_024;

/// What a worker had done when a session began.
#[derive(Clone, Copy, Debug, Drop)]
pub struct Visit {
    /// The number of the worker.
    pub worker: u32,
    /// How many requests it had answered.
    pub first: u64,
}

/// Takes the buffers of a session: the room of short answers, and a reader of frames.
fn open(alloc: Global, room: &mut Bytes) -> Result<Frames, Memory>
    requires { room.old.items ≡ [] }
    ensures frames { IfOk result (λ f. f ≡ record { held = []; fault = None }) }
    ensures room { OnOk result (IsRoom room.new) }
{
    room.room(ROOM)?;
    Frames::new(alloc)
}

/// Serves one connection over any store: requests are read from the source, in whatever pieces it gives
/// them, and answered to the sink, in order.
///
/// The gate is entered at `Pinned` by each request with entries, once they are made and before anything
/// of its answer is computed, and at `Written` by each request whose response was written. The requests
/// are numbered from the visit's first one on, and a number that has reached 2^64 - 1 stays there.
pub fn serve<T: Store, S: Source, K: Sink, G: Gate>(
    alloc: Global,
    store: &T,
    pass: &mut T::Pass,
    source: &mut S,
    sink: &mut K,
    gate: &G,
    visit: Visit,
) -> SessionReport
    requires { T.serves store.now pass.old }
    ensures pass { T.serves store.now pass.new × (T.seats pass.new ≡ T.seats pass.old) }

    // Each journal begins with what it was, and past that the entries of the seat stand exactly at the
    // marks, in order.
    ensures moves { Moves (T.seats pass.old) (T.journals pass.old) (T.journals pass.new) result.marks.items }

    // Where the source tells its bytes, the requests cut from them have right turns, by the journals at
    // the end, and what is written is their text.
    ensures session { (b : List ℕ) → S.left source.old ≡ Some b → (text : List ℕ) × Puts (K.taken sink.old) (K.taken sink.new) text
        × IsSession (ground (T.names store.now) (T.limits store.now) (T.journals pass.new) (T.seats pass.old)) b (S.left source.new)
        result.end result.turns.items result.marks.items text }

    // A fault is answered only where its object failed in this call, and none is passed over.
    ensures source { Caused (source_broke result.end) (S.faults source.old) (S.faults source.new) }
    ensures sink { Caused (sink_broke result.end) (K.faults sink.old) (K.faults sink.new) }
    ensures sound { S.sound source.old → (source_broke result.end ≡ false) × S.sound source.new }
{
    let mut turns = Vec::new(alloc);
    let mut marks = Vec::new(alloc);
    let mut room = Bytes::new(alloc);
    match open(alloc, &mut room) {
        Err(_) => SessionReport {
            end: SessionEnd::Memory,
            turns,
            marks,
        },
        Ok(mut frames) => {
            let end = run(
                alloc,
                store,
                pass,
                &mut frames,
                source,
                sink,
                gate,
                visit,
                &mut room,
                &mut turns,
                &mut marks,
            );
            SessionReport { end, turns, marks }
        }
    }
}
