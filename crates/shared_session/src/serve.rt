//! A session of one worker.
ghost use Rattle.std.specs.Prelude.{◌≡◌, ℕ, List, Some, false};
ghost use Rattle.session.specs.Causes.{Caused, sink_broke, source_broke};
ghost use Rattle.session.specs.Ends.{IsSession};
ghost use Rattle.session.specs.Marks.{Moves};
ghost use Rattle.rdf_io.specs.Sending.{Puts};
ghost use Rattle.session.specs.Turns.{ground};
ghost use Rattle.shared_session.specs.Houses.{AreLegal, IsOf, ReadAsIfAlone, journals, numbers};

use crate::house::House;
use crate::passes::Passes;
use crate::store::Shared;
use journal::{committed_reads_as_if_alone, legal_in_turn};
use rdf_io::{Sink, Source};
use session::{Gate, SessionReport, Visit, serve};
use std::alloc::Global;
use std::sync::Wait;

/// Serves one connection on a house that several workers share: requests are read from the source, in
/// whatever pieces it gives them, and answered to the sink, in order.
///
/// The requests are numbered from `first` on, the number of those that the worker answered before. The
/// gate is entered at `Pinned` by each request with entries, once they are made and the turn was given
/// back, before anything of its answer is computed, and at `Written` by each request whose response was
/// written.
pub fn serve_shared<R: Wait, S: Source, K: Sink, G: Gate>(
    rt: &R,
    alloc: Global,
    house: &House,
    passes: &mut Passes,
    worker: u32,
    first: u64,
    source: &mut S,
    sink: &mut K,
    gate: &G,
) -> SessionReport
    // The passes are of this house, at the end too, and keep their seat numbers.
    requires { IsOf house.now passes.old }
    ensures passes { IsOf house.now passes.new × (numbers passes.new ≡ numbers passes.old) }

    // Each repository has one journal. It begins with all that the worker had seen of it, and past that
    // the entries with the worker's seat number stand exactly at the marks, in order.
    ensures moves { Moves (numbers passes.old) (journals passes.old) (journals passes.new) result.marks.items }

    // Each journal is legal, and where a SERIALIZABLE transaction was committed in it, whoever did, the
    // transaction read as if it ran alone.
    ensures legal { AreLegal (journals passes.new) }
    ensures alone { ReadAsIfAlone house.now.limits (journals passes.new) }

    // Where the source tells its bytes, the requests cut from them have right turns, by these journals,
    // and what is written is their text.
    ensures session { (b : List ℕ) → S.left source.old ≡ Some b → (text : List ℕ) × Puts (K.taken sink.old) (K.taken sink.new) text
        × IsSession (ground house.now.names house.now.limits (journals passes.new) (numbers passes.old)) b (S.left source.new)
        result.end result.turns.items result.marks.items text }

    // A fault is answered only where its object failed in this call, and none is passed over.
    ensures source { Caused (source_broke result.end) (S.faults source.old) (S.faults source.new) }
    ensures sink { Caused (sink_broke result.end) (K.faults sink.old) (K.faults sink.new) }
    ensures sound { S.sound source.old → (source_broke result.end ≡ false) × S.sound source.new }
{
    legal_in_turn();
    committed_reads_as_if_alone();
    let store = Shared { rt, house };
    let visit = Visit { worker, first };
    serve(alloc, &store, passes, source, sink, gate, visit)
}
