//! The program over any source and sink.
ghost use Rattle.std.specs.Prelude.{◌≡◌, ◌≢◌, ◌≤◌, ◌<◌, ◌==◌, ◌⊎◌, ℕ, List, [], Some, false, ◌↔◌, IfOk, length};
ghost use Rattle.quad_index.specs.declared.letter.Letter.{Letter};
ghost use Rattle.rdf_io.specs.Causes.{Rose};
ghost use Rattle.session.specs.Causes.{Caused, sink_broke, source_broke};
ghost use Rattle.session.specs.Houses.{AreNames, house_journals};
ghost use Rattle.session.specs.Laws.{AreRequests};
ghost use Rattle.session.specs.declared.report.SessionEnd.{SessionEnd};
ghost use Rattle.rdf_server.specs.Programs.{IsRun, standard_limits, status_of};
ghost use Rattle.rdf_server.specs.Words.{AreOptions, IsStdio};

use crate::words::{orders_of, stdio_words};
use journal::Limits;
use rdf_io::{Sink, Source};
use rdf_term::{Memory, Text};
use session::{LocalHouse, SessionEnd, serve_local, whole_streams_end_done};
use std::alloc::Global;

fn status_of(end: SessionEnd) -> u8
    ensures status { result ≡ status_of end }
    ensures words { result ≢ 5 }
    ensures most { result ≤ 6 }
    ensures source { (result == 2) ≡ source_broke end }
    ensures sink { (result == 3) ≡ sink_broke end }
{
    match end {
        SessionEnd::Done => 0,
        SessionEnd::Refused => 1,
        SessionEnd::ReadFault => 2,
        SessionEnd::WriteFault => 3,
        SessionEnd::Limit => 4,
        SessionEnd::Memory => 6,
    }
}

/// A house of empty repositories of these IDs, with the orders that the options in front of them name.
fn new_house(alloc: Global, options: &[Text], ids: &[Text]) -> Result<LocalHouse, Memory>
    requires ids { AreNames ids.now }
    requires options { (orders : List (List Letter)) × AreOptions options.now orders ids.now × (length orders ≤ 6) }
    ensures names { IfOk result (λ house. house.names ≡ ids.now) }
    ensures limits { IfOk result (λ house. house.limits ≡ standard_limits) }
    ensures journals { IfOk result (λ house. (repo : ℕ) → house_journals house repo ≡ []) }
{
    let orders = orders_of(alloc, options)?;
    LocalHouse::new(alloc, ids, &orders, Limits::standard())
}

/// A session on repositories that had no entry.
fn serve_new<S: Source, K: Sink>(
    alloc: Global,
    house: &mut LocalHouse,
    source: &mut S,
    sink: &mut K,
) -> SessionEnd
    requires limits { house.old.limits ≡ standard_limits }
    requires journals { (repo : ℕ) → house_journals house.old repo ≡ [] }
    ensures run { IsRun house.old.names (S.left source.old) (S.left source.new) (K.taken sink.old) (K.taken sink.new) result }
    ensures source { Caused (source_broke result) (S.faults source.old) (S.faults source.new) }
    ensures sink { Caused (sink_broke result) (K.faults sink.old) (K.faults sink.new) }
    ensures sound { S.sound source.old → (source_broke result ≡ false) × S.sound source.new }
{
    serve_local(alloc, house, source, sink).end
}

/// Lets a house go. The steps of that are many, and here nothing else is shown beside them.
fn let_go(house: LocalHouse) {
    let _house = house;
}

/// A whole session on new repositories of these IDs.
fn run_session<S: Source, K: Sink>(
    alloc: Global,
    options: &[Text],
    ids: &[Text],
    source: &mut S,
    sink: &mut K,
) -> SessionEnd
    requires ids { AreNames ids.now }
    requires options { (orders : List (List Letter)) × AreOptions options.now orders ids.now × (length orders ≤ 6) }
    ensures run { IsRun ids.now (S.left source.old) (S.left source.new) (K.taken sink.old) (K.taken sink.new) result }
    ensures source { Caused (source_broke result) (S.faults source.old) (S.faults source.new) }
    ensures sink { Caused (sink_broke result) (K.faults sink.old) (K.faults sink.new) }
    ensures sound { S.sound source.old → (source_broke result ≡ false) × S.sound source.new }
{
    match new_house(alloc, options, ids) {
        Ok(mut house) => {
            let end = serve_new(alloc, &mut house, source, sink);
            let_go(house);
            end
        }
        Err(_) => SessionEnd::Memory,
    }
}

/// The program `stdio OPTIONS ID..` over any source and sink: it reads HTTP requests, answers them in
/// order on the repositories of these IDs, 1 to 16, which are empty at first, and answers its status.
/// An option `--order O`, up to six times with distinct orders, names an order in which each repository
/// keeps its quads; without one they are `spoc` and `posc`.
///
/// | Status | Cause |
/// |---|---|
/// | 0 | the source ended between two requests, or a request closed the connection |
/// | 1 | a frame was refused; its response is the last |
/// | 2, 3 | the source, the sink failed |
/// | 4 | 100,000 requests were answered, and none of them closes |
/// | 5 | the words are no words of this program; nothing was read or written |
/// | 6 | no memory was found |
pub fn run_stdio<S: Source, K: Sink>(
    alloc: Global,
    words: &[Text],
    source: &mut S,
    sink: &mut K,
) -> u8
    // 5 comes exactly where the words are none of this program, and then nothing is read or written.
    ensures words { result ≡ 5 ↔ ((orders : List (List Letter)) (ids : List (List ℕ)) → IsStdio words.now orders ids → ⊥) }
    ensures unread { result ≡ 5 → S.left source.new ≡ S.left source.old }
    ensures unwritten { result ≡ 5 → K.taken sink.new ≡ K.taken sink.old }
    ensures most { result ≤ 6 }

    // Else it is one session on the repositories of the words' IDs, whose journals had no entry. Where the
    // source tells its bytes, what is written is the text of the session over them, however it cuts them,
    // and the status says how the session ended.
    ensures run { (orders : List (List Letter)) (ids : List (List ℕ)) → IsStdio words.now orders ids
        → (end : SessionEnd) × (result ≡ status_of end)
        × IsRun ids (S.left source.old) (S.left source.new) (K.taken sink.old) (K.taken sink.new) end }

    // Fewer than 100,000 requests, of which none but perhaps the last closes, are all served, unless a
    // fault or want of memory ends the session.
    ensures whole { (b : List ℕ) (n : ℕ) → S.left source.old ≡ Some b → AreRequests n b → n < 100000
        → (Rose (S.faults source.old) (S.faults source.new) → ⊥) → (Rose (K.faults sink.old) (K.faults sink.new) → ⊥)
        → (result ≡ 0) ⊎ ((result ≡ 5) ⊎ (result ≡ 6)) }

    // A fault is answered only where its object failed, no fault is passed over, and a sound source has none.
    ensures source { Caused (result == 2) (S.faults source.old) (S.faults source.new) }
    ensures sink { Caused (result == 3) (K.faults sink.old) (K.faults sink.new) }
    ensures sound { S.sound source.old → (result ≢ 2) × S.sound source.new }
{
    whole_streams_end_done();
    match stdio_words(words) {
        None => 5,
        Some((options, ids)) => status_of(run_session(alloc, options, ids, source, sink)),
    }
}
