//! A house of two repositories, and sessions on it in memory.
ghost use Rattle.std.specs.Prelude.{◌≡◌, ◌≤◌, ◌^◌, ◌∷◌, [], IfOk};

use journal::{Limits, Mark};
use quad_index::Order;
use rdf_io::{MemSink, MemSource};
use rdf_term::{Bytes, Memory, Text};
use session::{LocalHouse, Outcome, SessionEnd, SessionReport, Turn, serve_local};
use std::alloc::Global;

/// A house of a test. Letting it go takes many steps, which are shown once here.
pub struct Trial {
    house: LocalHouse,
}

impl Drop for Trial {
    fn drop(self) {
        let Trial { house: _house } = self;
    }
}

/// What a session reported, and the bytes that its sink took.
#[derive(Drop)]
pub struct Served {
    pub report: SessionReport,
    pub taken: String,
}

/// A turn that was answered, which made so many entries.
pub const fn answered(marks: u32) -> Turn {
    Turn {
        marks,
        outcome: Outcome::Answered,
    }
}

/// A turn that met a full journal behind so many entries.
pub const fn full(marks: u32) -> Turn {
    Turn {
        marks,
        outcome: Outcome::JournalFull,
    }
}

impl Served {
    /// Whether the session ended so, with these turns and marks, and the last bytes written are these.
    pub fn is(&self, end: SessionEnd, turns: &[Turn], marks: &[Mark], last: &str) -> bool {
        let report = &self.report;
        let same = report.turns.as_slice() == turns && report.marks.as_slice() == marks;
        same && report.end == end && self.taken.as_str().ends_with(last)
    }
}

/// The IDs `r` and `s`.
fn ids(alloc: Global) -> Result<Vec<Text>, Memory>
    ensures { IfOk result (λ it. it.items ≡ (114 ∷ []) ∷ ((115 ∷ []) ∷ [])) }
{
    let mut ids = Vec::new(alloc);
    ids.push(Text::from_char_slice(alloc, &['r'])?)?;
    ids.push(Text::from_char_slice(alloc, &['s'])?)?;
    Ok(ids)
}

/// A house of two empty repositories, `r` and `s`, whose journals have so many entries at most.
pub fn empty_house(alloc: Global, places: u64) -> Result<Trial, Memory>
    requires some { 1 ≤ places }
    requires most { places ≤ 2 ^ 62 }
{
    let limits = Limits {
        places,
        ..Limits::standard()
    };
    let ids = ids(alloc)?;
    let orders = Order::standard(alloc)?;
    Ok(Trial {
        house: LocalHouse::new(alloc, &ids, &orders, limits)?,
    })
}

impl Trial {
    /// Serves these requests to a sink whose calls of these numbers fail.
    pub fn serve(
        &mut self,
        alloc: Global,
        requests: &[&str],
        fails: Vec<u64>,
    ) -> Result<Served, Memory> {
        let mut bytes = Bytes::new(alloc);
        for request in requests {
            bytes.append(request.as_bytes())?;
        }
        let mut source = MemSource::new(bytes, Vec::new(alloc), Vec::new(alloc));
        let mut sink = MemSink::new(alloc, fails);
        let report = serve_local(alloc, &mut self.house, &mut source, &mut sink);
        Ok(Served {
            report,
            taken: String::from_utf8_lossy(alloc, sink.taken())?,
        })
    }

    /// The same with a sink that never fails.
    pub fn calm(&mut self, alloc: Global, requests: &[&str]) -> Result<Served, Memory> {
        self.serve(alloc, requests, Vec::new(alloc))
    }
}
