//! Sessions of two workers on one house, over memory.
ghost use Rattle.std.specs.Prelude.{◌≡◌, ◌∷◌, [], IfOk, vec_len};
ghost use Rattle.shared_session.specs.Houses.{AllOf, IsOf};

use journal::Limits;
use quad_index::Order;
use rdf_io::{MemSink, MemSource};
use rdf_term::{Bytes, Memory, Text};
use session::{Gate, SessionEnd};
use shared_session::{House, Passes, serve_shared};
use std::alloc::Global;
use std::sync::Wait;

/// A house and the passes of its workers. Letting them go takes many steps, which are shown once here.
struct Trial {
    house: House,
    passes: Vec<Passes>,
}

impl Drop for Trial {
    fn drop(self) {
        let Trial {
            house: _house,
            passes: _passes,
        } = self;
    }
}

/// How a session ended, and what its sink took.
#[derive(Drop)]
pub(crate) struct Served {
    pub end: SessionEnd,
    pub taken: String,
}

impl Served {
    /// Whether all requests were served, with this text.
    pub(crate) fn is_done(&self, text: &str) -> bool {
        self.end == SessionEnd::Done && self.taken.as_str() == text
    }
}

/// The ID `r`.
fn ids(alloc: Global) -> Result<Vec<Text>, Memory>
    ensures { IfOk result (λ it. it.items ≡ (114 ∷ []) ∷ []) }
{
    let mut ids = Vec::new(alloc);
    ids.push(Text::from_char_slice(alloc, &['r'])?)?;
    Ok(ids)
}

/// A house with a repository `r`, and the passes of two workers.
fn new_trial(alloc: Global) -> Result<Trial, Memory>
    ensures passes { IfOk result (λ it. AllOf it.house it.passes.items) }
    ensures count { IfOk result (λ it. vec_len it.passes ≡ 2) }
{
    let ids = ids(alloc)?;
    let orders = Order::standard(alloc)?;
    let (house, passes) = House::new(alloc, &ids, &orders, Limits::standard(), 2)?;
    Ok(Trial { house, passes })
}

/// A session of a worker that answered so many requests before.
fn serve<R: Wait, G: Gate>(
    rt: &R,
    alloc: Global,
    house: &House,
    passes: &mut Passes,
    first: u64,
    input: &str,
    gate: &G,
) -> Result<Served, Memory>
    requires { IsOf house.now passes.old }
{
    let mut bytes = Bytes::new(alloc);
    bytes.append(input.as_bytes())?;
    let mut source = MemSource::new(bytes, Vec::new(alloc), Vec::new(alloc));
    let mut sink = MemSink::new(alloc, Vec::new(alloc));
    let report = serve_shared(
        rt,
        alloc,
        house,
        passes,
        0,
        first,
        &mut source,
        &mut sink,
        gate,
    );
    Ok(Served {
        end: report.end,
        taken: String::from_utf8_lossy(alloc, sink.taken())?,
    })
}

/// A session of each of two workers on a new house, one after the other. Each answered so many requests
/// before.
pub(crate) fn serve_both<R: Wait, G: Gate>(
    rt: &R,
    alloc: Global,
    before: u64,
    one: &str,
    other: &str,
    gate: &G,
) -> Result<(Served, Served), Memory> {
    let mut trial = new_trial(alloc)?;
    let [first, second] = trial.passes.as_mut_slice() else {
        unreachable!()
    };
    let one = serve(rt, alloc, &trial.house, first, before, one, gate)?;
    let other = serve(rt, alloc, &trial.house, second, before, other, gate)?;
    Ok((one, other))
}
