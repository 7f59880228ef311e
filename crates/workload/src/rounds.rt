//! The rounds of a session.
ghost use Rattle.std.specs.Prelude.{◌≡◌, ◌++◌, IfOk, OnOk};
ghost use Rattle.workload.specs.Requests.{line_of};
ghost use Rattle.workload.specs.Sessions.{round_bytes, session_bytes};

use crate::numbers::{next_number, value_of};
use crate::requests::{RequestKind, put_line, put_request};
use rdf_term::{Bytes, Memory};
use std::alloc::Global;

/// The most bytes of a round, where its numbers have as many digits as they can.
const ROUND_BYTES: usize = 725;

/// Appends the requests of a round, whose line this is.
#[tactic(auto, unfolding(crate::specs::Sessions::round_bytes))]
fn put_round(session: u32, round: u32, line: &[u8], out: &mut Bytes) -> Result<(), Memory>
    requires { line.now ≡ line_of session round }
    ensures { OnOk result (out.new.items ≡ out.old.items ++ round_bytes session round) }
{
    put_request(session, round, line, RequestKind::Begin, out)?;
    put_request(session, round, line, RequestKind::Add, out)?;
    put_request(session, round, line, RequestKind::Commit, out)?;
    put_request(session, round, line, RequestKind::Copy, out)?;
    if round % 4 == 3 {
        put_request(session, round, line, RequestKind::Delete, out)?;
    }
    Ok(())
}

/// The bytes of the session of this number with so many rounds: requests of HTTP/1.1, one behind the other.
///
/// Memory for all of them is asked for before the first.
pub fn make_session(alloc: Global, number: u32, rounds: u32) -> Result<Bytes, Memory>
    ensures { IfOk result (λ it. it.items ≡ session_bytes number rounds) }
{
    let mut out = Bytes::new(alloc);
    out.room(rounds as usize * ROUND_BYTES)?;
    let mut line = Bytes::new(alloc);
    let mut drawn = u64::from(number) + 1;
    for round in 0..rounds {
        drawn = next_number(drawn);
        line.clear();
        put_line(number, round, value_of(drawn), &mut line)?;
        put_round(number, round, line.as_slice(), &mut out)?;
    }
    Ok(out)
}
