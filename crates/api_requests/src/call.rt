//! The calls of this crate.
ghost use Rattle.std.specs.Prelude.{◌≡◌, ◌↔◌, ◌<◌, ◌^◌, IsTrue, IfOk, ℕ, List, Ok, length};
ghost use Rattle.http_frame.specs.RequestWire.{IsSpelled};
ghost use Rattle.repo_api.specs.Calls.{IsCallOf};
ghost use Rattle.api_requests.specs.Laws.{IsAmongRepositories, IsGivenByRequest};
ghost use Rattle.api_requests.specs.Requests.{request_of};
ghost use Rattle.api_requests.specs.Spellable.{IsHost, IsSpellable};

use crate::laws::{requests_are_spelled, spellable_where_given, written_is_read_back};
use crate::sending::request_with;
use crate::sent::sent;
use crate::spellable::has_spelling;
use api_calls::Call;
use http_frame::Request;
use rdf_term::{Memory, Text};
use std::alloc::Global;

/// Whether some request gives the call, where its repository is there. It takes no memory.
pub fn is_spellable(call: &Call) -> bool
    ensures parts { IsTrue result ↔ IsSpellable call.now }
    ensures given { IsTrue result ↔ IsGivenByRequest call.now }
{
    spellable_where_given();
    has_spelling(call)
}

/// The length of a body is a number of 64 bits.
fn body_fits(request: &Request)
    ensures { length request.now.body < 2 ^ 64 }
{
    let _ = request.body.len();
}

/// The request of version 1.1 for a call to a host of characters from `!` to `~`. It has one Host
/// field, and neither closes nor expects. [`read_call`](repo_api::read_call) of it is the call, where
/// its repository is there, and some bytes spell it.
pub fn write_call(alloc: Global, call: &Call, host: &Text) -> Result<Request, Memory>
    requires host { IsHost host.now }
    requires spellable { IsSpellable call.now }
    ensures request { IfOk result (λ it. it ≡ request_of call.now host.now) }
    ensures read { IfOk result (λ it. (repos : List (List ℕ)) → IsAmongRepositories repos call.now → IsCallOf it repos (Ok call.now)) }
    ensures spelled { IfOk result (λ it. IsSpelled it) }
{
    written_is_read_back();
    requests_are_spelled();
    let sending = sent(alloc, call)?;
    let request = request_with(alloc, host, sending)?;
    body_fits(&request);
    Ok(request)
}
