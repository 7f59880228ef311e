//! The responses to frames that are refused.
ghost use Rattle.std.specs.Prelude.{◌≡◌, IfOk};
ghost use Rattle.http_frame.specs.Messages.{SeenResponse};
ghost use Rattle.session.specs.Refusals.{frame_cause, frame_refusal, frame_status, refusal_text};

use http_frame::{Fields, FrameFault, Octets, Response, write_response};
use media::Form;
use rdf_term::{Bytes, Memory};
use std::alloc::Global;

/// The status of the response to a refused frame.
fn status_of(fault: FrameFault) -> u16
    ensures { result ≡ frame_status fault }
{
    match fault {
        FrameFault::BadHead
        | FrameFault::BadHost
        | FrameFault::BadBody
        | FrameFault::Truncated
        | FrameFault::ReadFault => 400,
        FrameFault::BodyTooLong => 413,
        FrameFault::Coding => 501,
        FrameFault::Memory => 503,
    }
}

/// Why the frame is refused.
fn cause_of(fault: FrameFault) -> &'static [u8]
    ensures { result.now ≡ frame_cause fault }
{
    match fault {
        FrameFault::BadHead => b"bad head",
        FrameFault::BadHost => b"bad host",
        FrameFault::BadBody => b"bad body",
        FrameFault::BodyTooLong => b"body too long",
        FrameFault::Coding => b"unsupported transfer coding",
        FrameFault::Truncated => b"truncated body",
        FrameFault::ReadFault => b"",
        FrameFault::Memory => b"out of memory",
    }
}

fn octets(alloc: Global, bytes: &[u8]) -> Result<Octets, Memory>
    ensures { IfOk result (λ it. it ≡ bytes.now) }
{
    Ok(Octets::from_vec(bytes.to_vec(alloc)?))
}

fn response_to(alloc: Global, fault: FrameFault) -> Result<Response, Memory>
    ensures { IfOk result (λ response. response ≡ frame_refusal fault) }
{
    let mut fields = Fields::new(alloc);
    let name = octets(alloc, b"Content-Type")?;
    let value = octets(alloc, Form::PlainText.content_type().as_bytes())?;
    fields.push((name, value))?;
    let mut body = Bytes::new(alloc);
    body.append(cause_of(fault))?;
    Ok(Response {
        status: status_of(fault),
        fields,
        body,
    })
}

/// The bytes of the response to a refused frame, after which the connection ends.
#[tactic(auto, unfolding(crate::specs::Refusals::refusal_text))]
pub fn refusal_text(alloc: Global, fault: FrameFault) -> Result<Bytes, Memory>
    ensures { IfOk result (λ text. text.items ≡ refusal_text fault) }
{
    let response = response_to(alloc, fault)?;
    let mut out = Bytes::new(alloc);
    write_response(&response, 1, true, false, &mut out)?;
    Ok(out)
}
