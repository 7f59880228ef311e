//! What the head of a response says of its body (RFC 9112, section 6.3).
ghost use Rattle.std.specs.Prelude.{◌≡◌, ℕ, codes, IfErr};
ghost use Rattle.http_frame.specs.Faults.{IsShown};
ghost use Rattle.http_frame.specs.Fields.{values_of};
ghost use Rattle.http_frame.specs.Responses.{is_informational, has_no_body, framed_response, response_framing, sized};

use crate::fault::FrameFault;
use crate::fields::{Octets, count_named};
use crate::framing::{Framing, framed_by};
use crate::limits::MOST_RESPONSE;
use crate::message::StatusHead;
use http::StatusCode;

/// How the body of a response is framed.
#[derive(Clone, Copy, Debug, PartialEq, Eq, Drop)]
pub enum ResponseFraming {
    /// Its framing says where it ends.
    Sized(Framing),
    /// It is all that follows up to the end of the stream.
    ToEnd,
}

/// Whether the status is one of the class 1xx, behind which another response follows
/// (RFC 9110, section 15.2).
pub fn is_informational(status: u16) -> bool
    ensures { result ≡ is_informational status }
{
    match StatusCode::from_u16(status) {
        Ok(status) => status.is_informational(),
        Err(_) => false,
    }
}

fn has_no_body(status: u16) -> bool
    ensures { result ≡ has_no_body status }
{
    is_informational(status) || status == 204 || status == 304
}

/// The framing of a body that says where it ends, or its fault.
fn sized(framing: Result<Framing, FrameFault>) -> Result<ResponseFraming, FrameFault>
    requires { IfErr framing IsShown }
    ensures framing { result ≡ sized framing }
    ensures shown { IfErr result IsShown }
{
    match framing {
        Ok(framing) => Ok(ResponseFraming::Sized(framing)),
        Err(fault) => Err(fault),
    }
}

/// What Transfer-Encoding and Content-Length say.
fn framed_response(minor: u8, fields: &[(Octets, Octets)]) -> Result<ResponseFraming, FrameFault>
    ensures framing { result ≡ framed_response minor (values_of (codes "transfer-encoding") fields.now) (values_of (codes "content-length") fields.now) }
    ensures shown { IfErr result IsShown }
{
    if count_named(fields, b"transfer-encoding") == 0
        && count_named(fields, b"content-length") == 0
    {
        return Ok(ResponseFraming::ToEnd);
    }
    sized(framed_by(minor, fields, MOST_RESPONSE))
}

/// How the body behind the head of a response is framed, or the first fault that the head shows.
pub fn response_framing(head: &StatusHead) -> Result<ResponseFraming, FrameFault>
    ensures framing { result ≡ response_framing head.now }
    ensures shown { IfErr result IsShown }
{
    if has_no_body(head.status) {
        return Ok(ResponseFraming::Sized(Framing::Length(0)));
    }
    framed_response(head.minor, head.fields.as_slice())
}
