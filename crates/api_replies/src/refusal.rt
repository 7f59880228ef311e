//! Refusals of requests by their form.
ghost use Rattle.std.specs.Prelude.{◌≡◌, ◌++◌, IfOk, codes, decimal, encode_utf8_all};
ghost use Rattle.api_replies.specs.Parts.{refused};
ghost use Rattle.api_replies.specs.Responses.{not_allowed, query_refusal, refusal};

use crate::parts::{body_of, no_memory, numbered, octets, refused, type_field, with_body};
use api_calls::{Allow, ApiFault};
use http_frame::{Fields, Response};
use media::Form;
use query_text::QueryFault;
use rdf_term::{Memory, Text};
use std::alloc::Global;

/// A bad request, with a number behind the text.
fn refused_at(alloc: Global, text: &[u8], number: u64) -> Result<Response, Memory>
    ensures { IfOk result (λ response. response ≡ refused 400 (text.now ++ decimal number)) }
{
    with_body(alloc, 400, Form::PlainText, numbered(alloc, text, number)?)
}

/// The parameter of this name is bad.
fn bad_parameter(alloc: Global, name: &Text) -> Result<Response, Memory>
    ensures { IfOk result (λ response. response ≡ refused 400 (codes "bad parameter " ++ encode_utf8_all name.now)) }
{
    let mut text = body_of(alloc, b"bad parameter ")?;
    text.append(name.as_str().as_bytes())?;
    with_body(alloc, 400, Form::PlainText, text)
}

/// The resource has other methods (RFC 9110, section 15.5.6).
fn not_allowed(alloc: Global, allow: Allow) -> Result<Response, Memory>
    ensures { IfOk result (λ response. response ≡ not_allowed allow) }
{
    let mut fields = Fields::new(alloc);
    fields.push(type_field(alloc, Form::PlainText)?)?;
    fields.push((octets(alloc, b"Allow")?, octets(alloc, allow.methods())?))?;
    Ok(Response {
        status: 405,
        fields,
        body: body_of(alloc, b"method not allowed")?,
    })
}

/// The query is refused at a byte.
fn query_refusal(alloc: Global, fault: QueryFault) -> Result<Response, Memory>
    ensures { IfOk result (λ response. response ≡ query_refusal fault) }
{
    match fault {
        QueryFault::BadAt(place) => refused_at(alloc, b"bad query at ", place as u64),
        QueryFault::Unsupported(place) => refused_at(alloc, b"unsupported at ", place as u64),
        QueryFault::UnknownPrefix(place) => refused_at(alloc, b"unknown prefix at ", place as u64),
        QueryFault::Memory => no_memory(alloc),
    }
}

/// The response to a request that is refused by its form.
#[tactic(auto, unfolding(crate::specs::Responses::refusal))]
pub fn write_refusal(alloc: Global, fault: &ApiFault) -> Result<Response, Memory>
    ensures { IfOk result (λ response. response ≡ refusal fault.now) }
{
    match fault {
        ApiFault::NoResource => refused(alloc, 404, b"no such resource"),
        ApiFault::NoRepository => refused(alloc, 404, b"no such repository"),
        ApiFault::BadName => refused(alloc, 404, b"no such transaction"),
        ApiFault::Method(allow) => not_allowed(alloc, *allow),
        ApiFault::Media => refused(alloc, 415, b"unsupported media type"),
        ApiFault::Parameter(name) => bad_parameter(alloc, name),
        ApiFault::Line(number) => refused_at(alloc, b"bad line ", *number),
        ApiFault::LongLine(number) => refused_at(alloc, b"long line ", *number),
        ApiFault::Query(fault) => query_refusal(alloc, *fault),
        ApiFault::Namespace => refused(alloc, 400, b"bad namespace"),
        ApiFault::NotAcceptable => refused(alloc, 406, b"not acceptable"),
        ApiFault::Memory => no_memory(alloc),
    }
}
