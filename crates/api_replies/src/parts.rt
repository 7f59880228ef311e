//! The parts of responses.
ghost use Rattle.std.specs.Prelude.{◌≡◌, ◌++◌, IfOk, decimal};
ghost use Rattle.api_replies.specs.Parts.{bare, no_memory, refused, type_field, with_body};

use http_frame::{Fields, Octets, Response};
use media::Form;
use rdf_term::{Bytes, Memory};
use std::alloc::Global;

/// A list of these bytes.
pub fn octets(alloc: Global, bytes: &[u8]) -> Result<Octets, Memory>
    ensures { IfOk result (λ it. it ≡ bytes.now) }
{
    Ok(Octets::from_vec(bytes.to_vec(alloc)?))
}

/// A buffer of these bytes.
pub fn body_of(alloc: Global, bytes: &[u8]) -> Result<Bytes, Memory>
    ensures { IfOk result (λ it. it.items ≡ bytes.now) }
{
    Ok(Bytes::from_vec(bytes.to_vec(alloc)?))
}

/// A text and the decimal digits of a number behind it.
pub fn numbered(alloc: Global, text: &[u8], number: u64) -> Result<Bytes, Memory>
    ensures { IfOk result (λ it. it.items ≡ text.now ++ decimal number) }
{
    let mut body = body_of(alloc, text)?;
    body.append_decimal(number)?;
    Ok(body)
}

/// The field `Content-Type` of a body in this form.
pub fn type_field(alloc: Global, form: Form) -> Result<(Octets, Octets), Memory>
    ensures { IfOk result (λ field. field ≡ type_field form) }
{
    let name = octets(alloc, b"Content-Type")?;
    let value = octets(alloc, form.content_type().as_bytes())?;
    Ok((name, value))
}

/// A response without fields of its own and without a body. It takes no memory.
pub fn bare(alloc: Global, status: u16) -> Response
    ensures { result ≡ bare status }
{
    Response {
        status,
        fields: Fields::new(alloc),
        body: Bytes::new(alloc),
    }
}

/// A response with a body in this form.
pub fn with_body(alloc: Global, status: u16, form: Form, body: Bytes) -> Result<Response, Memory>
    ensures { IfOk result (λ response. response ≡ with_body status form body.items) }
{
    let mut fields = Fields::new(alloc);
    fields.push(type_field(alloc, form)?)?;
    Ok(Response {
        status,
        fields,
        body,
    })
}

/// A refusal, which says its cause in plain text.
pub fn refused(alloc: Global, status: u16, text: &[u8]) -> Result<Response, Memory>
    ensures { IfOk result (λ response. response ≡ refused status text.now) }
{
    with_body(alloc, status, Form::PlainText, body_of(alloc, text)?)
}

/// Want of memory.
pub fn no_memory(alloc: Global) -> Result<Response, Memory>
    ensures { IfOk result (λ response. response ≡ no_memory) }
{
    refused(alloc, 503, b"out of memory")
}
