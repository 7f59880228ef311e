//! What a request is written of, and the request.
ghost use Rattle.std.specs.Prelude.{◌≡◌, ◌++◌, ◌∷◌, [], IfOk, OnOk, Some, length, codes, decimal, encode_utf8_all};
ghost use Rattle.api_requests.specs.Requests.{verb_text, accept_fields, content_fields, fields_of, body_of, request_with};

use crate::target::target_of;
use api_parts::{Octets, Parameters};
use http_frame::{Fields, Head, Request};
use media::Form;
use rdf_term::{Bytes, Memory, Text};
use std::alloc::Global;
use std::marker::Model;

/// The method of a request (RFC 9110, section 9).
#[derive(Clone, Copy, Debug)]
pub enum Verb {
    Get,
    Post,
    Put,
    Delete,
}

/// A body and its media type. Contracts see both as bytes.
#[derive(Drop)]
pub struct Content {
    pub media_type: Octets,
    pub body: Bytes,
}

impl Model for Content {
    ghost use Rattle.std.specs.Prelude.{List, ℕ};

    ghost Value = { List ℕ × List ℕ };

    ghost view = { λ it. (it.media_type, it.body.items) };
}

/// What a request is written of.
#[derive(Drop)]
pub struct Sending {
    pub verb: Verb,
    /// The path, with each segment escaped.
    pub path: String,
    /// The parameters of the target, in UTF-8.
    pub pairs: Parameters,
    /// The form that is asked for.
    pub accept: Option<Form>,
    pub content: Option<Content>,
}

impl Model for Sending {
    ghost use Rattle.std.specs.Prelude.{string_bytes};
    ghost use Rattle.api_requests.specs.Requests.{SeenSending};

    ghost Value = { SeenSending };

    ghost view = { λ it. record { verb = it.verb; path = string_bytes it.path; pairs = it.pairs; accept = it.accept; content = it.content } };
}

/// A list of bytes equal to these.
pub fn octets(alloc: Global, bytes: &[u8]) -> Result<Octets, Memory>
    ensures { IfOk result (λ it. it ≡ bytes.now) }
{
    Ok(Octets::from_vec(bytes.to_vec(alloc)?))
}

/// The name of a method.
fn verb_text(alloc: Global, verb: Verb) -> Result<Text, Memory>
    ensures { IfOk result (λ it. encode_utf8_all it ≡ verb_text verb) }
{
    match verb {
        Verb::Get => Text::from_chars(alloc, "GET"),
        Verb::Post => Text::from_chars(alloc, "POST"),
        Verb::Put => Text::from_chars(alloc, "PUT"),
        Verb::Delete => Text::from_chars(alloc, "DELETE"),
    }
}

/// The method as the text of a head.
fn method_of(alloc: Global, verb: Verb) -> Result<Text, Memory>
    ensures { IfOk result (λ it. it ≡ verb_text verb) }
{
    verb_text(alloc, verb)
}

/// Adds a field.
fn put_field(alloc: Global, fields: &mut Fields, name: &[u8], value: &[u8]) -> Result<(), Memory>
    ensures { OnOk result (fields.new ≡ fields.old ++ (name.now, value.now) ∷ []) }
{
    let field = (octets(alloc, name)?, octets(alloc, value)?);
    fields.push(field)
}

/// Adds the field Accept, where a form is asked for.
fn put_accept(alloc: Global, fields: &mut Fields, accept: Option<Form>) -> Result<(), Memory>
    ensures { OnOk result (fields.new ≡ fields.old ++ accept_fields accept) }
{
    match accept {
        None => Ok(()),
        Some(form) => put_field(alloc, fields, b"Accept", form.content_type().as_bytes()),
    }
}

/// The digits of a number.
fn digits(alloc: Global, number: usize) -> Result<Octets, Memory>
    ensures { IfOk result (λ it. it ≡ decimal number) }
{
    let mut digits = Bytes::new(alloc);
    digits.append_decimal(number as u64)?;
    octets(alloc, digits.as_slice())
}

/// Adds the length of a body.
fn put_length(alloc: Global, fields: &mut Fields, length: usize) -> Result<(), Memory>
    ensures { OnOk result (fields.new ≡ fields.old ++ (codes "Content-Length", decimal length) ∷ []) }
{
    let field = (octets(alloc, b"Content-Length")?, digits(alloc, length)?);
    fields.push(field)
}

/// Adds the type of a body.
fn put_type(alloc: Global, fields: &mut Fields, content: &Content) -> Result<(), Memory>
    ensures { OnOk result (fields.new ≡ fields.old ++ (codes "Content-Type", content.now.0) ∷ []) }
{
    put_field(
        alloc,
        fields,
        b"Content-Type",
        content.media_type.as_slice(),
    )
}

/// The length of a body.
fn length_of(content: &Content) -> usize
    ensures { result ≡ length content.now.1 }
{
    content.body.len()
}

/// Adds the type and the length of a body.
#[tactic(auto, using(crate::proofs::EveryLemmas::two_more))]
fn put_both(alloc: Global, fields: &mut Fields, content: &Content) -> Result<(), Memory>
    ensures { OnOk result (fields.new ≡ fields.old ++ content_fields (Some content.now)) }
{
    put_type(alloc, fields, content)?;
    put_length(alloc, fields, length_of(content))
}

/// Adds the type and the length of a body, where there is one.
fn put_content(alloc: Global, fields: &mut Fields, content: &Option<Content>) -> Result<(), Memory>
    ensures { OnOk result (fields.new ≡ fields.old ++ content_fields content.now) }
{
    match content {
        None => Ok(()),
        Some(content) => put_both(alloc, fields, content),
    }
}

/// The fields of a request, in order.
fn fields_of(alloc: Global, host: &Text, sending: &Sending) -> Result<Fields, Memory>
    ensures { IfOk result (λ it. it ≡ fields_of host.now sending.now) }
{
    let mut fields = Fields::new(alloc);
    put_field(alloc, &mut fields, b"Host", host.as_str().as_bytes())?;
    put_accept(alloc, &mut fields, sending.accept)?;
    put_content(alloc, &mut fields, &sending.content)?;
    Ok(fields)
}

/// The body, which is empty where there is none.
fn body_of(alloc: Global, content: Option<Content>) -> Bytes
    ensures { result.items ≡ body_of content }
{
    match content {
        None => Bytes::new(alloc),
        Some(content) => {
            let Content { media_type, body } = content;
            drop(media_type);
            body
        }
    }
}

/// The request of version 1.1 to a host.
pub fn request_with(alloc: Global, host: &Text, sending: Sending) -> Result<Request, Memory>
    ensures { IfOk result (λ it. it ≡ request_with host.now sending) }
{
    let fields = fields_of(alloc, host, &sending)?;
    let Sending {
        verb,
        path,
        pairs,
        accept: _,
        content,
    } = sending;
    let head = Head {
        method: method_of(alloc, verb)?,
        target: target_of(alloc, path, &pairs)?,
        minor: 1,
        fields,
        expects: false,
        closes: false,
    };
    Ok(Request {
        head,
        body: body_of(alloc, content),
    })
}
