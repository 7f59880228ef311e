//! What a request says of its body, and what the body is read as (RFC 9110, sections 8.3 and 8.4).
ghost use Rattle.std.specs.Prelude.{◌≡◌, ◌==◌, position};
ghost use Rattle.std.specs.List.{before_first};
ghost use Rattle.std.specs.Option.{option_copied};
ghost use Rattle.repo_api.specs.Checks.{Gives, Is};
ghost use Rattle.repo_api.specs.Content.{is_coding, has_coding, is_coded, media_type, type_of, is_type, is_form, is_query_text, is_triples, is_quads, kind_of, IsContent, namespace_of};

use crate::ApiFault;
use http_frame::{Fields, count_named, find_named, same_name, trim_ows};
use nquads::{DataFault, Kind, read_document};
use rdf_term::{Quads, Text};
use std::alloc::Global;
use std::str;

/// Whether an element of a list of codings names one.
fn is_coding(element: &[u8]) -> bool
    ensures { result ≡ is_coding element.now }
{
    let name = trim_ows(element);
    !name.is_empty() && !same_name(name, b"identity")
}

fn has_coding(value: &[u8]) -> bool
    ensures { result ≡ has_coding value.now }
{
    value
        .split(|byte| *byte == b',')
        .any(|element| is_coding(element))
}

/// Whether a body is coded, by the fields of its request.
pub fn is_coded(fields: &Fields) -> bool
    ensures { result ≡ is_coded fields.now }
{
    fields.as_slice().iter().any(|field| same_name(field.0.as_slice(), b"content-encoding")
        && has_coding(field.1.as_slice()))
}

/// The place of the first semicolon.
fn semicolon(value: &[u8]) -> Option<usize>
    ensures { result ≡ position (λ b. b == 59) value.now }
{
    value.iter().position(|byte| *byte == b';')
}

/// The bytes before the first semicolon, or all where there is none.
fn before_semicolon(value: &[u8]) -> &[u8]
    ensures { result.now ≡ before_first (λ b. b == 59) value.now }
{
    match semicolon(value) {
        Some(end) => &value[..end],
        None => value,
    }
}

/// The media type of a field's value, without its parameters.
fn media_type(value: &[u8]) -> &[u8]
    ensures { result.now ≡ media_type value.now }
{
    trim_ows(before_semicolon(value))
}

/// The media type of a body by the one field Content-Type. Several fields say none.
pub fn type_of(fields: &Fields) -> Option<&[u8]>
    ensures { option_copied result ≡ type_of fields.now }
{
    let fields = fields.as_slice();
    if count_named(fields, b"content-type") > 1 {
        return None;
    }
    match find_named(fields, b"content-type") {
        None => None,
        Some(field) => Some(media_type(field.1.as_slice())),
    }
}

/// Whether a type is this one, in any case.
fn is_type(wanted: &[u8], name: Option<&[u8]>) -> bool
    ensures { result ≡ is_type wanted.now (option_copied name.entry) }
{
    match name {
        None => false,
        Some(name) => same_name(name, wanted),
    }
}

/// Whether a body is a form.
pub fn is_form(name: Option<&[u8]>) -> bool
    ensures { result ≡ is_form (option_copied name.entry) }
{
    is_type(b"application/x-www-form-urlencoded", name)
}

/// Whether a body is the text of a query.
pub fn is_query_text(name: Option<&[u8]>) -> bool
    ensures { result ≡ is_query_text (option_copied name.entry) }
{
    is_type(b"application/sparql-query", name)
}

/// The kind of document that a body is said to be.
pub fn kind_of(name: Option<&[u8]>) -> Result<Kind, ApiFault>
    ensures { result ≡ kind_of (option_copied name.entry) }
{
    if is_type(b"application/n-triples", name) || is_type(b"text/plain", name) {
        return Ok(Kind::Triples);
    }
    if is_type(b"application/n-quads", name) || is_type(b"text/x-nquads", name) {
        return Ok(Kind::Quads);
    }
    Err(ApiFault::Media)
}

/// The quads of a document, or its first bad line.
pub fn content(alloc: Global, kind: Kind, body: &[u8]) -> Result<Quads, ApiFault>
    ensures { Gives (IsContent kind body.now) result }
{
    match read_document(alloc, kind, body) {
        Ok(quads) => Ok(quads),
        Err(DataFault::BadLine(line)) => Err(ApiFault::Line(line)),
        Err(DataFault::TooLong(line)) => Err(ApiFault::LongLine(line)),
        Err(DataFault::Memory) => Err(ApiFault::Memory),
    }
}

/// The name of a namespace: the text of an IRI that is not too long.
pub fn namespace_of(alloc: Global, body: &[u8]) -> Result<Text, ApiFault>
    ensures { Gives (Is (namespace_of body.now)) result }
{
    let Ok(text) = str::from_utf8(body) else {
        return Err(ApiFault::Namespace);
    };
    if rdf_term::is_iri_text(text) && rdf_term::is_short(text) {
        return Ok(Text::from_chars(alloc, text)?);
    }
    Err(ApiFault::Namespace)
}
