//! Responses as bytes.
ghost use Rattle.std.specs.Prelude.{◌≡◌, ◌++◌, length, OnOk, OnErr, decimal};
ghost use Rattle.rdf_term.specs.Writing.{Appends};
ghost use Rattle.http_frame.specs.Wire.{reason, status_line, field_line, field_lines, length_line, closing, framed, wire, continue_of};

use crate::fields::{Fields, Octets};
use crate::message::{Head, Response};
use rdf_term::{Bytes, Memory};

/// The reason phrase of a status code; a code that is not listed has an empty one.
fn reason(status: u16) -> &'static [u8]
    ensures { result.now ≡ reason status }
{
    match status {
        200 => b"OK",
        201 => b"Created",
        204 => b"No Content",
        400 => b"Bad Request",
        404 => b"Not Found",
        405 => b"Method Not Allowed",
        406 => b"Not Acceptable",
        409 => b"Conflict",
        413 => b"Content Too Large",
        415 => b"Unsupported Media Type",
        429 => b"Too Many Requests",
        501 => b"Not Implemented",
        503 => b"Service Unavailable",
        507 => b"Insufficient Storage",
        _ => b"",
    }
}

pub fn put_number(number: u64, out: &mut Bytes) -> Result<(), Memory>
    ensures { Appends result out.old.items out.new.items (decimal number) }
{
    out.append_decimal(number)
}

fn put_status_line(status: u16, out: &mut Bytes) -> Result<(), Memory>
    ensures { Appends result out.old.items out.new.items (status_line status) }
{
    out.append(b"HTTP/1.1 ")?;
    put_number(u64::from(status), out)?;
    out.append(b" ")?;
    out.append(reason(status))?;
    out.append(b"\r\n")
}

fn put_field(field: &(Octets, Octets), out: &mut Bytes) -> Result<(), Memory>
    ensures { Appends result out.old.items out.new.items (field_line field.now) }
{
    out.append(field.0.as_slice())?;
    out.append(b": ")?;
    out.append(field.1.as_slice())?;
    out.append(b"\r\n")
}

pub fn put_fields(fields: &Fields, out: &mut Bytes) -> Result<(), Memory>
    ensures { Appends result out.old.items out.new.items (field_lines fields.now) }
{
    for field in fields.as_slice() {
        put_field(field, out)?;
    }
    Ok(())
}

fn put_length(length: usize, out: &mut Bytes) -> Result<(), Memory>
    ensures { Appends result out.old.items out.new.items (length_line length) }
{
    out.append(b"Content-Length: ")?;
    put_number(length as u64, out)?;
    out.append(b"\r\n")
}

fn closing(closes: bool) -> &'static [u8]
    ensures { result.now ≡ closing closes }
{
    if closes {
        b"Connection: close\r\n\r\n"
    } else {
        b"\r\n"
    }
}

fn put_with_body(body: &[u8], closes: bool, out: &mut Bytes) -> Result<(), Memory>
    ensures { Appends result out.old.items out.new.items (length_line (length body.now) ++ closing closes ++ body.now) }
{
    put_length(body.len(), out)?;
    out.append(closing(closes))?;
    out.append(body)
}

fn put_framed(body: &[u8], has_body: bool, closes: bool, out: &mut Bytes) -> Result<(), Memory>
    ensures { Appends result out.old.items out.new.items (framed body.now has_body closes) }
{
    if has_body {
        put_with_body(body, closes, out)
    } else {
        out.append(closing(closes))
    }
}

#[tactic(auto, unfolding(crate::specs::Wire::wire))]
fn put_response(
    response: &Response,
    minor: u8,
    closes: bool,
    bodiless: bool,
    out: &mut Bytes,
) -> Result<(), Memory>
    ensures { Appends result out.old.items out.new.items (wire response.now minor closes bodiless) }
{
    put_status_line(response.status, out)?;
    put_fields(&response.fields, out)?;
    let has_body = response.status != 204 && !bodiless;
    put_framed(response.body.as_slice(), has_body, closes, out)
}

/// Appends the bytes of a response to a request of this minor version. `closes` says that the connection
/// ends after it, `bodiless` that it answers a request whose response has no body, as one to HEAD. Each
/// body has its length, so the version changes nothing. Without memory `out` stays as it was.
pub fn write_response(
    response: &Response,
    minor: u8,
    closes: bool,
    bodiless: bool,
    out: &mut Bytes,
) -> Result<(), Memory>
    ensures ok { OnOk result (out.new.items ≡ out.old.items ++ wire response.now minor closes bodiless) }
    ensures memory { OnErr result (out.new.items ≡ out.old.items) }
{
    let start = out.len();
    match put_response(response, minor, closes, bodiless, out) {
        Ok(()) => Ok(()),
        Err(memory) => {
            out.truncate(start);
            Err(memory)
        }
    }
}

/// What is written before the body of a request is read: `100 Continue` for one that asks for it, and
/// nothing for another (RFC 9110, section 15.2.1).
pub fn continue_of(head: &Head) -> &'static [u8]
    ensures { result.now ≡ continue_of head.now }
{
    if head.expects {
        b"HTTP/1.1 100 Continue\r\n\r\n"
    } else {
        b""
    }
}
