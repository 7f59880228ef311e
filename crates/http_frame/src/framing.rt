//! What a head says of its body, and the faults that it shows by itself (RFC 9112, sections 3.2 and 6).
ghost use Rattle.std.specs.Prelude.{◌≡◌, ℕ, ◌+◌, ◌-◌, ◌*◌, ◌≤◌, ◌<◌, List, IfErr, codes};
ghost use Rattle.std.specs.List.{list_all};
ghost use Rattle.std.specs.Char.{is_ascii_digit};
ghost use Rattle.http_frame.specs.Faults.{IsShown};
ghost use Rattle.http_frame.specs.Fields.{same_name, values_of};
ghost use Rattle.http_frame.specs.Framing.{lacks_host, decimal_value, is_numeral, length_value, length_of, coded, framed_by, framing_of, has_body, expects};
ghost use Rattle.http_frame.specs.Limits.{most_response};

use crate::fault::FrameFault;
use crate::fields::{Fields, Octets, Values, count_named, has_option, same_name, values_named};
use crate::limits::{MOST_BODY, MOST_RESPONSE};

/// How a body is framed.
#[derive(Clone, Copy, Debug, PartialEq, Eq, Drop)]
pub enum Framing {
    /// It has so many bytes.
    Length(usize),
    /// It comes in chunks (RFC 9112, section 7.1).
    Chunked,
}

/// The number with one more digit, until it is over the most that a body may have.
fn with_digit(number: usize, digit: u8) -> usize
    requires { number ≤ most_response * 10 + 255 }
    ensures within { number ≤ most_response → result ≡ number * 10 + (digit - 48) }
    ensures over { most_response < number → result ≡ number }
    ensures room { result ≤ most_response * 10 + 255 }
{
    if number <= MOST_RESPONSE {
        number * 10 + (digit as usize).saturating_sub(48)
    } else {
        number
    }
}

fn number_of(value: &[u8]) -> usize
    ensures within { result ≤ most_response → result ≡ decimal_value value.now }
    ensures over { most_response < result → most_response < decimal_value value.now }
{
    let mut number = 0;
    for digit in value {
        number = with_digit(number, *digit);
    }
    number
}

fn all_digits(value: &[u8]) -> bool
    ensures { result ≡ list_all is_ascii_digit value.now }
{
    value.iter().all(|digit| digit.is_ascii_digit())
}

fn is_numeral(value: &[u8]) -> bool
    ensures { result ≡ is_numeral value.now }
{
    value.len() > 0 && all_digits(value)
}

fn length_value(value: &[u8], most: usize) -> Result<Framing, FrameFault>
    requires { most ≤ most_response }
    ensures framing { result ≡ length_value most value.now }
    ensures shown { IfErr result IsShown }
{
    if !is_numeral(value) {
        return Err(FrameFault::BadBody);
    }
    let number = number_of(value);
    if number <= most {
        Ok(Framing::Length(number))
    } else {
        Err(FrameFault::BodyTooLong)
    }
}

/// What Content-Length says.
fn length_of(fields: &[(Octets, Octets)], most: usize) -> Result<Framing, FrameFault>
    requires { most ≤ most_response }
    ensures framing { result ≡ length_of most (values_of (codes "content-length") fields.now) }
    ensures shown { IfErr result IsShown }
{
    match values_named(fields, b"content-length") {
        Values::None => Ok(Framing::Length(0)),
        Values::One(value) => length_value(value, most),
        Values::More => Err(FrameFault::BadBody),
    }
}

fn is_chunked(value: &[u8]) -> bool
    ensures { result ≡ same_name value.now (codes "chunked") }
{
    same_name(value, b"chunked")
}

/// What a transfer coding says.
fn coded(minor: u8, fields: &[(Octets, Octets)], chunked: bool) -> Result<Framing, FrameFault>
    ensures framing { result ≡ coded minor (values_of (codes "content-length") fields.now) chunked }
    ensures shown { IfErr result IsShown }
{
    if minor == 0 || count_named(fields, b"content-length") > 0 {
        return Err(FrameFault::BadBody);
    }
    if chunked {
        Ok(Framing::Chunked)
    } else {
        Err(FrameFault::Coding)
    }
}

/// What Transfer-Encoding and Content-Length say of a body that may have `most` bytes.
pub fn framed_by(minor: u8, fields: &[(Octets, Octets)], most: usize) -> Result<Framing, FrameFault>
    requires { most ≤ most_response }
    ensures framing { result ≡ framed_by most minor (values_of (codes "transfer-encoding") fields.now) (values_of (codes "content-length") fields.now) }
    ensures shown { IfErr result IsShown }
{
    match values_named(fields, b"transfer-encoding") {
        Values::None => length_of(fields, most),
        Values::One(coding) => coded(minor, fields, is_chunked(coding)),
        Values::More => coded(minor, fields, false),
    }
}

fn lacks_host(minor: u8, fields: &[(Octets, Octets)]) -> bool
    ensures { result ≡ lacks_host minor fields.now }
{
    minor != 0 && count_named(fields, b"host") != 1
}

/// How the body behind a head of this minor version with these fields is framed, or the first fault that
/// the head shows.
pub fn framing_of(minor: u8, fields: &Fields) -> Result<Framing, FrameFault>
    ensures framing { result ≡ framing_of minor fields.now }
    ensures shown { IfErr result IsShown }
{
    let fields = fields.as_slice();
    if lacks_host(minor, fields) {
        return Err(FrameFault::BadHost);
    }
    framed_by(minor, fields, MOST_BODY)
}

fn has_body(framing: Result<Framing, FrameFault>) -> bool
    ensures { result ≡ has_body framing }
{
    match framing {
        Ok(Framing::Length(count)) => count > 0,
        Ok(Framing::Chunked) => true,
        Err(_) => false,
    }
}

/// Whether a head asks for `100 Continue` before its body is read (RFC 9110, section 10.1.1).
pub fn expects(minor: u8, fields: &Fields) -> bool
    ensures { result ≡ expects minor fields.now }
{
    minor != 0
        && has_option(fields.as_slice(), b"expect", b"100-continue")
        && has_body(framing_of(minor, fields))
}
