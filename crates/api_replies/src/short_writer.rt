//! The bytes of responses that are written without memory, into spare room.
ghost use Rattle.std.specs.Prelude.{◌≡◌, ◌≤◌, ◌+◌, ◌++◌, ℕ, List, IsTrue, length};
ghost use Rattle.http_frame.specs.Wire.{closing, field_line, field_lines, framed, length_line, reason, status_line};
ghost use Rattle.api_paths.specs.TransactionNames.{name_of};
ghost use Rattle.api_replies.specs.Ids.{is_id};
ghost use Rattle.api_replies.specs.Parts.{created, type_field};
ghost use Rattle.media.specs.declared.form.Form.TheVariants.{PlainText};
ghost use Rattle.api_replies.specs.Shorts.{short_bytes, short_of, short_response};

use crate::Short;
use crate::spare::{put, put_number};
use journal::{Op, Reply, Txn};
use rdf_term::{Bytes, Text};

/// The status code of a case.
#[tactic(auto, unfolding(crate::specs::Shorts::short_response))]
fn status_of(short: Short) -> u16
    ensures { (repo : List ℕ) → result ≡ (short_response repo short).status }
{
    match short {
        Short::Begun(_) => 201,
        Short::Committed => 200,
        Short::Done => 204,
        Short::NoTransaction => 404,
        Short::TooManyOpen => 429,
        Short::TooLarge | Short::JournalFull => 507,
        Short::OutOfMemory => 503,
    }
}

/// The reason phrase of its status code.
#[tactic(auto, unfolding(crate::specs::Shorts::short_response))]
fn phrase_of(short: Short) -> &'static [u8]
    ensures value { (repo : List ℕ) → result.now ≡ reason ((short_response repo short).status) }
    ensures length { length result.now ≤ 32 }
{
    match short {
        Short::Begun(_) => b"Created",
        Short::Committed => b"OK",
        Short::Done => b"No Content",
        Short::NoTransaction => b"Not Found",
        Short::TooManyOpen => b"Too Many Requests",
        Short::TooLarge | Short::JournalFull => b"Insufficient Storage",
        Short::OutOfMemory => b"Service Unavailable",
    }
}

/// Its body.
#[tactic(auto, unfolding(crate::specs::Shorts::short_response))]
fn text_of(short: Short) -> &'static [u8]
    ensures value { (repo : List ℕ) → result.now ≡ (short_response repo short).body }
    ensures length { length result.now ≤ 32 }
{
    match short {
        Short::Begun(_) | Short::Committed | Short::Done => b"",
        Short::NoTransaction => b"no such transaction",
        Short::TooManyOpen => b"too many transactions",
        Short::TooLarge => b"repository full",
        Short::JournalFull => b"journal full",
        Short::OutOfMemory => b"out of memory",
    }
}

fn put_status_line(short: Short, out: &mut Bytes)
    requires { 128 ≤ out.old.spare }
    ensures items { (repo : List ℕ) → out.new.items ≡ out.old.items ++ status_line ((short_response repo short).status) }
    ensures spare { out.old.spare ≤ out.new.spare + 128 }
    ensures kept { out.old.spare + length out.old.items ≤ out.new.spare + length out.new.items }
{
    put(b"HTTP/1.1 ", out);
    put_number(u64::from(status_of(short)), out);
    put(b" ", out);
    put(phrase_of(short), out);
    put(b"\r\n", out);
}

/// Appends the name of a transaction.
fn put_name(txn: Txn, out: &mut Bytes)
    requires { 64 ≤ out.old.spare }
    ensures items { out.new.items ≡ out.old.items ++ name_of txn }
    ensures spare { out.old.spare ≤ out.new.spare + 64 }
    ensures kept { out.old.spare + length out.old.items ≤ out.new.spare + length out.new.items }
{
    put_number(txn.place, out);
    put(b"-", out);
    put_number(u64::from(txn.level.number()), out);
}

/// Appends the field `Location` of a transaction.
#[tactic(auto, using(crate::proofs::TextLemmas::id_short))]
fn put_location(repo: &Text, txn: Txn, out: &mut Bytes)
    requires id { IsTrue (is_id repo.now) }
    requires room { 256 ≤ out.old.spare }
    ensures items { out.new.items ≡ out.old.items ++ field_lines (created repo.now txn).fields }
    ensures spare { out.old.spare ≤ out.new.spare + 256 }
    ensures kept { out.old.spare + length out.old.items ≤ out.new.spare + length out.new.items }
{
    put(b"Location: ", out);
    put(b"/rdf4j-server/repositories/", out);
    put(repo.as_str().as_bytes(), out);
    put(b"/transactions/", out);
    put_name(txn, out);
    put(b"\r\n", out);
}

/// Appends the field `Content-Type` of plain text.
fn put_type(out: &mut Bytes)
    requires { 64 ≤ out.old.spare }
    ensures items { out.new.items ≡ out.old.items ++ field_line (type_field PlainText) }
    ensures spare { out.old.spare ≤ out.new.spare + 64 }
    ensures kept { out.old.spare + length out.old.items ≤ out.new.spare + length out.new.items }
{
    put(b"Content-Type: text/plain;charset=UTF-8\r\n", out);
}

/// Appends its fields.
#[tactic(auto, unfolding(crate::specs::Shorts::short_response))]
fn put_fields(repo: &Text, short: Short, out: &mut Bytes)
    requires id { IsTrue (is_id repo.now) }
    requires room { 256 ≤ out.old.spare }
    ensures items { out.new.items ≡ out.old.items ++ field_lines (short_response repo.now short).fields }
    ensures spare { out.old.spare ≤ out.new.spare + 256 }
    ensures kept { out.old.spare + length out.old.items ≤ out.new.spare + length out.new.items }
{
    match short {
        Short::Begun(txn) => put_location(repo, txn, out),
        Short::Committed | Short::Done => {}
        Short::NoTransaction => put_type(out),
        Short::TooManyOpen => put_type(out),
        Short::TooLarge => put_type(out),
        Short::JournalFull => put_type(out),
        Short::OutOfMemory => put_type(out),
    }
}

fn put_closing(closes: bool, out: &mut Bytes)
    requires { 32 ≤ out.old.spare }
    ensures items { out.new.items ≡ out.old.items ++ closing closes }
    ensures spare { out.old.spare ≤ out.new.spare + 32 }
    ensures kept { out.old.spare + length out.old.items ≤ out.new.spare + length out.new.items }
{
    if closes {
        put(b"Connection: close\r\n\r\n", out);
    } else {
        put(b"\r\n", out);
    }
}

fn put_length(count: usize, out: &mut Bytes)
    requires { 64 ≤ out.old.spare }
    ensures items { out.new.items ≡ out.old.items ++ length_line count }
    ensures spare { out.old.spare ≤ out.new.spare + 64 }
    ensures kept { out.old.spare + length out.old.items ≤ out.new.spare + length out.new.items }
{
    put(b"Content-Length: ", out);
    put_number(count as u64, out);
    put(b"\r\n", out);
}

/// Appends the length, the end of the head and the body, or the end of the head alone.
fn put_framed(body: &[u8], has_body: bool, closes: bool, out: &mut Bytes)
    requires short { length body.now ≤ 32 }
    requires room { 128 ≤ out.old.spare }
    ensures items { out.new.items ≡ out.old.items ++ framed body.now has_body closes }
    ensures kept { out.old.spare + length out.old.items ≤ out.new.spare + length out.new.items }
{
    if has_body {
        put_length(body.len(), out);
        put_closing(closes, out);
        put(body, out);
    } else {
        put_closing(closes, out);
    }
}

/// Appends the bytes of a case's response, for a request to the repository of this ID. `closes` says
/// that the connection ends after it, `bodiless` that it answers a request whose response has no body,
/// as one to HEAD. The bytes are the same for each minor version of HTTP/1.
///
/// It takes no memory, but at most 1,024 spare bytes of the buffer.
#[tactic(auto, unfolding(http_frame::specs::Wire::wire))]
pub fn write_short(repo: &Text, short: Short, closes: bool, bodiless: bool, out: &mut Bytes)
    requires id { IsTrue (is_id repo.now) }
    requires room { 1024 ≤ out.old.spare }
    ensures items { (minor : ℕ) → out.new.items ≡ out.old.items ++ short_bytes repo.now short minor closes bodiless }
    ensures kept { out.old.spare + length out.old.items ≤ out.new.spare + length out.new.items }
{
    put_status_line(short, out);
    put_fields(repo, short, out);
    let has_body = status_of(short) != 204 && !bodiless;
    put_framed(text_of(short), has_body, closes, out);
}

/// The case of a reply to an op; none where the reply is answered with memory.
pub fn short_of(op: &Op, reply: &Reply) -> Option<Short>
    ensures { result ≡ short_of op.now reply.now }
{
    match reply {
        Reply::Begun(txn) => Some(Short::Begun(*txn)),
        Reply::Done => Some(match op {
            Op::Commit(_) => Short::Committed,
            _ => Short::Done,
        }),
        Reply::NoTransaction => Some(Short::NoTransaction),
        Reply::TooManyOpen => Some(Short::TooManyOpen),
        Reply::TooLarge => Some(Short::TooLarge),
        _ => None,
    }
}
