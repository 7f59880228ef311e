//! Requests as bytes.
ghost use Rattle.std.specs.Prelude.{◌≡◌, ◌++◌, OnOk, OnErr};
ghost use Rattle.rdf_term.specs.Writing.{Appends};
ghost use Rattle.http_frame.specs.RequestWire.{request_line, head_bytes, request_wire};

use crate::message::{Head, Request};
use crate::wire::{put_fields, put_number};
use rdf_term::{Bytes, Memory};

fn put_request_line(head: &Head, out: &mut Bytes) -> Result<(), Memory>
    ensures { Appends result out.old.items out.new.items (request_line head.now) }
{
    out.append(head.method.as_str().as_bytes())?;
    out.append(b" ")?;
    out.append(head.target.as_str().as_bytes())?;
    out.append(b" HTTP/1.")?;
    put_number(u64::from(head.minor), out)?;
    out.append(b"\r\n")
}

fn put_head(head: &Head, out: &mut Bytes) -> Result<(), Memory>
    ensures { Appends result out.old.items out.new.items (head_bytes head.now) }
{
    put_request_line(head, out)?;
    put_fields(&head.fields, out)?;
    out.append(b"\r\n")
}

#[tactic(auto, unfolding(crate::specs::RequestWire::request_wire))]
fn put_request(request: &Request, out: &mut Bytes) -> Result<(), Memory>
    ensures { Appends result out.old.items out.new.items (request_wire request.now) }
{
    put_head(&request.head, out)?;
    out.append(request.body.as_slice())
}

/// Appends the bytes of a request: the request line, each field in order, an empty line and the body.
/// Nothing is added that the head doesn't say, so a body wants its length there. Without memory `out`
/// stays as it was.
///
/// What is written is read as that request where some head spells it
/// ([`written_requests_are_frames`](crate::written_requests_are_frames)).
pub fn write_request(request: &Request, out: &mut Bytes) -> Result<(), Memory>
    ensures ok { OnOk result (out.new.items ≡ out.old.items ++ request_wire request.now) }
    ensures memory { OnErr result (out.new.items ≡ out.old.items) }
{
    let start = out.len();
    match put_request(request, out) {
        Ok(()) => Ok(()),
        Err(memory) => {
            out.truncate(start);
            Err(memory)
        }
    }
}
