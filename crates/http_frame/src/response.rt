//! Responses, and the informational ones before them (RFC 9110, section 15.2).
ghost use Rattle.std.specs.Prelude.{◌≡◌, ℕ, List, length};
ghost use Rattle.http_frame.specs.Faults.{FaultsFor, SoundFor};
ghost use Rattle.http_frame.specs.ResponseAnswers.{NextFinal, TakesResponseBody, ResponseBehind, NextResponse};
ghost use Rattle.http_frame.specs.Streams.{IsStream};

use crate::body::take_body;
use crate::buffer::Buffer;
use crate::end_body::take_to_end;
use crate::fault::FrameFault;
use crate::fields::Octets;
use crate::limits::{MOST_INFORMATIONAL, MOST_RESPONSE};
use crate::message::{Response, StatusHead};
use crate::response_framing::{ResponseFraming, is_informational, response_framing};
use crate::status_head::cut_status_head;
use httparse::spans::HeaderSpan;
use rdf_io::Source;
use rdf_term::Bytes;
use std::alloc::Global;

/// Cuts the next head off the stream that is none of an informational response. At most 16 of those are
/// passed over before it. They have no body.
fn cut_final_head<S: Source>(
    alloc: Global,
    buffer: &mut Buffer,
    spans: &mut [HeaderSpan],
    source: &mut S,
) -> Result<Option<StatusHead>, FrameFault>
    requires { length spans.old ≡ 1024 }
    ensures head { (b : List ℕ) → IsStream buffer.old (S.left source.old) b
        → NextFinal b buffer.new (S.left source.new) result }
    ensures cause { FaultsFor (S.faults source.old) (S.faults source.new) result }
    ensures sound { SoundFor (S.sound source.old) (S.sound source.new) result }
{
    let mut passed = 0;
    'pass: loop {
        match cut_status_head(alloc, buffer, spans, source) {
            Ok(Some(head)) => {
                if !is_informational(head.status) {
                    return Ok(Some(head));
                }
                if passed >= MOST_INFORMATIONAL {
                    return Err(FrameFault::BadHead);
                }
                passed += 1;
            }
            Ok(None) => return Ok(None),
            Err(fault) => return Err(fault),
        }
    }
}

/// Takes the body of a response off the stream.
fn take_response_body<S: Source>(
    alloc: Global,
    buffer: &mut Buffer,
    source: &mut S,
    framing: ResponseFraming,
) -> Result<Octets, FrameFault>
    ensures body { (b : List ℕ) → IsStream buffer.old (S.left source.old) b
        → TakesResponseBody framing b buffer.new (S.left source.new) result }
    ensures cause { FaultsFor (S.faults source.old) (S.faults source.new) result }
    ensures sound { SoundFor (S.sound source.old) (S.sound source.new) result }
{
    match framing {
        ResponseFraming::Sized(framing) => take_body(alloc, buffer, source, framing, MOST_RESPONSE),
        ResponseFraming::ToEnd => take_to_end(alloc, buffer, source, MOST_RESPONSE),
    }
}

/// Reads the body behind a head.
fn response_behind<S: Source>(
    alloc: Global,
    buffer: &mut Buffer,
    head: StatusHead,
    source: &mut S,
) -> Result<Response, FrameFault>
    ensures body { (b : List ℕ) → IsStream buffer.old (S.left source.old) b
        → ResponseBehind head b buffer.new (S.left source.new) result }
    ensures cause { FaultsFor (S.faults source.old) (S.faults source.new) result }
    ensures sound { SoundFor (S.sound source.old) (S.sound source.new) result }
{
    match response_framing(&head) {
        Err(shown) => Err(shown),
        Ok(framing) => match take_response_body(alloc, buffer, source, framing) {
            Ok(body) => Ok(Response {
                status: head.status,
                fields: head.fields,
                body: Bytes::from_vec(body.into_vec()),
            }),
            Err(fault) => Err(fault),
        },
    }
}

/// Cuts the next response off the stream that is no informational one.
pub fn cut_response<S: Source>(
    alloc: Global,
    buffer: &mut Buffer,
    spans: &mut [HeaderSpan],
    source: &mut S,
) -> Result<Option<Response>, FrameFault>
    requires { length spans.old ≡ 1024 }
    ensures response { (b : List ℕ) → IsStream buffer.old (S.left source.old) b
        → NextResponse b buffer.new (S.left source.new) result }
    ensures cause { FaultsFor (S.faults source.old) (S.faults source.new) result }
    ensures sound { SoundFor (S.sound source.old) (S.sound source.new) result }
{
    match cut_final_head(alloc, buffer, spans, source) {
        Ok(Some(head)) => match response_behind(alloc, buffer, head, source) {
            Ok(response) => Ok(Some(response)),
            Err(fault) => Err(fault),
        },
        Ok(None) => Ok(None),
        Err(fault) => Err(fault),
    }
}
