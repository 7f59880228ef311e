//! Heads of responses.
ghost use Rattle.std.specs.Prelude.{◌≡◌, ℕ, ◌≤◌, List, length, drop, IfOk, OnOk};
ghost use Rattle.httparse.specs.Grammar.{ResponseHead};
ghost use Rattle.httparse.specs.Spans.{IsResponseOf, IsResponseAt, IsResponseWithin};
ghost use Rattle.http_frame.specs.Faults.{FaultsFor, SoundFor};
ghost use Rattle.http_frame.specs.ResponseAnswers.{NextStatus};
ghost use Rattle.http_frame.specs.StatusHeads.{ShowsStatus};
ghost use Rattle.http_frame.specs.Streams.{IsStream};

use crate::buffer::Buffer;
use crate::fault::FrameFault;
use crate::head::fields_of;
use crate::message::StatusHead;
use crate::search::Search;
use crate::status_search::find_status_head;
use httparse::spans::{HeaderSpan, ResponseSpans};
use rdf_io::Source;
use rdf_term::Memory;
use std::alloc::Global;

/// The head that the spans cover.
fn status_head_of(
    alloc: Global,
    buf: &[u8],
    spans: &[HeaderSpan],
    found: ResponseSpans,
) -> Result<StatusHead, Memory>
    requires reads { IsResponseOf buf.now spans.now found }
    requires within { IsResponseWithin buf.now spans.now found }
    ensures { IfOk result (λ head. (h : ResponseHead) → IsResponseAt buf.now spans.now found h → ShowsStatus h head) }
{
    let fields = fields_of(alloc, buf, spans, found.headers, found.len)?;
    Ok(StatusHead {
        status: found.code,
        minor: found.version,
        fields,
    })
}

/// Cuts the head off that was found.
fn take_found(
    alloc: Global,
    buffer: &mut Buffer,
    spans: &[HeaderSpan],
    found: ResponseSpans,
) -> Result<StatusHead, Memory>
    requires reads { IsResponseOf buffer.old spans.now found }
    requires within { IsResponseWithin buffer.old spans.now found }
    ensures head { IfOk result (λ head. (h : ResponseHead) → IsResponseAt buffer.old spans.now found h → ShowsStatus h head) }
    ensures rest { OnOk result (buffer.new ≡ drop found.len buffer.old) }
    ensures room { OnOk result (length buffer.old ≤ 65536) }
{
    match status_head_of(alloc, buffer.as_slice(), spans, found) {
        Ok(head) => {
            buffer.consume(found.len);
            Ok(head)
        }
        Err(memory) => Err(memory),
    }
}

/// Cuts the next head off the stream.
pub fn cut_status_head<S: Source>(
    alloc: Global,
    buffer: &mut Buffer,
    spans: &mut [HeaderSpan],
    source: &mut S,
) -> Result<Option<StatusHead>, FrameFault>
    requires { length spans.old ≡ 1024 }
    ensures head { (b : List ℕ) → IsStream buffer.old (S.left source.old) b
        → NextStatus b buffer.new (S.left source.new) result }
    ensures cause { FaultsFor (S.faults source.old) (S.faults source.new) result }
    ensures sound { SoundFor (S.sound source.old) (S.sound source.new) result }
{
    match find_status_head(buffer, spans, source) {
        Err(_) => Err(FrameFault::ReadFault),
        Ok(Search::End) => Ok(None),
        Ok(Search::Bad) => Err(FrameFault::BadHead),
        Ok(Search::Found(found)) => match take_found(alloc, buffer, spans, found) {
            Ok(head) => Ok(Some(head)),
            Err(_) => Err(FrameFault::Memory),
        },
    }
}
