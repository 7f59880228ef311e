//! The search for the head of a response.
ghost use Rattle.std.specs.Prelude.{◌≡◌, ℕ, ◌≤◌, ◌<◌, List, length, IfOk, OnErr, IsOk};
ghost use Rattle.rdf_io.specs.Causes.{HasCause};
ghost use Rattle.http_frame.specs.StatusHeads.{HasNoStatusHead};
ghost use Rattle.http_frame.specs.StatusSearch.{IsStatusFront, IsStatusSearch, IsStatusSearchAt};
ghost use Rattle.http_frame.specs.Streams.{KeepsStream};

use crate::buffer::Buffer;
use crate::limits::MOST_FIELDS;
use crate::lines::Mark;
use crate::search::{Front, Search, Wait, await_mark};
use httparse::Status;
use httparse::spans::{HeaderSpan, ResponseSpans, parse_response};
use rdf_io::{Failed, Source};

/// Looks for a head in the bytes that are there.
fn look(buf: &[u8], spans: &mut [HeaderSpan]) -> Front<ResponseSpans>
    requires { length spans.old ≡ 1024 }
    ensures { IsStatusFront buf.now spans.new result }
{
    if buf.len() == 0 {
        return Front::Open;
    }
    match parse_response(buf, spans) {
        Ok(Status::Complete(found)) => {
            if found.headers <= MOST_FIELDS {
                Front::Head(found)
            } else {
                Front::Bad
            }
        }
        Ok(Status::Partial) | Err(httparse::Error::TooManyHeaders) => Front::Open,
        Err(_) => Front::Bad,
    }
}

/// Waits for a mark, and looks for a head there.
fn search_at<S: Source>(
    buffer: &mut Buffer,
    spans: &mut [HeaderSpan],
    source: &mut S,
    mark: Mark,
) -> Result<Option<Search<ResponseSpans>>, Failed>
    requires { length spans.old ≡ 1024 }
    ensures stream { KeepsStream buffer.old (S.left source.old) buffer.new (S.left source.new) }
    ensures search { IfOk result (IsStatusSearchAt mark buffer.new (S.left source.new) spans.new) }
    ensures none { OnErr result (HasNoStatusHead buffer.new) }
    ensures cause { HasCause (S.faults source.old) (S.faults source.new) result }
    ensures sound { S.sound source.old → IsOk result × S.sound source.new }
{
    match await_mark(buffer, source, mark) {
        Ok(Wait::Marked) => match look(buffer.as_slice(), spans) {
            Front::Head(found) => Ok(Some(Search::Found(found))),
            Front::Open => Ok(None),
            Front::Bad => Ok(Some(Search::Bad)),
        },
        Ok(Wait::Full) => Ok(Some(Search::Bad)),
        Ok(Wait::Ended) => {
            if buffer.as_slice().len() == 0 {
                return Ok(Some(Search::End));
            }
            Ok(Some(Search::Bad))
        }
        Err(failed) => Err(failed),
    }
}

/// Takes bytes of the source until the head of a response is there, or none can come. It looks where
/// [`find_head`](crate::search::find_head) does.
pub fn find_status_head<S: Source>(
    buffer: &mut Buffer,
    spans: &mut [HeaderSpan],
    source: &mut S,
) -> Result<Search<ResponseSpans>, Failed>
    requires { length spans.old ≡ 1024 }
    ensures stream { KeepsStream buffer.old (S.left source.old) buffer.new (S.left source.new) }
    ensures search { IfOk result (IsStatusSearch buffer.new (S.left source.new) spans.new) }
    ensures none { OnErr result (HasNoStatusHead buffer.new) }
    ensures cause { HasCause (S.faults source.old) (S.faults source.new) result }
    ensures sound { S.sound source.old → IsOk result × S.sound source.new }
{
    match search_at(buffer, spans, source, Mark::FirstLine) {
        Ok(Some(search)) => return Ok(search),
        Ok(None) => {}
        Err(failed) => return Err(failed),
    }
    match search_at(buffer, spans, source, Mark::Section) {
        Ok(Some(search)) => Ok(search),
        Ok(None) => Ok(Search::Bad),
        Err(failed) => Err(failed),
    }
}
