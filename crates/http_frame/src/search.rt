//! The search for a head, and the head of a request.
ghost use Rattle.std.specs.Prelude.{◌≡◌, ℕ, ◌≤◌, ◌<◌, List, length, IfOk, OnErr, IsOk, false};
ghost use Rattle.rdf_io.specs.Causes.{HasCause};
ghost use Rattle.http_frame.specs.Heads.{HasNoHead};
ghost use Rattle.http_frame.specs.Search.{has_mark, IsFront, IsSearch, IsSearchAt, Waits};
ghost use Rattle.http_frame.specs.Streams.{KeepsStream};
ghost use Rattle.http_frame.specs.declared.lines.Line.TheVariants.{Blank};

use crate::buffer::Buffer;
use crate::limits::{MOST_FIELDS, MOST_HEAD};
use crate::lines::{Line, Mark, scan_from};
use httparse::Status;
use httparse::spans::{HeaderSpan, RequestSpans, parse_request};
use rdf_io::{Failed, Source};

/// How many fields the parser has room for. A head with more than [`MOST_FIELDS`] of them is told apart
/// from an unfinished one where it has room for them all.
pub const FIELD_ROOM: usize = 1024;

/// What stands at the front of the bytes that are there.
#[derive(Clone, Copy)]
pub enum Front<H> {
    /// A head within the limits.
    Head(H),
    /// No head so far.
    Open,
    /// No head, whatever follows.
    Bad,
}

/// How the wait for a mark ended.
#[derive(Clone, Copy)]
pub enum Wait {
    /// The mark came.
    Marked,
    /// The buffer is full, and it did not come.
    Full,
    /// The source ended, and it did not come.
    Ended,
}

/// How the search for a head ended.
#[derive(Clone, Copy)]
pub enum Search<H> {
    /// At a head.
    Found(H),
    /// At the end of the stream.
    End,
    /// At bytes that begin no head.
    Bad,
}

/// Looks for a head in the bytes that are there.
fn look(buf: &[u8], spans: &mut [HeaderSpan]) -> Front<RequestSpans>
    requires { length spans.old ≡ 1024 }
    ensures { IsFront buf.now spans.new result }
{
    if buf.len() == 0 {
        return Front::Open;
    }
    match parse_request(buf, spans) {
        Ok(Status::Complete(found)) => {
            if found.headers <= MOST_FIELDS {
                Front::Head(found)
            } else {
                Front::Bad
            }
        }
        Ok(Status::Partial) | Err(httparse::Error::TooManyHeaders) => Front::Open,
        Err(_) => Front::Bad,
    }
}

/// Takes bytes of the source until a mark came, the buffer is full or the source ended. Each byte is
/// followed once.
pub fn await_mark<S: Source>(
    buffer: &mut Buffer,
    source: &mut S,
    mark: Mark,
) -> Result<Wait, Failed>
    ensures stream { KeepsStream buffer.old (S.left source.old) buffer.new (S.left source.new) }
    ensures wait { IfOk result (Waits mark buffer.new (S.left source.new)) }
    ensures none { OnErr result (has_mark mark Blank buffer.new ≡ false) }
    ensures cause { HasCause (S.faults source.old) (S.faults source.new) result }
    ensures sound { S.sound source.old → IsOk result × S.sound source.new }
{
    let mut seen = 0;
    let mut line = Line::Blank;
    'wait: loop {
        match scan_from(buffer.as_slice(), seen, line, mark) {
            None => return Ok(Wait::Marked),
            Some(behind) => line = behind,
        }
        seen = buffer.as_slice().len();
        if seen >= MOST_HEAD {
            return Ok(Wait::Full);
        }
        match buffer.fill(source) {
            Ok(count) => {
                if count == 0 {
                    return Ok(Wait::Ended);
                }
            }
            Err(failed) => return Err(failed),
        }
    }
}

/// Waits for a mark, and looks for a head there.
fn search_at<S: Source>(
    buffer: &mut Buffer,
    spans: &mut [HeaderSpan],
    source: &mut S,
    mark: Mark,
) -> Result<Option<Search<RequestSpans>>, Failed>
    requires { length spans.old ≡ 1024 }
    ensures stream { KeepsStream buffer.old (S.left source.old) buffer.new (S.left source.new) }
    ensures search { IfOk result (IsSearchAt mark buffer.new (S.left source.new) spans.new) }
    ensures none { OnErr result (HasNoHead buffer.new) }
    ensures cause { HasCause (S.faults source.old) (S.faults source.new) result }
    ensures sound { S.sound source.old → IsOk result × S.sound source.new }
{
    match await_mark(buffer, source, mark) {
        Ok(Wait::Marked) => match look(buffer.as_slice(), spans) {
            Front::Head(found) => Ok(Some(Search::Found(found))),
            Front::Open => Ok(None),
            Front::Bad => Ok(Some(Search::Bad)),
        },
        Ok(Wait::Full) => Ok(Some(Search::Bad)),
        Ok(Wait::Ended) => {
            if buffer.as_slice().len() == 0 {
                return Ok(Some(Search::End));
            }
            Ok(Some(Search::Bad))
        }
        Err(failed) => Err(failed),
    }
}

/// Takes bytes of the source until a head is there, or none can come. It looks for one at the end of the
/// first line, where most bytes that begin none are told, and at the end of an empty line behind it, where
/// a head is there or never comes.
pub fn find_head<S: Source>(
    buffer: &mut Buffer,
    spans: &mut [HeaderSpan],
    source: &mut S,
) -> Result<Search<RequestSpans>, Failed>
    requires { length spans.old ≡ 1024 }
    ensures stream { KeepsStream buffer.old (S.left source.old) buffer.new (S.left source.new) }
    ensures search { IfOk result (IsSearch buffer.new (S.left source.new) spans.new) }
    ensures none { OnErr result (HasNoHead buffer.new) }
    ensures cause { HasCause (S.faults source.old) (S.faults source.new) result }
    ensures sound { S.sound source.old → IsOk result × S.sound source.new }
{
    match search_at(buffer, spans, source, Mark::FirstLine) {
        Ok(Some(search)) => return Ok(search),
        Ok(None) => {}
        Err(failed) => return Err(failed),
    }
    match search_at(buffer, spans, source, Mark::Section) {
        Ok(Some(search)) => Ok(search),
        Ok(None) => Ok(Search::Bad),
        Err(failed) => Err(failed),
    }
}
