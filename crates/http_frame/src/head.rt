//! Heads of requests.
ghost use Rattle.std.specs.Prelude.{◌≡◌, ℕ, ◌≤◌, List, length, take, drop, map, IfOk, IfErr, OnOk, Ok, Err, All, IsUtf8, encode_utf8_all};
ghost use Rattle.httparse.specs.Grammar.{RequestHead};
ghost use Rattle.httparse.specs.Spans.{IsRequestOf, IsRequestAt, IsRequestWithin, IsHeaderWithin, header_bytes};
ghost use Rattle.http_frame.specs.Answers.{NextHead};
ghost use Rattle.http_frame.specs.Faults.{FaultsFor, SoundFor, IsShown};
ghost use Rattle.http_frame.specs.Fields.{closes};
ghost use Rattle.http_frame.specs.Framing.{framing};
ghost use Rattle.http_frame.specs.Heads.{Shows};
ghost use Rattle.http_frame.specs.Streams.{IsStream};
ghost use Rattle.http_frame.specs.declared.framing.Framing.{Framing};

use crate::buffer::Buffer;
use crate::fault::FrameFault;
use crate::fields::{Fields, Octets, has_option};
use crate::framing::{expects, framing_of};
use crate::message::Head;
use crate::search::{Search, find_head};
use httparse::spans::{HeaderSpan, RequestSpans};
use rdf_io::Source;
use rdf_term::{Memory, Text};
use std::alloc::Global;
use std::str;

fn octets(alloc: Global, bytes: &[u8]) -> Result<Octets, Memory>
    ensures { IfOk result (λ it. it ≡ bytes.now) }
{
    Ok(Octets::from_vec(bytes.to_vec(alloc)?))
}

/// The text that these bytes spell.
fn text(alloc: Global, bytes: &[u8]) -> Result<Text, Memory>
    requires { IsUtf8 bytes.now }
    ensures { IfOk result (λ it. encode_utf8_all it ≡ bytes.now) }
{
    match str::from_utf8(bytes) {
        Ok(text) => Text::from_chars(alloc, text),
        Err(_) => unreachable!(),
    }
}

/// The fields that the first spans cover.
pub fn fields_of(
    alloc: Global,
    buf: &[u8],
    spans: &[HeaderSpan],
    count: usize,
    len: usize,
) -> Result<Fields, Memory>
    requires len { len ≤ length buf.now }
    requires count { count ≤ length spans.now }
    requires within { All (IsHeaderWithin len) (take count spans.now) }
    ensures { IfOk result (λ fields. fields ≡ map (header_bytes buf.now) (take count spans.now)) }
{
    let mut fields = Fields::new(alloc);
    for span in &spans[..count] {
        let name = octets(alloc, span.name.of(buf))?;
        let value = octets(alloc, span.value.of(buf))?;
        fields.push((name, value))?;
    }
    Ok(fields)
}

fn closes(minor: u8, fields: &Fields) -> bool
    ensures { result ≡ closes minor fields.now }
{
    minor == 0 || has_option(fields.as_slice(), b"connection", b"close")
}

/// The head that the spans cover.
fn head_of(
    alloc: Global,
    buf: &[u8],
    spans: &[HeaderSpan],
    found: RequestSpans,
) -> Result<Head, Memory>
    requires reads { IsRequestOf buf.now spans.now found }
    requires within { IsRequestWithin buf.now spans.now found }
    ensures { IfOk result (λ head. (h : RequestHead) → IsRequestAt buf.now spans.now found h → Shows h head) }
{
    let method = text(alloc, found.method.of(buf))?;
    let target = text(alloc, found.path.of(buf))?;
    let fields = fields_of(alloc, buf, spans, found.headers, found.len)?;
    let expects = expects(found.version, &fields);
    let closes = closes(found.version, &fields);
    Ok(Head {
        method,
        target,
        minor: found.version,
        fields,
        expects,
        closes,
    })
}

/// The head, where it shows no fault by itself.
fn admitted(head: Head) -> Result<Head, FrameFault>
    ensures head { IfOk result (λ it. it ≡ head) }
    ensures framed { OnOk result ((framed_as : Framing) × (framing head ≡ Ok framed_as)) }
    ensures fault { IfErr result (λ fault. framing head ≡ Err fault) }
    ensures shown { IfErr result IsShown }
{
    match framing_of(head.minor, &head.fields) {
        Ok(_) => Ok(head),
        Err(fault) => Err(fault),
    }
}

/// Cuts the head off that was found.
fn take_found(
    alloc: Global,
    buffer: &mut Buffer,
    spans: &[HeaderSpan],
    found: RequestSpans,
) -> Result<Head, Memory>
    requires reads { IsRequestOf buffer.old spans.now found }
    requires within { IsRequestWithin buffer.old spans.now found }
    ensures head { IfOk result (λ head. (h : RequestHead) → IsRequestAt buffer.old spans.now found h → Shows h head) }
    ensures rest { OnOk result (buffer.new ≡ drop found.len buffer.old) }
    ensures room { OnOk result (length buffer.old ≤ 65536) }
{
    match head_of(alloc, buffer.as_slice(), spans, found) {
        Ok(head) => {
            buffer.consume(found.len);
            Ok(head)
        }
        Err(memory) => Err(memory),
    }
}

/// Cuts the next head off the stream, unless it shows a fault.
pub fn cut_head<S: Source>(
    alloc: Global,
    buffer: &mut Buffer,
    spans: &mut [HeaderSpan],
    source: &mut S,
) -> Result<Option<Head>, FrameFault>
    requires { length spans.old ≡ 1024 }
    ensures head { (b : List ℕ) → IsStream buffer.old (S.left source.old) b
        → NextHead b buffer.new (S.left source.new) result }
    ensures cause { FaultsFor (S.faults source.old) (S.faults source.new) result }
    ensures sound { SoundFor (S.sound source.old) (S.sound source.new) result }
{
    match find_head(buffer, spans, source) {
        Err(_) => Err(FrameFault::ReadFault),
        Ok(Search::End) => Ok(None),
        Ok(Search::Bad) => Err(FrameFault::BadHead),
        Ok(Search::Found(found)) => match take_found(alloc, buffer, spans, found) {
            Ok(head) => match admitted(head) {
                Ok(head) => Ok(Some(head)),
                Err(fault) => Err(fault),
            },
            Err(_) => Err(FrameFault::Memory),
        },
    }
}
