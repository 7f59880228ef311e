ghost use Rattle.std.specs.Prelude.{◌≡◌, ◌≢◌, ℕ, List, [], length, None, Err, IfOk, IfErr, OnOk, IfSome};
ghost use Rattle.http_frame.specs.State.{FramesState};
ghost use Rattle.http_frame.specs.Faults.{FaultsFor, SoundFor};
ghost use Rattle.http_frame.specs.Streams.{IsStream};
ghost use Rattle.http_frame.specs.Answers.{NextHead, NextBody};
ghost use Rattle.http_frame.specs.ResponseAnswers.{NextResponse};
ghost use Rattle.http_frame.specs.declared.fault.FrameFault.TheVariants.{ReadFault};

use crate::body::take_body;
use crate::buffer::Buffer;
use crate::fault::FrameFault;
use crate::framing::framing_of;
use crate::head::cut_head;
use crate::limits::MOST_BODY;
use crate::message::{Head, Request, Response};
use crate::response::cut_response;
use crate::search::FIELD_ROOM;
use httparse::spans::{EMPTY_HEADER_SPAN, HeaderSpan};
use rdf_io::Source;
use rdf_term::{Bytes, Memory};
use std::alloc::Global;
use std::marker::Model;

/// A reader of requests, or of responses. Contracts see the bytes that it holds, which stand before those that the source
/// has left, and the fault that it has answered.
///
/// After a head a caller reads its body before the next head. After a fault every later call answers that
/// fault, and takes nothing.
#[derive(Drop)]
pub struct Frames {
    alloc: Global,
    buffer: Buffer,
    spans: Vec<HeaderSpan>,
    fault: Option<FrameFault>,
}

impl Model for Frames {
    ghost Value = { FramesState };

    ghost view = { λ s. record { held = s.buffer; fault = s.fault } };

    ghost invariant = { λ s. length s.spans.items ≡ 1024 };
}

/// Reads the body behind a head.
fn cut_body<S: Source>(
    alloc: Global,
    buffer: &mut Buffer,
    head: Head,
    source: &mut S,
) -> Result<Request, FrameFault>
    ensures body { (b : List ℕ) → IsStream buffer.old (S.left source.old) b
        → NextBody head b buffer.new (S.left source.new) result }
    ensures cause { FaultsFor (S.faults source.old) (S.faults source.new) result }
    ensures sound { SoundFor (S.sound source.old) (S.sound source.new) result }
{
    match framing_of(head.minor, &head.fields) {
        Err(shown) => Err(shown),
        Ok(framing) => match take_body(alloc, buffer, source, framing, MOST_BODY) {
            Ok(body) => Ok(Request {
                head,
                body: Bytes::from_vec(body.into_vec()),
            }),
            Err(fault) => Err(fault),
        },
    }
}

impl Frames {
    /// A reader at the front of a stream. It takes its buffers here and holds at most 65,536 bytes that
    /// are not yet used.
    pub fn new(alloc: Global) -> Result<Frames, Memory>
        ensures { IfOk result (λ f. f ≡ record { held = []; fault = None }) }
    {
        Ok(Frames {
            alloc,
            buffer: Buffer::new(alloc)?,
            spans: vec![in alloc; EMPTY_HEADER_SPAN; FIELD_ROOM]?,
            fault: None,
        })
    }

    /// Cuts the next head off the stream. `None` means that the stream ended, with no byte of a further
    /// request. A head that shows a fault by itself is answered that fault.
    pub fn next_head<S: Source>(&mut self, source: &mut S) -> Result<Option<Head>, FrameFault>
        ensures head { self.old.fault ≡ None → (b : List ℕ) → IsStream self.old.held (S.left source.old) b
            → NextHead b self.new.held (S.left source.new) result }
        ensures cause { self.old.fault ≡ None → FaultsFor (S.faults source.old) (S.faults source.new) result }
        ensures sound { S.sound source.old → S.sound source.new }
        ensures no_fault { self.old.fault ≡ None → S.sound source.old → result ≢ Err ReadFault }

        // A fault is kept, and is answered again at every later call.
        ensures kept { OnOk result (self.new.fault ≡ None) }
        ensures fault { IfErr result (λ f. self.new.fault ≡ Some f) }
        ensures again { IfSome self.old.fault (λ f. (result ≡ Err f) × (S.faults source.new ≡ S.faults source.old)) }
        ensures unread { IfSome self.old.fault (λ f. S.left source.new ≡ S.left source.old) }
    {
        if let Some(fault) = self.fault {
            return Err(fault);
        }
        match cut_head(self.alloc, &mut self.buffer, &mut self.spans, source) {
            Ok(head) => Ok(head),
            Err(fault) => {
                self.fault = Some(fault);
                Err(fault)
            }
        }
    }

    /// Takes the body of a head off the stream, which begins with it.
    ///
    /// Where `head.expects`, a sender may wait for `100 Continue` before it sends the body
    /// ([`continue_of`](crate::continue_of)).
    pub fn read_body<S: Source>(
        &mut self,
        head: Head,
        source: &mut S,
    ) -> Result<Request, FrameFault>
        ensures body { self.old.fault ≡ None → (b : List ℕ) → IsStream self.old.held (S.left source.old) b
            → NextBody head b self.new.held (S.left source.new) result }
        ensures cause { self.old.fault ≡ None → FaultsFor (S.faults source.old) (S.faults source.new) result }
        ensures sound { S.sound source.old → S.sound source.new }
        ensures no_fault { self.old.fault ≡ None → S.sound source.old → result ≢ Err ReadFault }

        // A fault is kept, and is answered again at every later call.
        ensures kept { OnOk result (self.new.fault ≡ None) }
        ensures fault { IfErr result (λ f. self.new.fault ≡ Some f) }
        ensures again { IfSome self.old.fault (λ f. (result ≡ Err f) × (S.faults source.new ≡ S.faults source.old)) }
        ensures unread { IfSome self.old.fault (λ f. S.left source.new ≡ S.left source.old) }
    {
        if let Some(fault) = self.fault {
            return Err(fault);
        }
        match cut_body(self.alloc, &mut self.buffer, head, source) {
            Ok(request) => Ok(request),
            Err(refused) => {
                self.fault = Some(refused);
                Err(refused)
            }
        }
    }

    /// Cuts the next response off the stream. At most 16 informational responses (RFC 9110, section 15.2)
    /// are passed over before it. `None` means that the stream ended, with no byte of a further response.
    ///
    /// A response whose head says nothing of its body has all that follows as its body, up to the end of
    /// the stream.
    pub fn next_response<S: Source>(
        &mut self,
        source: &mut S,
    ) -> Result<Option<Response>, FrameFault>
        ensures response { self.old.fault ≡ None → (b : List ℕ) → IsStream self.old.held (S.left source.old) b
            → NextResponse b self.new.held (S.left source.new) result }
        ensures cause { self.old.fault ≡ None → FaultsFor (S.faults source.old) (S.faults source.new) result }
        ensures sound { S.sound source.old → S.sound source.new }
        ensures no_fault { self.old.fault ≡ None → S.sound source.old → result ≢ Err ReadFault }

        // A fault is kept, and is answered again at every later call.
        ensures kept { OnOk result (self.new.fault ≡ None) }
        ensures fault { IfErr result (λ f. self.new.fault ≡ Some f) }
        ensures again { IfSome self.old.fault (λ f. (result ≡ Err f) × (S.faults source.new ≡ S.faults source.old)) }
        ensures unread { IfSome self.old.fault (λ f. S.left source.new ≡ S.left source.old) }
    {
        if let Some(fault) = self.fault {
            return Err(fault);
        }
        match cut_response(self.alloc, &mut self.buffer, &mut self.spans, source) {
            Ok(response) => Ok(response),
            Err(refused) => {
                self.fault = Some(refused);
                Err(refused)
            }
        }
    }
}
