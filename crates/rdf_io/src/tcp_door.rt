ghost use Rattle.std.specs.Prelude.{◌≡◌, false, None, IfOk};

use crate::door::with_broken;
use crate::{Door, Failed, ReaderSource, Sink, Source, WriterSink};
use std::io;
use std::net::{TcpListener, TcpStream};

/// What a peer sends, as a source.
pub type TcpSource = ReaderSource<TcpStream>;

/// What a peer is sent, as a sink.
pub type TcpSink = WriterSink<TcpStream>;

/// Takes connections from a listener, which several doors may share. It tells nothing of their bytes.
/// Each error of the system in an accept is a fault.
#[derive(Drop)]
pub struct TcpDoor<'a> {
    listener: &'a TcpListener,
    most: Option<u64>,
    out: bool,
    faults: u64,
    given: u64,
    ends: u64,
    broken_sources: u64,
    broken_sinks: u64,
}

/// The two ends of a connection, on which small pieces are sent at once.
pub(crate) fn both_ends(stream: TcpStream) -> io::Result<(TcpSource, TcpSink)>
    ensures { IfOk result (λ l. (⟦<ReaderSource<TcpStream> as Source>⟧.faults l.0 ≡ 0) × (⟦<WriterSink<TcpStream> as Sink>⟧.faults l.1 ≡ 0)) }
{
    // A system that refuses it sends the small pieces late, and answers all the same.
    let _ = stream.set_nodelay(true);
    let other = stream.try_clone()?;
    Ok((ReaderSource::new(other), WriterSink::new(stream)))
}

impl<'a> TcpDoor<'a> {
    /// A door that answers none after so many connections, where a number is given.
    pub fn new(listener: &'a TcpListener, most: Option<u64>) -> TcpDoor<'a>
        ensures out { ⟦<TcpDoor<'a> as Door>⟧.out result ≡ false }
        ensures faults { ⟦<TcpDoor<'a> as Door>⟧.faults result ≡ 0 }
        ensures given { ⟦<TcpDoor<'a> as Door>⟧.given result ≡ 0 }
        ensures ends { ⟦<TcpDoor<'a> as Door>⟧.ends result ≡ 0 }
        ensures broken_sources { ⟦<TcpDoor<'a> as Door>⟧.broken_sources result ≡ 0 }
        ensures broken_sinks { ⟦<TcpDoor<'a> as Door>⟧.broken_sinks result ≡ 0 }
    {
        TcpDoor {
            listener,
            most,
            out: false,
            faults: 0,
            given: 0,
            ends: 0,
            broken_sources: 0,
            broken_sinks: 0,
        }
    }

    /// The door gave as many connections as it may.
    fn is_done(&self) -> bool {
        match self.most {
            Some(most) => most <= self.given,
            None => false,
        }
    }
}

/// The next connection of a listener.
fn take_next(listener: &TcpListener) -> io::Result<(TcpSource, TcpSink)>
    ensures { IfOk result (λ l. (⟦<ReaderSource<TcpStream> as Source>⟧.faults l.0 ≡ 0) × (⟦<WriterSink<TcpStream> as Sink>⟧.faults l.1 ≡ 0)) }
{
    let (stream, _) = listener.accept()?;
    both_ends(stream)
}

impl<'a> Door for TcpDoor<'a> {
    type In = TcpSource;

    type Out = TcpSink;

    ghost links = { λ _. None };

    ghost backs = { λ _. None };

    ghost out = { λ d. d.out };

    ghost faults = { λ d. d.faults };

    ghost given = { λ d. d.given };

    ghost ends = { λ d. d.ends };

    ghost broken_sources = { λ d. d.broken_sources };

    ghost broken_sinks = { λ d. d.broken_sinks };

    fn accept(&mut self) -> Result<Option<(TcpSource, TcpSink)>, Failed> {
        if self.is_done() {
            self.ends = self.ends.saturating_add(1);
            return Ok(None);
        }
        match take_next(self.listener) {
            Ok(link) => {
                self.out = true;
                self.given = self.given.saturating_add(1);
                Ok(Some(link))
            }
            Err(_) => {
                self.faults = self.faults.saturating_add(1);
                Err(Failed)
            }
        }
    }

    fn give_back(&mut self, input: TcpSource, output: TcpSink) {
        self.broken_sources = with_broken(input.faults(), self.broken_sources);
        self.broken_sinks = with_broken(output.faults(), self.broken_sinks);
        self.out = false;
    }
}
