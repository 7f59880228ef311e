ghost use Rattle.std.specs.Prelude.{◌≡◌, false, None, IfOk};

use crate::door::with_broken;
use crate::tcp_door::both_ends;
use crate::{Dial, Failed, ReaderSource, Sink, Source, TcpSink, TcpSource, WriterSink};
use rdf_term::Text;
use std::io;
use std::net::{Net, TcpStream};

/// Connects to an address of the network. It tells nothing of the bytes. Each error of the system in a
/// dial is a fault, and so is an address that names no host and port.
#[derive(Drop)]
pub struct TcpDial<'a, R> {
    net: &'a R,
    out: bool,
    faults: u64,
    given: u64,
    broken_sources: u64,
    broken_sinks: u64,
}

/// The two ends of a connection to this address.
fn connect<R: Net<Stream = TcpStream>>(net: &R, address: &Text) -> io::Result<(TcpSource, TcpSink)>
    ensures { IfOk result (λ l. (⟦<ReaderSource<TcpStream> as Source>⟧.faults l.0 ≡ 0) × (⟦<WriterSink<TcpStream> as Sink>⟧.faults l.1 ≡ 0)) }
{
    both_ends(TcpStream::connect(net, address.as_str())?)
}

impl<'a, R: Net<Stream = TcpStream>> TcpDial<'a, R> {
    /// A dial that gave no connection yet.
    pub fn new(net: &'a R) -> TcpDial<'a, R>
        ensures out { ⟦<TcpDial<'a, R> as Dial>⟧.out result ≡ false }
        ensures faults { ⟦<TcpDial<'a, R> as Dial>⟧.faults result ≡ 0 }
        ensures given { ⟦<TcpDial<'a, R> as Dial>⟧.given result ≡ 0 }
        ensures broken_sources { ⟦<TcpDial<'a, R> as Dial>⟧.broken_sources result ≡ 0 }
        ensures broken_sinks { ⟦<TcpDial<'a, R> as Dial>⟧.broken_sinks result ≡ 0 }
    {
        TcpDial {
            net,
            out: false,
            faults: 0,
            given: 0,
            broken_sources: 0,
            broken_sinks: 0,
        }
    }
}

impl<'a, R: Net<Stream = TcpStream>> Dial for TcpDial<'a, R> {
    type In = TcpSource;

    type Out = TcpSink;

    ghost links = { λ _. None };

    ghost backs = { λ _. None };

    ghost out = { λ d. d.out };

    ghost faults = { λ d. d.faults };

    ghost given = { λ d. d.given };

    ghost broken_sources = { λ d. d.broken_sources };

    ghost broken_sinks = { λ d. d.broken_sinks };

    fn dial(&mut self, address: &Text) -> Result<(TcpSource, TcpSink), Failed> {
        match connect(self.net, address) {
            Ok(link) => {
                self.out = true;
                self.given = 1;
                Ok(link)
            }
            Err(_) => {
                self.faults = self.faults.saturating_add(1);
                Err(Failed)
            }
        }
    }

    fn give_back(&mut self, input: TcpSource, output: TcpSink) {
        self.broken_sources = with_broken(input.faults(), self.broken_sources);
        self.broken_sinks = with_broken(output.faults(), self.broken_sinks);
        self.out = false;
    }
}
