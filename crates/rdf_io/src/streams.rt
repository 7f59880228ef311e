//! Sources and sinks over readers and writers. They count their faults, and tell of bytes what the
//! reader or the writer tells. The system's streams tell nothing: what they give and take is trusted.
ghost use Rattle.std.specs.Prelude.{◌≡◌, IsOk, OnErr};
ghost use Rattle.std.specs.Io.{ReadsAtMost};
ghost use Rattle.std.specs.Io.KnownBytes.{Keeps, ReadConsumes};
ghost use Rattle.rdf_io.specs.Causes.{HasCause, WritesPart, one_more};

use crate::{Failed, Sink, Source};
use std::io::{Read, Stdin, Stdout, Write};

/// Standard input as a source.
pub type StdinSource = ReaderSource<Stdin>;

/// Standard output as a sink.
pub type StdoutSink = WriterSink<Stdout>;

/// A reader as a source. Each error of the reader is a fault.
#[derive(Drop)]
pub struct ReaderSource<R> {
    inner: R,
    count: u64,
}

impl<R: Read> ReaderSource<R> {
    /// A source over the reader, which has not failed yet. The bytes that the reader has left are left.
    pub fn new(inner: R) -> ReaderSource<R>
        ensures faults { ⟦<ReaderSource<R> as Source>⟧.faults result ≡ 0 }
        ensures left { ⟦<ReaderSource<R> as Source>⟧.left result ≡ R.remaining inner }
    {
        ReaderSource { inner, count: 0 }
    }

    /// How many reads failed.
    pub fn faults(&self) -> u64
        ensures { result ≡ ⟦<ReaderSource<R> as Source>⟧.faults self.now }
    {
        self.count
    }
}

impl<R: Read> Source for ReaderSource<R> {
    ghost left = { λ s. R.remaining s.inner };

    ghost faults = { λ s. s.count };

    ghost sound = { λ _. ⊥ };

    fn read(&mut self, buf: &mut [u8]) -> Result<usize, Failed>
        ensures bound { ReadsAtMost result buf.new }
        ensures bytes { ReadConsumes (⟦<ReaderSource<R> as Source>⟧.left self.old) (⟦<ReaderSource<R> as Source>⟧.left self.new) result buf.new }
        ensures cause { HasCause (⟦<ReaderSource<R> as Source>⟧.faults self.old) (⟦<ReaderSource<R> as Source>⟧.faults self.new) result }
        ensures sound { ⟦<ReaderSource<R> as Source>⟧.sound self.old → IsOk result × ⟦<ReaderSource<R> as Source>⟧.sound self.new }

        // A failed read counts one fault.
        ensures fault { OnErr result (⟦<ReaderSource<R> as Source>⟧.faults self.new ≡ one_more (⟦<ReaderSource<R> as Source>⟧.faults self.old)) }
    {
        match self.inner.read(buf) {
            Ok(count) => Ok(count),
            Err(_) => {
                self.count = self.count.saturating_add(1);
                Err(Failed)
            }
        }
    }
}

/// A writer as a sink. Each error of the writer is a fault, and so is a write that takes nothing of a
/// piece that is not empty.
#[derive(Drop)]
pub struct WriterSink<W> {
    inner: W,
    count: u64,
}

impl<W: Write> WriterSink<W> {
    /// A sink over the writer, which has not failed yet. The bytes that the writer holds are taken.
    pub fn new(inner: W) -> WriterSink<W>
        ensures faults { ⟦<WriterSink<W> as Sink>⟧.faults result ≡ 0 }
        ensures taken { ⟦<WriterSink<W> as Sink>⟧.taken result ≡ W.contents inner }
    {
        WriterSink { inner, count: 0 }
    }

    /// How many writes and flushes failed.
    pub fn faults(&self) -> u64
        ensures { result ≡ ⟦<WriterSink<W> as Sink>⟧.faults self.now }
    {
        self.count
    }
}

impl<W: Write> Sink for WriterSink<W> {
    ghost taken = { λ s. W.contents s.inner };

    ghost faults = { λ s. s.count };

    fn write(&mut self, piece: &[u8]) -> Result<usize, Failed>
        ensures bytes { WritesPart (⟦<WriterSink<W> as Sink>⟧.taken self.old) (⟦<WriterSink<W> as Sink>⟧.taken self.new) result piece.now }
        ensures cause { HasCause (⟦<WriterSink<W> as Sink>⟧.faults self.old) (⟦<WriterSink<W> as Sink>⟧.faults self.new) result }

        // A failed write counts one fault and takes nothing.
        ensures fault { OnErr result (⟦<WriterSink<W> as Sink>⟧.faults self.new ≡ one_more (⟦<WriterSink<W> as Sink>⟧.faults self.old)) }
        ensures failed { OnErr result (Keeps (⟦<WriterSink<W> as Sink>⟧.taken self.old) (⟦<WriterSink<W> as Sink>⟧.taken self.new)) }
    {
        match self.inner.write(piece) {
            Ok(count) => {
                if count == 0 && !piece.is_empty() {
                    self.count = self.count.saturating_add(1);
                    return Err(Failed);
                }
                Ok(count)
            }
            Err(_) => {
                self.count = self.count.saturating_add(1);
                Err(Failed)
            }
        }
    }

    fn flush(&mut self) -> Result<(), Failed>
        ensures bytes { Keeps (⟦<WriterSink<W> as Sink>⟧.taken self.old) (⟦<WriterSink<W> as Sink>⟧.taken self.new) }
        ensures cause { HasCause (⟦<WriterSink<W> as Sink>⟧.faults self.old) (⟦<WriterSink<W> as Sink>⟧.faults self.new) result }
        ensures fault { OnErr result (⟦<WriterSink<W> as Sink>⟧.faults self.new ≡ one_more (⟦<WriterSink<W> as Sink>⟧.faults self.old)) }
    {
        match self.inner.flush() {
            Ok(()) => Ok(()),
            Err(_) => {
                self.count = self.count.saturating_add(1);
                Err(Failed)
            }
        }
    }
}
