//! Texts to a sink.
ghost use Rattle.std.specs.Prelude.{◌≤◌, length, drop};
ghost use Rattle.rdf_io.specs.Causes.{HasCause, WritesPart};
ghost use Rattle.rdf_io.specs.Sending.{Sends};

use crate::{Failed, Sink};

fn write_from<K: Sink>(sink: &mut K, text: &[u8], at: usize) -> Result<usize, Failed>
    requires { at ≤ length text.now }
    ensures bytes { WritesPart (K.taken sink.old) (K.taken sink.new) result (drop at text.now) }
    ensures cause { HasCause (K.faults sink.old) (K.faults sink.new) result }
{
    sink.write(&text[at..])
}

/// Writes the whole text, and flushes.
pub fn send<K: Sink>(sink: &mut K, text: &[u8]) -> Result<(), Failed>
    ensures text { Sends (K.taken sink.old) (K.taken sink.new) text.now result }
    ensures cause { HasCause (K.faults sink.old) (K.faults sink.new) result }
{
    let mut at = 0;
    while at < text.len() {
        match write_from(sink, text, at) {
            Ok(count) => at += count,
            Err(failed) => return Err(failed),
        }
    }
    match sink.flush() {
        Ok(()) => Ok(()),
        Err(failed) => Err(failed),
    }
}
