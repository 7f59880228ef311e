ghost use Rattle.std.specs.Prelude.{ℕ, List, Option};
ghost use Rattle.std.specs.Io.KnownBytes.{Keeps};
ghost use Rattle.rdf_io.specs.Causes.{HasCause, WritesPart};

use crate::Failed;

/// Where bytes go.
pub trait Sink {
    /// The bytes that the sink took, where it tells them. One that tells them goes on telling.
    ghost taken: { Self → Option (List ℕ) };

    /// How often the sink failed.
    ghost faults: { Self → ℕ };

    /// Takes the first bytes of the piece and answers how many: at least one where there is one. A
    /// failed write has taken some first bytes of the piece, perhaps none.
    fn write(&mut self, piece: &[u8]) -> Result<usize, Failed>
        ensures bytes { WritesPart (taken self.old) (taken self.new) result piece.now }
        ensures cause { HasCause (faults self.old) (faults self.new) result };

    /// Hands on what was taken. It takes nothing itself.
    fn flush(&mut self) -> Result<(), Failed>
        ensures bytes { Keeps (taken self.old) (taken self.new) }
        ensures cause { HasCause (faults self.old) (faults self.new) result };
}

impl<K: Sink> Sink for &mut K {
    ghost taken = { λ k. K.taken k.now };

    ghost faults = { λ k. K.faults k.now };

    fn write(&mut self, piece: &[u8]) -> Result<usize, Failed> {
        Sink::write(&mut **self, piece)
    }

    fn flush(&mut self) -> Result<(), Failed> {
        Sink::flush(&mut **self)
    }
}
