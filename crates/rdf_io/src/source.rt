ghost use Rattle.std.specs.Prelude.{ℕ, List, Option, IsOk};
ghost use Rattle.std.specs.Io.{ReadsAtMost};
ghost use Rattle.std.specs.Io.KnownBytes.{ReadConsumes};
ghost use Rattle.rdf_io.specs.Causes.{HasCause};

use crate::Failed;

/// Where bytes come from.
pub trait Source {
    /// The bytes that are left, where the source tells them. One that tells them goes on telling.
    ghost left: { Self → Option (List ℕ) };

    /// How often the source failed.
    ghost faults: { Self → ℕ };

    /// The source is told never to fail.
    ghost sound: { Self → Type 0 };

    /// Puts the next bytes into the front of `buf` and answers how many came: 0 exactly at the end or
    /// where `buf` is empty. A failed read leaves the bytes that are left as they are.
    fn read(&mut self, buf: &mut [u8]) -> Result<usize, Failed>
        ensures bound { ReadsAtMost result buf.new }
        ensures bytes { ReadConsumes (left self.old) (left self.new) result buf.new }
        ensures cause { HasCause (faults self.old) (faults self.new) result }
        ensures sound { sound self.old → IsOk result × sound self.new };
}

impl<S: Source> Source for &mut S {
    ghost left = { λ s. S.left s.now };

    ghost faults = { λ s. S.faults s.now };

    ghost sound = { λ s. S.sound s.now };

    fn read(&mut self, buf: &mut [u8]) -> Result<usize, Failed> {
        Source::read(&mut **self, buf)
    }
}
