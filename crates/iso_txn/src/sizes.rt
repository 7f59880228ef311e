//! Sizes of quads, up to the greatest number.
ghost use Rattle.std.specs.Prelude.{◌≡◌, ◌+◌, ◌-◌, ◌≤◌, ◌^◌, length, min};
ghost use Rattle.journal.specs.Replies.{bytes_of};

use branch::Delta;
use nquads_line::line_bytes;
use rdf_term::Quad;

/// The bytes of the canonical lines of quads.
fn bytes_of(quads: &[Quad]) -> u64
    ensures { result ≡ min (bytes_of quads.now) (2 ^ 64 - 1) }
{
    let mut bytes: u64 = 0;
    for quad in quads {
        bytes = bytes.saturating_add(line_bytes(quad));
    }
    bytes
}

/// A size after a part of it was taken away and another one was added.
fn resized(size: u64, added: u64, removed: u64) -> u64
    requires { removed ≤ size }
    ensures { result ≡ min (size - removed + added) (2 ^ 64 - 1) }
{
    (size - removed).saturating_add(added)
}

/// The number of quads that a delta leaves of so many.
pub(crate) fn quads_after(quads: u64, delta: &Delta) -> u64
    requires { length delta.now.removed ≤ quads }
    ensures { result ≡ min (quads - length delta.now.removed + length delta.now.added) (2 ^ 64 - 1) }
{
    resized(quads, delta.added.len() as u64, delta.removed.len() as u64)
}

/// The number of bytes that a delta leaves of so many.
pub(crate) fn bytes_after(bytes: u64, delta: &Delta) -> u64
    requires { bytes_of delta.now.removed ≤ bytes }
    ensures { result ≡ min (bytes - bytes_of delta.now.removed + bytes_of delta.now.added) (2 ^ 64 - 1) }
{
    resized(
        bytes,
        bytes_of(delta.added.as_slice()),
        bytes_of(delta.removed.as_slice()),
    )
}
