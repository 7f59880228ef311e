ghost use Rattle.std.specs.Prelude.{◌≡◌, ◌≤◌, ◌<◌, ◌+◌, ◌-◌, [], ◌∷◌, ◌++◌, decimal, length, slice_get, IfOk, OnOk, OnErr, IsOk, take, vec_len};
ghost use Rattle.std.specs.Vec.{vec_capacity};
ghost use Rattle.std.specs.Option.{option_copied};

use crate::Memory;
use itoa::Buffer;
use std::alloc::Global;
use std::marker::Model;

/// A buffer of bytes. Contracts see its bytes and the number of its spare ones, which can be pushed
/// without memory; what a clause says stays the same is the bytes alone.
#[derive(Debug, Drop)]
pub struct Bytes {
    items: Vec<u8>,
}

impl Model for Bytes {
    ghost use Rattle.std.specs.Prelude.{◌-◌, vec_len, ◌≤◌};
    ghost use Rattle.std.specs.Vec.{vec_capacity};
    ghost use Rattle.rdf_term.specs.Buffer.{Buffer};

    ghost Value = { Buffer };

    ghost view = { λ b. record { items = b.items.items; spare = vec_capacity b.items - vec_len b.items } };
}

impl Bytes {
    /// An empty buffer, which takes no memory.
    pub fn new(alloc: Global) -> Bytes
        ensures items { result.items ≡ [] }
        ensures spare { result.spare ≡ 0 }
    {
        Bytes {
            items: Vec::new(alloc),
        }
    }

    /// The bytes of a vector, whose room they keep. It takes no memory.
    pub fn from_vec(items: Vec<u8>) -> Bytes
        ensures items { result.items ≡ items.items }
        ensures spare { result.spare ≡ vec_capacity items - vec_len items }
    {
        Bytes { items }
    }

    /// The number of bytes.
    pub fn len(&self) -> usize
        ensures { result ≡ length self.now.items }
    {
        self.items.len()
    }

    /// The byte at a place, from 0, where there is one.
    pub fn at(&self, place: usize) -> Option<&u8>
        ensures { option_copied result ≡ slice_get self.now.items place }
    {
        self.items.get(place)
    }

    /// All bytes in their order.
    pub fn as_slice(&self) -> &[u8]
        ensures { result.now ≡ self.now.items }
    {
        self.items.as_slice()
    }

    /// Makes at least `count` bytes spare, and leaves the bytes as they are.
    pub fn room(&mut self, count: usize) -> Result<(), Memory>
        ensures ok { OnOk result (count ≤ self.new.spare) }
        ensures items { self.new.items ≡ self.old.items }
        ensures spare { self.old.spare ≤ self.new.spare }
    {
        self.items.reserve(count)?;
        Ok(())
    }

    /// Empties the buffer and keeps its bytes as spare ones.
    pub fn clear(&mut self)
        ensures items { self.new.items ≡ [] }
        ensures spare { self.new.spare ≡ self.old.spare + length self.old.items }
    {
        self.items.clear();
    }

    /// Adds a byte at the end. With a spare byte it succeeds and uses that one up; without memory the
    /// bytes stay as they were.
    pub fn push(&mut self, byte: u8) -> Result<(), Memory>
        ensures ok { OnOk result (self.new.items ≡ self.old.items ++ byte ∷ []) }
        ensures memory { OnErr result (self.new.items ≡ self.old.items) }
        ensures succeeds { 0 < self.old.spare → IsOk result }
        ensures spare { 0 < self.old.spare → self.new.spare + 1 ≡ self.old.spare }
    {
        if self.items.len() < self.items.capacity() {
            self.items.push_reserved(byte);
            return Ok(());
        }
        self.items.push(byte)?;
        Ok(())
    }

    /// Adds a piece at the end. With spare bytes for it, it succeeds; it uses up no more of them than
    /// the piece has. Without memory the bytes stay as they were.
    pub fn append(&mut self, piece: &[u8]) -> Result<(), Memory>
        ensures ok { OnOk result (self.new.items ≡ self.old.items ++ piece.now) }
        ensures memory { OnErr result (self.new.items ≡ self.old.items) }
        ensures succeeds { length piece.now ≤ self.old.spare → IsOk result }
        ensures spare { self.old.spare ≤ self.new.spare + length piece.now }
    {
        self.items.extend_from_slice(piece)?;
        Ok(())
    }

    /// Adds the decimal digits of a number at the end, without leading zeros. With spare bytes for
    /// them, it succeeds; it uses up no more of them than there are digits. Without memory the bytes
    /// stay as they were.
    pub fn append_decimal(&mut self, number: u64) -> Result<(), Memory>
        ensures ok { OnOk result (self.new.items ≡ self.old.items ++ decimal number) }
        ensures memory { OnErr result (self.new.items ≡ self.old.items) }
        ensures succeeds { length (decimal number) ≤ self.old.spare → IsOk result }
        ensures spare { self.old.spare ≤ self.new.spare + length (decimal number) }
    {
        let mut digits = Buffer::new();
        self.append(digits.format(number).as_bytes())
    }

    /// Keeps the first `len` bytes, or all where there are no more, and makes the others spare.
    pub fn truncate(&mut self, len: usize)
        ensures items { self.new.items ≡ take len self.old.items }
        ensures spare { self.new.spare + length self.new.items ≡ self.old.spare + length self.old.items }
    {
        self.items.truncate(len);
    }

    /// A buffer of the same bytes.
    pub fn copy(&self, alloc: Global) -> Result<Bytes, Memory>
        ensures { IfOk result (λ it. it.items ≡ self.now.items) }
    {
        Ok(Bytes {
            items: Vec::from_slice(alloc, self.items.as_slice())?,
        })
    }
}
