ghost use Rattle.std.specs.Prelude.{◌≡◌, [], ◌∷◌, ◌++◌, IfOk, OnOk, OnErr, encode_utf8_all, IsTrue, ◌↔◌};
ghost use Rattle.std.specs.Prelude.{refl};
ghost use Rattle.std.specs.Str.{chars};
ghost use Rattle.std.specs.Ordering.{eq_by_cmp, as_partial_cmp};
ghost use Rattle.std.specs.Cmp.{partial_equiv_from_equiv, partial_order_from_total};
ghost use Rattle.std.proofs.lemmas.Cmp.{eq_by_cmp_equiv};
ghost use Rattle.rdf_term.specs.TextOrder.{text_cmp, text_total};

use crate::{Duplicate, Memory};
use std::alloc::Global;
use std::cmp::Ordering;
use std::marker::Model;

/// A text of Unicode characters, which contracts see as the list of its characters. Texts are
/// ordered by their bytes in UTF-8.
#[derive(Debug, Drop)]
pub struct Text {
    bytes: String,
}

impl Model for Text {
    ghost use Rattle.std.specs.Prelude.{List, ℕ, string_bytes};
    ghost use Rattle.std.specs.Str.{chars};

    ghost Value = { List ℕ };

    ghost view = { λ t. chars (string_bytes t.bytes) };
}

impl Text {
    /// An empty text, which takes no memory.
    pub fn new(alloc: Global) -> Text
        ensures { result ≡ [] }
    {
        Text {
            bytes: String::new(alloc),
        }
    }

    /// A text of the same characters.
    pub fn from_chars(alloc: Global, text: &str) -> Result<Text, Memory>
        ensures { IfOk result (λ it. encode_utf8_all it ≡ text.now) }
    {
        Ok(Text {
            bytes: String::from_str(alloc, text)?,
        })
    }

    /// A text of these characters.
    ///
    /// Memory is taken once where they are ASCII characters.
    pub fn from_char_slice(alloc: Global, characters: &[char]) -> Result<Text, Memory>
        ensures { IfOk result (λ it. it ≡ characters.now) }
    {
        Text::new(alloc).with_chars(characters)
    }

    /// The text with these characters at its end.
    ///
    /// Room for as many bytes is made at once.
    pub fn with_chars(mut self, characters: &[char]) -> Result<Text, Memory>
        ensures { IfOk result (λ it. it ≡ self ++ characters.now) }
    {
        self.room(characters.len())?;
        for character in characters {
            self.push(*character)?;
        }
        Ok(self)
    }

    /// Makes room for so many bytes more.
    fn room(&mut self, count: usize) -> Result<(), Memory>
        ensures { self.new ≡ self.old }
    {
        self.bytes.reserve(count)?;
        Ok(())
    }

    /// The text in UTF-8.
    pub fn as_str(&self) -> &str
        ensures { result.now ≡ encode_utf8_all self.now }
    {
        self.bytes.as_str()
    }

    /// Adds a character at the end. Without memory the text stays as it was.
    pub fn push(&mut self, character: char) -> Result<(), Memory>
        ensures ok { OnOk result (self.new ≡ self.old ++ character ∷ []) }
        ensures memory { OnErr result (self.new ≡ self.old) }
    {
        self.bytes.push(character)?;
        Ok(())
    }

    /// Adds the characters of another text at the end. Without memory the text stays as it was.
    pub fn append(&mut self, more: &str) -> Result<(), Memory>
        ensures ok { OnOk result (self.new ≡ self.old ++ chars more.now) }
        ensures memory { OnErr result (self.new ≡ self.old) }
    {
        self.bytes.push_str(more)?;
        Ok(())
    }

    fn order(&self, other: &Text) -> Ordering
        ensures { result ≡ text_cmp self.now other.now }
    {
        self.as_str().cmp(other.as_str())
    }
}

impl Duplicate for Text {
    fn copy(&self, alloc: Global) -> Result<Text, Memory> {
        Ok(Text {
            bytes: String::from_str(alloc, self.bytes.as_str())?,
        })
    }
}

impl PartialEq for Text {
    ghost eq = { eq_by_cmp text_cmp };

    ghost laws = { partial_equiv_from_equiv (eq_by_cmp_equiv text_total) };

    fn eq(&self, other: &Text) -> bool
        ensures value { result ≡ eq_by_cmp text_cmp self.now other.now }
        ensures same { IsTrue result ↔ (self.now ≡ other.now) }
    {
        self.order(other).is_eq()
    }
}

impl Eq for Text {
    ghost laws = { eq_by_cmp_equiv text_total };
}

impl PartialOrd for Text {
    ghost partial_cmp = { as_partial_cmp text_cmp };

    ghost laws = { partial_order_from_total text_total };

    fn partial_cmp(&self, other: &Text) -> Option<Ordering> {
        Some(self.order(other))
    }
}

impl Ord for Text {
    ghost cmp = { text_cmp };

    ghost total = { text_total };

    ghost matches_partial_cmp = { λ x y. refl };

    ghost matches_eq = { λ x y. refl };

    fn cmp(&self, other: &Text) -> Ordering {
        self.order(other)
    }
}
