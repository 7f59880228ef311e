ghost use Rattle.std.specs.Prelude.{◌≡◌};
ghost use Rattle.nquads_line.specs.Written.{closing, is_raw, is_meant};

use rdf_term::{is_iri_char, is_string_char};

/// What is written between two marks.
#[derive(Clone, Copy, Debug, PartialEq, Eq)]
pub enum Quoted {
    /// IRIREF, between `<` and `>`.
    Iri,
    /// STRING_LITERAL_QUOTE, between quotation marks.
    Literal,
}

impl Quoted {
    /// The mark at the end.
    pub fn closing(self) -> char
        ensures { result ≡ closing self }
    {
        match self {
            Quoted::Iri => '>',
            Quoted::Literal => '"',
        }
    }

    /// Whether the character may stand there as it is.
    pub fn is_raw(self, character: char) -> bool
        ensures { result ≡ is_raw self character }
    {
        match self {
            Quoted::Iri => is_iri_char(character),
            Quoted::Literal => is_string_char(character),
        }
    }

    /// Whether an escape may mean the character there.
    pub fn is_meant(self, character: char) -> bool
        ensures { result ≡ is_meant self character }
    {
        match self {
            Quoted::Iri => is_iri_char(character),
            Quoted::Literal => true,
        }
    }
}
