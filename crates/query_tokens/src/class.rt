//! The classes of characters of the SPARQL 1.1 grammar (section 19.8), beside those that N-Triples has
//! too and those of names and labels.
ghost use Rattle.std.specs.Prelude.{◌≡◌};
ghost use Rattle.query_tokens.specs.Classes.{is_local_start, is_local_char, is_local_escape, is_alphanumeric, is_exponent_mark, is_sign, closing, is_raw, is_short_escape};

use crate::kind::Quoted;
use query_model::{is_label_start, is_name_char};
use rdf_term::{is_digit, is_echar, is_iri_char, is_letter, is_string_char};

/// What a local part may begin with as it is.
pub fn is_local_start(c: char) -> bool
    ensures { result ≡ is_local_start c }
{
    is_label_start(c) || c == ':'
}

/// What a local part may go on with as it is, and end with.
pub fn is_local_char(c: char) -> bool
    ensures { result ≡ is_local_char c }
{
    is_name_char(c) || c == ':'
}

/// What PN_LOCAL_ESC has behind its backslash.
pub fn is_local_escape(c: char) -> bool
    ensures { result ≡ is_local_escape c }
{
    matches!(
        c,
        '_' | '~'
            | '.'
            | '-'
            | '!'
            | '$'
            | '&'
            | '\''
            | '('
            | ')'
            | '*'
            | '+'
            | ','
            | ';'
            | '='
            | '/'
            | '?'
            | '#'
            | '@'
            | '%'
    )
}

pub fn is_alphanumeric(c: char) -> bool
    ensures { result ≡ is_alphanumeric c }
{
    is_letter(c) || is_digit(c)
}

pub fn is_exponent_mark(c: char) -> bool
    ensures { result ≡ is_exponent_mark c }
{
    matches!(c, 'e' | 'E')
}

pub fn is_sign(c: char) -> bool
    ensures { result ≡ is_sign c }
{
    matches!(c, '+' | '-')
}

impl Quoted {
    /// The mark at the end.
    pub fn closing(self) -> char
        ensures { result ≡ closing self }
    {
        match self {
            Quoted::Iri => '>',
            Quoted::Double => '"',
            Quoted::Single => '\'',
        }
    }

    /// Whether the character may stand there as it is.
    pub fn is_raw(self, c: char) -> bool
        ensures { result ≡ is_raw self c }
    {
        match self {
            Quoted::Iri => is_iri_char(c),
            Quoted::Double => is_string_char(c),
            Quoted::Single => !matches!(c, '\'' | '\\' | '\n' | '\r'),
        }
    }

    /// Whether ECHAR has the character behind its backslash there.
    pub fn is_short_escape(self, c: char) -> bool
        ensures { result ≡ is_short_escape self c }
    {
        match self {
            Quoted::Iri => false,
            Quoted::Double | Quoted::Single => is_echar(c),
        }
    }
}
