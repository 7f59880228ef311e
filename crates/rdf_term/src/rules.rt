//! The rules of the texts in terms: those of the grammar of RDF 1.1 N-Triples, section 7, and this
//! product's own. No call takes memory.
ghost use Rattle.std.specs.Prelude.{◌≡◌, ◌||◌, IsTrue, false};
ghost use Rattle.std.specs.List.{list_all};
ghost use Rattle.std.specs.Str.{all_scalars, bytes_eq, chars};
ghost use Rattle.rdf_term.specs.Classes.{is_digit, is_iri_char, is_letter, pn_chars_u};
ghost use Rattle.rdf_term.specs.Validity.{has_scheme, has_scheme_rest, is_iri_text, is_label, is_label_rest, is_part, is_short, is_tag, is_tag_from, xsd_string};

use crate::Text;
use crate::classes::{is_digit, is_pn_chars, is_pn_chars_u};

/// The most bytes of a part of a term, in UTF-8.
pub const PART_BYTES: usize = 65_535;

/// The datatype of a plain literal (RDF 1.1 Concepts, section 3.3).
pub const XSD_STRING: &str = "http://www.w3.org/2001/XMLSchema#string";

/// Whether a part of a term is not too long.
pub fn is_short(text: &str) -> bool
    ensures { result ≡ is_short (chars text.now) }
{
    text.len() <= PART_BYTES
}

/// Whether characters of a scheme stand here, and a colon after them.
fn scheme_goes_on(bytes: &[u8]) -> bool
    ensures { result ≡ has_scheme_rest bytes.now }
{
    for byte in bytes {
        if *byte == b':' {
            return true;
        }
        if !byte.is_ascii_alphanumeric() && !matches!(*byte, b'+' | b'.' | b'-') {
            return false;
        }
    }
    false
}

/// Whether the bytes begin with a scheme and a colon.
fn has_scheme_bytes(bytes: &[u8]) -> bool
    ensures { result ≡ has_scheme bytes.now }
{
    match bytes {
        [] => false,
        [first, rest @ ..] => first.is_ascii_alphabetic() && scheme_goes_on(rest),
    }
}

/// Whether the text begins with a scheme and a colon (RFC 3986, section 3.1).
pub fn has_scheme(text: &str) -> bool
    ensures { result ≡ has_scheme (chars text.now) }
{
    has_scheme_bytes(text.as_bytes())
}

fn is_iri_byte(byte: u8) -> bool
    ensures { result ≡ is_iri_char byte }
{
    byte >= 0x21
        && !matches!(
            byte,
            b'<' | b'>' | b'"' | b'{' | b'}' | b'|' | b'^' | b'`' | b'\\'
        )
}

/// Whether the bytes are characters of an IRI, of which each byte above ASCII is a part of one.
fn are_iri_bytes(bytes: &[u8]) -> bool
    ensures { result ≡ list_all is_iri_char bytes.now }
{
    bytes.iter().all(|byte| is_iri_byte(*byte))
}

/// Whether the text is that of an IRI: without the characters that IRIREF leaves out, and with a
/// scheme.
pub fn is_iri_text(text: &str) -> bool
    ensures { result ≡ is_iri_text (chars text.now) }
{
    are_iri_bytes(text.as_bytes()) && has_scheme(text)
}

/// Whether a label may begin with the character.
fn begins_label(character: char) -> bool
    ensures { result ≡ (pn_chars_u character || is_digit character) }
{
    is_pn_chars_u(character) || is_digit(character)
}

/// Whether the characters may follow the first one of a label: no others than PN_CHARS and dots,
/// and no dot at the end.
fn is_label_rest(text: &str) -> bool
    ensures { result ≡ is_label_rest (chars text.now) }
{
    let mut ends = true;
    for character in text.chars() {
        ends = is_pn_chars(character);
        if !ends && character != '.' {
            return false;
        }
    }
    ends
}

/// Whether the text is a blank node's label, without `_:`.
pub fn is_label(text: &str) -> bool
    ensures { result ≡ is_label (chars text.now) }
{
    match text.chars().next() {
        None => false,
        Some(first) => begins_label(first) && is_label_rest(text),
    }
}

/// Whether the bytes are a language tag.
fn is_tag_bytes(bytes: &[u8]) -> bool
    ensures { result ≡ is_tag_from false is_letter bytes.now }
{
    let mut begun = false;
    let mut digits = false;
    for byte in bytes {
        match *byte {
            b'A'..=b'Z' | b'a'..=b'z' => begun = true,
            b'0'..=b'9' if digits => begun = true,
            b'-' if begun => {
                begun = false;
                digits = true;
            }
            _ => return false,
        }
    }
    begun
}

/// Whether the text is a language tag, without `@`.
pub fn is_tag(text: &str) -> bool
    ensures { result ≡ is_tag (chars text.now) }
{
    is_tag_bytes(text.as_bytes())
}

/// Whether the text is the IRI of `xsd:string`, which no typed literal has.
pub fn is_xsd_string(text: &str) -> bool
    ensures { result ≡ bytes_eq text.now xsd_string }
{
    text == XSD_STRING
}

impl Text {
    /// Whether a part of a term is not too long.
    pub fn is_short(&self) -> bool
        ensures value { result ≡ is_short self.now }
        ensures part { result ≡ is_part self.now }
        ensures scalars { IsTrue (all_scalars self.now) }
    {
        is_short(self.as_str())
    }

    /// Whether the text begins with a scheme and a colon (RFC 3986, section 3.1).
    pub fn has_scheme(&self) -> bool
        ensures { result ≡ has_scheme self.now }
    {
        has_scheme(self.as_str())
    }

    /// Whether the text is that of an IRI.
    pub fn is_iri_text(&self) -> bool
        ensures { result ≡ is_iri_text self.now }
    {
        is_iri_text(self.as_str())
    }

    /// Whether the text is a blank node's label, without `_:`.
    pub fn is_label(&self) -> bool
        ensures { result ≡ is_label self.now }
    {
        is_label(self.as_str())
    }

    /// Whether the text is a language tag, without `@`.
    pub fn is_tag(&self) -> bool
        ensures { result ≡ is_tag self.now }
    {
        is_tag(self.as_str())
    }

    /// Whether the text is the IRI of `xsd:string`.
    pub fn is_xsd_string(&self) -> bool
        ensures { result ≡ bytes_eq self.now xsd_string }
    {
        is_xsd_string(self.as_str())
    }
}
