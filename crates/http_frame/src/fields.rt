//! Fields of heads, which names without case find (RFC 9110, section 5.1).
ghost use Rattle.std.specs.Prelude.{◌≡◌, ◌∷◌, [], ℕ, List, count_by, find, length, option_copied, reverse};
ghost use Rattle.std.specs.List.{list_any, slice_split};
ghost use Rattle.httparse.specs.Grammar.{is_ows, skip_ows, trim_ows};
ghost use Rattle.http_frame.specs.Fields.{same_name, is_named, values_of, has_token, has_option, is_element};
ghost use Rattle.http_frame.specs.Values.{AreValues};

use rdf_term::Seq;

/// A part of a field: its bytes.
pub type Octets = Seq<u8>;

/// The fields of a head, in order, each as its name and its value without the white space around it.
pub type Fields = Seq<(Octets, Octets)>;

/// Whether the names are equal without case.
pub fn same_name(name: &[u8], wanted: &[u8]) -> bool
    ensures { result ≡ same_name name.now wanted.now }
{
    name.eq_ignore_ascii_case(wanted)
}

/// The values of the fields of one name.
#[derive(Clone, Copy)]
pub enum Values<'a> {
    /// There is no such field.
    None,
    /// There is one, with this value.
    One(&'a [u8]),
    /// There are several.
    More,
}

fn count(fields: &[(Octets, Octets)], name: &[u8]) -> usize
    ensures { result ≡ count_by (is_named name.now) fields.now }
{
    fields
        .iter()
        .filter(|field| same_name(field.0.as_slice(), name))
        .count()
}

/// How many fields have this name.
pub fn count_named(fields: &[(Octets, Octets)], name: &[u8]) -> usize
    ensures fields { result ≡ count_by (is_named name.now) fields.now }
    ensures values { result ≡ length (values_of name.now fields.now) }
{
    count(fields, name)
}

/// The first field of this name.
pub fn find_named<'a>(fields: &'a [(Octets, Octets)], name: &[u8]) -> Option<&'a (Octets, Octets)>
    ensures { option_copied result ≡ find (is_named name.now) fields.now }
{
    fields
        .iter()
        .find(|field| same_name(field.0.as_slice(), name))
}

/// The values of the fields of this name.
pub(crate) fn values_named<'a>(fields: &'a [(Octets, Octets)], name: &[u8]) -> Values<'a>
    ensures { AreValues (values_of name.now fields.now) result }
{
    match find_named(fields, name) {
        None => Values::None,
        Some(field) => {
            if count_named(fields, name) > 1 {
                Values::More
            } else {
                Values::One(field.1.as_slice())
            }
        }
    }
}

fn is_ows(byte: u8) -> bool
    ensures { result ≡ is_ows byte }
{
    byte == b' ' || byte == b'\t'
}

/// The bytes from the first on that is no white space.
fn skip_ows(bytes: &[u8]) -> &[u8]
    ensures { result.now ≡ skip_ows bytes.now }
{
    let mut rest = bytes;
    while let [first, others @ ..] = rest {
        if !is_ows(*first) {
            return rest;
        }
        rest = others;
    }
    rest
}

/// The bytes up to the last one that is no white space.
fn skip_ows_behind(bytes: &[u8]) -> &[u8]
    ensures { result.now ≡ reverse (skip_ows (reverse bytes.now)) }
{
    let mut rest = bytes;
    while let [others @ .., last] = rest {
        if !is_ows(*last) {
            return rest;
        }
        rest = others;
    }
    rest
}

/// The bytes without the spaces and tabs at both ends.
#[tactic(auto, unfolding(httparse::specs::Grammar::trim_ows))]
pub fn trim_ows(bytes: &[u8]) -> &[u8]
    ensures { result.now ≡ trim_ows bytes.now }
{
    skip_ows_behind(skip_ows(bytes))
}

fn is_element(element: &[u8], token: &[u8]) -> bool
    ensures { result ≡ is_element token.now element.now }
{
    same_name(trim_ows(element), token)
}

/// Whether a list of tokens, cut at commas, has this one.
fn has_token(value: &[u8], token: &[u8]) -> bool
    ensures { result ≡ has_token token.now value.now }
{
    value
        .split(|byte| *byte == b',')
        .any(|element| is_element(element, token))
}

/// Whether a field of this name is a list of tokens that has this one.
pub(crate) fn has_option(fields: &[(Octets, Octets)], name: &[u8], token: &[u8]) -> bool
    ensures { result ≡ has_option name.now token.now fields.now }
{
    fields.iter().any(|field| same_name(field.0.as_slice(), name)
        && has_token(field.1.as_slice(), token))
}
