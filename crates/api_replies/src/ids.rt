//! IDs of repositories.
ghost use Rattle.std.specs.Prelude.{◌≡◌, length, nat_le};
ghost use Rattle.std.specs.List.{list_all};
ghost use Rattle.std.specs.Str.{chars};
ghost use Rattle.api_replies.specs.Ids.{is_id, is_id_char};

use rdf_term::Text;

fn is_id_char(character: char) -> bool
    ensures { result ≡ is_id_char character }
{
    (character.is_ascii_alphanumeric() || character == '_') || character == '-'
}

fn are_id_chars(text: &str) -> bool
    ensures { result ≡ list_all is_id_char (chars text.now) }
{
    text.chars().all(|character| is_id_char(character))
}

/// Whether a text has at most 64 characters.
fn is_short(text: &str) -> bool
    ensures { result ≡ nat_le (length (chars text.now)) 64 }
{
    text.chars().count() <= 64
}

fn is_id_text(text: &str) -> bool
    ensures { result ≡ is_id (chars text.now) }
{
    match text.chars().next() {
        None => false,
        Some(first) => first.is_ascii_alphanumeric() & is_short(text) & are_id_chars(text),
    }
}

/// Whether a text is the ID of a repository: a letter or a digit of ASCII, and then up to 63 letters,
/// digits, `_` or `-`.
pub fn is_id(text: &Text) -> bool
    ensures { result ≡ is_id text.now }
{
    is_id_text(text.as_str())
}
