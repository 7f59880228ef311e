ghost use Rattle.std.specs.Prelude.{◌≡◌};
ghost use Rattle.std.specs.Str.{chars};
ghost use Rattle.api_paths.specs.Prefixes.{begins_with_base, has_colon, is_prefix};

use rdf_term::{Text, is_pn_chars_base};

fn begins_with_base_char(text: &str) -> bool
    ensures { result ≡ begins_with_base (chars text.now) }
{
    match text.chars().next() {
        None => false,
        Some(first) => is_pn_chars_base(first),
    }
}

/// Whether a text begins with PN_CHARS_BASE.
fn begins_with_base(text: &Text) -> bool
    ensures { result ≡ begins_with_base text.now }
{
    begins_with_base_char(text.as_str())
}

/// Whether a text holds a colon.
fn has_colon(text: &Text) -> bool
    ensures { result ≡ has_colon text.now }
{
    text.as_str().as_bytes().iter().any(|byte| *byte == b':')
}

/// Whether a text is PNAME_NS without its colon, and not empty (SPARQL 1.1, section 19.8).
pub fn is_prefix(text: &Text) -> bool
    ensures { result ≡ is_prefix text.now }
{
    if !begins_with_base(text) {
        return false;
    }
    if has_colon(text) {
        return false;
    }
    text.is_label()
}
