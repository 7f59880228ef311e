ghost use Rattle.std.specs.Prelude.{◌≡◌, ◌≢◌, ◌+◌, ◌≤◌, ◌∷◌, [], IfNone, IfSome, drop};
ghost use Rattle.std.specs.Bool.{OnFalse, OnTrue};
ghost use Rattle.std.specs.Str.{chars};
ghost use Rattle.query_tokens.specs.Tokens.{byte_count};

/// The first character of a text, and what stands behind it.
pub fn first_char(text: &str) -> Option<(char, &str)>
    ensures first { IfSome result (λ x. chars text.now ≡ x.0 ∷ chars x.1.now) }
    ensures none { IfNone result (chars text.now ≡ []) }
{
    let mut characters = text.chars();
    match characters.next() {
        None => None,
        Some(character) => Some((character, characters.as_str())),
    }
}

/// Whether a text has no character.
pub fn is_end(text: &str) -> bool
    ensures end { OnTrue result (chars text.now ≡ []) }
    ensures more { OnFalse result (chars text.now ≢ []) }
{
    match first_char(text) {
        None => true,
        Some(_) => false,
    }
}

/// What stands behind so many characters.
pub fn behind(text: &str, count: usize) -> &str
    ensures { chars result.now ≡ drop count (chars text.now) }
{
    let mut left = text;
    let mut to_come = count;
    while to_come > 0 {
        match first_char(left) {
            None => return left,
            Some((_, rest)) => left = rest,
        }
        to_come -= 1;
    }
    left
}

/// How many bytes stand before the rest of a text.
pub fn bytes_before(text: &str, rest: &str) -> usize
    requires { byte_count (chars rest.now) ≤ byte_count (chars text.now) }
    ensures { result + byte_count (chars rest.now) ≡ byte_count (chars text.now) }
{
    text.len() - rest.len()
}
