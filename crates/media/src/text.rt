//! Pieces of a field's value (RFC 9110, section 5.6).
ghost use Rattle.std.specs.Prelude.{◌≡◌, ◌==◌, ◌≤◌, length, reverse};
ghost use Rattle.std.specs.List.{after_first, before_first, list_all, position_or_len};
ghost use Rattle.std.specs.Str.{str_eq_ignore_ascii_case};
ghost use Rattle.media.specs.Pieces.{is_space, skip_spaces, trimmed, is_tchar, is_token};

/// Whether the byte is a space or a tab (OWS, section 5.6.3).
fn is_space(byte: u8) -> bool
    ensures { result ≡ is_space byte }
{
    byte == b' ' || byte == b'\t'
}

/// The text from its first byte on that is no white space.
fn skip_spaces(text: &[u8]) -> &[u8]
    ensures { result.now ≡ skip_spaces text.now }
{
    let mut rest = text;
    while let [first, others @ ..] = rest {
        if !is_space(*first) {
            return rest;
        }
        rest = others;
    }
    rest
}

/// The text up to its last byte that is no white space.
fn skip_spaces_behind(text: &[u8]) -> &[u8]
    ensures { result.now ≡ reverse (skip_spaces (reverse text.now)) }
{
    let mut rest = text;
    while let [others @ .., last] = rest {
        if !is_space(*last) {
            return rest;
        }
        rest = others;
    }
    rest
}

/// The text without the white space around it.
#[tactic(auto, unfolding(crate::specs::Pieces::trimmed))]
pub fn trimmed(text: &[u8]) -> &[u8]
    ensures { result.now ≡ trimmed text.now }
{
    skip_spaces_behind(skip_spaces(text))
}

/// The place of the first of these bytes; the end of the text where there is none.
fn place_of(text: &[u8], byte: u8) -> usize
    ensures value { result ≡ position_or_len (λ b. b == byte) text.now }
    ensures within { result ≤ length text.now }
{
    match text.iter().position(|b| *b == byte) {
        Some(place) => place,
        None => text.len(),
    }
}

/// What stands before the first of these bytes; the whole text where there is none.
pub fn before_first(text: &[u8], byte: u8) -> &[u8]
    ensures { result.now ≡ before_first (λ b. b == byte) text.now }
{
    &text[..place_of(text, byte)]
}

/// What stands behind the first of these bytes; nothing where there is none.
pub fn after_first(text: &[u8], byte: u8) -> &[u8]
    ensures { result.now ≡ after_first (λ b. b == byte) text.now }
{
    match &text[place_of(text, byte)..] {
        [_, behind @ ..] => behind,
        [] => &[],
    }
}

/// Whether the byte may stand in a token (tchar, section 5.6.2).
fn is_tchar(byte: u8) -> bool
    ensures { result ≡ is_tchar byte }
{
    byte.is_ascii_alphanumeric()
        || matches!(
            byte,
            b'!' | b'#'
                | b'$'
                | b'%'
                | b'&'
                | b'\''
                | b'*'
                | b'+'
                | b'-'
                | b'.'
                | b'^'
                | b'_'
                | b'`'
                | b'|'
                | b'~'
        )
}

fn are_tchars(text: &[u8]) -> bool
    ensures { result ≡ list_all is_tchar text.now }
{
    text.iter().all(|byte| is_tchar(*byte))
}

/// Whether the text is a token (section 5.6.2).
pub fn is_token(text: &[u8]) -> bool
    ensures { result ≡ is_token text.now }
{
    !text.is_empty() && are_tchars(text)
}

/// Whether two texts are equal without case.
pub fn same_text(text: &[u8], other: &[u8]) -> bool
    ensures { result ≡ str_eq_ignore_ascii_case text.now other.now }
{
    text.eq_ignore_ascii_case(other)
}
