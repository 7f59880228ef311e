ghost use Rattle.std.specs.Prelude.{◌≡◌, drop};
ghost use Rattle.std.specs.Str.{chars};
ghost use Rattle.query_tokens.specs.Scanner.{in_space};
ghost use Rattle.query_tokens.specs.Tokens.{is_blank, is_line_end, from_token};

use crate::front::first_char;

fn is_line_end(c: char) -> bool
    ensures { result ≡ is_line_end c }
{
    matches!(c, '\n' | '\r')
}

fn is_blank(c: char) -> bool
    ensures { result ≡ is_blank c }
{
    matches!(c, ' ' | '\t' | '\n' | '\r')
}

/// Whether a comment goes on behind a character, where that belongs to white space or a comment.
fn in_space(in_comment: bool, c: char) -> Option<bool>
    ensures { result ≡ in_space in_comment c }
{
    if in_comment {
        Some(!is_line_end(c))
    } else if is_blank(c) {
        Some(false)
    } else if c == '#' {
        Some(true)
    } else {
        None
    }
}

/// What stands behind white space and comments, and how many characters these are.
pub fn from_token(text: &str) -> (&str, usize)
    ensures rest { chars result.0.now ≡ from_token (chars text.now) }
    ensures count { chars result.0.now ≡ drop result.1 (chars text.now) }
{
    let mut left = text;
    let mut count = 0usize;
    let mut in_comment = false;
    while let Some((c, rest)) = first_char(left) {
        match in_space(in_comment, c) {
            None => return (left, count),
            Some(goes_on) => in_comment = goes_on,
        }
        left = rest;
        count += 1;
    }
    (left, count)
}
