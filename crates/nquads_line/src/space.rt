ghost use Rattle.std.specs.Prelude.{◌≡◌};
ghost use Rattle.std.specs.List.{list_all};
ghost use Rattle.nquads_line.specs.Terms.{is_space, is_comment_char};
ghost use Rattle.nquads_line.specs.Reading.{Gives, skip, mark_at, end_at};

use crate::LineFault;

fn is_space(character: char) -> bool
    ensures { result ≡ is_space character }
{
    character == ' ' || character == '\t'
}

/// What stands after white space.
pub fn skip(chars: &[char]) -> &[char]
    ensures { result.now ≡ skip chars.now }
{
    for (i, character) in chars.iter().enumerate() {
        if !is_space(*character) {
            return &chars[i..];
        }
    }
    &[]
}

/// What stands after the mark, which comes first.
pub fn after(chars: &[char], mark: char) -> Result<&[char], LineFault>
    ensures { Gives (λ x. x.now) result (mark_at mark chars.now) }
{
    match chars {
        [] => Err(LineFault::Bad),
        [first, rest @ ..] => {
            if *first == mark {
                Ok(rest)
            } else {
                Err(LineFault::Bad)
            }
        }
    }
}

fn is_comment_char(character: char) -> bool
    ensures { result ≡ is_comment_char character }
{
    character != '\r' && character != '\n'
}

/// Whether the characters hold no end of a line.
fn is_comment_text(chars: &[char]) -> bool
    ensures { result ≡ list_all is_comment_char chars.now }
{
    for character in chars {
        if !is_comment_char(*character) {
            return false;
        }
    }
    true
}

/// That nothing is left but a comment.
pub fn at_end(chars: &[char]) -> Result<(), LineFault>
    ensures { Gives (λ x. x) result (end_at chars.now) }
{
    match chars {
        [] => Ok(()),
        [first, comment @ ..] => {
            if *first == '#' && is_comment_text(comment) {
                Ok(())
            } else {
                Err(LineFault::Bad)
            }
        }
    }
}
