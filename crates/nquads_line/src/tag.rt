ghost use Rattle.std.specs.Prelude.{◌≡◌, ◌≤◌, length};
ghost use Rattle.std.specs.List.{prefix_len};
ghost use Rattle.nquads_line.specs.Reading.{Gives, is_tag_char, tag_at};

use crate::LineFault;
use rdf_term::{Text, is_digit, is_letter};
use std::alloc::Global;

fn is_tag_char(character: char) -> bool
    ensures { result ≡ is_tag_char character }
{
    is_letter(character) || is_digit(character) || character == '-'
}

/// How many characters can continue a tag.
fn tag_len(chars: &[char]) -> usize
    ensures value { result ≡ prefix_len is_tag_char chars.now }
    ensures within { result ≤ length chars.now }
{
    for (i, character) in chars.iter().enumerate() {
        if !is_tag_char(*character) {
            return i;
        }
    }
    chars.len()
}

/// A language tag without `@`, and what stands after it.
pub fn tag(alloc: Global, chars: &[char]) -> Result<(Text, &[char]), LineFault>
    ensures { Gives (λ x. (x.0, x.1.now)) result (tag_at chars.now) }
{
    let count = tag_len(chars);
    let text = Text::from_char_slice(alloc, &chars[..count])?;
    if text.is_tag() {
        Ok((text, &chars[count..]))
    } else {
        Err(LineFault::Bad)
    }
}
