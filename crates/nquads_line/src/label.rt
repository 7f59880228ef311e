ghost use Rattle.std.specs.Prelude.{◌≡◌, ◌≤◌, ◌||◌, length};
ghost use Rattle.rdf_term.specs.Classes.{pn_chars_u, is_digit};
ghost use Rattle.nquads_line.specs.Reading.{Gives, label_len, label_from, label_at};

use crate::LineFault;
use crate::space::after;
use rdf_term::{Text, is_digit, is_pn_chars, is_pn_chars_u};
use std::alloc::Global;

/// PN_CHARS_U or a digit, with which a label begins.
fn begins_label(character: char) -> bool
    ensures { result ≡ (pn_chars_u character || is_digit character) }
{
    is_pn_chars_u(character) || is_digit(character)
}

/// How many characters continue a label, of which the last is no dot.
#[tactic(auto, using(crate::proofs::LabelLemmas::counting))]
fn label_len(chars: &[char]) -> usize
    ensures value { result ≡ label_len chars.now }
    ensures within { result ≤ length chars.now }
{
    let mut count = 0;
    for (i, character) in chars.iter().enumerate() {
        if is_pn_chars(*character) {
            count = i + 1;
            continue;
        }
        if *character != '.' {
            return count;
        }
    }
    count
}

/// A label without `_:`, and what stands after it.
fn label_from(alloc: Global, chars: &[char]) -> Result<(Text, &[char]), LineFault>
    ensures { Gives (λ x. (x.0, x.1.now)) result (label_from chars.now) }
{
    match chars {
        [] => Err(LineFault::Bad),
        [first, rest @ ..] => {
            if !begins_label(*first) {
                return Err(LineFault::Bad);
            }
            let mut text = Text::new(alloc);
            text.push(*first)?;
            let count = label_len(rest);
            Ok((text.with_chars(&rest[..count])?, &rest[count..]))
        }
    }
}

/// BLANK_NODE_LABEL, and what stands after it.
#[tactic(auto, unfolding(crate::specs::Reading::label_at))]
pub fn label(alloc: Global, chars: &[char]) -> Result<(Text, &[char]), LineFault>
    ensures { Gives (λ x. (x.0, x.1.now)) result (label_at chars.now) }
{
    let colon = after(chars, '_')?;
    let name = after(colon, ':')?;
    label_from(alloc, name)
}
