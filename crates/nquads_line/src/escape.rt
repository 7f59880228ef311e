ghost use Rattle.std.specs.Prelude.{◌≡◌, ◌≤◌, ◌+◌, ◌<◌, IsTrue, IfOk, SomeIff, length, drop};
ghost use Rattle.std.specs.List.{list_all, prefix_len};
ghost use Rattle.rdf_term.specs.Classes.{is_hex_digit};
ghost use Rattle.nquads_line.specs.Written.{hex_value, is_raw};
ghost use Rattle.nquads_line.specs.Reading.{Gives, with_front, hex_at, escape_at, piece_at, body_at};

use crate::LineFault;
use crate::quoted::Quoted;
use rdf_term::{Memory, Text, echar};
use std::alloc::Global;

/// The number that at most eight hexadecimal digits name.
fn hex_number(digits: &[char]) -> Option<u32>
    requires { length digits.now ≤ 8 }
    ensures { SomeIff result (IsTrue (list_all is_hex_digit digits.now)) (hex_value digits.now) }
{
    let mut number = 0u32;
    for digit in digits {
        match digit.to_digit(16) {
            Some(value) => number = number * 16 + value,
            None => return None,
        }
    }
    Some(number)
}

/// The character that so many digits name, and how many characters its escape takes after the
/// backslash.
fn hex_escape(chars: &[char], count: usize) -> Result<(char, usize), LineFault>
    requires { count ≤ 8 }
    ensures value { Gives (λ x. x) result (hex_at count chars.now) }
    ensures within { IfOk result (λ x. x.1 ≤ length chars.now + 1) }
{
    if chars.len() < count {
        return Err(LineFault::Bad);
    }
    let Some(number) = hex_number(&chars[..count]) else {
        return Err(LineFault::Bad);
    };
    match char::from_u32(number) {
        Some(character) => Ok((character, count + 1)),
        None => Err(LineFault::Bad),
    }
}

/// What an escape means, and how many characters it takes after the backslash.
fn escape(form: Quoted, chars: &[char]) -> Result<(char, usize), LineFault>
    ensures value { Gives (λ x. x) result (escape_at form chars.now) }
    ensures within { IfOk result (λ x. x.1 ≤ length chars.now) }
{
    match chars {
        [] => Err(LineFault::Bad),
        ['u', digits @ ..] => hex_escape(digits, 4),
        ['U', digits @ ..] => hex_escape(digits, 8),
        [mark, ..] => {
            let mark = *mark;
            if form == Quoted::Iri {
                return Err(LineFault::Bad);
            }
            match echar(mark) {
                Some(character) => Ok((character, 1)),
                None => Err(LineFault::Bad),
            }
        }
    }
}

/// The character that the first piece means, and how many characters it takes after its first.
fn piece(form: Quoted, first: char, chars: &[char]) -> Result<(char, usize), LineFault>
    ensures value { Gives (λ x. x) result (piece_at form first chars.now) }
    ensures within { IfOk result (λ x. x.1 ≤ length chars.now) }
{
    if first == '\\' {
        let (character, count) = escape(form, chars)?;
        if form.is_meant(character) {
            Ok((character, count))
        } else {
            Err(LineFault::Bad)
        }
    } else if form.is_raw(first) {
        Ok((first, 0))
    } else {
        Err(LineFault::Bad)
    }
}

/// What stands behind so many characters.
fn behind(chars: &[char], count: usize) -> &[char]
    requires { count ≤ length chars.now }
    ensures { result.now ≡ drop count chars.now }
{
    &chars[count..]
}

/// How many characters stand as they are before the first that does not.
fn raw_len(form: Quoted, chars: &[char]) -> usize
    ensures value { result ≡ prefix_len (is_raw form) chars.now }
    ensures within { result ≤ length chars.now }
{
    for (i, character) in chars.iter().enumerate() {
        if !form.is_raw(*character) {
            return i;
        }
    }
    chars.len()
}

/// The text with those characters behind it that stand as they are before the first that does not,
/// and what stands behind them.
fn with_run<'a>(form: Quoted, text: Text, chars: &'a [char]) -> Result<(Text, &'a [char]), Memory>
    ensures value { IfOk result (λ x. with_front x.0 (body_at form x.1.now 0) ≡ with_front text (body_at form chars.now 0)) }
    ensures within { IfOk result (λ x. length x.1.now ≤ length chars.now) }
{
    let raw = raw_len(form, chars);
    let longer = text.with_chars(&chars[..raw])?;
    Ok((longer, &chars[raw..]))
}

/// The characters that are meant before the closing mark, and what stands after it.
///
/// Those between escapes are taken at once.
pub fn body(alloc: Global, form: Quoted, chars: &[char]) -> Result<(Text, &[char]), LineFault>
    ensures { Gives (λ x. (x.0, x.1.now)) result (body_at form chars.now 0) }
{
    let (mut text, mut rest) = with_run(form, Text::new(alloc), chars)?;
    while let Some((first, after)) = rest.split_first() {
        if *first == form.closing() {
            return Ok((text, after));
        }
        let (character, count) = piece(form, *first, after)?;
        text.push(character)?;
        let (longer, left) = with_run(form, text, behind(after, count))?;
        text = longer;
        rest = left;
    }
    Err(LineFault::Bad)
}
