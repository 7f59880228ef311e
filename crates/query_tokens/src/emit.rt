ghost use Rattle.std.specs.Prelude.{◌≡◌};
ghost use Rattle.rdf_term.specs.Escapes.{echar_meaning};
ghost use Rattle.query_tokens.specs.Scanner.{entered, escaped, hex_part, emit};

use crate::state::{State, hexed};
use rdf_term::echar;

/// What a character adds to the texts of its token.
#[derive(Clone, Copy, Debug)]
pub enum Part {
    /// A character of the token's own text, or of a prefix.
    First(char),
    /// A character of a local part.
    Second(char),
    Nothing,
}

/// The character that ECHAR means behind its backslash; any other one means itself.
fn meant(mark: char) -> char
    ensures { result ≡ echar_meaning mark }
{
    match echar(mark) {
        Some(character) => character,
        None => mark,
    }
}

/// What a character that leads to this state adds.
fn entered(to: State, c: char) -> Part
    ensures { result ≡ entered to c }
{
    match to {
        State::Letters | State::Prefix | State::PrefixDot => Part::First(c),
        State::Local | State::LocalDot | State::Percent | State::PercentDigit => Part::Second(c),
        State::Variable | State::LabelChars | State::LabelDot => Part::First(c),
        State::Inside(_) => Part::First(c),
        State::TagLetters | State::TagDash | State::TagPart => Part::First(c),
        State::Sign(_) | State::Digits(_) | State::DigitsDot | State::SignDot => Part::First(c),
        State::Dot | State::Fraction | State::Exponent => Part::First(c),
        State::ExponentSign | State::ExponentDigits => Part::First(c),
        _ => Part::Nothing,
    }
}

/// The part, where an escape ends here.
fn escaped(to: State, part: Part) -> Part
    ensures { result ≡ escaped to part }
{
    match to {
        State::Inside(_) => part,
        _ => Part::Nothing,
    }
}

/// The character that a number and one more digit name.
fn hex_part(number: u32, c: char) -> Part
    ensures { result ≡ hex_part number c }
{
    match hexed(number, c) {
        None => Part::Nothing,
        Some(number) => match char::from_u32(number) {
            Some(character) => Part::First(character),
            None => Part::Nothing,
        },
    }
}

/// What a character that leads from one state to another adds.
pub fn emit(from: State, to: State, c: char) -> Part
    ensures { result ≡ emit from to c }
{
    match from {
        State::Escape(_) => escaped(to, Part::First(meant(c))),
        State::Hex(_, _, number) => escaped(to, hex_part(number, c)),
        _ => entered(to, c),
    }
}
