ghost use Rattle.std.specs.Prelude.{◌≡◌};
ghost use Rattle.query_tokens.specs.Scanner.{lookup, marks_begin, from_start, in_prefix, from_letters, in_escape_of_local, in_local, in_label, quoted_kind, in_quotes, in_escape, hexed, in_hex, from_hex, when, either, closed_or_inside, in_number, signed, from_prefix, from_colon, next_in_name, next_in_quotes, next_in_tag, next_in_number, next, accepts};

use crate::Number;
use crate::class::{
    is_alphanumeric, is_exponent_mark, is_local_char, is_local_escape, is_local_start, is_sign,
};
use crate::kind::{Kind, Quoted};
use query_model::{is_label_start, is_name_char, is_var_char};
use rdf_term::{is_digit, is_hex_digit, is_letter, is_pn_chars_base};

/// What the characters of a token so far are.
#[derive(Clone, Copy, Debug)]
pub enum State {
    Start,
    /// Letters: a word, or the front of a prefix.
    Letters,
    /// A prefix, behind a character with which it may end.
    Prefix,
    PrefixDot,
    Colon,
    /// A local part, behind a character with which it may end.
    Local,
    LocalDot,
    Percent,
    PercentDigit,
    LocalEscape,
    Question,
    Dollar,
    Variable,
    Underscore,
    LabelColon,
    LabelChars,
    LabelDot,
    Less,
    /// Behind the mark that opens a string.
    Opened(Quoted),
    /// Behind the marks of an empty string.
    Emptied(Quoted),
    Inside(Quoted),
    /// Behind a backslash.
    Escape(Quoted),
    /// In the digits of an escape: how many come after the next one, and the number so far.
    Hex(Quoted, u8, u32),
    At,
    TagLetters,
    TagDash,
    TagPart,
    /// A sign, which is the mark of that kind where no number follows.
    Sign(Kind),
    Digits(Number),
    DigitsDot,
    SignDot,
    Dot,
    Fraction,
    Exponent,
    ExponentSign,
    ExponentDigits,
    Caret,
    /// A whole token, which nothing continues.
    Done(Kind),
}

/// Where a mark leads, with which a token begins.
fn begun_by_mark(c: char) -> Option<State>
    ensures { result ≡ lookup marks_begin c }
{
    match c {
        ':' => Some(State::Colon),
        '?' => Some(State::Question),
        '$' => Some(State::Dollar),
        '_' => Some(State::Underscore),
        '<' => Some(State::Less),
        '"' => Some(State::Opened(Quoted::Double)),
        '\'' => Some(State::Opened(Quoted::Single)),
        '@' => Some(State::At),
        '+' => Some(State::Sign(Kind::Unsupported)),
        '-' => Some(State::Sign(Kind::Other)),
        '.' => Some(State::Dot),
        '^' => Some(State::Caret),
        '{' => Some(State::Done(Kind::Open)),
        '}' => Some(State::Done(Kind::Close)),
        ';' => Some(State::Done(Kind::Semicolon)),
        ',' => Some(State::Done(Kind::Comma)),
        '*' => Some(State::Done(Kind::Star)),
        '[' | '(' | '/' | '|' | '!' => Some(State::Done(Kind::Unsupported)),
        ']' | ')' | '=' | '>' | '&' => Some(State::Done(Kind::Other)),
        _ => None,
    }
}

fn from_start(c: char) -> Option<State>
    ensures { result ≡ from_start c }
{
    if is_letter(c) {
        Some(State::Letters)
    } else if is_pn_chars_base(c) {
        Some(State::Prefix)
    } else if is_digit(c) {
        Some(State::Digits(Number::Digits))
    } else {
        begun_by_mark(c)
    }
}

fn in_prefix(c: char) -> Option<State>
    ensures { result ≡ in_prefix c }
{
    if is_name_char(c) {
        Some(State::Prefix)
    } else if c == '.' {
        Some(State::PrefixDot)
    } else {
        None
    }
}

fn from_letters(c: char) -> Option<State>
    ensures { result ≡ from_letters c }
{
    if is_letter(c) {
        Some(State::Letters)
    } else if c == ':' {
        Some(State::Colon)
    } else {
        in_prefix(c)
    }
}

fn from_prefix(c: char) -> Option<State>
    ensures { result ≡ from_prefix c }
{
    if c == ':' {
        Some(State::Colon)
    } else {
        in_prefix(c)
    }
}

/// Where `%` and a backslash lead in a local part.
fn in_escape_of_local(c: char) -> Option<State>
    ensures { result ≡ in_escape_of_local c }
{
    if c == '%' {
        Some(State::Percent)
    } else if c == '\\' {
        Some(State::LocalEscape)
    } else {
        None
    }
}

fn in_local(c: char) -> Option<State>
    ensures { result ≡ in_local c }
{
    if is_local_char(c) {
        Some(State::Local)
    } else if c == '.' {
        Some(State::LocalDot)
    } else {
        in_escape_of_local(c)
    }
}

fn from_colon(c: char) -> Option<State>
    ensures { result ≡ from_colon c }
{
    if is_local_start(c) {
        Some(State::Local)
    } else {
        in_escape_of_local(c)
    }
}

fn in_label(c: char) -> Option<State>
    ensures { result ≡ in_label c }
{
    if is_name_char(c) {
        Some(State::LabelChars)
    } else if c == '.' {
        Some(State::LabelDot)
    } else {
        None
    }
}

/// What a whole text between these marks is.
fn quoted_kind(form: Quoted) -> Kind
    ensures { result ≡ quoted_kind form }
{
    match form {
        Quoted::Iri => Kind::Iri,
        Quoted::Double | Quoted::Single => Kind::Str,
    }
}

/// Where a character other than the closing mark leads between two marks.
fn in_quotes(form: Quoted, c: char) -> Option<State>
    ensures { result ≡ in_quotes form c }
{
    if c == '\\' {
        Some(State::Escape(form))
    } else if form.is_raw(c) {
        Some(State::Inside(form))
    } else {
        None
    }
}

/// The state `to` behind the mark that closes the text, else one between the marks.
fn closed_or_inside(form: Quoted, to: State, c: char) -> Option<State>
    ensures { result ≡ closed_or_inside form to c }
{
    if c == form.closing() {
        Some(to)
    } else {
        in_quotes(form, c)
    }
}

fn in_escape(form: Quoted, c: char) -> Option<State>
    ensures { result ≡ in_escape form c }
{
    if c == 'u' {
        Some(State::Hex(form, 3, 0))
    } else if c == 'U' {
        Some(State::Hex(form, 7, 0))
    } else if form.is_short_escape(c) {
        Some(State::Inside(form))
    } else {
        None
    }
}

/// The number that a digit makes of one, and `None` where none that begins so is a character's.
pub fn hexed(number: u32, c: char) -> Option<u32>
    ensures { result ≡ hexed number c }
{
    if is_hex_digit(c) & (number <= 0x1_0FFF) {
        match c.to_digit(16) {
            Some(digit) => Some(number * 16 + digit),
            None => None,
        }
    } else {
        None
    }
}

fn in_hex(form: Quoted, left: u8, number: u32) -> Option<State>
    ensures { result ≡ in_hex form left number }
{
    if left > 0 {
        return Some(State::Hex(form, left - 1, number));
    }
    match char::from_u32(number) {
        Some(_) => Some(State::Inside(form)),
        None => None,
    }
}

fn from_hex(form: Quoted, left: u8, number: u32, c: char) -> Option<State>
    ensures { result ≡ from_hex form left number c }
{
    match hexed(number, c) {
        Some(number) => in_hex(form, left, number),
        None => None,
    }
}

/// The state, where the test holds.
fn when(holds: bool, to: State) -> Option<State>
    ensures { result ≡ when holds to }
{
    if holds { Some(to) } else { None }
}

/// The first state where the first test holds, else the second state where the second one does.
fn either(first: bool, to: State, second: bool, other: State) -> Option<State>
    ensures { result ≡ either first to second other }
{
    if first { Some(to) } else { when(second, other) }
}

/// Where a character leads behind the digits of a number.
fn in_number(c: char, to: State) -> Option<State>
    ensures { result ≡ in_number c to }
{
    either(is_digit(c), to, is_exponent_mark(c), State::Exponent)
}

/// Where a character leads from a state between two marks.
fn next_in_quotes(state: State, c: char) -> Option<State>
    ensures { result ≡ next_in_quotes state c }
{
    match state {
        State::Less => closed_or_inside(Quoted::Iri, State::Done(Kind::Iri), c),
        State::Opened(form) => closed_or_inside(form, State::Emptied(form), c),
        State::Emptied(form) => when(c == form.closing(), State::Done(Kind::Quotes)),
        State::Inside(form) => closed_or_inside(form, State::Done(quoted_kind(form)), c),
        State::Escape(form) => in_escape(form, c),
        State::Hex(form, left, number) => from_hex(form, left, number, c),
        _ => None,
    }
}

/// Where a character leads behind a sign.
fn signed(c: char) -> Option<State>
    ensures { result ≡ signed c }
{
    let digits = State::Digits(Number::Integer);
    either(is_digit(c), digits, c == '.', State::SignDot)
}

/// Where a character leads from a state of a number.
fn next_in_number(state: State, c: char) -> Option<State>
    ensures { result ≡ next_in_number state c }
{
    match state {
        State::Sign(_) => signed(c),
        State::Digits(kind) => {
            if c == '.' {
                Some(State::DigitsDot)
            } else {
                in_number(c, State::Digits(kind))
            }
        }
        State::DigitsDot | State::Fraction => in_number(c, State::Fraction),
        State::SignDot | State::Dot => when(is_digit(c), State::Fraction),
        State::Exponent => {
            either(
                is_digit(c),
                State::ExponentDigits,
                is_sign(c),
                State::ExponentSign,
            )
        }
        State::ExponentSign | State::ExponentDigits => when(is_digit(c), State::ExponentDigits),
        _ => None,
    }
}

/// Where a character leads from a state of a language tag.
fn next_in_tag(state: State, c: char) -> Option<State>
    ensures { result ≡ next_in_tag state c }
{
    match state {
        State::At => when(is_letter(c), State::TagLetters),
        State::TagLetters => either(is_letter(c), State::TagLetters, c == '-', State::TagDash),
        State::TagDash => when(is_alphanumeric(c), State::TagPart),
        State::TagPart => either(is_alphanumeric(c), State::TagPart, c == '-', State::TagDash),
        _ => None,
    }
}

/// Where a character leads from a state of a word or a prefixed name.
fn next_in_name(state: State, c: char) -> Option<State>
    ensures { result ≡ next_in_name state c }
{
    match state {
        State::Letters => from_letters(c),
        State::Prefix => from_prefix(c),
        State::PrefixDot => in_prefix(c),
        State::Colon => from_colon(c),
        State::Local | State::LocalDot => in_local(c),
        State::Percent => when(is_hex_digit(c), State::PercentDigit),
        State::PercentDigit => when(is_hex_digit(c), State::Local),
        State::LocalEscape => when(is_local_escape(c), State::Local),
        _ => None,
    }
}

/// Where a character leads.
pub fn next(state: State, c: char) -> Option<State>
    ensures { result ≡ next state c }
{
    match state {
        State::Start => from_start(c),
        State::Letters
        | State::Prefix
        | State::PrefixDot
        | State::Colon
        | State::Local
        | State::LocalDot
        | State::Percent
        | State::PercentDigit
        | State::LocalEscape => next_in_name(state, c),
        State::Question | State::Dollar => when(is_label_start(c), State::Variable),
        State::Variable => when(is_var_char(c), State::Variable),
        State::Underscore => when(c == ':', State::LabelColon),
        State::LabelColon => when(is_label_start(c), State::LabelChars),
        State::LabelChars | State::LabelDot => in_label(c),
        State::Less
        | State::Opened(_)
        | State::Emptied(_)
        | State::Inside(_)
        | State::Escape(_)
        | State::Hex(..) => next_in_quotes(state, c),
        State::At | State::TagLetters | State::TagDash | State::TagPart => next_in_tag(state, c),
        State::Caret => when(c == '^', State::Done(Kind::Carets)),
        State::Done(_) => None,
        _ => next_in_number(state, c),
    }
}

/// What a token that ends here is.
pub fn accepts(state: State) -> Option<Kind>
    ensures { result ≡ accepts state }
{
    match state {
        State::Letters => Some(Kind::Word),
        State::Colon => Some(Kind::Namespace),
        State::Local => Some(Kind::Name),
        State::Question | State::Less | State::At => Some(Kind::Other),
        State::Variable => Some(Kind::Var),
        State::LabelChars => Some(Kind::Label),
        State::Emptied(form) => Some(quoted_kind(form)),
        State::TagLetters | State::TagPart => Some(Kind::Tag),
        State::Sign(kind) | State::Done(kind) => Some(kind),
        State::Digits(kind) => Some(Kind::Number(kind)),
        State::Dot => Some(Kind::Dot),
        State::Fraction => Some(Kind::Number(Number::Decimal)),
        State::ExponentDigits => Some(Kind::Number(Number::Double)),
        State::Caret => Some(Kind::Unsupported),
        _ => None,
    }
}
