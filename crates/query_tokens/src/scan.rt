ghost use Rattle.std.specs.Prelude.{◌≡◌, IfOk, MatchOption, OnOk, take};
ghost use Rattle.std.specs.Str.{chars};
ghost use Rattle.query_tokens.specs.Scanner.{longest, better, emitted, token_of, has_text, IsSearched, is_named, is_prefix, put, searched_to};
ghost use Rattle.query_tokens.specs.Tokens.{IsRead, BeginsNone};
ghost use Rattle.query_tokens.specs.declared.state.State.TheVariants as state;

use crate::Token;
use crate::emit::{Part, emit};
use crate::front::first_char;
use crate::kind::Kind;
use crate::state::{State, accepts, next};
use crate::word::word;
use rdf_term::{Memory, Text};
use std::alloc::Global;

fn better(best: Option<(usize, Kind)>, count: usize, kind: Option<Kind>) -> Option<(usize, Kind)>
    ensures { result ≡ better best count kind }
{
    match kind {
        None => best,
        Some(kind) => Some((count, kind)),
    }
}

/// Whether the characters so far are the front of a prefix.
fn is_named(state: State) -> bool
    ensures { result ≡ is_named state }
{
    matches!(state, State::Letters | State::Prefix | State::PrefixDot)
}

/// Whether they are the front of a prefix and of nothing else.
fn is_prefix(state: State) -> bool
    ensures { result ≡ is_prefix state }
{
    matches!(state, State::Prefix | State::PrefixDot)
}

/// How far prefixes were searched in vain, once the machine stopped behind `count` characters.
fn searched_to(named: bool, state: State, count: usize, searched: usize) -> usize
    ensures { result ≡ searched_to named state count searched }
{
    if named & is_prefix(state) {
        count
    } else {
        searched
    }
}

/// How many characters the longest token has with which the text begins, and what it is.
///
/// Words with dots and dashes between them may be the front of a prefix as far as they go. So that
/// they aren't searched for its colon from each word again, `searched` says how many characters were
/// searched in vain, and the answer says how many were by now.
fn longest(text: &str, searched: usize) -> (Option<(usize, Kind)>, usize)
    requires { IsSearched searched (chars text.now) }
    ensures found { result.0 ≡ longest state.Start (chars text.now) }
    ensures searched { IsSearched result.1 (chars text.now) }
{
    let mut state = State::Start;
    let mut best = None;
    let mut named = true;
    let mut left = text;
    let mut i = 0usize;
    while let Some((c, rest)) = first_char(left) {
        match next(state, c) {
            None => return (best, searched_to(named, state, i, searched)),
            Some(after) => {
                if is_prefix(after) & (i + 1 < searched) {
                    return (best, searched);
                }
                best = better(best, i + 1, accepts(after));
                named = named & is_named(after);
                state = after;
                left = rest;
                i += 1;
            }
        }
    }
    (best, searched_to(named, state, i, searched))
}

/// Adds what a character adds to the texts of its token.
fn put(part: Part, first: &mut Text, second: &mut Text) -> Result<(), Memory>
    ensures { OnOk result (record { first = first.new; second = second.new } ≡ put part (record { first = first.old; second = second.old })) }
{
    match part {
        Part::First(character) => first.push(character),
        Part::Second(character) => second.push(character),
        Part::Nothing => Ok(()),
    }
}

/// The texts of the token of so many characters: its own or a prefix, and a local part.
fn texts(alloc: Global, text: &str, count: usize) -> Result<(Text, Text), Memory>
    ensures { IfOk result (λ t. record { first = t.0; second = t.1 } ≡ emitted state.Start (take count (chars text.now))) }
{
    let mut state = State::Start;
    let mut first = Text::new(alloc);
    let mut second = Text::new(alloc);
    let mut left = text;
    let mut to_come = count;
    while to_come > 0 {
        let Some((c, rest)) = first_char(left) else {
            return Ok((first, second));
        };
        let Some(after) = next(state, c) else {
            return Ok((first, second));
        };
        put(emit(state, after, c), &mut first, &mut second)?;
        state = after;
        left = rest;
        to_come -= 1;
    }
    Ok((first, second))
}

/// Whether a token of this kind has a text.
fn has_text(kind: Kind) -> bool
    ensures { result ≡ has_text kind }
{
    match kind {
        Kind::Word | Kind::Namespace | Kind::Name | Kind::Iri | Kind::Str => true,
        Kind::Var | Kind::Label | Kind::Tag | Kind::Number(_) => true,
        _ => false,
    }
}

/// The token of a kind with these texts.
fn named(kind: Kind, first: Text, second: Text) -> Token
    ensures { result ≡ token_of kind (record { first = first; second = second }) }
{
    match kind {
        Kind::Word => word(first.as_str()),
        Kind::Namespace => Token::Namespace(first),
        Kind::Name => Token::Name(first, second),
        Kind::Iri => Token::Iri(first),
        Kind::Str => Token::Str(first),
        Kind::Quotes => Token::Quotes,
        Kind::Var => Token::Var(first),
        Kind::Label => Token::Label(first),
        Kind::Tag => Token::Tag(first),
        Kind::Number(number) => Token::Number(number, first),
        Kind::Open => Token::Open,
        Kind::Close => Token::Close,
        Kind::Dot => Token::Dot,
        Kind::Semicolon => Token::Semicolon,
        Kind::Comma => Token::Comma,
        Kind::Carets => Token::Carets,
        Kind::Star => Token::Star,
        Kind::Unsupported => Token::Unsupported,
        Kind::Other => Token::Other,
    }
}

/// The token of a kind that the first characters spell. A mark takes no memory.
fn token(alloc: Global, kind: Kind, text: &str, count: usize) -> Result<Token, Memory>
    ensures { IfOk result (λ t. t ≡ token_of kind (emitted state.Start (take count (chars text.now)))) }
{
    if !has_text(kind) {
        return Ok(named(kind, Text::new(alloc), Text::new(alloc)));
    }
    let (first, second) = texts(alloc, text, count)?;
    Ok(named(kind, first, second))
}

/// The first token of a text and how many characters it has, where a token begins the text, and how
/// many characters were searched for the end of a prefix in vain.
pub fn first_token(
    alloc: Global,
    text: &str,
    searched: usize,
) -> Result<(Option<(Token, usize)>, usize), Memory>
    requires { IsSearched searched (chars text.now) }
    ensures first { IfOk result (λ found. MatchOption found.0 (BeginsNone (chars text.now)) (λ x. IsRead (chars text.now) x.0 x.1)) }
    ensures searched { IfOk result (λ found. IsSearched found.1 (chars text.now)) }
{
    let (found, searched) = longest(text, searched);
    match found {
        None => Ok((None, searched)),
        Some((count, kind)) => {
            let token = token(alloc, kind, text, count)?;
            Ok((Some((token, count)), searched))
        }
    }
}
