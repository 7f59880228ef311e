ghost use Rattle.std.specs.Prelude.{◌≡◌};
ghost use Rattle.query_tokens.specs.Words.{word_of, is_form_word, is_pattern_word, is_update_word, is_left_out};

use crate::Token;

/// Whether the word belongs to a query form, a data set or a modifier that the profile hasn't.
fn is_form_word(word: &str) -> bool
    ensures { result ≡ is_form_word word.now }
{
    word.eq_ignore_ascii_case("base")
        | word.eq_ignore_ascii_case("from")
        | word.eq_ignore_ascii_case("describe")
        | word.eq_ignore_ascii_case("order")
        | word.eq_ignore_ascii_case("group")
        | word.eq_ignore_ascii_case("having")
}

/// Whether the word belongs to a graph pattern that the profile hasn't.
fn is_pattern_word(word: &str) -> bool
    ensures { result ≡ is_pattern_word word.now }
{
    word.eq_ignore_ascii_case("service")
        | word.eq_ignore_ascii_case("optional")
        | word.eq_ignore_ascii_case("union")
        | word.eq_ignore_ascii_case("minus")
        | word.eq_ignore_ascii_case("filter")
        | word.eq_ignore_ascii_case("bind")
        | word.eq_ignore_ascii_case("values")
        | word.eq_ignore_ascii_case("exists")
        | word.eq_ignore_ascii_case("not")
}

/// Whether the word belongs to an update.
fn is_update_word(word: &str) -> bool
    ensures { result ≡ is_update_word word.now }
{
    word.eq_ignore_ascii_case("load")
        | word.eq_ignore_ascii_case("clear")
        | word.eq_ignore_ascii_case("drop")
        | word.eq_ignore_ascii_case("create")
        | word.eq_ignore_ascii_case("insert")
        | word.eq_ignore_ascii_case("delete")
        | word.eq_ignore_ascii_case("with")
}

/// Whether the word is one that SPARQL 1.1 has and the profile hasn't.
fn is_left_out(word: &str) -> bool
    ensures { result ≡ is_left_out word.now }
{
    is_form_word(word) | is_pattern_word(word) | is_update_word(word)
}

/// The word of the profile that is spelled so.
pub fn word(text: &str) -> Token
    ensures { result ≡ word_of text.now }
{
    if text == "a" {
        Token::A
    } else if text == "true" {
        Token::True
    } else if text == "false" {
        Token::False
    } else if text.eq_ignore_ascii_case("prefix") {
        Token::Prefix
    } else if text.eq_ignore_ascii_case("select") {
        Token::Select
    } else if text.eq_ignore_ascii_case("distinct") {
        Token::Distinct
    } else if text.eq_ignore_ascii_case("reduced") {
        Token::Reduced
    } else if text.eq_ignore_ascii_case("construct") {
        Token::Construct
    } else if text.eq_ignore_ascii_case("ask") {
        Token::Ask
    } else if text.eq_ignore_ascii_case("where") {
        Token::Where
    } else if text.eq_ignore_ascii_case("graph") {
        Token::Graph
    } else if text.eq_ignore_ascii_case("limit") {
        Token::Limit
    } else if text.eq_ignore_ascii_case("offset") {
        Token::Offset
    } else if is_left_out(text) {
        Token::Unsupported
    } else {
        Token::Other
    }
}
