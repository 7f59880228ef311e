//! The tokens of the query profile of SPARQL 1.1 (section 19.8): words, marks, IRIs, prefixed names,
//! variables, labels, strings, language tags and numbers.
//!
//! [`Tokens`] reads the tokens of a text one at a time, each with its value and the byte at which it
//! begins. It is the longest token that begins there, behind white space and comments.
//!
//! What the profile has otherwise than SPARQL 1.1: `\u` and `\U` are escapes of IRIs and strings
//! alone, and where they name no Unicode scalar value there is no such token; three quotes in
//! succession are a token of their own, and begin no long string.
#![tactic(auto)]

mod class;
mod emit;
mod front;
mod kind;
mod laws;
mod read;
mod scan;
mod space;
mod state;
mod token;
mod word;

pub use laws::{each_has_tokens, one_token_list, parted_tokens};
pub use read::Tokens;
pub use token::{Number, Placed, Token};
