ghost use Rattle.std.specs.Prelude.{◌≡◌, ◌<◌, length, IfOk, IfSome, OnErr};
ghost use Rattle.std.specs.Str.{chars};
ghost use Rattle.query_tokens.specs.Tokens.{IsFirstOf};

use crate::front::{behind, bytes_before, is_end};
use crate::scan::first_token;
use crate::space::from_token;
use crate::{Placed, Token};
use rdf_term::Memory;
use std::alloc::Global;
use std::marker::Model;

/// Reads the tokens of a text one at a time. Contracts see how many bytes were read and the
/// characters that are left.
#[derive(Drop)]
pub struct Tokens<'a> {
    alloc: Global,
    /// What is left of the text.
    rest: &'a str,
    /// The bytes before it.
    start: usize,
    /// How many of its characters were searched for the end of a prefix in vain.
    searched: usize,
}

impl<'a> Model for Tokens<'a> {
    ghost use Rattle.std.specs.Prelude.{◌+◌, ◌<◌, ◌^◌};
    ghost use Rattle.std.specs.Str.{chars};
    ghost use Rattle.query_tokens.specs.Tokens.{Left, byte_count};

    ghost Value = { Left };

    ghost use Rattle.query_tokens.specs.Scanner.{IsSearched};

    ghost view = { λ t. record { start = t.start; text = chars t.rest.now } };

    ghost invariant = { λ t.
        IsSearched t.searched (chars t.rest.now) × (t.start + byte_count (chars t.rest.now) < 2 ^ 64) };
}

impl<'a> Tokens<'a> {
    /// The reader of a text, of which nothing was read. It takes no memory.
    pub fn new(alloc: Global, text: &'a str) -> Tokens<'a>
        ensures { result ≡ record { start = 0; text = chars text.now } }
    {
        Tokens {
            alloc,
            rest: text,
            start: 0,
            searched: 0,
        }
    }

    /// The first token of what is left, with the byte at which it begins: the longest one behind the
    /// white space and comments. Where no token begins, it is `Bad`, and nothing is left. Without
    /// memory the reader stays as it was.
    pub fn next(&mut self) -> Result<Option<Placed>, Memory>
        ensures first { IfOk result (λ first. IsFirstOf self.old first self.new) }
        ensures shorter { IfOk result (λ first. IfSome first (λ _. length self.new.text < length self.old.text)) }
        ensures unchanged { OnErr result (self.new ≡ self.old) }
    {
        let (here, skipped) = from_token(self.rest);
        if is_end(here) {
            return Ok(None);
        }
        let start = self.start + bytes_before(self.rest, here);
        let searched = self.searched.saturating_sub(skipped);
        let (first, further) = first_token(self.alloc, here, searched)?;
        match first {
            None => {
                self.searched = 0;
                self.start = start + bytes_before(here, "");
                self.rest = "";
                Ok(Some(Placed {
                    token: Token::Bad,
                    start,
                }))
            }
            Some((token, count)) => {
                let rest = behind(here, count);
                self.searched = further.saturating_sub(count);
                self.start = start + bytes_before(here, rest);
                self.rest = rest;
                Ok(Some(Placed { token, start }))
            }
        }
    }
}
