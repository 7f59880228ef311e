//! Numbers as decimal digits.
ghost use Rattle.std.specs.Prelude.{◌≡◌, IsTrue};
ghost use Rattle.std.specs.List.{list_all};
ghost use Rattle.std.specs.Char.{is_ascii_digit};
ghost use Rattle.reply_reading.specs.Counts.{count_of, is_numeral};

use std::str;

fn are_digits(text: &[u8]) -> bool
    ensures { result ≡ list_all is_ascii_digit text.now }
{
    text.iter().all(|byte| byte.is_ascii_digit())
}

fn is_numeral(text: &[u8]) -> bool
    ensures { result ≡ is_numeral text.now }
{
    text.len() > 0 && are_digits(text)
}

fn parsed(digits: &str) -> Option<u64>
    requires { IsTrue (is_numeral digits.now) }
    ensures { result ≡ count_of digits.now }
{
    match digits.parse::<u64>() {
        Ok(number) => Some(number),
        Err(_) => None,
    }
}

/// The number that decimal digits write, where it is below 2^64. There is none of a text that holds
/// anything else, a sign too.
pub fn count_of(text: &[u8]) -> Option<u64>
    ensures { result ≡ count_of text.now }
{
    if !is_numeral(text) {
        return None;
    }
    match str::from_utf8(text) {
        Ok(digits) => parsed(digits),
        Err(_) => None,
    }
}
