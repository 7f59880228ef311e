ghost use Rattle.std.specs.Prelude.{◌≡◌, ◌++◌, ◌∷◌, [], OnOk, codes};
ghost use Rattle.std.specs.Fmt.{decimal};
ghost use Rattle.std.specs.Str.{chars};
ghost use Rattle.query_print.specs.Printed.{spaced};

use rdf_term::{Memory, Text};
use std::alloc::Global;

/// Appends the characters of a text.
pub fn put_text(text: &Text, out: &mut Text) -> Result<(), Memory>
    ensures { OnOk result (out.new ≡ out.old ++ text.now) }
{
    out.append(text.as_str())
}

/// Appends a word, with a space before it.
pub fn put_word(word: &str, out: &mut Text) -> Result<(), Memory>
    ensures { OnOk result (out.new ≡ out.old ++ spaced (chars word.now ∷ [])) }
{
    out.push(' ')?;
    out.append(word)
}

/// Appends a number, with a space before it.
pub fn put_number(alloc: Global, number: u64, out: &mut Text) -> Result<(), Memory>
    ensures { OnOk result (out.new ≡ out.old ++ spaced (decimal number ∷ [])) }
{
    let digits = format!(in alloc; "{number}")?;
    put_word(digits.as_str(), out)
}
