ghost use Rattle.std.specs.Prelude.{◌≡◌, OnOk};
ghost use Rattle.std.specs.Str.{chars};

use std::alloc::AllocError;

/// Puts the characters of a text in the place of what the buffer holds. Memory is taken at most
/// once, where the buffer has too little.
pub fn decode(text: &str, buffer: &mut Vec<char>) -> Result<(), AllocError>
    ensures { OnOk result (buffer.new.items ≡ chars text.now) }
{
    buffer.clear();
    buffer.reserve(text.len())?;
    buffer.extend(text.chars())
}
