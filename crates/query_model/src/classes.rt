//! The classes of characters of the SPARQL 1.1 grammar (section 19.8) that names and labels are made of.
ghost use Rattle.std.specs.Prelude.{◌≡◌};
ghost use Rattle.query_model.specs.WellFormed.{is_name_start, is_var_char, is_name_char, is_label_start};

use rdf_term::{is_digit, is_pn_chars_base};

/// PN_CHARS_U.
fn is_name_start(character: char) -> bool
    ensures { result ≡ is_name_start character }
{
    is_pn_chars_base(character) || character == '_'
}

/// Whether a variable's name may go on with the character.
pub fn is_var_char(character: char) -> bool
    ensures { result ≡ is_var_char character }
{
    is_name_start(character)
        || matches!(character,
            '0'..='9' | '\u{B7}' | '\u{300}'..='\u{36F}' | '\u{203F}'..='\u{2040}')
}

/// PN_CHARS.
pub fn is_name_char(character: char) -> bool
    ensures { result ≡ is_name_char character }
{
    is_var_char(character) || character == '-'
}

/// Whether a variable's name and a label may begin with the character.
pub fn is_label_start(character: char) -> bool
    ensures { result ≡ is_label_start character }
{
    is_name_start(character) || is_digit(character)
}
