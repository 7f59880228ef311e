//! The classes of characters of RDF 1.1 N-Triples, section 7, by the names of its grammar.
ghost use Rattle.std.specs.Prelude.{◌≡◌};
ghost use Rattle.rdf_term.specs.Classes.{is_digit, is_hex_digit, is_in, is_iri_char, is_letter, is_string_char, pn_chars, pn_chars_base, pn_chars_u};

/// [0-9].
pub fn is_digit(character: char) -> bool
    ensures { result ≡ is_digit character }
{
    matches!(character, '0'..='9')
}

/// [A-Za-z].
pub fn is_letter(character: char) -> bool
    ensures { result ≡ is_letter character }
{
    matches!(character, 'A'..='Z' | 'a'..='z')
}

/// HEX.
pub fn is_hex_digit(character: char) -> bool
    ensures { result ≡ is_hex_digit character }
{
    matches!(character, '0'..='9' | 'A'..='F' | 'a'..='f')
}

/// PN_CHARS_BASE.
pub fn is_pn_chars_base(character: char) -> bool
    ensures { result ≡ is_in pn_chars_base character }
{
    matches!(character,
        'A'..='Z' | 'a'..='z' | '\u{C0}'..='\u{D6}' | '\u{D8}'..='\u{F6}' | '\u{F8}'..='\u{2FF}'
        | '\u{370}'..='\u{37D}' | '\u{37F}'..='\u{1FFF}' | '\u{200C}'..='\u{200D}'
        | '\u{2070}'..='\u{218F}' | '\u{2C00}'..='\u{2FEF}' | '\u{3001}'..='\u{D7FF}'
        | '\u{F900}'..='\u{FDCF}' | '\u{FDF0}'..='\u{FFFD}' | '\u{10000}'..='\u{EFFFF}')
}

/// PN_CHARS_U.
pub fn is_pn_chars_u(character: char) -> bool
    ensures { result ≡ pn_chars_u character }
{
    is_pn_chars_base(character) || matches!(character, '_' | ':')
}

/// PN_CHARS.
pub fn is_pn_chars(character: char) -> bool
    ensures { result ≡ pn_chars character }
{
    is_pn_chars_u(character)
        || matches!(character,
            '0'..='9' | '-' | '\u{B7}' | '\u{300}'..='\u{36F}' | '\u{203F}'..='\u{2040}')
}

/// What may stand raw between `<` and `>`, in IRIREF.
pub fn is_iri_char(character: char) -> bool
    ensures { result ≡ is_iri_char character }
{
    character >= '\u{21}'
        && !matches!(
            character,
            '<' | '>' | '"' | '{' | '}' | '|' | '^' | '`' | '\\'
        )
}

/// What may stand raw between quotation marks, in STRING_LITERAL_QUOTE.
pub fn is_string_char(character: char) -> bool
    ensures { result ≡ is_string_char character }
{
    !matches!(character, '"' | '\\' | '\n' | '\r')
}
