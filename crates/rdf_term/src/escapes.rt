ghost use Rattle.std.specs.Prelude.{◌≡◌, IsTrue, SomeIff};
ghost use Rattle.rdf_term.specs.Escapes.{echar_meaning, is_echar};

/// Whether ECHAR has the character behind its backslash.
pub fn is_echar(mark: char) -> bool
    ensures { result ≡ is_echar mark }
{
    matches!(mark, 't' | 'b' | 'n' | 'r' | 'f' | '"' | '\'' | '\\')
}

/// What the escape of a backslash and this character means in a string (ECHAR of RDF 1.1 N-Triples,
/// section 7, and of SPARQL 1.1, section 19.8).
pub fn echar(mark: char) -> Option<char>
    ensures { SomeIff result (IsTrue (is_echar mark)) (echar_meaning mark) }
{
    match mark {
        't' => Some('\t'),
        'b' => Some('\u{8}'),
        'n' => Some('\n'),
        'r' => Some('\r'),
        'f' => Some('\u{c}'),
        '"' | '\'' | '\\' => Some(mark),
        _ => None,
    }
}
