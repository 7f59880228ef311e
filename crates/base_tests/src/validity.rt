//! Which terms are valid, the rules of their texts, and the classes of characters: RDF 1.1 N-Triples,
//! section 7, and the rules of this product beside it.
use nquads_line::{read_term, write_term};
use rdf_term::{Bytes, Duplicate, Graph, Memory, Quad, Term, Text};
use std::alloc::Global;
use std::process::Abort;

/// A term by its texts.
#[derive(Clone, Copy, Debug)]
enum Case {
    Iri(&'static str),
    Blank(&'static str),
    Plain(&'static str),
    Tagged(&'static str, &'static str),
    Typed(&'static str, &'static str),
}

use Case::{Blank, Iri, Plain, Tagged, Typed};

/// Terms, and whether they are valid.
static TERMS: &[(Case, bool)] = &[
    (Iri("a:"), true),
    (Iri("http://e/é?a=b#c%20"), true),
    (Iri("Zz09+-.:"), true),
    (Iri("a:\u{7F}\u{80}\u{FFFD}😀\u{10FFFF}"), true),
    (Iri("a:!#$%&'()*+,-./:;=?@[]_~"), true),
    (Iri(""), false),
    (Iri("a"), false),
    (Iri(":a"), false),
    (Iri("1a:b"), false),
    (Iri("+a:b"), false),
    (Iri("a_b:c"), false),
    (Iri("é:a"), false),
    (Iri("aé:a"), false),
    (Iri("//e/a"), false),
    (Iri("a:\0"), false),
    (Iri("a:\n"), false),
    (Iri("a:\u{1F}"), false),
    (Iri("a: "), false),
    (Iri("a:<"), false),
    (Iri("a:>"), false),
    (Iri("a:\""), false),
    (Iri("a:{"), false),
    (Iri("a:}"), false),
    (Iri("a:|"), false),
    (Iri("a:^"), false),
    (Iri("a:`"), false),
    (Iri("a:\\"), false),
    (Blank("a"), true),
    (Blank("0"), true),
    (Blank("_"), true),
    (Blank(":"), true),
    (Blank("a.b"), true),
    (Blank("a..b"), true),
    (Blank("a-"), true),
    (Blank("a\u{B7}\u{300}\u{36F}\u{203F}\u{2040}"), true),
    (Blank("À\u{D6}\u{D8}\u{F6}\u{F8}\u{2FF}"), true),
    (Blank("\u{370}\u{37D}\u{37F}\u{1FFF}\u{200C}\u{200D}"), true),
    (
        Blank("\u{2070}\u{218F}\u{2C00}\u{2FEF}\u{3001}\u{D7FF}"),
        true,
    ),
    (
        Blank("\u{F900}\u{FDCF}\u{FDF0}\u{FFFD}\u{10000}\u{EFFFF}"),
        true,
    ),
    (Blank(""), false),
    (Blank("."), false),
    (Blank("a."), false),
    (Blank(".a"), false),
    (Blank("-a"), false),
    (Blank("\u{B7}a"), false),
    (Blank("\u{300}"), false),
    (Blank("\u{203F}"), false),
    (Blank("a b"), false),
    (Blank("a\u{BF}"), false),
    (Blank("a\u{D7}"), false),
    (Blank("a\u{F7}"), false),
    (Blank("a\u{37E}"), false),
    (Blank("a\u{200B}"), false),
    (Blank("a\u{2041}"), false),
    (Blank("a\u{3000}"), false),
    (Blank("a\u{FFFE}"), false),
    (Blank("a\u{F0000}"), false),
    (Plain(""), true),
    (Plain("\0\t\n\r\"\\\u{10FFFF}"), true),
    (Tagged("", "en"), true),
    (Tagged("a\n", "EN-gb-1a2b"), true),
    (Tagged("a", "a-0"), true),
    (Tagged("a", ""), false),
    (Tagged("a", "-"), false),
    (Tagged("a", "-en"), false),
    (Tagged("a", "en-"), false),
    (Tagged("a", "en--gb"), false),
    (Tagged("a", "1a"), false),
    (Tagged("a", "a1"), false),
    (Tagged("a", "a1-b"), false),
    (Tagged("a", "en_gb"), false),
    (Tagged("a", "en gb"), false),
    (Tagged("a", "é"), false),
    (Tagged("a", "en-é"), false),
    (Typed("", "a:"), true),
    (Typed("1", "http://www.w3.org/2001/XMLSchema#integer"), true),
    (Typed("1", "http://www.w3.org/2001/XMLSchema#String"), true),
    (Typed("1", "http://www.w3.org/2001/XMLSchema#strin"), true),
    (Typed("1", "http://www.w3.org/2001/XMLSchema#strings"), true),
    (Typed("1", "http://www.w3.org/2001/XMLSchema#string"), false),
    (Typed("1", ""), false),
    (Typed("1", "integer"), false),
    (Typed("1", "a:>"), false),
];

/// The texts of the term, the second one empty where it has none.
fn texts(case: Case) -> (&'static str, &'static str) {
    match case {
        Iri(text) | Blank(text) | Plain(text) => (text, ""),
        Tagged(text, more) | Typed(text, more) => (text, more),
    }
}

/// The term of this kind with other texts.
fn with_texts(case: Case, text: Text, more: Text) -> Term {
    match case {
        Iri(_) => Term::Iri(text),
        Blank(_) => Term::Blank(text),
        Plain(_) => Term::Plain(text),
        Tagged(_, _) => Term::Tagged(text, more),
        Typed(_, _) => Term::Typed(text, more),
    }
}

fn made(alloc: Global, case: Case) -> Result<Term, Memory> {
    let (text, more) = texts(case);
    let text = Text::from_chars(alloc, text)?;
    let more = Text::from_chars(alloc, more)?;
    Ok(with_texts(case, text, more))
}

/// Whether the text that is written of the term is read as it.
fn is_read_again(alloc: Global, term: &Term) -> Result<bool, Memory> {
    let mut out = Bytes::new(alloc);
    write_term(term, &mut out)?;
    Ok(read_term(alloc, out.as_slice()).is_ok_and(|again| again == *term))
}

/// A quad of valid terms, but for its object.
fn with_object(alloc: Global, object: Term) -> Result<Option<Quad>, Memory> {
    let s = Term::Iri(Text::from_chars(alloc, "a:s")?);
    let p = Term::Iri(Text::from_chars(alloc, "a:p")?);
    Ok(Quad::new(s, p, object, Graph::Absent).ok())
}

/// A quad of valid terms, but for its graph, where that can be one.
fn in_graph(alloc: Global, name: Term) -> Result<Option<Quad>, Memory> {
    let s = Term::Blank(Text::from_chars(alloc, "s")?);
    let p = Term::Iri(Text::from_chars(alloc, "a:p")?);
    let o = Term::Plain(Text::new(alloc));
    Ok(Quad::new(s, p, o, Graph::Named(name)).ok())
}

/// A quad and a graph with the term are valid where the term is.
fn quads_agree(rt: &impl Abort, alloc: Global, term: &Term, valid: bool) -> Result<(), Memory> {
    let object = with_object(alloc, term.copy(alloc)?)?;
    assert!(rt;
        object.is_some_and(|quad| quad.is_valid() == valid),
        "{term:?} as object"
    );
    assert!(rt;
        Graph::Named(term.copy(alloc)?).is_valid() == valid,
        "{term:?} as graph"
    );
    if let Some(quad) = in_graph(alloc, term.copy(alloc)?)? {
        assert!(rt; quad.is_valid() == valid, "{term:?} as graph");
    }
    Ok(())
}

#[test]
fn terms_are_valid_by_their_texts(rt: HostRuntime) -> Result<(), Memory> {
    let alloc = rt.alloc();
    assert!(rt; Graph::Absent.is_valid());
    for (case, valid) in TERMS {
        let term = made(alloc, *case)?;
        assert!(rt; term.is_valid() == *valid, "{case:?}");
        assert!(rt; is_read_again(alloc, &term)? == *valid, "{case:?} again");
        quads_agree(&rt, alloc, &term, *valid)?;
    }
    Ok(())
}

/// The rules of texts say the same of a text as of its bytes, and what is expected.
fn rules_agree(rt: &impl Abort, alloc: Global, case: Case, valid: bool) -> Result<(), Memory> {
    let (value, is_kept) = match case {
        Iri(iri) => (iri, rdf_term::is_iri_text(iri)),
        Blank(label) => (label, rdf_term::is_label(label)),
        Plain(value) => (value, rdf_term::is_short(value)),
        Tagged(_, tag) => (tag, rdf_term::is_tag(tag)),
        Typed(_, datatype) => {
            let is_iri = rdf_term::is_iri_text(datatype);
            (datatype, is_iri && !rdf_term::is_xsd_string(datatype))
        }
    };
    assert!(rt; is_kept == valid, "{case:?}");
    let text = Text::from_chars(alloc, value)?;
    assert!(rt;
        text.is_iri_text() == rdf_term::is_iri_text(value),
        "{case:?}"
    );
    assert!(rt;
        text.has_scheme() == rdf_term::has_scheme(value),
        "{case:?}"
    );
    assert!(rt; text.is_label() == rdf_term::is_label(value), "{case:?}");
    assert!(rt; text.is_tag() == rdf_term::is_tag(value), "{case:?}");
    assert!(rt; text.is_short() && rdf_term::is_short(value), "{case:?}");
    assert!(rt;
        text.is_xsd_string() == rdf_term::is_xsd_string(value),
        "{case:?}"
    );
    Ok(())
}

#[test]
fn texts_keep_the_rules(rt: HostRuntime) -> Result<(), Memory> {
    let alloc = rt.alloc();
    for (case, valid) in TERMS {
        rules_agree(&rt, alloc, *case, *valid)?;
    }
    Ok(())
}

/// Terms with one part of letters, so many times, and whether they are valid: the most is 65,535 bytes.
static LONG: &[(Case, &str, usize, bool)] = &[
    (Plain(""), "a", 65_535, true),
    (Plain(""), "a", 65_536, false),
    (Plain("a"), "é", 32_767, true),
    (Plain(""), "é", 32_768, false),
    (Plain("aaa"), "😀", 16_383, true),
    (Plain(""), "😀", 16_384, false),
    (Iri("a:"), "b", 65_533, true),
    (Iri("a:"), "b", 65_534, false),
    (Blank(""), "b", 65_535, true),
    (Blank(""), "b", 65_536, false),
    (Tagged("a", ""), "b", 65_535, true),
    (Tagged("a", ""), "b", 65_536, false),
    (Typed("a", "a:"), "b", 65_533, true),
    (Typed("a", "a:"), "b", 65_534, false),
];

/// The term with so many more of the letters at the end of its last text.
fn lengthened(alloc: Global, case: Case, more: &str, count: usize) -> Result<Term, Memory> {
    let (text, last) = texts(case);
    let mut text = Text::from_chars(alloc, text)?;
    let mut last = Text::from_chars(alloc, last)?;
    let has_two = matches!(case, Tagged(_, _) | Typed(_, _));
    for _ in 0..count {
        if has_two {
            last.append(more)?;
        } else {
            text.append(more)?;
        }
    }
    Ok(with_texts(case, text, last))
}

#[test]
fn valid_parts_have_65535_bytes_at_most(rt: HostRuntime) -> Result<(), Memory> {
    let alloc = rt.alloc();
    for (case, more, count, valid) in LONG {
        let term = lengthened(alloc, *case, more, *count)?;
        assert!(rt; term.is_valid() == *valid, "{case:?} {count}");
        if let Term::Plain(text) = &term {
            assert!(rt; text.is_short() == *valid, "{case:?} {count}");
            assert!(rt;
                rdf_term::is_short(text.as_str()) == *valid,
                "{case:?} {count}"
            );
        }
    }
    Ok(())
}

/// Characters and the classes that they are in: digits, letters, hexadecimal digits, PN_CHARS_BASE,
/// PN_CHARS_U, PN_CHARS, what stands raw in an IRI, and what stands raw in a string, by the letters
/// d l h b u n i s.
static CLASSES: &[(char, &str)] = &[
    ('\0', "s"),
    ('\n', ""),
    ('\r', ""),
    ('\u{1F}', "s"),
    (' ', "s"),
    ('!', "is"),
    ('"', ""),
    ('\'', "is"),
    ('-', "nis"),
    ('.', "is"),
    ('/', "is"),
    ('0', "dhnis"),
    ('9', "dhnis"),
    (':', "unis"),
    (';', "is"),
    ('<', "s"),
    ('>', "s"),
    ('@', "is"),
    ('A', "lhbunis"),
    ('F', "lhbunis"),
    ('G', "lbunis"),
    ('Z', "lbunis"),
    ('[', "is"),
    ('\\', ""),
    ('^', "s"),
    ('_', "unis"),
    ('`', "s"),
    ('a', "lhbunis"),
    ('f', "lhbunis"),
    ('g', "lbunis"),
    ('z', "lbunis"),
    ('{', "s"),
    ('|', "s"),
    ('}', "s"),
    ('~', "is"),
    ('\u{7F}', "is"),
    ('\u{B7}', "nis"),
    ('\u{C0}', "bunis"),
    ('\u{D7}', "is"),
    ('\u{300}', "nis"),
    ('\u{370}', "bunis"),
    ('\u{37E}', "is"),
    ('\u{203F}', "nis"),
    ('\u{FFFD}', "bunis"),
    ('\u{FFFE}', "is"),
    ('\u{10000}', "bunis"),
    ('\u{EFFFF}', "bunis"),
    ('\u{F0000}', "is"),
];

#[test]
fn characters_have_their_classes(rt: HostRuntime) {
    for (character, classes) in CLASSES {
        let c = *character;
        for (is_in, class) in [
            (rdf_term::is_digit(c), "d"),
            (rdf_term::is_letter(c), "l"),
            (rdf_term::is_hex_digit(c), "h"),
            (rdf_term::is_pn_chars_base(c), "b"),
            (rdf_term::is_pn_chars_u(c), "u"),
            (rdf_term::is_pn_chars(c), "n"),
            (rdf_term::is_iri_char(c), "i"),
            (rdf_term::is_string_char(c), "s"),
        ] {
            assert!(rt; is_in == classes.contains(class), "{c:?}: {class}");
        }
    }
}

/// Characters behind a backslash, and what they mean (RDF 1.1 N-Triples, ECHAR).
static ESCAPES: &[(char, Option<char>)] = &[
    ('t', Some('\t')),
    ('b', Some('\u{8}')),
    ('n', Some('\n')),
    ('r', Some('\r')),
    ('f', Some('\u{C}')),
    ('"', Some('"')),
    ('\'', Some('\'')),
    ('\\', Some('\\')),
    ('u', None),
    ('U', None),
    ('T', None),
    ('a', None),
    ('0', None),
    ('\n', None),
];

#[test]
fn escapes_have_their_meanings(rt: HostRuntime) {
    for (mark, meaning) in ESCAPES {
        assert!(rt; rdf_term::echar(*mark) == *meaning, "{mark:?}");
        assert!(rt; rdf_term::is_echar(*mark) == meaning.is_some(), "{mark:?}");
    }
}
