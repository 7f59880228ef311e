//! One line and one term, handed over alone: what documents do not show of them, and an example of each
//! rule of the grammar.
use nquads::write_quads;
use nquads_line::{
    Kind, LineFault, LineScanner, TermTextFault, line_bytes, lines_are_decided, lines_are_valid,
    one_line_reading, one_term_reading, quads_read_again, read_line, read_term, terms_are_valid,
    terms_read_again, texts_are_scalars, write_term,
};
use rdf_term::{Bytes, Graph, Memory, Quad, Quads};
use std::alloc::Global;
use std::process::Abort;

/// What a line gives, a quad by the texts of its terms.
enum Reading {
    Bad,
    Empty,
    Gives(&'static str),
}

use Reading::{Bad, Empty, Gives};

/// The quad's terms with a space after each.
fn shown(alloc: Global, quad: &Quad) -> Result<Bytes, Memory> {
    let mut out = Bytes::new(alloc);
    for term in [quad.s(), quad.p(), quad.o()] {
        write_term(term, &mut out)?;
        out.push(b' ')?;
    }
    if let Graph::Named(name) = quad.c() {
        write_term(name, &mut out)?;
        out.push(b' ')?;
    }
    Ok(out)
}

fn meets(
    rt: &impl Abort,
    alloc: Global,
    read: Result<Option<Quad>, LineFault>,
    line: &[u8],
    wanted: &Reading,
) {
    match (read, wanted) {
        (Ok(Some(quad)), Gives(text)) => {
            let shown = shown(alloc, &quad).expect(rt, "memory");
            assert!(rt;
                shown.as_slice() == text.as_bytes(),
                "{line:?} gives {shown:?}"
            );
        }
        (Ok(None), Empty) => {}
        (Err(LineFault::Bad), Bad) => {}
        (Ok(Some(quad)), _) => assert!(rt; false, "{line:?} gives {quad:?}"),
        (Ok(None), _) => assert!(rt; false, "{line:?} has no quad"),
        (Err(fault), _) => assert!(rt; false, "{line:?}: {fault:?}"),
    }
}

/// Lines of both formats.
static LINES: &[(&[u8], Reading)] = &[
    (b"", Empty),
    (b" \t ", Empty),
    (b"#", Empty),
    (b"# a\t#", Empty),
    (b"  # <u:s> <u:p> <u:o> .", Empty),
    (b"<u:s> <u:p> <u:o> .", Gives("<u:s> <u:p> <u:o> ")),
    (b"<u:s><u:p><u:o>.", Gives("<u:s> <u:p> <u:o> ")),
    (b"\t <u:s>\t<u:p>  <u:o>\t.\t", Gives("<u:s> <u:p> <u:o> ")),
    (
        b"<u:s> <u:p> <u:o> .# a comment",
        Gives("<u:s> <u:p> <u:o> "),
    ),
    (b"_:s <u:p> _:o.", Gives("_:s <u:p> _:o ")),
    (b"<u:s> <u:p> _:o_:g .", Gives("<u:s> <u:p> _:o_:g ")),
    (b"_:0 <u:p> _:a-b.c .", Gives("_:0 <u:p> _:a-b.c ")),
    (
        b"_:_: <u:p> _:\xC3\xA9\xC2\xB7\xE2\x80\xBF .",
        Gives("_:_: <u:p> _:é·‿ "),
    ),
    (
        b"<\\u0075:s> <u:p> <u:\\U0001F600> .",
        Gives("<u:s> <u:p> <u:😀> "),
    ),
    (
        b"<a+b-c.1:s> <u:p> <u:> .",
        Gives("<a+b-c.1:s> <u:p> <u:> "),
    ),
    (
        b"<u:s> <u:p> \"\\t\\b\\n\\r\\f\\\"\\'\\\\\" .",
        Gives("<u:s> <u:p> \"\t\u{8}\\n\\r\u{c}\\\"'\\\\\" "),
    ),
    (
        b"<u:s> <u:p> \"\\u00e9\\U0001f600\\u000A\" .",
        Gives("<u:s> <u:p> \"é😀\\n\" "),
    ),
    (
        b"<u:s> <u:p> \"a\" \t@EN-1a.",
        Gives("<u:s> <u:p> \"a\"@EN-1a "),
    ),
    (
        b"<u:s> <u:p> \"1\" ^^ <u:d> .",
        Gives("<u:s> <u:p> \"1\"^^<u:d> "),
    ),
    (
        b"<u:s> <u:p> \"1\"^^<http://www.w3.org/2001/XMLSchema#string> .",
        Gives("<u:s> <u:p> \"1\" "),
    ),
    (b"<u:s> <u:p> <u:o> .\n", Bad),
    (b"<u:s> <u:p> <u:o> .\r", Bad),
    (b"\n<u:s> <u:p> <u:o> .", Bad),
    (b"<u:s>\n<u:p> <u:o> .", Bad),
    (b"\n", Bad),
    (b"\r\n", Bad),
    (b" \r", Bad),
    (b"# a\n", Bad),
    (b"# a\r", Bad),
    (b"#\n<u:s> <u:p> <u:o> .", Bad),
    (b"<u:s> <u:p> <u:o> . # a\n", Bad),
    (b"<u:s> <u:p> <u:o> . # a\r# b", Bad),
    (b"<u:s> <u:p> \"a\nb\" .", Bad),
    (b"<u:s> <u:p> <u:o>", Bad),
    (b"<u:s> <u:p> <u:o> . .", Bad),
    (b"<u:s> <u:p> .", Bad),
    (b"_s <u:p> _:o .", Bad),
    (b"_:s _:p _:o .", Bad),
    (b"\"s\" <u:p> _:o .", Bad),
    (b"<s> <u:p> <u:o> .", Bad),
    (b"<u:s> <u:p> \"1\"@en^^<u:d> .", Bad),
    (b"<u:s> <u:p> \"\xC3\" .", Bad),
    (b"<u:s> <u:p> \"\xED\xA0\x80\" .", Bad),
    (b"# \xFF", Bad),
];

/// Lines with graphs, which are bad in N-Triples.
static GRAPHS: &[(&[u8], Reading)] = &[
    (
        b"<u:s> <u:p> <u:o> <u:g> .",
        Gives("<u:s> <u:p> <u:o> <u:g> "),
    ),
    (b"<u:s><u:p><u:o><u:g>.", Gives("<u:s> <u:p> <u:o> <u:g> ")),
    (b"<u:s> <u:p> \"a\"_:g.", Gives("<u:s> <u:p> \"a\" _:g ")),
    (
        b"<u:s> <u:p> \"a\"@en_:g .",
        Gives("<u:s> <u:p> \"a\"@en _:g "),
    ),
    (
        b"<u:s> <u:p> \"a\"^^<u:d><u:g> .",
        Gives("<u:s> <u:p> \"a\"^^<u:d> <u:g> "),
    ),
    (b"<u:s> <u:p> _:o<u:g> .", Gives("<u:s> <u:p> _:o <u:g> ")),
    (b"<u:s> <u:p> <u:o> \"g\" .", Bad),
    (b"<u:s> <u:p> <u:o> <u:g> <u:h> .", Bad),
    (b"<u:s> <u:p> <u:o> <g> .", Bad),
];

#[test]
fn lines_alone(rt: HostRuntime) {
    let alloc = rt.alloc();
    for kind in [Kind::Triples, Kind::Quads] {
        let mut scanner = LineScanner::new(alloc);
        for (line, wanted) in LINES {
            meets(&rt, alloc, read_line(alloc, kind, line), line, wanted);
            meets(&rt, alloc, scanner.read(kind, line), line, wanted);
        }
        for (line, wanted) in GRAPHS {
            let wanted = if kind == Kind::Quads { wanted } else { &Bad };
            meets(&rt, alloc, read_line(alloc, kind, line), line, wanted);
            meets(&rt, alloc, scanner.read(kind, line), line, wanted);
        }
        for (line, wanted) in LINES.iter().rev() {
            meets(&rt, alloc, scanner.read(kind, line), line, wanted);
        }
    }
}

/// Lines, and how many bytes are written of their quads, the end of the line among them.
static LENGTHS: &[(&str, u64)] = &[
    ("<u:s> <u:p> <u:o> .", 20),
    ("<u:s><u:p><u:o>.# a comment", 20),
    ("<u:s> <u:p> <u:o> <u:g> .", 26),
    ("_:a <u:p> _:b _:g .", 20),
    ("<u:s> <u:p> \"\" .", 17),
    ("<u:s> <u:p> \"a\\\"b\\\\c\\nd\\re\" .", 30),
    ("<u:s> <u:p> \"é😀\\t\" .", 24),
    ("<u:s> <u:p> \"a\"@en-GB .", 24),
    ("<u:s> <u:p> \"1\" ^^ <u:t> .", 25),
];

#[test]
fn lines_have_their_lengths(rt: HostRuntime) -> Result<(), Memory> {
    let alloc = rt.alloc();
    for (line, wanted) in LENGTHS {
        let read = read_line(alloc, Kind::Quads, line.as_bytes()).expect(&rt, line);
        let quad = read.expect(&rt, line);
        assert_eq!(rt; line_bytes(&quad), *wanted, "{line}");
        let mut quads = Quads::new(alloc);
        quads.push(quad)?;
        let mut out = Bytes::new(alloc);
        write_quads(&quads, Kind::Quads, &mut out)?;
        assert_eq!(rt; out.len() as u64, *wanted, "{line}");
    }
    Ok(())
}

/// Texts of terms, and what is written of the terms: nothing where the text is none.
static TERMS: &[(&[u8], &str)] = &[
    (b"<u:s>", "<u:s>"),
    (b"<\\u0075:\\U0000006F>", "<u:o>"),
    (b"<http://e/\xC3\xA9?a=b#c%20>", "<http://e/é?a=b#c%20>"),
    (b"_:b", "_:b"),
    (b"_:0.-:", "_:0.-:"),
    (b"\"\"", "\"\""),
    (b"\"a b\"", "\"a b\""),
    (
        b"\"\\\"\\\\\\n\\r\\t\\b\\f\\'\"",
        "\"\\\"\\\\\\n\\r\t\u{8}\u{c}'\"",
    ),
    (b"\"\t\\u0000\\u007F\"", "\"\t\0\u{7f}\""),
    (
        b"\"\\uD7FF\\uE000\\U0010FFFF\"",
        "\"\u{D7FF}\u{E000}\u{10FFFF}\"",
    ),
    (b"\"a\"@en", "\"a\"@en"),
    (b"\"a\" @EN-gb-1a", "\"a\"@EN-gb-1a"),
    (b"\"a\"^^<u:d>", "\"a\"^^<u:d>"),
    (b"\"a\"\t^^ <u:\\u0064>", "\"a\"^^<u:d>"),
    (b"\"a\"^^<http://www.w3.org/2001/XMLSchema#string>", "\"a\""),
    (
        b"\"a\"^^<http://www.w3.org/2001/XMLSchema#String>",
        "\"a\"^^<http://www.w3.org/2001/XMLSchema#String>",
    ),
    (b"", ""),
    (b" <u:s>", ""),
    (b"<u:s> ", ""),
    (b"<u:s>\n", ""),
    (b"<u:s>#", ""),
    (b"<u:s> .", ""),
    (b"<u:s><u:p>", ""),
    (b"<s>", ""),
    (b"<u:s", ""),
    (b"u:s", ""),
    (b"<u:\\u0020>", ""),
    (b"\"a\" ", ""),
    (b" \"a\"", ""),
    (b"\"a", ""),
    (b"'a'", ""),
    (b"\"\\u00e\"", ""),
    (b"\"\\uD800\"", ""),
    (b"\"a\nb\"", ""),
    (b"\"a\"@", ""),
    (b"\"a\"@en-", ""),
    (b"\"a\"@ en", ""),
    (b"\"a\"@en_gb", ""),
    (b"\"a\"^^", ""),
    (b"\"a\"^^<d>", ""),
    (b"\"a\"^^_:d", ""),
    (b"_:", ""),
    (b"_:b.", ""),
    (b"_:-b", ""),
    (b"\"\xFF\"", ""),
    (b"# c", ""),
    (b"true", ""),
];

#[test]
fn terms_alone(rt: HostRuntime) -> Result<(), Memory> {
    let alloc = rt.alloc();
    for (text, wanted) in TERMS {
        match read_term(alloc, text) {
            Ok(term) => {
                let mut out = Bytes::new(alloc);
                out.push(b'>')?;
                write_term(&term, &mut out)?;
                assert!(rt;
                    &out.as_slice()[1..] == wanted.as_bytes(),
                    "{text:?}: {term:?}"
                );
                let again = read_term(alloc, wanted.as_bytes()).ok();
                assert!(rt; again == Some(term), "{wanted} again");
            }
            Err(fault) => assert!(rt;
                wanted.is_empty() && fault == TermTextFault::BadTerm,
                "{text:?}: {fault}"
            ),
        }
    }
    Ok(())
}

/// A term with a text in it that comes many times: what stands before that text, the text and what stands
/// behind it, how often it comes, and whether the part of the term has 65,535 bytes or more.
static LONG_TERMS: &[((&str, &str, &str), usize, bool)] = &[
    (("\"a", "é", "\""), 32_767, true),
    (("\"", "é", "\""), 32_768, false),
    (("\"", "\\n", "\""), 65_535, true),
    (("\"", "\\u000A", "\""), 65_536, false),
    (("\"a\"@", "a", ""), 65_535, true),
    (("\"a\"@", "a", ""), 65_536, false),
    (("\"a\"^^<u:", "d", ">"), 65_533, true),
    (("\"a\"^^<u:", "d", ">"), 65_534, false),
    (("<u:", "é", ">"), 32_766, true),
    (("<u:", "é", "e>"), 32_767, false),
    (("_:", "b", ""), 65_535, true),
    (("_:", "b", ""), 65_536, false),
];

fn long(alloc: Global, texts: &(&str, &str, &str), count: usize) -> Result<Bytes, Memory> {
    let mut out = Bytes::new(alloc);
    out.append(texts.0.as_bytes())?;
    for _ in 0..count {
        out.append(texts.1.as_bytes())?;
    }
    out.append(texts.2.as_bytes())?;
    Ok(out)
}

#[test]
fn parts_of_65535_bytes_at_most(rt: HostRuntime) -> Result<(), Memory> {
    let alloc = rt.alloc();
    for (texts, count, fits) in LONG_TERMS {
        let text = long(alloc, texts, *count)?;
        match read_term(alloc, text.as_slice()) {
            Ok(_) => assert!(rt; *fits, "{texts:?} {count}"),
            Err(fault) => assert!(rt;
                !*fits && fault == TermTextFault::TooLong,
                "{texts:?} {count}: {fault}"
            ),
        }
        let mut line = Bytes::new(alloc);
        line.append(b"<u:s> <u:p> ")?;
        line.append(text.as_slice())?;
        line.append(b" .")?;
        match read_line(alloc, Kind::Triples, line.as_slice()) {
            Ok(quad) => assert!(rt; *fits && quad.is_some(), "{texts:?} {count}"),
            Err(fault) => assert!(rt; !*fits && fault == LineFault::TooLong, "{texts:?} {count}"),
        }
        line.push(b'.')?;
        let fault = read_line(alloc, Kind::Triples, line.as_slice()).err();
        assert!(rt; fault == Some(LineFault::Bad), "{texts:?} {count}");
    }
    Ok(())
}

#[test]
fn escapes_stand_between_runs(rt: HostRuntime) -> Result<(), Memory> {
    let alloc = rt.alloc();
    let text = long(alloc, &("\"", "a\\tb", "\""), 10_000)?;
    let wanted = long(alloc, &("\"", "a\tb", "\""), 10_000)?;
    let term = read_term(alloc, text.as_slice()).expect(&rt, "a term");
    let mut out = Bytes::new(alloc);
    write_term(&term, &mut out)?;
    assert!(rt; out.as_slice() == wanted.as_slice());
    Ok(())
}

/// Faults and their texts.
static FAULTS: [(TermTextFault, &str); 3] = [
    (TermTextFault::BadTerm, "the text is no term"),
    (TermTextFault::TooLong, "a part of the term is too long"),
    (TermTextFault::Memory, "no memory"),
];

#[test]
fn faults_are_printed(rt: HostRuntime) -> Result<(), Memory> {
    for (fault, wanted) in FAULTS {
        assert!(rt;
            format!(in rt.alloc(); "{fault}")?.as_str() == wanted,
            "{wanted}"
        );
    }
    Ok(())
}

#[test]
fn laws_ask_for_nothing() {
    one_line_reading();
    one_term_reading();
    terms_read_again();
    quads_read_again();
    lines_are_decided();
    lines_are_valid();
    terms_are_valid();
    texts_are_scalars();
}
