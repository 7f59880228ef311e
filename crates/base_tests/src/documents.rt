//! Readers of documents that go on after a document and after a fault, and writers of quads.
use nquads::{
    DataFault, Kind, LineReader, TermTextFault, any_pieces, documents_are_valid,
    documents_read_again, is_refused_or_read, line_bytes, lines_are_cut_at_ends, one_answer,
    one_answer_at_the_end, one_answer_to_a_piece, one_first_bad_line, one_reading, read_document,
    read_term, write_quads, write_term,
};
use rdf_term::{Bytes, Graph, Memory, Quad, Quads, Term, Text};
use std::alloc::Global;
use std::process::Abort;

/// A call of a reader.
enum Step {
    Feed(&'static [u8]),
    Finish,
}

use DataFault::{BadLine, TooLong};
use Step::{Feed, Finish};

/// Calls of one reader, each with its answer and the number of quads that came in all.
struct Reading {
    what: &'static str,
    kind: Kind,
    calls: &'static [(Step, Result<(), DataFault>, usize)],
}

static READINGS: &[Reading] = &[
    Reading {
        what: "one document after another, the last line of each without an end",
        kind: Kind::Triples,
        calls: &[
            (Feed(b"\n\n"), Ok(()), 0),
            (Feed(b"<a:s> <a:p> <a:o> ."), Ok(()), 0),
            (Finish, Ok(()), 1),
            (Finish, Ok(()), 1),
            (Feed(b"<a:s> <a:p> <a:o> .\r"), Ok(()), 2),
            (Finish, Ok(()), 2),
            (Feed(b"\n<a:s> <a:p> \"o\" ."), Ok(()), 2),
            (Finish, Ok(()), 3),
            (Feed(b"\nx\n"), Err(BadLine(2)), 3),
        ],
    },
    Reading {
        what: "a fault is kept",
        kind: Kind::Quads,
        calls: &[
            (Feed(b"<a:s> <a:p> <a:o> .\n\r\n<a:s> <a:p> "), Ok(()), 1),
            (Feed(b"<a:o>\n<a:s> <a:p> <a:o> .\n"), Err(BadLine(3)), 1),
            (Feed(b"<a:s> <a:p> <a:o> .\n"), Err(BadLine(3)), 1),
            (Finish, Err(BadLine(3)), 1),
            (Finish, Err(BadLine(3)), 1),
            (Feed(b""), Err(BadLine(3)), 1),
        ],
    },
    Reading {
        what: "a fault of the last line is kept",
        kind: Kind::Triples,
        calls: &[
            (
                Feed(b"<a:s> <a:p> <a:o> .\r\n<a:s> <a:p> <a:o> <a:g> ."),
                Ok(()),
                1,
            ),
            (Finish, Err(BadLine(2)), 1),
            (Feed(b"\n"), Err(BadLine(2)), 1),
            (Finish, Err(BadLine(2)), 1),
        ],
    },
    Reading {
        what: "CR LF cut by empty pieces is one end",
        kind: Kind::Quads,
        calls: &[
            (Feed(b""), Ok(()), 0),
            (Feed(b"<a:s> <a:p> <a:o> <a:g> .\r"), Ok(()), 1),
            (Feed(b""), Ok(()), 1),
            (Feed(b"\n"), Ok(()), 1),
            (Feed(b"\n#\r\rx"), Ok(()), 1),
            (Finish, Err(BadLine(5)), 1),
        ],
    },
    Reading {
        what: "a comment cut between CR and LF",
        kind: Kind::Triples,
        calls: &[
            (Feed(b"# a\r"), Ok(()), 0),
            (Feed(b"\n<u:s> <u:p> <u:o> .\n# b"), Ok(()), 1),
            (Finish, Ok(()), 1),
        ],
    },
    Reading {
        what: "short lines behind a long one",
        kind: Kind::Quads,
        calls: &[
            (
                Feed(b"<a:s> <a:p> \"a long text\\twith \\\"marks\\\" and more"),
                Ok(()),
                0,
            ),
            (
                Feed(b" than that\"@en-GB <a:g> .\n_:s <a:p> _:o ."),
                Ok(()),
                1,
            ),
            (Finish, Ok(()), 2),
            (Feed(b"_:s <a:p> \"\" .\n#\n_:s"), Ok(()), 3),
            (Finish, Err(BadLine(3)), 3),
        ],
    },
    Reading {
        what: "a character cut by pieces",
        kind: Kind::Quads,
        calls: &[
            (Feed(b"<a:s> <a:p> \"\xF0\x9F"), Ok(()), 0),
            (Feed(b"\x98"), Ok(()), 0),
            (Feed(b"\x80\"@en .\n\xF0"), Ok(()), 1),
            (Finish, Err(BadLine(2)), 1),
        ],
    },
];

fn call(reader: &mut LineReader, step: &Step, out: &mut Quads) -> Result<(), DataFault> {
    match step {
        Feed(piece) => reader.feed(piece, out),
        Finish => reader.finish(out),
    }
}

#[test]
fn readers_keep_their_fault_and_finish_as_new(rt: HostRuntime) -> Result<(), Memory> {
    let alloc = rt.alloc();
    for reading in READINGS {
        let mut reader = LineReader::new(alloc, reading.kind)?;
        let mut out = Quads::new(alloc);
        for (place, (step, answer, count)) in reading.calls.iter().enumerate() {
            let given = call(&mut reader, step, &mut out);
            assert!(rt;
                given == *answer,
                "{}, call {place}: {given:?}",
                reading.what
            );
            assert!(rt;
                out.len() == *count,
                "{}, call {place}: {out:?}",
                reading.what
            );
        }
    }
    Ok(())
}

/// The texts of a literal, its tag and its datatype, empty ones where it has none, and the label of its
/// graph.
static LITERALS: [[&str; 4]; 8] = [
    ["", "", "", ""],
    ["é\"\\\n\r\t\u{7f}'", "", "", ""],
    ["é\"\\\n\r\t\u{7f}'", "", "", "g"],
    ["a", "en-GB", "", ""],
    ["a", "en-GB", "", ""],
    ["a", "en-GB", "", "h"],
    ["a", "en-GB", "", "g"],
    ["1", "", "urn:t", "g"],
];

/// The lines that are written of them, behind what stood in the buffer.
static QUAD_LINES: &str = concat!(
    "> <http://e/s> <http://e/p> \"\" .\n",
    "<http://e/s> <http://e/p> \"é\\\"\\\\\\n\\r\t\u{7f}'\" .\n",
    "<http://e/s> <http://e/p> \"é\\\"\\\\\\n\\r\t\u{7f}'\" _:g .\n",
    "<http://e/s> <http://e/p> \"a\"@en-GB .\n",
    "<http://e/s> <http://e/p> \"a\"@en-GB .\n",
    "<http://e/s> <http://e/p> \"a\"@en-GB _:h .\n",
    "<http://e/s> <http://e/p> \"a\"@en-GB _:g .\n",
    "<http://e/s> <http://e/p> \"1\"^^<urn:t> _:g .\n",
);

/// The same without graphs, equal neighbours once.
static TRIPLE_LINES: &str = concat!(
    "> <http://e/s> <http://e/p> \"\" .\n",
    "<http://e/s> <http://e/p> \"é\\\"\\\\\\n\\r\t\u{7f}'\" .\n",
    "<http://e/s> <http://e/p> \"a\"@en-GB .\n",
    "<http://e/s> <http://e/p> \"1\"^^<urn:t> .\n",
);

fn literal(alloc: Global, texts: &[&str; 4]) -> Result<(Term, Graph), Memory> {
    let [text, tag, datatype, label] = texts;
    let text = Text::from_chars(alloc, text)?;
    let graph = if label.is_empty() {
        Graph::Absent
    } else {
        Graph::Named(Term::Blank(Text::from_chars(alloc, label)?))
    };
    if !tag.is_empty() {
        return Ok((Term::Tagged(text, Text::from_chars(alloc, tag)?), graph));
    }
    if !datatype.is_empty() {
        return Ok((Term::Typed(text, Text::from_chars(alloc, datatype)?), graph));
    }
    Ok((Term::Plain(text), graph))
}

fn statements(rt: &impl Abort, alloc: Global) -> Result<Quads, Memory> {
    let mut quads = Quads::new(alloc);
    for texts in &LITERALS {
        let s = Term::Iri(Text::from_chars(alloc, "http://e/s")?);
        let p = Term::Iri(Text::from_chars(alloc, "http://e/p")?);
        let (o, c) = literal(alloc, texts)?;
        quads.push(Quad::new(s, p, o, c).expect(rt, "a quad"))?;
    }
    Ok(quads)
}

#[test]
fn quads_are_written_as_canonical_lines(rt: HostRuntime) -> Result<(), Memory> {
    let alloc = rt.alloc();
    let quads = statements(&rt, alloc)?;
    for (kind, wanted, count) in [
        (Kind::Quads, QUAD_LINES, 8),
        (Kind::Triples, TRIPLE_LINES, 4),
    ] {
        let mut out = Bytes::new(alloc);
        out.append(b"> ")?;
        write_quads(&quads, kind, &mut out)?;
        assert!(rt; out.as_slice() == wanted.as_bytes(), "{kind:?}: {out:?}");
        let read = read_document(alloc, kind, &wanted.as_bytes()[2..]).expect(&rt, "a document");
        assert!(rt;
            read.len() == count && (kind == Kind::Triples || read == quads),
            "{read:?}"
        );
    }
    Ok(())
}

/// Faults and their texts.
static FAULTS: [(DataFault, &str); 5] = [
    (BadLine(3), "bad line 3"),
    (BadLine(u64::MAX), "bad line 18446744073709551615"),
    (TooLong(1), "long line 1"),
    (TooLong(10), "long line 10"),
    (DataFault::Memory, "no memory"),
];

#[test]
fn faults_are_printed(rt: HostRuntime) -> Result<(), Memory> {
    for (fault, wanted) in FAULTS {
        assert!(rt;
            format!(in rt.alloc(); "{fault}")?.as_str() == wanted,
            "{wanted}"
        );
    }
    Ok(())
}

#[test]
fn terms_are_read_and_written_here_too(rt: HostRuntime) -> Result<(), Memory> {
    let alloc = rt.alloc();
    let mut out = Bytes::new(alloc);
    let mut lengths = 0u64;
    for quad in statements(&rt, alloc)?.as_slice() {
        out.clear();
        write_term(quad.o(), &mut out)?;
        let again = read_term(alloc, out.as_slice()).ok();
        assert!(rt; again.is_some_and(|again| again == *quad.o()), "{quad:?}");
        lengths = lengths.saturating_add(line_bytes(quad));
    }
    assert!(rt; lengths == QUAD_LINES.len() as u64 - 2);
    let fault = read_term(alloc, b"x").err();
    assert!(rt; fault == Some(TermTextFault::BadTerm));
    Ok(())
}

#[test]
fn laws_ask_for_nothing() {
    any_pieces();
    documents_are_valid();
    documents_read_again();
    is_refused_or_read();
    lines_are_cut_at_ends();
    one_answer();
    one_answer_at_the_end();
    one_answer_to_a_piece();
    one_first_bad_line();
    one_reading();
}
