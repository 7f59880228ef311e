//! Documents with a part at the limit of 65,535 bytes, counted after escapes are replaced, and one
//! byte above it; they are built here, since they are too long for a table.
use crate::tests::{read_chunks, read_pieces, written};
use DataFault::{BadLine, TooLong};
use Kind::{Quads as AsQuads, Triples};
use nquads::{DataFault, Kind, read_document};
use rdf_term::{Bytes, Memory, Quads};
use std::alloc::Global;
use std::process::Abort;

/// A document with a text in it that comes many times.
struct LongDocument {
    what: &'static str,
    kind: Kind,
    /// What stands before the text that is repeated, that text, and what stands behind it.
    texts: (&'static str, &'static str, &'static str),
    count: usize,
    /// The same of the canonical lines, or the fault.
    expected: Result<(&'static str, &'static str, &'static str), DataFault>,
}

/// These texts, the second so many times.
fn joined(alloc: Global, texts: (&str, &str, &str), count: usize) -> Result<Bytes, Memory> {
    let (before, text, behind) = texts;
    let mut out = Bytes::new(alloc);
    out.append(before.as_bytes())?;
    for _ in 0..count {
        out.append(text.as_bytes())?;
    }
    out.append(behind.as_bytes())?;
    Ok(out)
}

/// A reading of the document gave what was expected; `how` says how it was read.
fn meets(
    rt: &impl Abort,
    alloc: Global,
    document: &LongDocument,
    read: Result<Quads, DataFault>,
    how: (&str, usize),
) -> Result<(), Memory> {
    let (way, place) = how;
    match (written(alloc, read), document.expected) {
        (Ok(out), Ok(texts)) => {
            let lines = joined(alloc, texts, document.count)?;
            assert!(rt;
                out.as_slice() == lines.as_slice(),
                "{}, {way} {place}: other lines",
                document.what
            );
        }
        (Err(fault), Err(wanted)) => assert!(rt;
            fault == wanted,
            "{}, {way} {place}: {fault:?}",
            document.what
        ),
        (Ok(_), _) => assert!(rt; false, "{}, {way} {place}: is read", document.what),
        (Err(fault), _) => assert!(rt; false, "{}, {way} {place}: {fault:?}", document.what),
    }
    Ok(())
}

/// Whole, cut behind the text that is repeated, and in pieces of a round length.
fn reads(rt: &impl Abort, alloc: Global, document: &LongDocument) -> Result<(), Memory> {
    let built = joined(alloc, document.texts, document.count)?;
    let bytes = built.as_slice();
    let kind = document.kind;
    let whole = read_document(alloc, kind, bytes);
    meets(rt, alloc, document, whole, ("whole", 0))?;
    let place = bytes.len().saturating_sub(document.texts.2.len());
    let halves = read_pieces(alloc, kind, &[&bytes[..place], &bytes[place..]]);
    meets(rt, alloc, document, halves, ("cut at", place))?;
    let pieces = read_chunks(alloc, kind, bytes, 4096);
    meets(rt, alloc, document, pieces, ("in pieces of", 4096))
}

/// Byte by byte.
fn reads_bytes(rt: &impl Abort, alloc: Global, document: &LongDocument) -> Result<(), Memory> {
    let built = joined(alloc, document.texts, document.count)?;
    let pieces = read_chunks(alloc, document.kind, built.as_slice(), 1);
    meets(rt, alloc, document, pieces, ("in pieces of", 1))
}

fn table_reads(rt: &impl Abort, alloc: Global, table: &[LongDocument]) -> Result<(), Memory> {
    for document in table {
        reads(rt, alloc, document)?;
    }
    Ok(())
}

/// Parts of literals.
static LITERAL_PARTS: &[LongDocument] = &[
    LongDocument {
        what: "a literal of 65,535 letters",
        kind: Triples,
        texts: ("<a:s> <a:p> \"", "a", "\" .\n"),
        count: 65_535,
        expected: Ok(("<a:s> <a:p> \"", "a", "\" .\n")),
    },
    LongDocument {
        what: "a literal of 65,536 letters",
        kind: Triples,
        texts: ("<a:s> <a:p> \"", "a", "\" .\n"),
        count: 65_536,
        expected: Err(TooLong(1)),
    },
    LongDocument {
        what: "a literal of 65,535 bytes in characters of two",
        kind: Triples,
        texts: ("<a:s> <a:p> \"a", "é", "\" .\n"),
        count: 32_767,
        expected: Ok(("<a:s> <a:p> \"a", "é", "\" .\n")),
    },
    LongDocument {
        what: "a literal of 65,536 bytes in characters of two",
        kind: Triples,
        texts: ("<a:s> <a:p> \"", "é", "\" .\n"),
        count: 32_768,
        expected: Err(TooLong(1)),
    },
    LongDocument {
        what: "a tag of 65,535 letters",
        kind: Triples,
        texts: ("<a:s> <a:p> \"a\"@", "x", " .\n"),
        count: 65_535,
        expected: Ok(("<a:s> <a:p> \"a\"@", "x", " .\n")),
    },
    LongDocument {
        what: "a tag of 65,536 letters",
        kind: Triples,
        texts: ("<a:s> <a:p> \"a\"@", "x", " .\n"),
        count: 65_536,
        expected: Err(TooLong(1)),
    },
    LongDocument {
        what: "a datatype of 65,535 bytes",
        kind: Triples,
        texts: ("<a:s> <a:p> \"a\"^^<a:", "t", "> .\n"),
        count: 65_533,
        expected: Ok(("<a:s> <a:p> \"a\"^^<a:", "t", "> .\n")),
    },
    LongDocument {
        what: "a datatype of 65,536 bytes",
        kind: Triples,
        texts: ("<a:s> <a:p> \"a\"^^<a:", "t", "> .\n"),
        count: 65_534,
        expected: Err(TooLong(1)),
    },
];

/// Escapes in literals, each counted as the character that it means.
static ESCAPES: &[LongDocument] = &[
    LongDocument {
        what: "a literal of 65,535 escapes of letters",
        kind: Triples,
        texts: ("<a:s> <a:p> \"", "\\u0061", "\" .\n"),
        count: 65_535,
        expected: Ok(("<a:s> <a:p> \"", "a", "\" .\n")),
    },
    LongDocument {
        what: "a literal of 65,536 escapes of letters",
        kind: Triples,
        texts: ("<a:s> <a:p> \"", "\\u0061", "\" .\n"),
        count: 65_536,
        expected: Err(TooLong(1)),
    },
    LongDocument {
        what: "a literal of 65,535 short escapes",
        kind: Triples,
        texts: ("<a:s> <a:p> \"", "\\n", "\" .\n"),
        count: 65_535,
        expected: Ok(("<a:s> <a:p> \"", "\\n", "\" .\n")),
    },
    LongDocument {
        what: "a literal of 65,536 short escapes",
        kind: Triples,
        texts: ("<a:s> <a:p> \"", "\\n", "\" .\n"),
        count: 65_536,
        expected: Err(TooLong(1)),
    },
];

/// IRIs, labels and names of graphs.
static NAMES: &[LongDocument] = &[
    LongDocument {
        what: "an IRI of 65,535 bytes",
        kind: Triples,
        texts: ("<a:", "s", "> <a:p> <a:o> .\n"),
        count: 65_533,
        expected: Ok(("<a:", "s", "> <a:p> <a:o> .\n")),
    },
    LongDocument {
        what: "an IRI of 65,536 bytes",
        kind: Triples,
        texts: ("<a:", "s", "> <a:p> <a:o> .\n"),
        count: 65_534,
        expected: Err(TooLong(1)),
    },
    LongDocument {
        what: "a predicate of 65,536 bytes",
        kind: Triples,
        texts: ("<a:s> <a:", "p", "> <a:o> .\n"),
        count: 65_534,
        expected: Err(TooLong(1)),
    },
    LongDocument {
        what: "an object of 65,536 bytes",
        kind: Triples,
        texts: ("<a:s> <a:p> <a:", "o", "> .\n"),
        count: 65_534,
        expected: Err(TooLong(1)),
    },
    LongDocument {
        what: "a label of 65,535 letters",
        kind: Triples,
        texts: ("<a:s> <a:p> _:", "b", ".\n"),
        count: 65_535,
        expected: Ok(("<a:s> <a:p> _:", "b", " .\n")),
    },
    LongDocument {
        what: "a label of 65,536 letters",
        kind: Triples,
        texts: ("<a:s> <a:p> _:", "b", ".\n"),
        count: 65_536,
        expected: Err(TooLong(1)),
    },
    LongDocument {
        what: "a graph of 65,535 bytes",
        kind: AsQuads,
        texts: ("<a:s> <a:p> <a:o> <a:", "g", "> .\n"),
        count: 65_533,
        expected: Ok(("<a:s> <a:p> <a:o> <a:", "g", "> .\n")),
    },
    LongDocument {
        what: "a graph of 65,536 bytes",
        kind: AsQuads,
        texts: ("<a:s> <a:p> <a:o> <a:", "g", "> .\n"),
        count: 65_534,
        expected: Err(TooLong(1)),
    },
    LongDocument {
        what: "a graph of 65,536 bytes in N-Triples",
        kind: Triples,
        texts: ("<a:s> <a:p> <a:o> <a:", "g", "> .\n"),
        count: 65_534,
        expected: Err(BadLine(1)),
    },
    LongDocument {
        what: "a label of a graph of 65,536 letters",
        kind: AsQuads,
        texts: ("<a:s> <a:p> <a:o> _:", "g", " .\n"),
        count: 65_536,
        expected: Err(TooLong(1)),
    },
];

/// Which fault is named, and what has no limit.
static WHOLE_DOCUMENTS: &[LongDocument] = &[
    LongDocument {
        what: "a long part before a bad line",
        kind: Triples,
        texts: ("<a:s> <a:p> \"", "a", "\" .\nx\n"),
        count: 65_536,
        expected: Err(TooLong(1)),
    },
    LongDocument {
        what: "a bad line before a long part",
        kind: Triples,
        texts: ("x\n<a:s> <a:p> \"", "a", "\" .\n"),
        count: 65_536,
        expected: Err(BadLine(1)),
    },
    LongDocument {
        what: "a long part in a line without a dot",
        kind: Triples,
        texts: ("<a:s> <a:p> \"", "a", "\"\n"),
        count: 65_536,
        expected: Err(BadLine(1)),
    },
    LongDocument {
        what: "a long part behind which the line is bad",
        kind: Triples,
        texts: ("<a:s> <a:p> \"", "a", "\" . x\n"),
        count: 65_536,
        expected: Err(BadLine(1)),
    },
    LongDocument {
        what: "a long part behind CR LF twice",
        kind: Triples,
        texts: ("\r\n\r\n<a:s> <a:p> \"", "a", "\" .\n"),
        count: 65_536,
        expected: Err(TooLong(3)),
    },
    LongDocument {
        what: "a long part in a last line without an end",
        kind: Triples,
        texts: ("\r<a:s> <a:p> \"", "a", "\" ."),
        count: 65_536,
        expected: Err(TooLong(2)),
    },
    LongDocument {
        what: "a literal at the limit between good lines, ended by CR LF",
        kind: Triples,
        texts: (
            "<a:s> <a:p> <a:o> .\r\n<a:s> <a:p> \"",
            "a",
            "\" .\r\n<a:s> <a:p> <a:o> .",
        ),
        count: 65_535,
        expected: Ok((
            "<a:s> <a:p> <a:o> .\n<a:s> <a:p> \"",
            "a",
            "\" .\n<a:s> <a:p> <a:o> .\n",
        )),
    },
    LongDocument {
        what: "a comment, which may be long",
        kind: Triples,
        texts: ("<a:s> <a:p> <a:o> . #", "c", "\n"),
        count: 65_536,
        expected: Ok(("<a:s> <a:p> <a:o> .\n", "", "")),
    },
    LongDocument {
        what: "white space, which may be long",
        kind: Triples,
        texts: ("<a:s>", " ", "<a:p> <a:o> .\n"),
        count: 65_536,
        expected: Ok(("<a:s> <a:p> <a:o> .\n", "", "")),
    },
    LongDocument {
        what: "many blank lines before a bad one",
        kind: Triples,
        texts: ("", "\r\n", "x\n"),
        count: 65_536,
        expected: Err(BadLine(65_537)),
    },
    LongDocument {
        what: "many equal lines",
        kind: Triples,
        texts: ("", "<a:s> <a:p> <a:o> .\r\n", " "),
        count: 1000,
        expected: Ok(("", "<a:s> <a:p> <a:o> .\n", "")),
    },
];

#[test]
fn parts_of_literals(rt: HostRuntime) -> Result<(), Memory> {
    table_reads(&rt, rt.alloc(), LITERAL_PARTS)
}

#[test]
fn escapes_in_literals(rt: HostRuntime) -> Result<(), Memory> {
    table_reads(&rt, rt.alloc(), ESCAPES)
}

#[test]
fn iris_labels_and_graphs(rt: HostRuntime) -> Result<(), Memory> {
    table_reads(&rt, rt.alloc(), NAMES)
}

#[test]
fn long_parts_among_other_lines(rt: HostRuntime) -> Result<(), Memory> {
    table_reads(&rt, rt.alloc(), WHOLE_DOCUMENTS)
}

#[test]
fn long_documents_byte_by_byte(rt: HostRuntime) -> Result<(), Memory> {
    for document in LITERAL_PARTS {
        reads_bytes(&rt, rt.alloc(), document)?;
    }
    Ok(())
}

#[test]
fn long_parts_among_other_lines_byte_by_byte(rt: HostRuntime) -> Result<(), Memory> {
    for document in WHOLE_DOCUMENTS {
        reads_bytes(&rt, rt.alloc(), document)?;
    }
    Ok(())
}
