//! Every document of the tables, read whole, in two pieces cut at each place, also with an empty
//! piece between them, and byte by byte, and what it gave written and read again.
use crate::{
    BAD_LITERALS, Document, ENCODING, Expected, FAULTS, GRAPHS, IRIS, LABELS, LINES, LITERALS,
};
use nquads::{DataFault, Kind, LineReader, read_document, write_quads};
use rdf_term::{Bytes, Quads};
use std::alloc::Global;
use std::process::Abort;

/// What pieces that follow one another give to one reader.
pub(crate) fn read_pieces(alloc: Global, kind: Kind, pieces: &[&[u8]]) -> Result<Quads, DataFault> {
    let Ok(mut reader) = LineReader::new(alloc, kind) else {
        return Err(DataFault::Memory);
    };
    let mut quads = Quads::new(alloc);
    for piece in pieces {
        reader.feed(piece, &mut quads)?;
    }
    reader.finish(&mut quads)?;
    Ok(quads)
}

/// What a document gives in pieces of this length.
pub(crate) fn read_chunks(
    alloc: Global,
    kind: Kind,
    bytes: &[u8],
    size: usize,
) -> Result<Quads, DataFault> {
    let Ok(mut reader) = LineReader::new(alloc, kind) else {
        return Err(DataFault::Memory);
    };
    let mut quads = Quads::new(alloc);
    for piece in bytes.chunks(size.max(1)) {
        reader.feed(piece, &mut quads)?;
    }
    reader.finish(&mut quads)?;
    Ok(quads)
}

/// The lines that a reading wrote, or its fault.
pub(crate) fn written(alloc: Global, read: Result<Quads, DataFault>) -> Result<Bytes, DataFault> {
    let quads = read?;
    let mut out = Bytes::new(alloc);
    match write_quads(&quads, Kind::Quads, &mut out) {
        Ok(()) => Ok(out),
        Err(_) => Err(DataFault::Memory),
    }
}

/// The reading gave what was expected; `how` says how it was read.
fn meets(
    rt: &impl Abort,
    alloc: Global,
    document: &Document,
    read: Result<Quads, DataFault>,
    how: (&str, usize),
) {
    let (way, place) = how;
    match (written(alloc, read), document.expected) {
        (Ok(out), Expected::Lines(lines)) => assert!(rt;
            out.as_slice() == lines.as_bytes(),
            "{}, {way} {place}: {out:?}",
            document.what
        ),
        (Err(fault), Expected::Refused(wanted)) => assert!(rt;
            fault == wanted,
            "{}, {way} {place}: {fault:?}",
            document.what
        ),
        (Ok(out), _) => assert!(rt; false, "{}, {way} {place}: read as {out:?}", document.what),
        (Err(fault), _) => assert!(rt; false, "{}, {way} {place}: {fault:?}", document.what),
    }
}

/// The document gives what is expected, whole and in any pieces.
fn reads(rt: &impl Abort, alloc: Global, document: &Document) {
    let (kind, bytes) = (document.kind, document.bytes);
    let whole = read_document(alloc, kind, bytes);
    meets(rt, alloc, document, whole, ("whole", 0));
    for place in 0..=bytes.len() {
        let (front, back) = (&bytes[..place], &bytes[place..]);
        let halves = read_pieces(alloc, kind, &[front, back]);
        meets(rt, alloc, document, halves, ("cut at", place));
        let parted = read_pieces(alloc, kind, &[front, b"".as_slice(), back]);
        meets(
            rt,
            alloc,
            document,
            parted,
            ("with an empty piece at", place),
        );
    }
    let single = read_chunks(alloc, kind, bytes, 1);
    meets(rt, alloc, document, single, ("in pieces of", 1));
}

/// The lines that are expected are themselves a document, which gives the same lines; and a
/// document of N-Triples that is read is one of N-Quads too.
fn reads_again(rt: &impl Abort, alloc: Global, document: &Document) {
    if let Expected::Lines(lines) = document.expected {
        let again = read_document(alloc, document.kind, lines.as_bytes());
        meets(rt, alloc, document, again, ("written and read again", 1));
        let as_quads = read_document(alloc, Kind::Quads, document.bytes);
        meets(rt, alloc, document, as_quads, ("as N-Quads", 1));
    }
}

fn table_reads(rt: &impl Abort, alloc: Global, table: &[Document]) {
    for document in table {
        reads(rt, alloc, document);
        reads_again(rt, alloc, document);
    }
}

#[test]
fn lines_and_their_ends(rt: HostRuntime) {
    table_reads(&rt, rt.alloc(), LINES);
}

#[test]
fn first_bad_lines(rt: HostRuntime) {
    table_reads(&rt, rt.alloc(), FAULTS);
}

#[test]
fn labels_of_blank_nodes(rt: HostRuntime) {
    table_reads(&rt, rt.alloc(), LABELS);
}

#[test]
fn iris(rt: HostRuntime) {
    table_reads(&rt, rt.alloc(), IRIS);
}

#[test]
fn names_of_graphs(rt: HostRuntime) {
    table_reads(&rt, rt.alloc(), GRAPHS);
}

#[test]
fn literals_that_are_read(rt: HostRuntime) {
    table_reads(&rt, rt.alloc(), LITERALS);
}

#[test]
fn literals_that_are_refused(rt: HostRuntime) {
    table_reads(&rt, rt.alloc(), BAD_LITERALS);
}

#[test]
fn encodings(rt: HostRuntime) {
    table_reads(&rt, rt.alloc(), ENCODING);
}

#[test]
fn escaped_upload_is_listed_canonically(rt: HostRuntime) {
    let mut length = None;
    for document in GRAPHS {
        if document.what == "the escaped upload" {
            if let Expected::Lines(lines) = document.expected {
                length = Some(lines.len());
            }
        }
    }
    assert_eq!(rt; length, Some(57));
}
