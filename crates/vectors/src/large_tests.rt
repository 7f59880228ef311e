//! A document of 16 MiB, in lines whose literals are as long as a part may be.
use crate::tests::{read_chunks, written};
use nquads::{DataFault, Kind, read_document};
use rdf_term::{Bytes, Memory, Quads};
use std::alloc::Global;
use std::process::Abort;

/// The bytes of each literal.
const LETTERS: usize = 65_535;

/// The lines, which have a few bytes besides.
const LINES: usize = 256;

fn document(alloc: Global) -> Result<Bytes, Memory> {
    let mut line = Bytes::new(alloc);
    line.append(b"<a:s> <a:p> \"")?;
    for _ in 0..LETTERS {
        line.push(b'x')?;
    }
    line.append(b"\" .\n")?;
    let mut document = Bytes::new(alloc);
    for _ in 0..LINES {
        document.append(line.as_slice())?;
    }
    Ok(document)
}

/// The lines are canonical, so that they are written as they were read.
fn meets(rt: &impl Abort, alloc: Global, document: &Bytes, read: Result<Quads, DataFault>) {
    match written(alloc, read) {
        Ok(out) => assert!(rt; out.as_slice() == document.as_slice()),
        Err(fault) => assert!(rt; false, "{fault:?}"),
    }
}

#[test]
fn a_document_of_16_mebibytes(rt: HostRuntime) -> Result<(), Memory> {
    let alloc = rt.alloc();
    let document = document(alloc)?;
    assert!(rt; document.len() >= 16 * 1024 * 1024);
    let bytes = document.as_slice();
    let whole = read_document(alloc, Kind::Triples, bytes);
    meets(&rt, alloc, &document, whole);
    for size in [4093usize, 65_536] {
        let pieces = read_chunks(alloc, Kind::Triples, bytes, size);
        meets(&rt, alloc, &document, pieces);
    }
    Ok(())
}
