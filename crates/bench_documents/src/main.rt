//! The program that `bench/documents` times: it reads a document of N-Quads from standard input, in
//! pieces of 64 KiB, and prints how many quads it holds. A line that is refused ends it with status 1.
//!
//! The quads of a piece are let go before the next one is read, so that memory doesn't grow with the
//! document.
#![tactic(auto)]

use nquads::{DataFault, Kind, LineReader};
use rdf_term::Quads;
use std::alloc::Global;
use std::io::Read;

/// The bytes that are read at once.
const PIECE: usize = 64 * 1024;

/// The number of quads of the document that the input gives to its end.
fn count_quads<R: Read>(alloc: Global, input: &mut R) -> Result<u64, anyhow::Error> {
    let mut piece = vec![in alloc; 0u8; PIECE]?;
    let Ok(mut reader) = LineReader::new(alloc, Kind::Quads) else {
        return Err(anyhow::Error::from(DataFault::Memory));
    };
    let mut count = 0u64;
    for _ in 0..u64::MAX {
        let len = input.read(piece.as_mut_slice())?;
        let mut quads = Quads::new(alloc);
        if len == 0 {
            reader.finish(&mut quads)?;
        } else {
            reader.feed(&piece[..len], &mut quads)?;
        }
        count = count.saturating_add(quads.len() as u64);
        if len == 0 {
            break;
        }
    }
    Ok(count)
}

fn main(rt: HostRuntime) -> Result<(), anyhow::Error> {
    let count = count_quads(rt.alloc(), &mut rt.stdin())?;
    println!(rt; "{count} quads")?;
    Ok(())
}
