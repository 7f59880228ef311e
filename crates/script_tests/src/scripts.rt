//! Scripts from sources, in pieces.
use client_script::{Command, Script, ScriptFault};
use rdf_io::MemSource;
use rdf_term::{Bytes, Memory};
use std::alloc::Global;

/// How many commands a script gives, and then its fault, if it has one.
fn run(alloc: Global, source: &mut MemSource) -> Result<(u64, Option<ScriptFault>), Memory> {
    let mut script = Script::new(alloc)?;
    for count in 0..2_000_000 {
        match script.next_command(source) {
            Ok(None) => return Ok((count, None)),
            Ok(Some(_)) => {}
            Err(fault) => return Ok((count, Some(fault))),
        }
    }
    Ok((2_000_000, None))
}

/// A source of these bytes, of which each call gives at most so many.
fn source(alloc: Global, bytes: &[u8], cut: usize) -> Result<MemSource, Memory> {
    let mut all = Bytes::new(alloc);
    all.append(bytes)?;
    let mut cuts = Vec::new(alloc);
    if cut > 0 {
        for _ in 0..bytes.len() {
            cuts.push(cut)?;
        }
    }
    Ok(MemSource::new(all, cuts, Vec::new(alloc)))
}

#[test]
fn lines_in_any_pieces(rt: HostRuntime) -> Result<(), Memory> {
    let alloc = rt.alloc();
    for cut in [0, 1, 2, 3, 7] {
        for (text, count, fault) in [
            ("", 0, None),
            ("\n", 1, None),
            ("size", 1, None),
            ("size\n", 1, None),
            ("size\n\nlist", 3, None),
            ("size\nsizes\nlist\n", 1, Some(ScriptFault::BadLine(2))),
            ("size\r\n", 0, Some(ScriptFault::BadLine(1))),
            ("# c\nsize\n x", 2, Some(ScriptFault::BadLine(3))),
        ] {
            let mut source = source(alloc, text.as_bytes(), cut)?;
            assert!(rt; run(alloc, &mut source)? == (count, fault), "{text} {cut}");
        }
    }
    Ok(())
}

#[test]
fn the_longest_line(rt: HostRuntime) -> Result<(), Memory> {
    let alloc = rt.alloc();
    let mut text = Bytes::new(alloc);
    text.append(b"size\n#")?;
    for _ in 0..1_048_575 {
        text.push(b'a')?;
    }
    let mut source_at_end = source(alloc, text.as_slice(), 0)?;
    assert!(rt; run(alloc, &mut source_at_end)? == (2, None));
    text.append(b"\nlist\n")?;
    let mut source_whole = source(alloc, text.as_slice(), 0)?;
    assert!(rt; run(alloc, &mut source_whole)? == (3, None));
    Ok(())
}

#[test]
fn a_line_too_long(rt: HostRuntime) -> Result<(), Memory> {
    let alloc = rt.alloc();
    let mut text = Bytes::new(alloc);
    text.append(b"size\n#")?;
    for _ in 0..1_048_576 {
        text.push(b'a')?;
    }
    let mut source_at_end = source(alloc, text.as_slice(), 0)?;
    assert!(rt; run(alloc, &mut source_at_end)? == (1, Some(ScriptFault::BadLine(2))));
    text.append(b"\nlist\n")?;
    let mut source_whole = source(alloc, text.as_slice(), 0)?;
    assert!(rt; run(alloc, &mut source_whole)? == (1, Some(ScriptFault::BadLine(2))));
    Ok(())
}

#[test]
fn a_million_lines(rt: HostRuntime) -> Result<(), Memory> {
    let alloc = rt.alloc();
    let mut text = Bytes::new(alloc);
    for _ in 0..1_000_000 {
        text.push(b'\n')?;
    }
    let mut all = source(alloc, text.as_slice(), 0)?;
    assert!(rt; run(alloc, &mut all)? == (1_000_000, None));
    text.push(b'\n')?;
    let mut more = source(alloc, text.as_slice(), 0)?;
    assert!(rt; run(alloc, &mut more)? == (1_000_000, Some(ScriptFault::BadLine(1_000_001))));
    Ok(())
}

#[test]
fn failing_reads(rt: HostRuntime) -> Result<(), Memory> {
    let alloc = rt.alloc();
    for call in 0..3 {
        let mut all = Bytes::new(alloc);
        all.append(b"size\n")?;
        let mut cuts = Vec::new(alloc);
        cuts.push(2)?;
        let mut fails = Vec::new(alloc);
        fails.push(call)?;
        let mut source = MemSource::new(all, cuts, fails);
        let mut script = Script::new(alloc)?;
        let first = script.next_command(&mut source);
        if call < 2 {
            // The line is read once the source goes on.
            assert!(rt; matches!(&first, Err(ScriptFault::ReadFault)));
            assert!(rt; script.number() == 0);
            assert!(rt; matches!(&script.next_command(&mut source), Ok(Some(Command::Size))));
        } else {
            assert!(rt; matches!(&first, Ok(Some(Command::Size))));
            assert!(rt; script.number() == 1);
            assert!(rt;
                matches!(
                    &script.next_command(&mut source),
                    Err(ScriptFault::ReadFault)
                )
            );
        }
        assert!(rt; matches!(&script.next_command(&mut source), Ok(None)));
    }
    Ok(())
}
