//! The program over words and a sink in memory.
use rdf_io::MemSink;
use rdf_server::run_workload;
use rdf_term::{Memory, Text};
use std::alloc::Global;

const TWO_WORKERS: &str =
    "w0 quads 100 commits 100 entries 300\nw1 quads 100 commits 100 entries 300\nall quads 150 commits 0 entries 250\n";

const ONE_WORKER: &str = "w0 quads 1 commits 1 entries 3\nall quads 1 commits 0 entries 1\n";

/// Words that are none of the program.
const OTHER_WORDS: [&str; 10] = [
    "workload",
    "workload 1",
    "workload 0 1",
    "workload 16 1",
    "workload 1 0",
    "workload 1 10001",
    "workload 01 1",
    "workload 1 1 1",
    "workload 1 x",
    "work 1 1",
];

fn words(alloc: Global, line: &str) -> Result<Vec<Text>, Memory> {
    let mut words = Vec::new(alloc);
    for word in line.split(' ') {
        words.push(Text::from_chars(alloc, word)?)?;
    }
    Ok(words)
}

#[test]
fn what_is_left_is_printed(rt: HostRuntime) -> Result<(), Memory> {
    let alloc = rt.alloc();
    for (line, workers, text) in [
        ("workload 2 100", 2, TWO_WORKERS),
        ("workload 1 1", 1, ONE_WORKER),
    ] {
        let words = words(alloc, line)?;
        let mut out = MemSink::new(alloc, Vec::new(alloc));
        let end = run_workload(&rt, alloc, &words, &mut out);
        assert_eq!(rt; end.status, 0);
        assert!(rt; out.taken() == text.as_bytes());
        assert!(rt;
            matches!(&end.house, Some(house) if house.doors.len() == workers && house.counts.len() == workers + 1)
        );
    }
    Ok(())
}

#[test]
fn fifteen_workers_leave_what_is_stated(rt: HostRuntime) -> Result<(), Memory> {
    let alloc = rt.alloc();
    let words = words(alloc, "workload 15 1000")?;
    let mut out = MemSink::new(alloc, Vec::new(alloc));
    let end = run_workload(&rt, alloc, &words, &mut out);
    assert_eq!(rt; end.status, 0);
    assert!(rt;
        out.taken().ends_with(
            b"w14 quads 1000 commits 1000 entries 3000\nall quads 11250 commits 0 entries 18750\n"
        )
    );
    Ok(())
}

#[test]
fn other_words_print_nothing(rt: HostRuntime) -> Result<(), Memory> {
    let alloc = rt.alloc();
    for line in OTHER_WORDS {
        let words = words(alloc, line)?;
        let mut out = MemSink::new(alloc, Vec::new(alloc));
        let end = run_workload(&rt, alloc, &words, &mut out);
        assert!(rt; end.status == 5, "{line}");
        assert!(rt; end.house.is_none());
        assert!(rt; out.taken().is_empty());
    }
    Ok(())
}

#[test]
fn a_sink_that_fails_is_told(rt: HostRuntime) -> Result<(), Memory> {
    let alloc = rt.alloc();
    let words = words(alloc, "workload 1 4")?;
    let mut out = MemSink::new(alloc, Vec::from_array(alloc, [0])?);
    let end = run_workload(&rt, alloc, &words, &mut out);
    assert_eq!(rt; end.status, 3);
    assert!(rt; end.house.is_some());
    assert_eq!(rt; out.faults(), 1);
    assert!(rt; out.taken().is_empty());
    Ok(())
}
