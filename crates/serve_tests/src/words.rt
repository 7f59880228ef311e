//! The words of `serve`.
use rdf_server::{Plan, read_plan};
use rdf_term::{Memory, Text};
use std::alloc::Global;

/// Words, as they stand between spaces.
pub fn words(alloc: Global, line: &str) -> Result<Vec<Text>, Memory> {
    let mut words = Vec::new(alloc);
    for word in line.split(' ') {
        words.push(Text::from_chars(alloc, word)?)?;
    }
    Ok(words)
}

fn plan_of(alloc: Global, line: &str) -> Result<Option<Plan>, Memory> {
    let words = words(alloc, line)?;
    Ok(read_plan(&words))
}

#[test]
fn words_of_serve_have_a_plan(rt: HostRuntime) -> Result<(), Memory> {
    let alloc = rt.alloc();
    let good = [
        ("serve --port 1 --workers 1 r", 1, 1, None),
        ("serve --port 65535 --workers 32 r s", 65_535, 32, None),
        ("serve --workers 2 --port 80 r", 80, 2, None),
        (
            "serve --connections 1000000 --port 8080 --workers 4 r",
            8_080,
            4,
            Some(1_000_000),
        ),
        (
            "serve --order spoc --port 80 --order posc --workers 10 --connections 1 serve",
            80,
            10,
            Some(1),
        ),
        (
            "serve --order spoc --order posc --order ospc --order cspo --order cosp --order opsc --port 80 --workers 1 r",
            80,
            1,
            None,
        ),
    ];
    for (line, port, workers, connections) in good {
        let want = Plan {
            port,
            workers,
            connections,
        };
        assert!(rt; plan_of(alloc, line)? == Some(want), "{line}");
    }
    Ok(())
}

#[test]
fn other_words_have_none(rt: HostRuntime) -> Result<(), Memory> {
    let alloc = rt.alloc();
    for line in [
        "",
        "serve",
        "serve r",
        "stdio r",
        "stdio --port 80 --workers 1 r",
        "serve --port 80 r",
        "serve --workers 1 r",
        "serve --port 80 --workers 1",
        "serve --port 80 --workers 1 r r",
        "serve --port 80 --workers 1 -r",
        "serve --port 80 r --workers 1",
        "serve --port 80 --port 80 --workers 1 r",
        "serve --port 80 --workers 1 --workers 1 r",
        "serve --port 80 --workers 1 --connections 1 --connections 1 r",
        "serve --port 80 --workers 1 --order spoc --order spoc r",
        "serve --port 80 --workers 1 --order spo r",
        "serve --order spoc --order posc --order ospc --order cspo --order cosp --order opsc --order pcso --port 80 --workers 1 r",
        "serve --port=80 --workers 1 r",
        "serve --Port 80 --workers 1 r",
        "serve --port 80 --workers 1 --worker 1 r",
    ] {
        assert!(rt; plan_of(alloc, line)?.is_none(), "{line}");
    }
    Ok(())
}

#[test]
fn numbers_have_a_range(rt: HostRuntime) -> Result<(), Memory> {
    let alloc = rt.alloc();
    for (port, workers, connections) in [
        ("0", "1", "1"),
        ("65536", "1", "1"),
        ("080", "1", "1"),
        ("+80", "1", "1"),
        ("-1", "1", "1"),
        ("8o", "1", "1"),
        ("18446744073709551617", "1", "1"),
        ("80", "0", "1"),
        ("80", "33", "1"),
        ("80", "01", "1"),
        ("80", "4294967297", "1"),
        ("80", "1", "0"),
        ("80", "1", "1000001"),
        ("80", "1", "00"),
        ("80", "1", "1e3"),
        ("80", "1", "99999999999999999999999"),
    ] {
        let line = format!(in alloc;
            "serve --port {port} --workers {workers} --connections {connections} r"
        )?;
        assert!(rt; plan_of(alloc, line.as_str())?.is_none(), "{line}");
    }
    Ok(())
}
