//! The words of the program.
use crate::exchange::{CALM, run};
use rdf_term::Memory;
use std::alloc::Global;

/// Whether the words are refused, and nothing is written for them.
fn are_refused(alloc: Global, words: &[&str]) -> Result<bool, Memory> {
    let input = "GET /rdf4j-server/protocol HTTP/1.1\r\nHost: h\r\n\r\n";
    let ran = run(alloc, words, input, CALM)?;
    Ok(ran.status == 5 && ran.taken.len() == 0)
}

#[test]
fn one_to_sixteen_distinct_ids_are_named(rt: HostRuntime) -> Result<(), Memory> {
    let alloc = rt.alloc();
    let sixteen = [
        "stdio", "a", "b", "c", "d", "e", "f", "g", "h", "i", "j", "k", "l", "m", "n", "o", "p",
    ];
    let seventeen = [
        "stdio", "a", "b", "c", "d", "e", "f", "g", "h", "i", "j", "k", "l", "m", "n", "o", "p",
        "q",
    ];
    assert!(rt; are_refused(alloc, &[])?);
    assert!(rt; are_refused(alloc, &["stdio"])?);
    assert!(rt; are_refused(alloc, &["serve", "r"])?);
    assert!(rt; !are_refused(alloc, &["stdio", "r", "s"])?);
    assert!(rt; are_refused(alloc, &["stdio", "r", "s", "r"])?);
    assert!(rt; !are_refused(alloc, &sixteen)?);
    assert!(rt; are_refused(alloc, &seventeen)?);
    Ok(())
}

#[test]
fn ids_have_a_grammar(rt: HostRuntime) -> Result<(), Memory> {
    let alloc = rt.alloc();
    let most = "R-34567890_234567890123456789012345678901234567890123456789012-4";
    let more = "R-34567890_234567890123456789012345678901234567890123456789012-45";
    for id in ["r", "7", "stdio", most] {
        assert!(rt; !are_refused(alloc, &["stdio", id])?, "{id}");
    }
    for id in ["", "_r", "-r", "r/s", "r s", "r\u{e9}", more] {
        assert!(rt; are_refused(alloc, &["stdio", id])?, "{id}");
    }
    Ok(())
}

#[test]
fn up_to_six_distinct_orders_are_options(rt: HostRuntime) -> Result<(), Memory> {
    let alloc = rt.alloc();
    let six = [
        "stdio", "--order", "spoc", "--order", "posc", "--order", "ospc", "--order", "cspo",
        "--order", "cosp", "--order", "opsc", "r",
    ];
    let seven = [
        "stdio", "--order", "spoc", "--order", "posc", "--order", "ospc", "--order", "cspo",
        "--order", "cosp", "--order", "opsc", "--order", "pcso", "r",
    ];
    assert!(rt; !are_refused(alloc, &["stdio", "--order", "cpos", "r"])?);
    assert!(rt; !are_refused(alloc, &["stdio", "--order", "spoc", "spoc"])?);
    assert!(rt; !are_refused(alloc, &six)?);
    assert!(rt; are_refused(alloc, &seven)?);
    assert!(rt; are_refused(alloc, &["stdio", "--order", "spoc", "--order", "spoc", "r"])?);
    for order in ["", "spo", "spoo", "spocs", "SPOC", "r"] {
        assert!(rt;
            are_refused(alloc, &["stdio", "--order", order, "r"])?,
            "{order}"
        );
    }
    assert!(rt; are_refused(alloc, &["stdio", "--order", "r"])?);
    assert!(rt; are_refused(alloc, &["stdio", "--order", "spoc"])?);
    assert!(rt; are_refused(alloc, &["stdio", "--order"])?);
    assert!(rt; are_refused(alloc, &["stdio", "r", "--order", "spoc"])?);
    assert!(rt; are_refused(alloc, &["stdio", "--Order", "spoc", "r"])?);
    Ok(())
}
