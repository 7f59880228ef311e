//! Names of transactions, levels, prefixes and actions.
use crate::shown::shown;
use rdf_term::Memory;

#[test]
fn names_of_transactions(rt: HostRuntime) -> Result<(), Memory> {
    let alloc = rt.alloc();
    for (name, want) in [
        ("0-0", "r: rollback in 0-0, PlainText"),
        ("10-5", "r: rollback in 10-5, PlainText"),
        ("%31-%35", "r: rollback in 1-5, PlainText"),
        (
            "4611686018427387903-1",
            "r: rollback in 4611686018427387903-1, PlainText",
        ),
        ("4611686018427387904-1", "no such transaction"),
        ("18446744073709551616-1", "no such transaction"),
        ("00-1", "no such transaction"),
        ("01-1", "no such transaction"),
        ("+1-1", "no such transaction"),
        ("-1", "no such transaction"),
        ("1-", "no such transaction"),
        ("1", "no such transaction"),
        ("1-6", "no such transaction"),
        ("1-05", "no such transaction"),
        ("1-1-1", "no such transaction"),
        ("1--1", "no such transaction"),
        ("1 -1", "no such transaction"),
    ] {
        let target = format!(in alloc; "/rdf4j-server/repositories/r/transactions/{name}")?;
        assert_eq!(rt;
            shown(alloc, "DELETE", &target, "", b"")?.as_str(),
            want,
            "{name}"
        );
    }
    Ok(())
}

#[test]
fn levels_of_isolation(rt: HostRuntime) -> Result<(), Memory> {
    let alloc = rt.alloc();
    for (query, want) in [
        ("", "r: begin 3, PlainText"),
        ("isolation-level=NONE", "r: begin 0, PlainText"),
        ("isolation-level=READ_UNCOMMITTED", "r: begin 1, PlainText"),
        ("isolation-level=READ_COMMITTED", "r: begin 2, PlainText"),
        ("isolation-level=SNAPSHOT_READ", "r: begin 3, PlainText"),
        ("isolation-level=SNAPSHOT", "r: begin 4, PlainText"),
        ("isolation-level=SERIALIZABLE", "r: begin 5, PlainText"),
        (
            "isolation-level=http://e/x%23SERIALIZABLE",
            "r: begin 5, PlainText",
        ),
        ("isolation-level=%23NONE/SNAPSHOT", "r: begin 4, PlainText"),
        (
            "isolation-level=serializable",
            "bad parameter isolation-level",
        ),
        (
            "isolation-level=SERIALIZABLE/",
            "bad parameter isolation-level",
        ),
        ("isolation-level=", "bad parameter isolation-level"),
        (
            "isolation-level=NONE&isolation-level=NONE",
            "bad parameter isolation-level",
        ),
        ("level=SNAPSHOT&query=x&$x=1", "r: begin 3, PlainText"),
    ] {
        let target = format!(in alloc; "/rdf4j-server/repositories/r/transactions?{query}")?;
        assert_eq!(rt;
            shown(alloc, "POST", &target, "", b"")?.as_str(),
            want,
            "{query}"
        );
    }
    Ok(())
}

#[test]
fn prefixes(rt: HostRuntime) -> Result<(), Memory> {
    let alloc = rt.alloc();
    for (prefix, want) in [
        ("ex", "r: put ex http://e/, PlainText"),
        ("a.b-c_1", "r: put a.b-c_1 http://e/, PlainText"),
        ("%C3%A9", "r: put \u{e9} http://e/, PlainText"),
        ("", "bad parameter prefix"),
        ("1a", "bad parameter prefix"),
        ("_a", "bad parameter prefix"),
        ("-a", "bad parameter prefix"),
        ("a.", "bad parameter prefix"),
        ("a:", "bad parameter prefix"),
        ("a%20b", "bad parameter prefix"),
    ] {
        let target = format!(in alloc; "/rdf4j-server/repositories/r/namespaces/{prefix}")?;
        let lines = "Content-Type: text/turtle";
        assert_eq!(rt;
            shown(alloc, "PUT", &target, lines, b"http://e/")?.as_str(),
            want,
            "{prefix}"
        );
    }
    Ok(())
}

#[test]
fn actions(rt: HostRuntime) -> Result<(), Memory> {
    let alloc = rt.alloc();
    for (query, want) in [
        ("action=ADD", "r: write 1 in 0-5, PlainText"),
        (
            "action=ADD&context=null&context=%3Curn:g%3E&context=null",
            "r: write 2 in 0-5, PlainText",
        ),
        ("action=DELETE", "r: write 1 in 0-5, PlainText"),
        (
            "action=GET&obj=%221%22&context=null",
            "r: list false false true 1 in 0-5, NQuads",
        ),
        ("action=SIZE&context=null", "r: size 1 in 0-5, PlainText"),
        ("action=QUERY&query=ASK%7B%7D", "unsupported media type"),
        ("action=COMMIT", "r: commit in 0-5, PlainText"),
        ("action=PING", "r: ping in 0-5, PlainText"),
        ("action=ROLLBACK", "r: rollback in 0-5, PlainText"),
        ("", "bad parameter action"),
        ("action=commit", "bad parameter action"),
        ("action=COMMIT&action=COMMIT", "bad parameter action"),
        ("Action=COMMIT", "bad parameter action"),
    ] {
        let target = format!(in alloc; "/rdf4j-server/repositories/r/transactions/0-5?{query}")?;
        let lines = "Content-Type: application/n-triples";
        let body = b"<http://e/s> <http://e/p> \"1\" .\n";
        assert_eq!(rt;
            shown(alloc, "PUT", &target, lines, body)?.as_str(),
            want,
            "{query}"
        );
    }
    Ok(())
}
