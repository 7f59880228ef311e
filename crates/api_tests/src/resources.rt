//! Every resource with every method.
use crate::shown::shown;
use rdf_term::Memory;
use repo_api::{calls_are_on_repositories, one_call, writes_are_valid};

const TRIPLE: &[u8] = b"<http://e/s> <http://e/p> \"1\" .\n";

/// What each method answers at a path, with the body of a triple.
#[derive(Clone, Copy)]
struct Row {
    target: &'static str,
    get: &'static str,
    post: &'static str,
    put: &'static str,
    delete: &'static str,
    head: &'static str,
}

const TABLE: [Row; 12] = [
    Row {
        target: "/rdf4j-server/protocol",
        get: "protocol",
        post: "allow GET",
        put: "allow GET",
        delete: "allow GET",
        head: "allow GET",
    },
    Row {
        target: "/rdf4j-server/repositories",
        get: "repositories ResultsJson",
        post: "allow GET",
        put: "allow GET",
        delete: "allow GET",
        head: "allow GET",
    },
    Row {
        target: "/rdf4j-server/repositories/r?query=ASK%7B%7D",
        get: "r: query, ResultsJson",
        post: "unsupported media type",
        put: "allow GET, POST",
        delete: "allow GET, POST",
        head: "allow GET, POST",
    },
    Row {
        target: "/rdf4j-server/repositories/r/statements",
        get: "r: list false false false 0, NQuads",
        post: "r: write 1, PlainText",
        put: "r: write 2, PlainText",
        delete: "r: write 1, PlainText",
        head: "allow GET, POST, PUT, DELETE",
    },
    Row {
        target: "/rdf4j-server/repositories/r/contexts",
        get: "r: contexts, ResultsJson",
        post: "allow GET",
        put: "allow GET",
        delete: "allow GET",
        head: "allow GET",
    },
    Row {
        target: "/rdf4j-server/repositories/s/size",
        get: "s: size 0, PlainText",
        post: "allow GET",
        put: "allow GET",
        delete: "allow GET",
        head: "allow GET",
    },
    Row {
        target: "/rdf4j-server/repositories/r/namespaces",
        get: "r: names, ResultsJson",
        post: "allow GET, DELETE",
        put: "allow GET, DELETE",
        delete: "r: clear names, PlainText",
        head: "allow GET, DELETE",
    },
    Row {
        target: "/rdf4j-server/repositories/r/namespaces/ex",
        get: "r: get ex, PlainText",
        post: "allow GET, PUT, DELETE",
        put: "bad namespace",
        delete: "r: remove ex, PlainText",
        head: "allow GET, PUT, DELETE",
    },
    Row {
        target: "/rdf4j-server/repositories/r/transactions",
        get: "allow POST",
        post: "r: begin 3, PlainText",
        put: "allow POST",
        delete: "allow POST",
        head: "allow POST",
    },
    Row {
        target: "/rdf4j-server/repositories/r/transactions/7-4?action=COMMIT",
        get: "allow POST, PUT, DELETE",
        post: "r: commit in 7-4, PlainText",
        put: "r: commit in 7-4, PlainText",
        delete: "r: rollback in 7-4, PlainText",
        head: "allow POST, PUT, DELETE",
    },
    Row {
        target: "http://h:1/rdf4j-server/repositories/r/size",
        get: "r: size 0, PlainText",
        post: "allow GET",
        put: "allow GET",
        delete: "allow GET",
        head: "allow GET",
    },
    Row {
        target: "/%72df4j-server/repositories/%72/s%69ze",
        get: "r: size 0, PlainText",
        post: "allow GET",
        put: "allow GET",
        delete: "allow GET",
        head: "allow GET",
    },
];

#[test]
fn every_resource_with_every_method(rt: HostRuntime) -> Result<(), Memory> {
    one_call();
    calls_are_on_repositories();
    writes_are_valid();
    let alloc = rt.alloc();
    let lines = "Content-Type: application/n-quads";
    for row in TABLE {
        for (method, want) in [
            ("GET", row.get),
            ("POST", row.post),
            ("PUT", row.put),
            ("DELETE", row.delete),
            ("HEAD", row.head),
        ] {
            let target = row.target;
            let answer = shown(alloc, method, target, lines, TRIPLE)?;
            assert_eq!(rt; answer.as_str(), want, "{method} {target}");
        }
    }
    Ok(())
}

#[test]
fn paths_of_nothing(rt: HostRuntime) -> Result<(), Memory> {
    let alloc = rt.alloc();
    for (target, want) in [
        ("", "no such resource"),
        ("*", "no such resource"),
        ("/", "no such resource"),
        ("/rdf4j-server", "no such resource"),
        ("/rdf4j-server/", "no such resource"),
        ("/rdf4j-server/protocol/", "no such resource"),
        ("rdf4j-server/protocol", "no such resource"),
        ("//rdf4j-server/protocol", "no such resource"),
        ("/rdf4j-server/Protocol", "no such resource"),
        ("HTTP://h/rdf4j-server/protocol", "no such resource"),
        ("https://h/rdf4j-server/protocol", "no such resource"),
        ("http://h", "no such resource"),
        ("/rdf4j-server%2Fprotocol", "no such resource"),
        ("/rdf4j-server/repositories/", "no such repository"),
        ("/rdf4j-server/repositories/x", "no such repository"),
        ("/rdf4j-server/repositories/R/size", "no such repository"),
        ("/rdf4j-server/repositories/%FF/size", "no such resource"),
        (
            "/rdf4j-server/repositories/%C3%A9/size",
            "no such repository",
        ),
        ("/rdf4j-server/repositories/x/sizes", "no such resource"),
        ("/rdf4j-server/repositories/r/size/", "no such resource"),
        (
            "/rdf4j-server/repositories/r/namespaces/a/b",
            "no such resource",
        ),
        (
            "/rdf4j-server/repositories/r/namespaces/%ED%A0%80",
            "no such resource",
        ),
        (
            "/rdf4j-server/repositories/x/transactions/00-1",
            "no such repository",
        ),
        (
            "/rdf4j-server/repositories/r/transactions/",
            "no such transaction",
        ),
    ] {
        assert_eq!(rt;
            shown(alloc, "GET", target, "", b"")?.as_str(),
            want,
            "{target}"
        );
    }
    Ok(())
}
