//! Requests, and what is written for their calls.
use crate::shown::written;
use rdf_term::Memory;
use std::str;

const R: &str = "/rdf4j-server/repositories/r";

const L: &str = "<http://w/s0/3> <http://w/p> \"7\" .\n";

#[test]
fn requests_are_written_again(rt: HostRuntime) -> Result<(), Memory> {
    let alloc = rt.alloc();
    for (method, part, accept, media_type, body, want) in [
        ("GET", "/size", "", "", "", "GET R/size|Host: h:1||"),
        (
            "GET",
            "/size?context=null&context=_:b&context=null",
            "",
            "",
            "",
            "GET R/size?context=null&context=_%3Ab|Host: h:1||",
        ),
        (
            "PUT",
            "/transactions/12-5?action=SIZE&context=%3Chttp://e/g%3E",
            "",
            "",
            "",
            "PUT R/transactions/12-5?action=SIZE&context=%3Chttp%3A%2F%2Fe%2Fg%3E|Host: h:1||",
        ),
        (
            "GET",
            "/contexts",
            "text/*;q=0.5, application/json",
            "",
            "",
            "GET R/contexts|Host: h:1|Accept: application/json||",
        ),
        (
            "GET",
            "/statements?obj=%22a+b%22&subj=_:s",
            "text/plain",
            "",
            "",
            "GET R/statements?subj=_%3As&obj=%22a+b%22|Host: h:1|Accept: text/plain;charset=UTF-8||",
        ),
        (
            "POST",
            "/transactions/0-2?action=GET",
            "",
            "",
            "",
            "PUT R/transactions/0-2?action=GET|Host: h:1|Accept: application/n-quads||",
        ),
        (
            "POST",
            "/transactions?isolation-level=http://e/l%23SERIALIZABLE",
            "",
            "",
            "",
            "POST R/transactions?isolation-level=SERIALIZABLE|Host: h:1||",
        ),
        (
            "POST",
            "/transactions",
            "",
            "",
            "",
            "POST R/transactions?isolation-level=SNAPSHOT_READ|Host: h:1||",
        ),
        (
            "POST",
            "/transactions/0-5?action=COMMIT",
            "",
            "",
            "",
            "PUT R/transactions/0-5?action=COMMIT|Host: h:1||",
        ),
        (
            "PUT",
            "/transactions/0-5?action=ROLLBACK",
            "",
            "",
            "",
            "DELETE R/transactions/0-5|Host: h:1||",
        ),
        (
            "PUT",
            "/transactions/0-5?action=PING",
            "",
            "",
            "",
            "PUT R/transactions/0-5?action=PING|Host: h:1||",
        ),
        (
            "GET",
            "/namespaces",
            "",
            "",
            "",
            "GET R/namespaces|Host: h:1|Accept: application/sparql-results+json||",
        ),
        (
            "DELETE",
            "/namespaces",
            "",
            "",
            "",
            "DELETE R/namespaces|Host: h:1||",
        ),
        (
            "PUT",
            "/namespaces/e%78",
            "",
            "",
            "http://e/",
            "PUT R/namespaces/ex|Host: h:1|Content-Type: text/plain;charset=UTF-8|Content-Length: 9||http://e/",
        ),
        (
            "GET",
            "/namespaces/ex",
            "",
            "",
            "",
            "GET R/namespaces/ex|Host: h:1||",
        ),
        (
            "DELETE",
            "/namespaces/ex",
            "",
            "",
            "",
            "DELETE R/namespaces/ex|Host: h:1||",
        ),
        (
            "DELETE",
            "/statements?subj=%3Chttp%3A%2F%2Fw%2Fs0%2F3%3E",
            "",
            "",
            "",
            "DELETE R/statements?subj=%3Chttp%3A%2F%2Fw%2Fs0%2F3%3E|Host: h:1||",
        ),
        (
            "PUT",
            "/statements?context=null",
            "",
            "application/n-quads",
            "",
            "DELETE R/statements?context=null|Host: h:1||",
        ),
        (
            "GET",
            "?query=ASK%7B%7D",
            "text/boolean",
            "",
            "",
            "POST R|Host: h:1|Accept: text/boolean|Content-Type: application/sparql-query|Content-Length: 13||ASK WHERE { }",
        ),
        (
            "PUT",
            "/transactions/3-2?action=QUERY&query=SELECT*%7B%7D",
            "",
            "",
            "",
            "PUT R/transactions/3-2?action=QUERY|Host: h:1|Accept: application/sparql-results+json|Content-Type: application/sparql-query|Content-Length: 18||SELECT * WHERE { }",
        ),
    ] {
        let target = format!(in alloc; "{R}{part}")?;
        let text = written(alloc, method, &target, accept, media_type, body)?;
        let text = str::from_utf8(text.as_slice()).expect(&rt, "UTF-8");
        assert_eq!(rt;
            text.replacen(alloc, R, "R", 1)?.as_str(),
            want,
            "at {target}"
        );
    }
    Ok(())
}

#[test]
fn documents_are_written_again(rt: HostRuntime) -> Result<(), Memory> {
    let alloc = rt.alloc();
    for (method, part, want) in [
        ("POST", "/statements", "POST /statements"),
        (
            "PUT",
            "/transactions/0-5?action=ADD",
            "PUT /transactions/0-5?action=ADD",
        ),
        (
            "POST",
            "/transactions/0-5?action=DELETE",
            "PUT /transactions/0-5?action=DELETE",
        ),
        ("PUT", "/statements", "PUT /statements"),
    ] {
        let target = format!(in alloc; "{R}{part}")?;
        let (method_wanted, part_wanted) = want.split_once(' ').expect(&rt, "two words");
        let text = written(alloc, method, &target, "", "application/n-triples", L)?;
        let text = str::from_utf8(text.as_slice()).expect(&rt, "UTF-8");
        let want = format!(in alloc;
            "{method_wanted} {R}{part_wanted}|Host: h:1|Content-Type: application/n-quads|Content-Length: 35||{L}"
        )?;
        assert_eq!(rt; text, want.as_str(), "at {target}");
    }
    Ok(())
}

/// A document that takes the place of what is in two graphs is sent once.
#[test]
fn replacements_name_each_statement_once(rt: HostRuntime) -> Result<(), Memory> {
    let alloc = rt.alloc();
    let target = format!(in alloc; "{R}/statements?context=null&context=_:g")?;
    let text = written(alloc, "PUT", &target, "", "text/plain", L)?;
    let text = str::from_utf8(text.as_slice()).expect(&rt, "UTF-8");
    let want = format!(in alloc;
        "PUT {R}/statements?context=null&context=_%3Ag|Host: h:1|Content-Type: application/n-quads|Content-Length: 35||{L}"
    )?;
    assert_eq!(rt; text, want.as_str());
    Ok(())
}

#[test]
fn other_paths(rt: HostRuntime) -> Result<(), Memory> {
    let alloc = rt.alloc();
    for (target, want) in [
        (
            "http://h/rdf4j-server/protocol",
            "GET /rdf4j-server/protocol|Host: h:1||",
        ),
        (
            "/rdf4j-server/repositories",
            "GET /rdf4j-server/repositories|Host: h:1|Accept: application/sparql-results+json||",
        ),
        (
            "/rdf4j-server/repositories/a%2Fb%20c/size",
            "GET /rdf4j-server/repositories/a%2Fb%20c/size|Host: h:1||",
        ),
    ] {
        let text = written(alloc, "GET", target, "", "", "")?;
        let text = str::from_utf8(text.as_slice()).expect(&rt, "UTF-8");
        assert_eq!(rt; text, want, "at {target}");
    }
    Ok(())
}
