//! Queries, documents, parameters and forms of replies.
use crate::shown::shown;
use rdf_term::Memory;

const R: &str = "/rdf4j-server/repositories/r";

const FORM: &str = "Content-Type: Application/X-WWW-Form-URLencoded; charset=UTF-8";

const QUERY: &str = "Content-Type: application/sparql-query";

#[test]
fn queries(rt: HostRuntime) -> Result<(), Memory> {
    let alloc = rt.alloc();
    for (method, query, lines, body, want) in [
        (
            "GET",
            "query=SELECT*%7B%7D",
            "",
            "",
            "r: query, ResultsJson",
        ),
        (
            "GET",
            "query=ASK%7B%7D",
            "Accept: text/boolean",
            "",
            "r: query, Boolean",
        ),
        (
            "GET",
            "query=CONSTRUCT+WHERE%7B%7D",
            "",
            "",
            "r: query, NQuads",
        ),
        (
            "GET",
            "query=ASK%7B%7D",
            "Content-Type: text/plain",
            "x",
            "r: query, ResultsJson",
        ),
        ("GET", "", QUERY, "ASK{}", "r: query, ResultsJson"),
        ("GET", "", FORM, "query=ASK%7B%7D", "r: query, ResultsJson"),
        ("POST", "", QUERY, "ASK{}", "r: query, ResultsJson"),
        (
            "POST",
            "queryLn=SPARQL&infer=x",
            QUERY,
            "ASK{}",
            "r: query, ResultsJson",
        ),
        (
            "POST",
            "",
            FORM,
            "queryLn=sparql&query=ASK%7B%7D",
            "r: query, ResultsJson",
        ),
        ("POST", "query=ASK%7B%7D", "", "", "r: query, ResultsJson"),
        (
            "POST",
            "query=ASK%7B%7D",
            "Content-Type: text/plain",
            "",
            "r: query, ResultsJson",
        ),
        (
            "POST",
            "query=ASK%7B%7D",
            "Content-Type: text/plain",
            "x",
            "unsupported media type",
        ),
        ("POST", "query=ASK%7B%7D", "", "x", "unsupported media type"),
        (
            "POST",
            "",
            "Content-Type: application/sparql-query\nContent-Type: application/sparql-query",
            "ASK{}",
            "unsupported media type",
        ),
        ("GET", "", "", "", "bad parameter query"),
        ("POST", "", QUERY, "", "bad parameter query"),
        (
            "POST",
            "query=ASK%7B%7D",
            QUERY,
            "ASK{}",
            "bad parameter query",
        ),
        (
            "POST",
            "query=ASK%7B%7D",
            FORM,
            "query=ASK%7B%7D",
            "bad parameter query",
        ),
        ("GET", "query=", "", "", "bad query at 0"),
        (
            "GET",
            "query=ASK%7B%7D&queryLn=serql",
            "",
            "",
            "bad parameter queryLn",
        ),
        (
            "GET",
            "query=ASK%7B%7D&$x=1&$y=2",
            "",
            "",
            "bad parameter $x",
        ),
        (
            "POST",
            "query=ASK%7B%7D",
            FORM,
            "$%FF=1",
            "bad parameter $\u{fffd}",
        ),
        (
            "GET",
            "query=ASK%7Be:a+?p+?o%7D",
            "",
            "",
            "unknown prefix at 4",
        ),
        ("GET", "query=SELECT+*+FROM", "", "", "unsupported at 9"),
    ] {
        let target = format!(in alloc; "{R}?{query}")?;
        let answer = shown(alloc, method, &target, lines, body.as_bytes())?;
        assert_eq!(rt; answer.as_str(), want, "{method} {query} {lines} {body}");
    }
    Ok(())
}

#[test]
fn a_body_that_is_no_text_is_no_query(rt: HostRuntime) -> Result<(), Memory> {
    let alloc = rt.alloc();
    assert_eq!(rt;
        shown(alloc, "POST", R, QUERY, b"ASK{}\xFF")?.as_str(),
        "bad parameter query"
    );
    Ok(())
}

#[test]
fn documents(rt: HostRuntime) -> Result<(), Memory> {
    let alloc = rt.alloc();
    let quad = "<http://e/s> <http://e/p> \"1\" <urn:g> .\n";
    for (method, query, lines, body, want) in [
        (
            "POST",
            "",
            "Content-Type: application/n-quads",
            quad,
            "r: write 1, PlainText",
        ),
        (
            "POST",
            "",
            "Content-Type: TEXT/X-NQuads;q=1",
            quad,
            "r: write 1, PlainText",
        ),
        (
            "POST",
            "",
            "content-type: application/n-triples",
            quad,
            "bad line 1",
        ),
        (
            "POST",
            "",
            "Content-Type: text/plain ;charset=x",
            quad,
            "bad line 1",
        ),
        (
            "POST",
            "",
            "Content-Type: text/plain",
            "",
            "r: write 0, PlainText",
        ),
        (
            "PUT",
            "",
            "Content-Type: text/plain",
            "",
            "r: write 1, PlainText",
        ),
        (
            "PUT",
            "context=null&context=<urn:g>&context=null",
            "Content-Type: text/plain",
            "",
            "r: write 2, PlainText",
        ),
        (
            "POST",
            "",
            "Content-Type: text/turtle",
            quad,
            "unsupported media type",
        ),
        ("POST", "", "", quad, "unsupported media type"),
        (
            "POST",
            "",
            "Content-Type: text/plain\nContent-Type: text/plain",
            "",
            "unsupported media type",
        ),
        (
            "POST",
            "context=x",
            "Content-Type: text/plain",
            "x",
            "bad parameter context",
        ),
        (
            "POST",
            "subj=x&query=x",
            "Content-Type: text/plain",
            "",
            "r: write 0, PlainText",
        ),
        (
            "DELETE",
            "subj=<urn:s>&context=null&context=_:b",
            "",
            "",
            "r: write 2, PlainText",
        ),
        ("DELETE", "subj=x", "", "", "bad parameter subj"),
        (
            "GET",
            "obj=%221%22&context=null",
            "Accept: text/plain",
            "",
            "r: list false false true 1, PlainTriples",
        ),
        ("GET", "", "Accept: application/json", "", "not acceptable"),
        (
            "GET",
            "",
            "Accept: application/json\nAccept: application/n-triples",
            "",
            "r: list false false false 0, NTriples",
        ),
        (
            "GET",
            "",
            "Content-Encoding: identity, Identity",
            "",
            "r: list false false false 0, NQuads",
        ),
        (
            "GET",
            "",
            "Content-Encoding: ,",
            "",
            "r: list false false false 0, NQuads",
        ),
        (
            "GET",
            "",
            "Content-Encoding: identity\nContent-Encoding: gzip",
            "",
            "unsupported media type",
        ),
    ] {
        let target = format!(in alloc; "{R}/statements?{query}")?;
        let answer = shown(alloc, method, &target, lines, body.as_bytes())?;
        assert_eq!(rt; answer.as_str(), want, "{method} {query} {lines} {body}");
    }
    Ok(())
}

#[test]
fn namespaces(rt: HostRuntime) -> Result<(), Memory> {
    let alloc = rt.alloc();
    let target = format!(in alloc; "{R}/namespaces/ex")?;
    for (body, want) in [
        ("urn:x", "r: put ex urn:x, PlainText"),
        ("", "bad namespace"),
        ("x", "bad namespace"),
        ("<urn:x>", "bad namespace"),
        ("urn:x\n", "bad namespace"),
    ] {
        assert_eq!(rt;
            shown(alloc, "PUT", &target, "", body.as_bytes())?.as_str(),
            want,
            "{body}"
        );
    }
    assert_eq!(rt;
        shown(alloc, "PUT", &target, "", b"urn:\xFF")?.as_str(),
        "bad namespace"
    );
    Ok(())
}
