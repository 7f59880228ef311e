//! The order of refusals: each request has two neighbouring causes, and the earlier one answers.
use crate::shown::shown;
use rdf_term::Memory;

const CODED: &str = "Content-Encoding: gzip\nContent-Type: text/turtle\nAccept: text/csv";

const TYPED: &str = "Content-Type: text/turtle\nAccept: text/csv";

const PLAIN: &str = "Content-Type: text/plain\nAccept: text/csv";

#[test]
fn earlier_refusals_answer(rt: HostRuntime) -> Result<(), Memory> {
    let alloc = rt.alloc();
    for (method, path, lines, body, want) in [
        ("HEAD", "x/sizes", "", "", "no such resource"),
        ("GET", "x/transactions/1", "", "", "no such repository"),
        ("GET", "r/transactions/1", "", "", "no such transaction"),
        (
            "GET",
            "r/transactions/1-1",
            CODED,
            "",
            "allow POST, PUT, DELETE",
        ),
        (
            "PUT",
            "r/transactions/1-1?action=add",
            CODED,
            "",
            "unsupported media type",
        ),
        (
            "PUT",
            "r/transactions/1-1?action=add",
            TYPED,
            "x",
            "bad parameter action",
        ),
        (
            "PUT",
            "r/transactions/1-1?action=ADD&context=x",
            TYPED,
            "x",
            "unsupported media type",
        ),
        (
            "PUT",
            "r/transactions/1-1?action=ADD&context=x",
            PLAIN,
            "x",
            "bad parameter context",
        ),
        (
            "PUT",
            "r/transactions/1-1?action=QUERY&queryLn=x",
            TYPED,
            "x",
            "unsupported media type",
        ),
        (
            "GET",
            "r/statements?subj=x&pred=x",
            "Accept: text/csv",
            "",
            "bad parameter subj",
        ),
        (
            "GET",
            "r/statements?obj=x&pred=x",
            "Accept: text/csv",
            "",
            "bad parameter pred",
        ),
        (
            "GET",
            "r/statements?context=x&obj=x",
            "Accept: text/csv",
            "",
            "bad parameter obj",
        ),
        (
            "GET",
            "r/statements?context=x",
            "Accept: text/csv",
            "",
            "bad parameter context",
        ),
        (
            "GET",
            "r/statements",
            "Accept: text/csv",
            "",
            "not acceptable",
        ),
        (
            "GET",
            "r?$x=1",
            "Accept: text/csv",
            "",
            "bad parameter query",
        ),
        (
            "GET",
            "r?$x=1&queryLn=x",
            "Accept: text/csv",
            "",
            "bad parameter queryLn",
        ),
        (
            "GET",
            "r?$x=1&query=x",
            "Accept: text/csv",
            "",
            "bad parameter $x",
        ),
        ("GET", "r?query=x", "Accept: text/csv", "", "bad query at 0"),
        (
            "GET",
            "r?query=ASK%7B%7D",
            "Accept: text/csv",
            "",
            "not acceptable",
        ),
        (
            "PUT",
            "r/namespaces/1",
            "Accept: text/csv",
            "x",
            "bad parameter prefix",
        ),
        (
            "PUT",
            "r/namespaces/a",
            "Accept: text/csv",
            "x",
            "bad namespace",
        ),
        (
            "PUT",
            "r/namespaces/1",
            "Content-Encoding: gzip",
            "x",
            "unsupported media type",
        ),
    ] {
        let target = format!(in alloc; "/rdf4j-server/repositories/{path}")?;
        let answer = shown(alloc, method, &target, lines, body.as_bytes())?;
        assert_eq!(rt; answer.as_str(), want, "{method} {path} {lines} {body}");
    }
    Ok(())
}
