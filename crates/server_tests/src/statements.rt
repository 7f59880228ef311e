//! The statements of a repository: each parameter on each method that has it.
use crate::exchange::{CALM, NO_CONTENT, OK, QUADS, TEXT, answer, request, run};
use rdf_term::Memory;
use std::alloc::Global;

const THREE: &str =
    "<http://e/s> <http://e/p> \"1\" .\n<http://e/s> <http://e/p> \"2\" <http://e/g1> .\n<http://e/s> <http://e/q> \"3\" <http://e/g2> .\n";

/// Whether a request behind the upload of the three lines is answered so, and a listing of everything then has these lines.
fn is_answered(alloc: Global, asked: &str, told: &str, lines: &str) -> Result<bool, Memory> {
    let upload = request(alloc, "POST r/statements", QUADS, THREE)?;
    let list = request(alloc, "GET r/statements", "", "")?;
    let input = format!(in alloc; "{upload}{asked}{list}")?;
    let done = answer(alloc, NO_CONTENT, "", "")?;
    let left = answer(alloc, OK, QUADS, lines)?;
    let want = format!(in alloc; "{done}{told}{left}")?;
    let words = ["stdio", "--order", "posc", "r"];
    let ran = run(alloc, &words, input.as_str(), CALM)?;
    Ok(ran.status == 0 && ran.taken.as_str() == want.as_str())
}

/// Whether a write of this document, or a removal without one, leaves these lines.
fn leaves(alloc: Global, line: &str, document: &str, lines: &str) -> Result<bool, Memory> {
    let fields = if document.is_empty() { "" } else { QUADS };
    let asked = request(alloc, line, fields, document)?;
    let told = answer(alloc, NO_CONTENT, "", "")?;
    is_answered(alloc, asked.as_str(), told.as_str(), lines)
}

#[test]
fn put_replaces_what_stands_in_its_contexts(rt: HostRuntime) -> Result<(), Memory> {
    let alloc = rt.alloc();
    let nine = "<http://e/s> <http://e/p> \"9\" .\n";
    let left =
        "<http://e/s> <http://e/p> \"9\" .\n<http://e/s> <http://e/p> \"9\" <http://e/g1> .\n<http://e/s> <http://e/q> \"3\" <http://e/g2> .\n";
    assert!(rt;
        leaves(
            alloc,
            "PUT r/statements?context=null&context=%3Chttp%3A%2F%2Fe%2Fg1%3E&context=null",
            nine,
            left,
        )?
    );
    assert!(rt; leaves(alloc, "PUT r/statements", nine, nine)?);
    Ok(())
}

#[test]
fn post_adds_in_each_context(rt: HostRuntime) -> Result<(), Memory> {
    let alloc = rt.alloc();
    let line = "<http://e/a> <http://e/p> \"9\" <http://e/own> .\n";
    let left = format!(in alloc;
        "<http://e/a> <http://e/p> \"9\" <http://e/g> .\n<http://e/a> <http://e/p> \"9\" _:b .\n{THREE}"
    )?;
    assert!(rt;
        leaves(
            alloc,
            "POST r/statements?context=_:b&context=<http://e/g>",
            line,
            left.as_str(),
        )?
    );
    Ok(())
}

#[test]
fn delete_removes_what_is_selected(rt: HostRuntime) -> Result<(), Memory> {
    let alloc = rt.alloc();
    for (line, left) in [
        ("DELETE r/statements", ""),
        (
            "DELETE r/statements?context=null",
            "<http://e/s> <http://e/p> \"2\" <http://e/g1> .\n<http://e/s> <http://e/q> \"3\" <http://e/g2> .\n",
        ),
        (
            "DELETE r/statements?pred=%3Chttp%3A%2F%2Fe%2Fp%3E",
            "<http://e/s> <http://e/q> \"3\" <http://e/g2> .\n",
        ),
        (
            "DELETE r/statements?obj=%221%22&obj2=x",
            "<http://e/s> <http://e/p> \"2\" <http://e/g1> .\n<http://e/s> <http://e/q> \"3\" <http://e/g2> .\n",
        ),
        ("DELETE r/statements?subj=_:none", THREE),
    ] {
        assert!(rt; leaves(alloc, line, "", left)?, "{line}");
    }
    Ok(())
}

#[test]
fn get_lists_what_is_selected(rt: HostRuntime) -> Result<(), Memory> {
    let alloc = rt.alloc();
    let third = "<http://e/s> <http://e/q> \"3\" <http://e/g2> .\n";
    for (line, lines) in [
        ("GET r/statements?infer=true", THREE),
        ("GET r/statements?subj=%3Chttp://e/s%3E", THREE),
        ("GET r/statements?pred=<http://e/q>", third),
        (
            "GET r/statements?obj=%223%22&context=<http://e/g2>&context=null",
            third,
        ),
        (
            "GET r/statements?context=null",
            "<http://e/s> <http://e/p> \"1\" .\n",
        ),
        ("GET r/statements?obj=%223%22@en", ""),
    ] {
        let asked = request(alloc, line, "", "")?;
        let told = answer(alloc, OK, QUADS, lines)?;
        assert!(rt;
            is_answered(alloc, asked.as_str(), told.as_str(), THREE)?,
            "{line}"
        );
    }
    Ok(())
}

/// The absent graph, one that has a quad, and so many that have none, as parameters.
fn contexts(alloc: Global, more: u32) -> Result<String, Memory> {
    let mut contexts = String::from_str(alloc, "context=null&context=<http://e/g2>")?;
    for number in 0..more {
        let one = format!(in alloc; "&context=_:n{number}")?;
        contexts.push_str(one.as_str())?;
    }
    Ok(contexts)
}

#[test]
fn few_and_many_contexts_are_listed_and_counted(rt: HostRuntime) -> Result<(), Memory> {
    let alloc = rt.alloc();
    let lines =
        "<http://e/s> <http://e/p> \"1\" .\n<http://e/s> <http://e/q> \"3\" <http://e/g2> .\n";
    for more in [14u32, 15, 60] {
        let contexts = contexts(alloc, more)?;
        for (resource, kind, told) in [("statements", QUADS, lines), ("size", TEXT, "2")] {
            let line = format!(in alloc; "GET r/{resource}?{contexts}")?;
            let asked = request(alloc, line.as_str(), "", "")?;
            let told = answer(alloc, OK, kind, told)?;
            assert!(rt;
                is_answered(alloc, asked.as_str(), told.as_str(), THREE)?,
                "{line}"
            );
        }
    }
    Ok(())
}

#[test]
fn the_first_bad_parameter_is_named(rt: HostRuntime) -> Result<(), Memory> {
    let alloc = rt.alloc();
    for (line, text) in [
        ("GET r/statements?subj=x", "bad parameter subj"),
        ("GET r/statements?pred=_:b&obj=x", "bad parameter pred"),
        ("DELETE r/statements?context=x&obj=%22", "bad parameter obj"),
        (
            "DELETE r/statements?context=null&context=x",
            "bad parameter context",
        ),
        (
            "DELETE r/statements?subj=_:a&subj=_:a",
            "bad parameter subj",
        ),
        (
            "POST r/statements?subj=x&context=%22a%22",
            "bad parameter context",
        ),
        ("PUT r/statements?context=", "bad parameter context"),
    ] {
        let asked = request(alloc, line, QUADS, "x")?;
        let told = answer(alloc, "400 Bad Request", TEXT, text)?;
        assert!(rt;
            is_answered(alloc, asked.as_str(), told.as_str(), THREE)?,
            "{line}"
        );
    }
    Ok(())
}
