//! Scripts against the server in memory.
use crate::client::{CALM, Outside, SERVED, WORDS, play, run, run_directly, run_words};
use rdf_client::ClientEnd;
use rdf_term::{Bytes, Memory};
use std::alloc::Global;
use std::process::Abort;

const WORKED: &str =
    "begin SERIALIZABLE\nadd <http://e/s> <http://e/p> \"1\" .\nquery SELECT ?o WHERE { ?s <http://e/p> ?o }\ncommit\nsize\n";

/// The requests of the worked script.
const SENT: &str =
    "POST /rdf4j-server/repositories/r/transactions?isolation-level=SERIALIZABLE HTTP/1.1\r\nHost: h:1\r\n\r\nPUT /rdf4j-server/repositories/r/transactions/0-5?action=ADD HTTP/1.1\r\nHost: h:1\r\nContent-Type: application/n-quads\r\nContent-Length: 32\r\n\r\n<http://e/s> <http://e/p> \"1\" .\nPUT /rdf4j-server/repositories/r/transactions/0-5?action=QUERY HTTP/1.1\r\nHost: h:1\r\nAccept: application/sparql-results+json\r\nContent-Type: application/sparql-query\r\nContent-Length: 40\r\n\r\nSELECT ?o WHERE { ?s <http://e/p> ?o . }PUT /rdf4j-server/repositories/r/transactions/0-5?action=COMMIT HTTP/1.1\r\nHost: h:1\r\n\r\nGET /rdf4j-server/repositories/r/size HTTP/1.1\r\nHost: h:1\r\n\r\n";

/// What is printed for it.
const PRINTED: &str = "begun 0-5\ndone\n?o\n\"1\"\nrows 1\ncommitted\nsize 1\n";

#[test]
fn the_worked_script(rt: HostRuntime) -> Result<(), Memory> {
    let alloc = rt.alloc();
    let (ran, responses) = play(alloc, &SERVED, "r", WORKED)?;
    assert!(rt; ran.is(0, PRINTED));
    for cut in [0, 1, 7] {
        let again = run(alloc, WORKED, responses.as_str(), Outside { cut, ..CALM })?;
        assert!(rt; again.is(0, PRINTED), "{cut}");
        assert!(rt; again.sent.as_deref() == Some(SENT), "{cut}");
    }
    Ok(())
}

/// The same by the call under the program.
#[test]
fn the_worked_script_directly(rt: HostRuntime) -> Result<(), Memory> {
    let alloc = rt.alloc();
    let responses = play(alloc, &SERVED, "r", WORKED)?.1;
    let ran = run_directly(alloc, WORKED, responses.as_str())?;
    assert!(rt;
        matches!(&ran, Some(ran) if ran.end == ClientEnd::Done && ran.sent.as_str() == SENT && ran.printed.as_str() == PRINTED)
    );
    Ok(())
}

/// Each script ends against the server with its status, and prints its text.
fn expect<R: Abort>(rt: &R, alloc: Global, table: &[(&str, u8, &str)]) -> Result<(), Memory> {
    for (script, status, printed) in table {
        let ran = play(alloc, &SERVED, "r", script)?.0;
        assert_eq!(rt; ran.printed.as_str(), *printed, "{script}");
        assert_eq!(rt; ran.status, *status, "{script}");
    }
    Ok(())
}

#[test]
fn good_scripts(rt: HostRuntime) -> Result<(), Memory> {
    expect(
        &rt,
        rt.alloc(),
        &[
            ("", 0, ""),
            ("\n# nothing\n\n", 0, ""),
            ("quit\nsize\n", 0, ""),
            ("size", 0, "size 0\n"),
            (
                "add <http://e/s> <http://e/p> \"1\" <http://e/g> .\nlist\ncontexts\nremove <http://e/s> <http://e/p> \"1\" <http://e/g> .\nlist\n",
                0,
                "done\n<http://e/s> <http://e/p> \"1\" <http://e/g> .\nquads 1\n<http://e/g>\ncontexts 1\ndone\nquads 0\n",
            ),
            (
                "prefix ex http://e/\nnamespaces\n",
                0,
                "done\nex http://e/\nnamespaces 1\n",
            ),
            (
                "begin SNAPSHOT\nping\nrollback\nsize\n",
                0,
                "begun 0-4\ndone\nrolled back\nsize 0\n",
            ),
            (
                "query ASK {}\nquery CONSTRUCT { ?s <http://e/p> ?o } WHERE { ?s <http://e/q> ?o }\nquery SELECT * WHERE { ?s ?p ?o }\n",
                0,
                "true\nquads 0\n?s\t?p\t?o\nrows 0\n",
            ),
        ],
    )
}

#[test]
fn bad_script_lines(rt: HostRuntime) -> Result<(), Memory> {
    expect(
        &rt,
        rt.alloc(),
        &[
            ("sizes\n", 7, "bad script line 1\n"),
            ("size\n size\n", 7, "size 0\nbad script line 2\n"),
            ("# a\n\nsize \nlist\n", 7, "bad script line 3\n"),
            ("Size\n", 7, "bad script line 1\n"),
            ("add x\n", 7, "bad script line 1\n"),
            ("add\n", 7, "bad script line 1\n"),
            ("query SELECT\n", 7, "bad script line 1\n"),
            ("prefix ex e\n", 7, "bad script line 1\n"),
            ("begin\n", 7, "bad script line 1\n"),
            ("begin snapshot\n", 7, "bad script line 1\n"),
            ("commit\n", 7, "bad script line 1\n"),
            ("ping\n", 7, "bad script line 1\n"),
            (
                "begin SNAPSHOT\nrollback\nrollback\n",
                7,
                "begun 0-4\nrolled back\nbad script line 3\n",
            ),
            (
                "begin SNAPSHOT\nbegin SNAPSHOT\n",
                7,
                "begun 0-4\nbad script line 2\n",
            ),
        ],
    )
}

#[test]
fn a_script_line_too_long(rt: HostRuntime) -> Result<(), Memory> {
    let alloc = rt.alloc();
    let mut script = Bytes::new(alloc);
    script.append(b"\n#")?;
    for _ in 0..1_048_575 {
        script.push(b'a')?;
    }
    assert!(rt; run_words(alloc, &WORDS, script.as_slice(), b"", CALM)?.is(0, ""));
    script.push(b'a')?;
    assert!(rt;
        run_words(alloc, &WORDS, script.as_slice(), b"", CALM)?.is(7, "bad script line 2\n")
    );
    Ok(())
}

#[test]
fn a_script_of_many_lines(rt: HostRuntime) -> Result<(), Memory> {
    let alloc = rt.alloc();
    let count = 2_000;
    let script = "size\n# c\n".repeat(alloc, count)?;
    let responses = "HTTP/1.1 200 OK\r\nContent-Length: 1\r\n\r\n7".repeat(alloc, count)?;
    let printed = "size 7\n".repeat(alloc, count)?;
    let ran = run(alloc, script.as_str(), responses.as_str(), CALM)?;
    assert!(rt; ran.is(0, printed.as_str()));
    let sent = "GET /rdf4j-server/repositories/r/size HTTP/1.1\r\nHost: h:1\r\n\r\n".repeat(
        alloc, count,
    )?;
    assert!(rt; ran.sent.as_deref() == Some(sent.as_str()));
    Ok(())
}

#[test]
fn a_script_of_a_million_lines(rt: HostRuntime) -> Result<(), Memory> {
    let alloc = rt.alloc();
    let most = "\n".repeat(alloc, 1_000_000)?;
    let ran = run(alloc, most.as_str(), "", CALM)?;
    assert!(rt; ran.is(0, "") && ran.sent.as_deref() == Some(""));
    let more = format!(in alloc; "{most}\n")?;
    assert!(rt; run(alloc, more.as_str(), "", CALM)?.is(7, "bad script line 1000001\n"));
    Ok(())
}
