//! The bytes of replies.
ghost use Rattle.std.specs.Prelude.{◌≡◌, []};
ghost use Rattle.api_replies.specs.Fits.{FitsOp};

use api_calls::Call;
use api_replies::write_reply;
use http_frame::{Response, write_response};
use journal::{Ask, Graphs, Level, Names, NamesOp, Op, Reply, Terms, Txn};
use media::Form;
use query_model::{Cut, Names1, Patterns, Query, Rows, Table};
use rdf_term::{Bytes, Graph, GraphPick, Memory, Pattern, Quad, Quads, Term, Text};
use std::alloc::Global;
use std::test::Fail;

const T: Txn = Txn {
    place: 4,
    level: Level::Serializable,
};

fn written(alloc: Global, response: &Response) -> Result<Bytes, Memory> {
    let mut out = Bytes::new(alloc);
    write_response(response, 1, false, false, &mut out)?;
    Ok(out)
}

/// The bytes of the response to an op on the repository `r`.
fn replied(alloc: Global, op: Op, form: Form, reply: &Reply) -> Result<Bytes, Memory>
    requires { FitsOp op reply.now }
{
    let repo = Text::from_chars(alloc, "r")?;
    let call = Call::On { repo, op, form };
    written(alloc, &write_reply(alloc, &call, &[], reply)?)
}

fn text(alloc: Global, text: &str) -> Result<Text, Memory> {
    Text::from_chars(alloc, text)
}

/// The quad of this object, in a graph that is given.
fn quad(alloc: Global, object: &str, graph: Option<&str>) -> Result<Option<Quad>, Memory> {
    let s = Term::Iri(text(alloc, "http://e/s")?);
    let p = Term::Iri(text(alloc, "http://e/p")?);
    let o = Term::Plain(text(alloc, object)?);
    let c = match graph {
        None => Graph::Absent,
        Some(name) => Graph::Named(Term::Iri(text(alloc, name)?)),
    };
    Ok(Quad::new(s, p, o, c).ok())
}

fn quads(alloc: Global) -> Result<Quads, Memory> {
    let mut quads = Quads::new(alloc);
    for graph in [None, Some("http://e/g")] {
        if let Some(quad) = quad(alloc, "1", graph)? {
            quads.push(quad)?;
        }
    }
    Ok(quads)
}

/// Asks for all quads.
fn list(alloc: Global) -> Op
    ensures { result ≡ Op.Read None (Ask.List None None None []) }
{
    Op::Read {
        txn: None,
        ask: Ask::List {
            s: None,
            p: None,
            o: None,
            contexts: Graphs::new(alloc),
        },
    }
}

const CUT: Cut = Cut {
    limit: None,
    offset: 0,
};

/// Asks a query.
fn asked(query: Query) -> Op
    ensures { result ≡ Op.Read None (Ask.Query query) }
{
    Op::Read {
        txn: None,
        ask: Ask::Query(query),
    }
}

fn ask(alloc: Global) -> Query
    ensures { result ≡ Query.Ask [] }
{
    Query::Ask {
        group: Patterns::new(alloc),
    }
}

#[test]
fn calls_without_entries(rt: HostRuntime) -> Result<(), Fail> {
    let alloc = rt.alloc();
    let protocol = written(
        alloc,
        &write_reply(alloc, &Call::Protocol, &[], &Reply::Done)?,
    )?;
    assert_eq!(rt;
        protocol.as_slice(),
        b"HTTP/1.1 200 OK\r\nContent-Type: text/plain;charset=UTF-8\r\nContent-Length: 2\r\n\r\n12".as_slice(),
    );
    let ids = [text(alloc, "r")?];
    let call = Call::Repositories(Form::Json);
    let listed = write_reply(alloc, &call, &ids, &Reply::Done)?;
    let want = concat!(
        r#"{"head":{"vars":["uri","id","title","readable","writable"]},"results":{"bindings":[{"#,
        r#""id":{"type":"literal","value":"r"},"#,
        r#""readable":{"datatype":"http://www.w3.org/2001/XMLSchema#boolean","type":"literal","value":"true"},"#,
        r#""title":{"type":"literal","value":"r"},"uri":{"type":"uri","value":"urn:repository:r"},"#,
        r#""writable":{"datatype":"http://www.w3.org/2001/XMLSchema#boolean","type":"literal","value":"true"}}]}}"#,
    );
    assert_eq!(rt; listed.body.as_slice(), want.as_bytes());
    Ok(())
}

#[test]
fn transactions(rt: HostRuntime) -> Result<(), Fail> {
    let alloc = rt.alloc();
    let begun = replied(
        alloc,
        Op::Begin(Level::Serializable),
        Form::PlainText,
        &Reply::Begun(T),
    )?;
    assert_eq!(rt;
        begun.as_slice(),
        b"HTTP/1.1 201 Created\r\nLocation: /rdf4j-server/repositories/r/transactions/4-5\r\nContent-Length: 0\r\n\r\n".as_slice(),
    );
    let done = replied(alloc, Op::Commit(T), Form::PlainText, &Reply::Done)?;
    assert_eq!(rt;
        done.as_slice(),
        b"HTTP/1.1 200 OK\r\nContent-Length: 0\r\n\r\n".as_slice()
    );
    let pinged = replied(alloc, Op::Ping(T), Form::PlainText, &Reply::Done)?;
    assert_eq!(rt;
        pinged.as_slice(),
        b"HTTP/1.1 204 No Content\r\n\r\n".as_slice()
    );
    Ok(())
}

#[test]
fn lists_of_quads(rt: HostRuntime) -> Result<(), Fail> {
    let alloc = rt.alloc();
    let reply = Reply::Quads(quads(alloc)?);
    let triples = replied(alloc, list(alloc), Form::NTriples, &reply)?;
    assert_eq!(rt;
        triples.as_slice(),
        b"HTTP/1.1 200 OK\r\nContent-Type: application/n-triples\r\nContent-Length: 32\r\n\r\n<http://e/s> <http://e/p> \"1\" .\n".as_slice(),
    );
    let named = replied(alloc, list(alloc), Form::XNQuads, &reply)?;
    assert_eq!(rt;
        named.as_slice(),
        b"HTTP/1.1 200 OK\r\nContent-Type: text/x-nquads\r\nContent-Length: 77\r\n\r\n<http://e/s> <http://e/p> \"1\" .\n<http://e/s> <http://e/p> \"1\" <http://e/g> .\n".as_slice(),
    );
    Ok(())
}

#[test]
fn namespaces(rt: HostRuntime) -> Result<(), Fail> {
    let alloc = rt.alloc();
    let mut pairs = Names::new(alloc);
    pairs.push((text(alloc, "ex")?, text(alloc, "http://e/")?))?;
    let all = replied(
        alloc,
        Op::Names(NamesOp::List),
        Form::ResultsJson,
        &Reply::Prefixes(pairs),
    )?;
    assert_eq!(rt;
        all.as_slice(),
        b"HTTP/1.1 200 OK\r\nContent-Type: application/sparql-results+json\r\nContent-Length: 159\r\n\r\n{\"head\":{\"vars\":[\"prefix\",\"namespace\"]},\"results\":{\"bindings\":[{\"namespace\":{\"type\":\"literal\",\"value\":\"http://e/\"},\"prefix\":{\"type\":\"literal\",\"value\":\"ex\"}}]}}".as_slice(),
    );
    let one = replied(
        alloc,
        Op::Names(NamesOp::Get(text(alloc, "ex")?)),
        Form::PlainText,
        &Reply::Prefix(text(alloc, "http://e/")?),
    )?;
    assert_eq!(rt;
        one.as_slice(),
        b"HTTP/1.1 200 OK\r\nContent-Type: text/plain;charset=UTF-8\r\nContent-Length: 9\r\n\r\nhttp://e/".as_slice(),
    );
    let none = replied(
        alloc,
        Op::Names(NamesOp::Get(text(alloc, "x")?)),
        Form::PlainText,
        &Reply::NoPrefix,
    )?;
    assert_eq!(rt;
        none.as_slice(),
        b"HTTP/1.1 404 Not Found\r\nContent-Type: text/plain;charset=UTF-8\r\nContent-Length: 14\r\n\r\nno such prefix".as_slice(),
    );
    Ok(())
}

#[test]
fn answers_of_queries(rt: HostRuntime) -> Result<(), Fail> {
    let alloc = rt.alloc();
    let select = Query::Select {
        distinct: false,
        vars: Names1::new(alloc),
        group: Patterns::new(alloc),
        cut: CUT,
    };
    let rows = Reply::Table(Table {
        vars: Names1::new(alloc),
        rows: Rows::new(alloc),
    });
    let table = replied(alloc, asked(select), Form::ResultsJson, &rows)?;
    assert_eq!(rt;
        table.as_slice(),
        b"HTTP/1.1 200 OK\r\nContent-Type: application/sparql-results+json\r\nContent-Length: 46\r\n\r\n{\"head\":{\"vars\":[]},\"results\":{\"bindings\":[]}}".as_slice(),
    );
    let word = replied(alloc, asked(ask(alloc)), Form::Boolean, &Reply::Truth(true))?;
    assert_eq!(rt;
        word.as_slice(),
        b"HTTP/1.1 200 OK\r\nContent-Type: text/boolean\r\nContent-Length: 4\r\n\r\ntrue".as_slice(),
    );
    let truth = replied(alloc, asked(ask(alloc)), Form::Json, &Reply::Truth(false))?;
    assert_eq!(rt;
        truth.as_slice(),
        b"HTTP/1.1 200 OK\r\nContent-Type: application/json\r\nContent-Length: 27\r\n\r\n{\"boolean\":false,\"head\":{}}".as_slice(),
    );
    Ok(())
}

#[test]
fn refusals_of_the_store(rt: HostRuntime) -> Result<(), Fail> {
    let alloc = rt.alloc();
    let construct = Query::Construct {
        template: Patterns::new(alloc),
        group: Patterns::new(alloc),
        cut: CUT,
    };
    let many = replied(alloc, asked(construct), Form::NQuads, &Reply::TooManyRows)?;
    assert_eq!(rt;
        many.as_slice(),
        b"HTTP/1.1 507 Insufficient Storage\r\nContent-Type: text/plain;charset=UTF-8\r\nContent-Length: 13\r\n\r\ntoo many rows".as_slice(),
    );
    let every = Pattern {
        s: None,
        p: None,
        o: None,
        c: GraphPick::Any,
    };
    if let Some(quad) = quad(alloc, "1", None)? {
        let clash = replied(
            alloc,
            Op::Commit(T),
            Form::PlainText,
            &Reply::Conflict(every, quad),
        )?;
        assert_eq!(rt;
            clash.as_slice(),
            b"HTTP/1.1 409 Conflict\r\nContent-Type: text/plain;charset=UTF-8\r\nContent-Length: 32\r\n\r\n<http://e/s> <http://e/p> \"1\" .\n".as_slice(),
        );
    }
    Ok(())
}

#[test]
fn contexts_and_size(rt: HostRuntime) -> Result<(), Fail> {
    let alloc = rt.alloc();
    let mut names = Terms::new(alloc);
    names.push(Term::Iri(text(alloc, "http://e/g")?))?;
    let asked = Op::Read {
        txn: None,
        ask: Ask::Contexts,
    };
    let contexts = replied(alloc, asked, Form::Json, &Reply::Contexts(names))?;
    assert_eq!(rt;
        contexts.as_slice(),
        b"HTTP/1.1 200 OK\r\nContent-Type: application/json\r\nContent-Length: 106\r\n\r\n{\"head\":{\"vars\":[\"contextID\"]},\"results\":{\"bindings\":[{\"contextID\":{\"type\":\"uri\",\"value\":\"http://e/g\"}}]}}".as_slice(),
    );
    let asked = Op::Read {
        txn: Some(T),
        ask: Ask::Size {
            contexts: Graphs::new(alloc),
        },
    };
    let size = replied(alloc, asked, Form::PlainText, &Reply::Count(1_048_576))?;
    assert_eq!(rt;
        size.as_slice(),
        b"HTTP/1.1 200 OK\r\nContent-Type: text/plain;charset=UTF-8\r\nContent-Length: 7\r\n\r\n1048576".as_slice(),
    );
    Ok(())
}
