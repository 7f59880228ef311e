//! What is written of replies is read as these replies.
ghost use Rattle.api_replies.specs.Fits.{FitsOp};

use crate::shown::shown;
use api_calls::Call;
use api_replies::write_reply;
use journal::{Ask, Graphs, Level, Names, NamesOp, Op, Reply, Terms, Txn};
use media::Form;
use rdf_term::{Bytes, Graph, Memory, Quad, Quads, Term, Text};
use reply_reading::read_reply;
use std::alloc::Global;
use std::test::Fail;

/// What is read of the response to an op on the repository `r`, in words.
fn again(alloc: Global, op: Op, form: Form, reply: &Reply) -> Result<Bytes, Memory>
    requires { FitsOp op reply.now }
{
    let repo = Text::from_chars(alloc, "r")?;
    let call = Call::On { repo, op, form };
    let response = write_reply(alloc, &call, &[], reply)?;
    shown(alloc, &read_reply(alloc, &call, &response))
}

#[test]
fn transactions(rt: HostRuntime) -> Result<(), Fail> {
    let alloc = rt.alloc();
    let txn = Txn {
        place: 12,
        level: Level::Serializable,
    };
    let begin = Op::Begin(Level::Serializable);
    let begun = again(alloc, begin, Form::PlainText, &Reply::Begun(txn))?;
    assert_eq!(rt; begun.as_slice(), b"begun 12 5".as_slice());
    let done = again(alloc, Op::Commit(txn), Form::PlainText, &Reply::Done)?;
    assert_eq!(rt; done.as_slice(), b"done".as_slice());
    let gone = again(alloc, Op::Ping(txn), Form::PlainText, &Reply::NoTransaction)?;
    assert_eq!(rt;
        gone.as_slice(),
        b"refused 404 no such transaction".as_slice()
    );
    Ok(())
}

#[test]
fn lists(rt: HostRuntime) -> Result<(), Fail> {
    let alloc = rt.alloc();
    let mut pairs = Names::new(alloc);
    pairs.push((
        Text::from_chars(alloc, "ex")?,
        Text::from_chars(alloc, "u:\"\n")?,
    ))?;
    let names = Op::Names(NamesOp::List);
    let listed = again(alloc, names, Form::Json, &Reply::Prefixes(pairs))?;
    assert_eq!(rt; listed.as_slice(), b"prefixes ex=u:\"\n".as_slice());
    let mut graphs = Terms::new(alloc);
    graphs.push(Term::Blank(Text::from_chars(alloc, "g")?))?;
    let asked = Op::Read {
        txn: None,
        ask: Ask::Contexts,
    };
    let contexts = again(alloc, asked, Form::ResultsJson, &Reply::Contexts(graphs))?;
    assert_eq!(rt; contexts.as_slice(), b"contexts _:g".as_slice());
    Ok(())
}

#[test]
fn sizes_and_quads(rt: HostRuntime) -> Result<(), Fail> {
    let alloc = rt.alloc();
    let asked = Op::Read {
        txn: None,
        ask: Ask::Size {
            contexts: Graphs::new(alloc),
        },
    };
    let size = again(alloc, asked, Form::PlainText, &Reply::Count(u64::MAX))?;
    assert_eq!(rt; size.as_slice(), b"count 18446744073709551615".as_slice());
    let s = Term::Iri(Text::from_chars(alloc, "u:s")?);
    let p = Term::Iri(Text::from_chars(alloc, "u:p")?);
    let o = Term::Plain(Text::from_chars(alloc, "\r\n\"\\")?);
    let mut quads = Quads::new(alloc);
    if let Ok(quad) = Quad::new(
        s,
        p,
        o,
        Graph::Named(Term::Iri(Text::from_chars(alloc, "u:g")?)),
    ) {
        quads.push(quad)?;
    }
    let asked = Op::Read {
        txn: None,
        ask: Ask::List {
            s: None,
            p: None,
            o: None,
            contexts: Graphs::new(alloc),
        },
    };
    let listed = again(alloc, asked, Form::NQuads, &Reply::Quads(quads))?;
    assert_eq!(rt;
        listed.as_slice(),
        b"<u:s> <u:p> \"\\r\\n\\\"\\\\\" <u:g> .\n".as_slice()
    );
    Ok(())
}
