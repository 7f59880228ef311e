//! What is printed.
use client_script::{print_bad_line, print_refusal, print_reply};
use journal::{Level, Names, NamesOp, Op, Reply, Terms, Txn};
use nquads::{Kind, read_document};
use query_text::{Names1, Row, Rows, Table};
use rdf_term::{Bytes, Memory, Term, Text};
use std::alloc::Global;
use std::test::Fail;

const HERE: Txn = Txn {
    place: 12,
    level: Level::Serializable,
};

fn printed(alloc: Global, op: &Op, reply: &Reply) -> Result<Bytes, Memory> {
    let mut out = Bytes::new(alloc);
    print_reply(op, reply, &mut out)?;
    Ok(out)
}

fn plain(alloc: Global, text: &str) -> Result<Term, Memory> {
    Ok(Term::Plain(Text::from_chars(alloc, text)?))
}

#[test]
fn short_answers(rt: HostRuntime) -> Result<(), Memory> {
    let alloc = rt.alloc();
    for (op, reply, want) in [
        (
            Op::Begin(Level::Serializable),
            Reply::Begun(HERE),
            "begun 12-5\n",
        ),
        (Op::Ping(HERE), Reply::Done, "done\n"),
        (Op::Names(NamesOp::Clear), Reply::Done, "done\n"),
        (Op::Commit(HERE), Reply::Done, "committed\n"),
        (Op::Rollback(HERE), Reply::Done, "rolled back\n"),
        (Op::Ping(HERE), Reply::Truth(true), "true\n"),
        (Op::Ping(HERE), Reply::Truth(false), "false\n"),
        (Op::Ping(HERE), Reply::Count(0), "size 0\n"),
        (
            Op::Ping(HERE),
            Reply::Count(18_446_744_073_709_551_615),
            "size 18446744073709551615\n",
        ),
        (Op::Ping(HERE), Reply::NoPrefix, ""),
    ] {
        assert_eq!(rt;
            printed(alloc, &op, &reply)?.as_slice(),
            want.as_bytes(),
            "{want}"
        );
    }
    Ok(())
}

#[test]
fn tables(rt: HostRuntime) -> Result<(), Memory> {
    let alloc = rt.alloc();
    let op = Op::Ping(HERE);
    let mut vars = Names1::new(alloc);
    vars.push(Text::from_chars(alloc, "s")?)?;
    let mut row = Row::new(alloc);
    row.push(Some(plain(alloc, "a\n\"\tb")?))?;
    let mut rows = Rows::new(alloc);
    rows.push(row)?;
    let mut unbound = Row::new(alloc);
    unbound.push(None)?;
    rows.push(unbound)?;
    let one = Reply::Table(Table { vars, rows });
    assert_eq!(rt;
        printed(alloc, &op, &one)?.as_slice(),
        b"?s\n\"a\\n\\\"\tb\"\n\nrows 2\n".as_slice()
    );
    let none = Reply::Table(Table {
        vars: Names1::new(alloc),
        rows: Rows::new(alloc),
    });
    assert_eq!(rt;
        printed(alloc, &op, &none)?.as_slice(),
        b"\nrows 0\n".as_slice()
    );
    Ok(())
}

#[test]
fn rows_of_several_places(rt: HostRuntime) -> Result<(), Memory> {
    let alloc = rt.alloc();
    let mut row = Row::new(alloc);
    row.push(None)?;
    row.push(Some(Term::Iri(Text::from_chars(alloc, "http://e/")?)))?;
    row.push(None)?;
    let mut rows = Rows::new(alloc);
    rows.push(row)?;
    let vars = Names1::new(alloc);
    let table = Reply::Table(Table { vars, rows });
    assert_eq!(rt;
        printed(alloc, &Op::Ping(HERE), &table)?.as_slice(),
        b"\n\t<http://e/>\t\nrows 1\n".as_slice()
    );
    Ok(())
}

#[test]
fn quads_and_lists(rt: HostRuntime) -> Result<(), Fail> {
    let alloc = rt.alloc();
    let op = Op::Ping(HERE);
    let text =
        b"<http://e/s> <http://e/p> \"1\" .\n<http://e/s> <http://e/p> \"1\" <http://e/g> .\n".as_slice();
    let Ok(quads) = read_document(alloc, Kind::Quads, text) else {
        return Err(Fail::from(Memory));
    };
    let mut want = Bytes::new(alloc);
    want.append(text)?;
    want.append(b"quads 2\n")?;
    assert_eq!(rt;
        printed(alloc, &op, &Reply::Quads(quads))?.as_slice(),
        want.as_slice()
    );

    let mut names = Terms::new(alloc);
    names.push(Term::Iri(Text::from_chars(alloc, "http://e/g")?))?;
    names.push(Term::Blank(Text::from_chars(alloc, "b")?))?;
    assert_eq!(rt;
        printed(alloc, &op, &Reply::Contexts(names))?.as_slice(),
        b"<http://e/g>\n_:b\ncontexts 2\n".as_slice()
    );

    let mut pairs = Names::new(alloc);
    pairs.push((
        Text::from_chars(alloc, "ex")?,
        Text::from_chars(alloc, "http://e/")?,
    ))?;
    assert_eq!(rt;
        printed(alloc, &op, &Reply::Prefixes(pairs))?.as_slice(),
        b"ex http://e/\nnamespaces 1\n".as_slice()
    );
    Ok(())
}

#[test]
fn refusals_and_bad_lines(rt: HostRuntime) -> Result<(), Memory> {
    let alloc = rt.alloc();
    for (status, text, want) in [
        (
            404,
            "no such transaction",
            "refused 404 no such transaction\n",
        ),
        (
            409,
            "<http://e/s> <http://e/p> \"1\" .\n",
            "refused 409 <http://e/s> <http://e/p> \"1\" .\n",
        ),
        (500, "", "refused 500 \n"),
        (500, "\n\n", "refused 500 \n"),
        (500, "a\nb\n\n", "refused 500 a\nb\n"),
        (599, "a\r\n", "refused 599 a\r\n"),
    ] {
        let mut out = Bytes::new(alloc);
        print_refusal(status, text.as_bytes(), &mut out)?;
        assert_eq!(rt; out.as_slice(), want.as_bytes(), "{want}");
    }
    let mut out = Bytes::new(alloc);
    print_bad_line(1, &mut out)?;
    print_bad_line(1_000_001, &mut out)?;
    assert_eq!(rt;
        out.as_slice(),
        b"bad script line 1\nbad script line 1000001\n".as_slice()
    );
    Ok(())
}
