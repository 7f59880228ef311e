//! Calls that no request gives.
use api_requests::is_spellable;
use change_set::{Change, Changes};
use journal::{Ask, Level, NamesOp, Op, Txn};
use media::Form;
use rdf_term::{Graph, GraphPick, Memory, Pattern, Quad, Term, Text};
use repo_api::Call;
use std::alloc::Global;

fn on(alloc: Global, op: Op, form: Form) -> Result<Call, Memory> {
    Ok(Call::On {
        repo: Text::from_chars(alloc, "r")?,
        op,
        form,
    })
}

fn quad(alloc: Global, graph: Graph) -> Result<Option<Quad>, Memory> {
    let s = Term::Iri(Text::from_chars(alloc, "http://e/s")?);
    let p = Term::Iri(Text::from_chars(alloc, "http://e/p")?);
    let o = Term::Plain(Text::from_chars(alloc, "1")?);
    Ok(Quad::new(s, p, o, graph).ok())
}

fn named(alloc: Global, name: &str) -> Result<Graph, Memory> {
    Ok(Graph::Named(Term::Iri(Text::from_chars(alloc, name)?)))
}

fn everything(pick: GraphPick) -> Change {
    Change::RemoveMatching(Pattern {
        s: None,
        p: None,
        o: None,
        c: pick,
    })
}

#[test]
fn places_and_forms(rt: HostRuntime) -> Result<(), Memory> {
    let alloc = rt.alloc();
    let last = Txn {
        place: 4_611_686_018_427_387_903,
        level: Level::Snapshot,
    };
    let later = Txn {
        place: 4_611_686_018_427_387_904,
        level: Level::Snapshot,
    };
    assert!(rt; is_spellable(&on(alloc, Op::Commit(last), Form::PlainText)?));
    assert!(rt; !is_spellable(&on(alloc, Op::Commit(later), Form::PlainText)?));
    assert!(rt; !is_spellable(&on(alloc, Op::Commit(last), Form::Json)?));
    assert!(rt; !is_spellable(&Call::Repositories(Form::Boolean)));
    let contexts = Op::Read {
        txn: Some(last),
        ask: Ask::Contexts,
    };
    assert!(rt; !is_spellable(&on(alloc, contexts, Form::Json)?));
    let name = NamesOp::Put(
        Text::from_chars(alloc, "ex")?,
        Text::from_chars(alloc, "e")?,
    );
    assert!(rt; !is_spellable(&on(alloc, Op::Names(name), Form::PlainText)?));
    Ok(())
}

/// Whether a list of changes outside transactions is the write of some request.
fn is_write(alloc: Global, changes: Changes) -> Result<bool, Memory> {
    let op = Op::Write { txn: None, changes };
    Ok(is_spellable(&on(alloc, op, Form::PlainText)?))
}

/// Two graphs are emptied, and then statements are added: each in the first and in the second graph.
#[test]
fn replacements(rt: HostRuntime) -> Result<(), Memory> {
    let alloc = rt.alloc();
    for (graphs, want) in [
        ("ab", true),
        ("abab", true),
        ("", true),
        ("ba", false),
        ("a", false),
        ("aba", false),
        ("abba", false),
    ] {
        let mut changes = Changes::new(alloc);
        changes.push(everything(GraphPick::One(named(alloc, "http://e/a")?)))?;
        changes.push(everything(GraphPick::One(named(alloc, "http://e/b")?)))?;
        for letter in graphs.chars() {
            let name = format!(in alloc; "http://e/{letter}")?;
            if let Some(quad) = quad(alloc, named(alloc, &name)?)? {
                changes.push(Change::Add(quad))?;
            }
        }
        assert_eq!(rt; is_write(alloc, changes)?, want, "at {graphs}");
    }
    Ok(())
}

#[test]
fn other_changes(rt: HostRuntime) -> Result<(), Memory> {
    let alloc = rt.alloc();
    let mut twice = Changes::new(alloc);
    twice.push(everything(GraphPick::Any))?;
    twice.push(everything(GraphPick::Any))?;
    assert!(rt; !is_write(alloc, twice)?);
    let mut named_only = Changes::new(alloc);
    named_only.push(everything(GraphPick::NamedOnly))?;
    assert!(rt; !is_write(alloc, named_only)?);
    let mut removed = Changes::new(alloc);
    if let Some(quad) = quad(alloc, Graph::Absent)? {
        removed.push(Change::Remove(quad))?;
    }
    assert!(rt; !is_write(alloc, removed)?);
    Ok(())
}
