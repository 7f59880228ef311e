//! The parameters of a request.
ghost use Rattle.std.specs.Prelude.{◌≡◌, ◌++◌, ◌∷◌, [], IfOk, OnOk, codes};
ghost use Rattle.api_requests.specs.Changes.{graphs_in};
ghost use Rattle.api_requests.specs.Requests.{action_pairs, context_pairs, graph_pair, graph_value, level_text, part_pairs, selection_pairs, term_value};

use crate::sending::octets;
use api_parts::{Octets, Parameters};
use change_set::Change;
use journal::Level;
use nquads_line::write_term;
use rdf_term::{Bytes, Graph, GraphPick, Memory, Term};
use std::alloc::Global;

/// A parameter.
pub fn pair(alloc: Global, name: &[u8], value: &[u8]) -> Result<(Octets, Octets), Memory>
    ensures { IfOk result (λ it. it ≡ (name.now, value.now)) }
{
    Ok((octets(alloc, name)?, octets(alloc, value)?))
}

/// A term's text of RDF 1.1 N-Triples.
fn term_value(alloc: Global, term: &Term) -> Result<Octets, Memory>
    ensures { IfOk result (λ it. it ≡ term_value term.now) }
{
    let mut text = Bytes::new(alloc);
    write_term(term, &mut text)?;
    octets(alloc, text.as_slice())
}

/// The name of a graph, and `null` for the absent one.
fn graph_value(alloc: Global, graph: &Graph) -> Result<Octets, Memory>
    ensures { IfOk result (λ it. it ≡ graph_value graph.now) }
{
    match graph {
        Graph::Absent => octets(alloc, b"null"),
        Graph::Named(name) => term_value(alloc, name),
    }
}

/// Adds a part of a selection, where it is given.
fn put_part(
    alloc: Global,
    name: &[u8],
    part: &Option<Term>,
    pairs: &mut Parameters,
) -> Result<(), Memory>
    ensures { OnOk result (pairs.new ≡ pairs.old ++ part_pairs name.now part.now) }
{
    match part {
        None => Ok(()),
        Some(term) => {
            let value = term_value(alloc, term)?;
            pairs.push((octets(alloc, name)?, value))
        }
    }
}

/// Adds a context.
fn put_context(alloc: Global, graph: &Graph, pairs: &mut Parameters) -> Result<(), Memory>
    ensures { OnOk result (pairs.new ≡ pairs.old ++ graph_pair graph.now ∷ []) }
{
    let value = graph_value(alloc, graph)?;
    pairs.push((octets(alloc, b"context")?, value))
}

/// Adds contexts.
fn put_contexts(alloc: Global, graphs: &[Graph], pairs: &mut Parameters) -> Result<(), Memory>
    ensures { OnOk result (pairs.new ≡ pairs.old ++ context_pairs graphs.now) }
{
    let mut left = graphs;
    while let Some((graph, rest)) = left.split_first() {
        put_context(alloc, graph, pairs)?;
        left = rest;
    }
    Ok(())
}

/// Adds the graph that a change picks, where it picks one.
fn put_picked(alloc: Global, change: &Change, pairs: &mut Parameters) -> Result<(), Memory>
    ensures { OnOk result (pairs.new ≡ pairs.old ++ context_pairs (graphs_in (change.now ∷ []))) }
{
    match change {
        Change::Add(_) => Ok(()),
        Change::Remove(_) => Ok(()),
        Change::RemoveMatching(pattern) => match &pattern.c {
            GraphPick::Any => Ok(()),
            GraphPick::NamedOnly => Ok(()),
            GraphPick::One(graph) => put_context(alloc, graph, pairs),
        },
    }
}

/// Adds the graphs that changes pick.
pub fn put_picks(alloc: Global, changes: &[Change], pairs: &mut Parameters) -> Result<(), Memory>
    ensures { OnOk result (pairs.new ≡ pairs.old ++ context_pairs (graphs_in changes.now)) }
{
    let mut left = changes;
    while let Some((change, rest)) = left.split_first() {
        put_picked(alloc, change, pairs)?;
        left = rest;
    }
    Ok(())
}

/// Adds the parts of a selection that are given.
pub fn put_parts(
    alloc: Global,
    s: &Option<Term>,
    p: &Option<Term>,
    o: &Option<Term>,
    pairs: &mut Parameters,
) -> Result<(), Memory>
    ensures { OnOk result (pairs.new ≡ pairs.old ++ part_pairs (codes "subj") s.now ++ part_pairs (codes "pred") p.now ++ part_pairs (codes "obj") o.now) }
{
    put_part(alloc, b"subj", s, pairs)?;
    put_part(alloc, b"pred", p, pairs)?;
    put_part(alloc, b"obj", o, pairs)
}

/// The contexts.
pub fn context_pairs(alloc: Global, graphs: &[Graph]) -> Result<Parameters, Memory>
    ensures { IfOk result (λ it. it ≡ context_pairs graphs.now) }
{
    let mut pairs = Parameters::new(alloc);
    put_contexts(alloc, graphs, &mut pairs)?;
    Ok(pairs)
}

/// What is selected.
pub fn selection_pairs(
    alloc: Global,
    s: &Option<Term>,
    p: &Option<Term>,
    o: &Option<Term>,
    contexts: &[Graph],
) -> Result<Parameters, Memory>
    ensures { IfOk result (λ it. it ≡ selection_pairs (record { s = s.now; p = p.now; o = o.now; contexts = contexts.now })) }
{
    let mut pairs = Parameters::new(alloc);
    put_parts(alloc, s, p, o, &mut pairs)?;
    put_contexts(alloc, contexts, &mut pairs)?;
    Ok(pairs)
}

/// An action, and other parameters behind it.
pub fn action_pairs(alloc: Global, word: &[u8], pairs: Parameters) -> Result<Parameters, Memory>
    ensures { IfOk result (λ it. it ≡ action_pairs word.now pairs) }
{
    let mut all = Parameters::new(alloc);
    all.push(pair(alloc, b"action", word)?)?;
    all.append(pairs)?;
    Ok(all)
}

/// The name of a level.
pub fn level_text(level: Level) -> &'static [u8]
    ensures { result.now ≡ level_text level }
{
    match level {
        Level::NoIsolation => b"NONE",
        Level::ReadUncommitted => b"READ_UNCOMMITTED",
        Level::ReadCommitted => b"READ_COMMITTED",
        Level::SnapshotRead => b"SNAPSHOT_READ",
        Level::Snapshot => b"SNAPSHOT",
        Level::Serializable => b"SERIALIZABLE",
    }
}
