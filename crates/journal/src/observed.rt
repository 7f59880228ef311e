ghost use Rattle.std.specs.Prelude.{◌≡◌, ◌∷◌, [], IfOk, map};
ghost use Rattle.rdf_term.specs.declared.pattern.GraphPick.TheVariants as picks;
ghost use Rattle.query_model.specs.Solutions.{group_of};
ghost use Rattle.query_model.specs.Observed.{pattern_of};
ghost use Rattle.journal.specs.Found.{in_graphs, patterns_of};

use crate::{Ask, Graphs};
use query_model::{Query, TriplePattern, pattern_of};
use rdf_term::{Duplicate, Graph, GraphPick, Memory, Pattern, Seq};
use std::alloc::Global;

/// A list of patterns of quads.
pub type Patterns = Seq<Pattern>;

/// The patterns of the quads that an ask observes: those of a query's triple patterns in order, with
/// a wildcard for each variable and blank node; one for each graph of a list or of a size, or one for
/// every graph; and all quads in named graphs for the names of the graphs.
#[tactic(auto, unfolding(crate::specs::Found::patterns_of))]
pub fn patterns_of(alloc: Global, ask: &Ask) -> Result<Patterns, Memory>
    ensures { IfOk result (λ patterns. patterns ≡ patterns_of ask.now) }
{
    match ask {
        Ask::Query(query) => of_group(alloc, group_of(query)),
        Ask::List { s, p, o, contexts } => {
            let pattern = Pattern {
                s: s.copy(alloc)?,
                p: p.copy(alloc)?,
                o: o.copy(alloc)?,
                c: GraphPick::Any,
            };
            in_graphs(alloc, pattern, contexts)
        }
        Ask::Size { contexts } => in_graphs(alloc, every_term(GraphPick::Any), contexts),
        Ask::Contexts => just(alloc, every_term(GraphPick::NamedOnly)),
    }
}

/// The triple patterns whose solutions a query asks for.
fn group_of(query: &Query) -> &[TriplePattern]
    ensures { result.now ≡ group_of query.now }
{
    match query {
        Query::Select { group, .. } => group.as_slice(),
        Query::Ask { group } => group.as_slice(),
        Query::Construct { group, .. } => group.as_slice(),
    }
}

/// The patterns of the quads that triple patterns observe.
fn of_group(alloc: Global, group: &[TriplePattern]) -> Result<Patterns, Memory>
    ensures { IfOk result (λ patterns. patterns ≡ map pattern_of group.now) }
{
    let mut patterns = Patterns::new(alloc);
    for pattern in group {
        patterns.push(pattern_of(alloc, pattern)?)?;
    }
    Ok(patterns)
}

/// Every quad in these graphs.
fn every_term(c: GraphPick) -> Pattern
    ensures { result ≡ record { s = None; p = None; o = None; c = c } }
{
    Pattern {
        s: None,
        p: None,
        o: None,
        c,
    }
}

fn just(alloc: Global, pattern: Pattern) -> Result<Patterns, Memory>
    ensures { IfOk result (λ patterns. patterns ≡ pattern ∷ []) }
{
    let mut patterns = Patterns::new(alloc);
    patterns.push(pattern)?;
    Ok(patterns)
}

/// The pattern as it is, or in each of the graphs where there are any.
fn in_graphs(alloc: Global, pattern: Pattern, graphs: &Graphs) -> Result<Patterns, Memory>
    ensures { IfOk result (λ patterns. patterns ≡ in_graphs pattern graphs.now) }
{
    match graphs.as_slice() {
        [] => just(alloc, pattern),
        graphs => in_each_graph(alloc, &pattern, graphs),
    }
}

fn in_each_graph(alloc: Global, pattern: &Pattern, graphs: &[Graph]) -> Result<Patterns, Memory>
    ensures { IfOk result (λ patterns. patterns ≡ map (λ graph. record pattern.now { c = picks.One graph }) graphs.now) }
{
    let mut patterns = Patterns::new(alloc);
    for graph in graphs {
        patterns.push(in_graph(alloc, pattern, graph)?)?;
    }
    Ok(patterns)
}

fn in_graph(alloc: Global, pattern: &Pattern, graph: &Graph) -> Result<Pattern, Memory>
    ensures { IfOk result (λ it. it ≡ record pattern.now { c = picks.One graph.now }) }
{
    Ok(Pattern {
        s: pattern.s.copy(alloc)?,
        p: pattern.p.copy(alloc)?,
        o: pattern.o.copy(alloc)?,
        c: GraphPick::One(graph.copy(alloc)?),
    })
}
