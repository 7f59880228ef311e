ghost use Rattle.std.specs.Prelude.{◌≡◌, IfOk};
ghost use Rattle.query_model.specs.Observed.{fixed_term, named_pick, pattern_of, pick_of};

use crate::{Scope, Slot, TriplePattern};
use rdf_term::{Duplicate, Graph, GraphPick, Memory, Pattern, Term};
use std::alloc::Global;

/// The term of a slot; a variable and a blank node have none.
fn fixed_term(alloc: Global, slot: &Slot) -> Result<Option<Term>, Memory>
    ensures { IfOk result (λ it. it ≡ fixed_term slot.now) }
{
    match slot {
        Slot::Var(_) => Ok(None),
        Slot::Blank(_) => Ok(None),
        Slot::Fixed(term) => Ok(Some(term.copy(alloc)?)),
    }
}

/// The named graph of this name, or every named graph.
fn named_pick(name: Option<Term>) -> GraphPick
    ensures { result ≡ named_pick name }
{
    match name {
        None => GraphPick::NamedOnly,
        Some(term) => GraphPick::One(Graph::Named(term)),
    }
}

fn pick_of(alloc: Global, scope: &Scope) -> Result<GraphPick, Memory>
    ensures { IfOk result (λ it. it ≡ pick_of scope.now) }
{
    match scope {
        Scope::Any => Ok(GraphPick::Any),
        Scope::Graph(slot) => Ok(named_pick(fixed_term(alloc, slot)?)),
    }
}

/// The observed pattern of a triple pattern: it matches the quads among which an instance of the
/// triple pattern can be found. Terms are asked for as they stand; variables and blank nodes match any
/// term. Outside GRAPH every graph serves, the absent one too; inside it the graph of that name, or
/// where that is a variable every named graph.
pub fn pattern_of(alloc: Global, pattern: &TriplePattern) -> Result<Pattern, Memory>
    ensures { IfOk result (λ it. it ≡ pattern_of pattern.now) }
{
    Ok(Pattern {
        s: fixed_term(alloc, &pattern.s)?,
        p: fixed_term(alloc, &pattern.p)?,
        o: fixed_term(alloc, &pattern.o)?,
        c: pick_of(alloc, &pattern.g)?,
    })
}
