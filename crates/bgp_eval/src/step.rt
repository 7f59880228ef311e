ghost use Rattle.std.specs.Prelude.{◌≡◌, ℕ, IfOk};
ghost use Rattle.std.specs.Option.{option_copied};
ghost use Rattle.bgp_eval.specs.Steps.{named_pick, pattern_of, reach_of, reach_pick, step_of, search_steps};

use crate::part::Part;
use crate::unknowns::Unknowns;
use query_model::{Scope, TriplePattern};
use rdf_term::{Duplicate, Graph, GraphPick, Memory, Pattern, Term};
use std::alloc::Global;

/// The graphs in which a step looks.
#[derive(Debug, Drop)]
pub enum Reach {
    /// Every graph, the absent one too.
    Anywhere,
    /// The named graph of this value.
    In(Part),
}

/// A triple pattern whose unknowns are numbered, and the number of the view where it is looked up.
#[derive(Debug, Drop)]
pub struct Step {
    pub s: Part,
    pub p: Part,
    pub o: Part,
    pub reach: Reach,
    pub view: usize,
}

/// The named graph of this value, or every named graph.
fn named_pick(name: Option<Term>) -> GraphPick
    ensures { result ≡ named_pick name }
{
    match name {
        None => GraphPick::NamedOnly,
        Some(term) => GraphPick::One(Graph::Named(term)),
    }
}

impl Reach {
    fn pick(&self, alloc: Global, row: &[Option<Term>]) -> Result<GraphPick, Memory>
        ensures { IfOk result (λ pick. pick ≡ reach_pick row.now self.now) }
    {
        Ok(match self {
            Reach::Anywhere => GraphPick::Any,
            Reach::In(part) => named_pick(part.copied(alloc, row)?),
        })
    }
}

impl Step {
    /// The pattern of the quads that may go on from a row.
    pub fn pattern(&self, alloc: Global, row: &[Option<Term>]) -> Result<Pattern, Memory>
        ensures { IfOk result (λ pattern. pattern ≡ pattern_of row.now self.now) }
    {
        Ok(Pattern {
            s: self.s.copied(alloc, row)?,
            p: self.p.copied(alloc, row)?,
            o: self.o.copied(alloc, row)?,
            c: self.reach.pick(alloc, row)?,
        })
    }
}

fn reach_of(alloc: Global, names: &Unknowns, scope: &Scope) -> Result<Reach, Memory>
    ensures { IfOk result (λ reach. reach ≡ reach_of names.now scope.now) }
{
    Ok(match scope {
        Scope::Any => Reach::Anywhere,
        Scope::Graph(slot) => Reach::In(names.part(alloc, slot)?),
    })
}

/// The step of the pattern of this number, where there are so many views.
fn step_of(
    alloc: Global,
    names: &Unknowns,
    views: usize,
    number: usize,
    pattern: &TriplePattern,
) -> Result<Step, Memory>
    ensures { let numbered : ℕ × TriplePattern = (number, pattern.now) in IfOk result (λ step. step ≡ step_of names.now views numbered) }
{
    Ok(Step {
        s: names.part(alloc, &pattern.s)?,
        p: names.part(alloc, &pattern.p)?,
        o: names.part(alloc, &pattern.o)?,
        reach: reach_of(alloc, names, &pattern.g)?,
        view: if views == 1 { 0 } else { number },
    })
}

/// The steps of these patterns, where there are so many views: one for all of them, or one for each.
pub fn search_steps(
    alloc: Global,
    names: &Unknowns,
    views: usize,
    patterns: &[TriplePattern],
) -> Result<Vec<Step>, Memory>
    ensures { IfOk result (λ steps. steps.items ≡ search_steps names.now views patterns.now) }
{
    let mut steps = Vec::new(alloc);
    for (number, pattern) in patterns.iter().enumerate() {
        steps.push(step_of(alloc, names, views, number, pattern)?)?;
    }
    Ok(steps)
}
