ghost use Rattle.std.specs.Prelude.{◌≡◌, Some, None, IfOk};
ghost use Rattle.std.specs.Bool.{OnTrue, OnFalse};
ghost use Rattle.bgp_eval.specs.Places.{IsTried, no_places, taken_back, unbound};
ghost use Rattle.bgp_eval.specs.Ways.{bound, extended, reached};

use crate::part::Part;
use crate::step::{Reach, Step};
use rdf_term::{Duplicate, Graph, Memory, Quad, Term};
use std::alloc::Global;

/// The places of a row that the parts of a step bound to those of a quad.
#[derive(Drop)]
pub struct Places {
    pub s: Option<usize>,
    pub p: Option<usize>,
    pub o: Option<usize>,
    pub graph: Option<usize>,
}

/// Unbinds a place of a row.
#[tactic(auto, using(crate::proofs::PlaceLemmas::none_there))]
fn unbind(row: &mut Vec<Option<Term>>, place: Option<usize>)
    ensures { row.new.items ≡ unbound place row.old.items }
{
    if let Some(number) = place {
        if number < row.len() {
            row[number] = None;
        }
    }
}

impl Places {
    /// Unbinds these places of a row, the last one that was bound first.
    pub fn take_back(&self, row: &mut Vec<Option<Term>>)
        ensures { row.new.items ≡ taken_back self.now row.old.items }
    {
        unbind(row, self.graph);
        unbind(row, self.o);
        unbind(row, self.p);
        unbind(row, self.s);
    }
}

/// Binds a place of a row to a term, if it is unbound, and tells whether it then holds the term.
fn bind_at(
    alloc: Global,
    row: &mut Vec<Option<Term>>,
    number: usize,
    term: &Term,
    place: &mut Option<usize>,
) -> Result<bool, Memory>
    requires { place.old ≡ None }
    ensures holds { IfOk result (λ holds. OnTrue holds (bound (Part.Unknown number) term.now row.old.items ≡ Some row.new.items)) }
    ensures fails { IfOk result (λ holds. OnFalse holds (bound (Part.Unknown number) term.now row.old.items ≡ None)) }
    ensures back { IfOk result (λ holds. unbound place.new row.new.items ≡ row.old.items) }
{
    match row.get(number) {
        None => Ok(false),
        Some(Some(bound)) => Ok(*bound == *term),
        Some(None) => {
            row[number] = Some(term.copy(alloc)?);
            *place = Some(number);
            Ok(true)
        }
    }
}

/// Gives a part this value in a row, if it has none, and tells whether it then has it.
fn bind(
    alloc: Global,
    row: &mut Vec<Option<Term>>,
    part: &Part,
    term: &Term,
    place: &mut Option<usize>,
) -> Result<bool, Memory>
    requires { place.old ≡ None }
    ensures holds { IfOk result (λ holds. OnTrue holds (bound part.now term.now row.old.items ≡ Some row.new.items)) }
    ensures fails { IfOk result (λ holds. OnFalse holds (bound part.now term.now row.old.items ≡ None)) }
    ensures back { IfOk result (λ holds. unbound place.new row.new.items ≡ row.old.items) }
{
    match part {
        Part::Given(given) => Ok(*given == *term),
        Part::Unknown(number) => bind_at(alloc, row, *number, term, place),
        Part::Unbound => Ok(false),
    }
}

/// Gives the name of a graph this graph in a row, and tells whether it then has it.
fn reach(
    alloc: Global,
    row: &mut Vec<Option<Term>>,
    reach: &Reach,
    graph: &Graph,
    place: &mut Option<usize>,
) -> Result<bool, Memory>
    requires { place.old ≡ None }
    ensures holds { IfOk result (λ holds. OnTrue holds (reached reach.now graph.now row.old.items ≡ Some row.new.items)) }
    ensures fails { IfOk result (λ holds. OnFalse holds (reached reach.now graph.now row.old.items ≡ None)) }
    ensures back { IfOk result (λ holds. unbound place.new row.new.items ≡ row.old.items) }
{
    match (reach, graph) {
        (Reach::Anywhere, _) => Ok(true),
        (Reach::In(_), Graph::Absent) => Ok(false),
        (Reach::In(part), Graph::Named(name)) => bind(alloc, row, part, name, place),
    }
}

/// Gives the parts of a step those of a quad in a row, one after the other, and tells whether they then
/// have them.
#[tactic(auto, unfolding(crate::specs::Ways::extended))]
fn bind_all(
    alloc: Global,
    row: &mut Vec<Option<Term>>,
    step: &Step,
    quad: &Quad,
    places: &mut Places,
) -> Result<bool, Memory>
    requires { places.old ≡ no_places }
    ensures holds { IfOk result (λ holds. OnTrue holds (extended row.old.items step.now quad.now ≡ Some row.new.items)) }
    ensures fails { IfOk result (λ holds. OnFalse holds (extended row.old.items step.now quad.now ≡ None)) }
    ensures back { IfOk result (λ holds. taken_back places.new row.new.items ≡ row.old.items) }
{
    if !bind(alloc, row, &step.s, quad.s(), &mut places.s)? {
        return Ok(false);
    }
    if !bind(alloc, row, &step.p, quad.p(), &mut places.p)? {
        return Ok(false);
    }
    if !bind(alloc, row, &step.o, quad.o(), &mut places.o)? {
        return Ok(false);
    }
    reach(alloc, row, &step.reach, quad.c(), &mut places.graph)
}

/// Makes a row the one that a quad makes of it, where it fits the step, and gives the places that were
/// bound. Where it doesn't, the row stays as it was.
pub fn extend(
    alloc: Global,
    row: &mut Vec<Option<Term>>,
    step: &Step,
    quad: &Quad,
) -> Result<Option<Places>, Memory>
    ensures { IfOk result (λ it. IsTried it (extended row.old.items step.now quad.now) row.old.items row.new.items) }
{
    let mut places = Places {
        s: None,
        p: None,
        o: None,
        graph: None,
    };
    if bind_all(alloc, row, step, quad, &mut places)? {
        return Ok(Some(places));
    }
    places.take_back(row);
    Ok(None)
}
