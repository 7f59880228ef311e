ghost use Rattle.std.specs.Prelude.{◌≡◌, map, replicate, Some, None, IfOk, IsErrOf};
ghost use Rattle.query_model.specs.declared.query.Query.TheVariants.{Select as ASelect, Ask as AAsk, Construct as AConstruct};
ghost use Rattle.query_model.specs.Unknowns.{unknowns};
ghost use Rattle.query_model.specs.Found.{cut_rows, found};
ghost use Rattle.query_model.specs.declared.query.Slot.TheVariants as slot;
ghost use Rattle.bgp_eval.specs.Answers.{Answers};
ghost use Rattle.bgp_eval.specs.Parts.{part_of};
ghost use Rattle.bgp_eval.specs.Sought.{IsOrdered, IsSought};

use crate::construct::constructed;
use crate::fault::EvalFault;
use crate::part::Part;
use crate::plan::planned;
use crate::search::{Kept, Wanted, search};
use crate::step::search_steps;
use crate::unknowns::{Unknowns, unknowns_of};
use query_model::{Cut, Found, Names1, Query, Table, TriplePattern, each_solution_once};
use rdf_term::{Duplicate, Memory, Rows, Scan, Term, Text};
use std::alloc::Global;

/// A row in which nothing is bound.
fn unbound(alloc: Global, unknowns: usize) -> Result<Vec<Option<Term>>, Memory>
    ensures { IfOk result (λ row. row.items ≡ replicate unknowns None) }
{
    let mut row = Vec::new(alloc);
    for _ in 0..unknowns {
        row.push(None)?;
    }
    Ok(row)
}

/// What is wanted of the solutions of patterns.
fn sought<V: Scan>(
    alloc: Global,
    group: &[TriplePattern],
    names: &Unknowns,
    views: &[V],
    wanted: &Wanted,
) -> Result<Rows, Memory>
    requires { names.now ≡ unknowns group.now }
    ensures { IfOk result (λ rows. IsSought wanted.now group.now (map V.content views.now) rows) }
{
    each_solution_once();
    let steps = search_steps(alloc, names, views.len(), group)?;
    let plan = planned(alloc, steps, names.len())?;
    let mut row = unbound(alloc, names.len())?;
    let mut rows = Rows::new(alloc);
    search(alloc, views, wanted, plan.as_slice(), &mut row, &mut rows)?;
    Ok(rows)
}

/// The parts that stand for these variables.
fn variables(alloc: Global, names: &Unknowns, vars: &[Text]) -> Result<Vec<Part>, Memory>
    ensures { IfOk result (λ parts. parts.items ≡ map (λ var. part_of names.now (slot.Var var)) vars.now) }
{
    let mut parts = Vec::new(alloc);
    for var in vars {
        parts.push(names.variable_part(var))?;
    }
    Ok(parts)
}

/// The rows in order, each as often as it stands there, or once where only distinct ones are asked for.
/// In which order they stood makes no difference.
fn ordered(rows: Rows, distinct: bool) -> Result<Rows, Memory>
    ensures { IfOk result (λ it. IsOrdered distinct rows it) }
{
    let sorted = rows.into_sorted()?;
    if !distinct {
        return Ok(sorted);
    }
    let mut rows = sorted.into_vec();
    rows.dedup();
    Ok(Rows::from_vec(rows))
}

/// The rows that OFFSET and LIMIT leave.
fn cut_rows(rows: Rows, cut: Cut) -> Result<Rows, Memory>
    ensures { IfOk result (λ it. it ≡ cut_rows cut rows) }
{
    let mut rows = rows.into_vec();
    if cut.offset > 0 {
        let offset = cut.offset.min(rows.len() as u64) as usize;
        rows = rows.split_off(offset)?;
    }
    if let Some(limit) = cut.limit {
        rows.truncate(limit.min(rows.len() as u64) as usize);
    }
    Ok(Rows::from_vec(rows))
}

fn select<V: Scan>(
    alloc: Global,
    distinct: bool,
    vars: &Names1,
    group: &[TriplePattern],
    cut: Cut,
    views: &[V],
    most: u64,
) -> Result<Found, EvalFault>
    ensures { Answers result (found (ASelect distinct vars.now group.now cut) (map V.content views.now) most) }
{
    let names = unknowns_of(alloc, group)?;
    let parts = variables(alloc, &names, vars.as_slice())?;
    let wanted = Wanted {
        kept: Kept::Columns(parts),
        most,
    };
    let rows = sought(alloc, group, &names, views, &wanted)?;
    if wanted.has_enough(&rows) {
        return Err(EvalFault::TooManyRows);
    }
    let sorted = ordered(rows, distinct)?;
    let rows = cut_rows(sorted, cut)?;
    Ok(Found::Table(Table {
        vars: vars.copy(alloc)?,
        rows,
    }))
}

fn ask<V: Scan>(
    alloc: Global,
    group: &[TriplePattern],
    views: &[V],
    most: u64,
) -> Result<Found, EvalFault>
    ensures { Answers result (found (AAsk group.now) (map V.content views.now) most) }
{
    let names = unknowns_of(alloc, group)?;
    // One solution is enough.
    let wanted = Wanted {
        kept: Kept::Columns(Vec::new(alloc)),
        most: 0,
    };
    let rows = sought(alloc, group, &names, views, &wanted)?;
    Ok(Found::Truth(wanted.has_enough(&rows)))
}

fn construct<V: Scan>(
    alloc: Global,
    template: &[TriplePattern],
    group: &[TriplePattern],
    cut: Cut,
    views: &[V],
    most: u64,
) -> Result<Found, EvalFault>
    ensures { Answers result (found (AConstruct template.now group.now cut) (map V.content views.now) most) }
{
    let names = unknowns_of(alloc, group)?;
    let wanted = Wanted {
        kept: Kept::Whole,
        most,
    };
    let rows = sought(alloc, group, &names, views, &wanted)?;
    if wanted.has_enough(&rows) {
        return Err(EvalFault::TooManyRows);
    }
    let rows = cut_rows(ordered(rows, false)?, cut)?;
    let quads = constructed(alloc, template, &names, rows.as_slice())?;
    Ok(Found::Quads(quads))
}

/// The answer of a query over one view, or over one view for each triple pattern of its group, in
/// their order (SPARQL 1.1, sections 15, 16 and 18).
///
/// `TooManyRows` comes exactly where a SELECT or a CONSTRUCT has more than `most` solutions, counted
/// before DISTINCT, OFFSET and LIMIT. A pattern without a view has no solution.
pub fn answer_query<V: Scan>(
    alloc: Global,
    query: &Query,
    views: &[V],
    most: u64,
) -> Result<Found, EvalFault>
    ensures found { IfOk result (λ it. found query.now (map V.content views.now) most ≡ Some it) }
    ensures too_many { IsErrOf result EvalFault.TooManyRows → found query.now (map V.content views.now) most ≡ None }
{
    match query {
        Query::Select {
            distinct,
            vars,
            group,
            cut,
        } => select(alloc, *distinct, vars, group.as_slice(), *cut, views, most),
        Query::Ask { group } => ask(alloc, group.as_slice(), views, most),
        Query::Construct {
            template,
            group,
            cut,
        } => construct(
            alloc,
            template.as_slice(),
            group.as_slice(),
            *cut,
            views,
            most,
        ),
    }
}
