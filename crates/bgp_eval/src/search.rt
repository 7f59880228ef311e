ghost use Rattle.std.specs.Prelude.{◌≡◌, ◌≤◌, ◌+◌, [], ◌∷◌, ◌++◌, length, map, filter, take, nat_lt, IfOk, OnOk};
ghost use Rattle.bgp_eval.specs.Ways.{candidates, counts, is_one_triple, is_repeated, next_row, ways};
ghost use Rattle.rdf_term.specs.Matching.{matches};
ghost use Rattle.rdf_term.specs.Sets.{in_order};
ghost use Rattle.bgp_eval.specs.Steps.{pattern_of};
ghost use Rattle.bgp_eval.specs.Kept.{kept};
ghost use Rattle.bgp_eval.specs.Places.{IsTried};

use crate::part::{Part, columns};
use crate::row::{Places, extend};
use crate::step::{Reach, Step};
use rdf_term::{Duplicate, Memory, Quad, Quads, Row, Rows, Scan, Term};
use std::alloc::Global;

/// What is kept of a solution.
#[derive(Drop)]
pub enum Kept {
    /// The values of all unknowns.
    Whole,
    /// The values of these parts.
    Columns(Vec<Part>),
}

/// What a search is for.
#[derive(Drop)]
pub struct Wanted {
    pub kept: Kept,
    /// One solution more than so many is enough.
    pub most: u64,
}

/// A copy of all values of a row.
fn whole(alloc: Global, row: &[Option<Term>]) -> Result<Row, Memory>
    ensures { IfOk result (λ it. it ≡ row.now) }
{
    let mut values = Row::new(alloc);
    for value in row {
        values.push(value.copy(alloc)?)?;
    }
    Ok(values)
}

impl Wanted {
    /// Whether these are more than asked for.
    pub fn has_enough(&self, found: &Rows) -> bool
        ensures { result ≡ nat_lt self.now.most (length found.now) }
    {
        self.most < found.len() as u64
    }

    fn kept(&self, alloc: Global, row: &[Option<Term>]) -> Result<Row, Memory>
        ensures { IfOk result (λ it. it ≡ kept self.now.kept row.now) }
    {
        match &self.kept {
            Kept::Whole => whole(alloc, row),
            Kept::Columns(parts) => columns(alloc, parts.as_slice(), row),
        }
    }
}

/// The quads of a view that may go on from a row, in order, each once: as the scan gives them.
#[tactic(auto, using(crate::proofs::SearchLemmas::already_in_order))]
fn scanned<V: Scan>(
    alloc: Global,
    view: &V,
    step: &Step,
    row: &[Option<Term>],
) -> Result<Quads, Memory>
    ensures { IfOk result (λ quads. quads ≡ in_order (filter (matches (pattern_of row.now step.now)) (V.content view.now))) }
{
    let pattern = step.pattern(alloc, row)?;
    view.scan(alloc, &pattern)
}

/// The quads that may go on from a row, in order, each once.
fn candidates<V: Scan>(
    alloc: Global,
    views: &[V],
    step: &Step,
    row: &[Option<Term>],
) -> Result<Quads, Memory>
    ensures { IfOk result (λ quads. quads ≡ candidates (map V.content views.now) step.now row.now) }
{
    match views.get(step.view) {
        None => Ok(Quads::new(alloc)),
        Some(view) => scanned(alloc, view, step, row),
    }
}

fn is_one_triple(one: &Quad, other: &Quad) -> bool
    ensures { result ≡ is_one_triple one.now other.now }
{
    *one.s() == *other.s() && *one.p() == *other.p() && *one.o() == *other.o()
}

/// Whether the quads behind a quad begin with the same triple in another graph.
fn is_repeated(quad: &Quad, behind: &[Quad]) -> bool
    ensures { result ≡ is_repeated quad.now behind.now }
{
    match behind {
        [] => false,
        [next, ..] => is_one_triple(quad, next),
    }
}

/// Whether a quad counts, with these quads behind it: outside GRAPH a triple counts in one graph alone.
fn counts(reach: &Reach, quad: &Quad, behind: &[Quad]) -> bool
    ensures { result ≡ counts reach.now quad.now behind.now }
{
    match reach {
        Reach::Anywhere => !is_repeated(quad, behind),
        Reach::In(_) => true,
    }
}

/// Makes a row the one that a quad makes of it, where it counts and fits the step, and gives the places
/// that were bound. Where it doesn't, the row stays as it was.
fn tried(
    alloc: Global,
    row: &mut Vec<Option<Term>>,
    step: &Step,
    quad: &Quad,
    behind: &[Quad],
) -> Result<Option<Places>, Memory>
    ensures { IfOk result (λ it. IsTried it (next_row row.old.items step.now quad.now behind.now) row.old.items row.new.items) }
{
    if counts(&step.reach, quad, behind) {
        extend(alloc, row, step, quad)
    } else {
        Ok(None)
    }
}

/// Adds what is kept of a row, unless there are enough.
fn add_kept(
    alloc: Global,
    wanted: &Wanted,
    row: &[Option<Term>],
    found: &mut Rows,
) -> Result<(), Memory>
    requires { length found.old ≤ wanted.now.most + 1 }
    ensures { OnOk result (found.new ≡ take (wanted.now.most + 1) (found.old ++ kept wanted.now.kept row.now ∷ [])) }
{
    if wanted.has_enough(found) {
        return Ok(());
    }
    found.push(wanted.kept(alloc, row)?)
}

/// Adds what is kept of the solutions that the steps make of a row, until there are enough.
///
/// The row is bound in place, and each binding is taken back once what it led to is found: the row is
/// at the end what it was. The depth of the recursion is the number of steps.
pub fn search<V: Scan>(
    alloc: Global,
    views: &[V],
    wanted: &Wanted,
    steps: &[Step],
    row: &mut Vec<Option<Term>>,
    found: &mut Rows,
) -> Result<(), Memory>
    requires { length found.old ≤ wanted.now.most + 1 }
    ensures found { OnOk result (found.new ≡ take (wanted.now.most + 1) (found.old ++ map (kept wanted.now.kept) (ways (map V.content views.now) steps.now row.old.items))) }
    ensures row { OnOk result (row.new.items ≡ row.old.items) }
{
    match steps.split_first() {
        None => add_kept(alloc, wanted, row.as_slice(), found),
        Some((step, rest)) => {
            let quads = candidates(alloc, views, step, row.as_slice())?;
            let mut left = quads.as_slice();
            while let Some((quad, behind)) = left.split_first() {
                if wanted.has_enough(found) {
                    return Ok(());
                }
                if let Some(places) = tried(alloc, row, step, quad, behind)? {
                    search(alloc, views, wanted, rest, row, found)?;
                    places.take_back(row);
                }
                left = behind;
            }
            Ok(())
        }
    }
}
