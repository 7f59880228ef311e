ghost use Rattle.std.specs.Prelude.{◌≡◌, ◌++◌, map, IfOk, OnOk};
ghost use Rattle.std.specs.List.{flat_map, filter_map};
ghost use Rattle.std.specs.Option.{option_to_list};
ghost use Rattle.rdf_term.specs.Sets.{in_order};
ghost use Rattle.query_model.specs.Found.{made_of, triple_of};
ghost use Rattle.bgp_eval.specs.Shapes.{shape_of, triple_in, triples_in};

use crate::part::Part;
use crate::unknowns::Unknowns;
use query_model::TriplePattern;
use rdf_term::{Graph, Memory, Quad, Quads, Row, Term};
use std::alloc::Global;

/// A triple pattern of a template whose unknowns are numbered.
#[derive(Drop)]
pub struct Shape {
    pub s: Part,
    pub p: Part,
    pub o: Part,
}

/// The triple of these parts in the absent graph, where all are bound and they are one.
fn triple_of(s: Option<Term>, p: Option<Term>, o: Option<Term>) -> Option<Quad>
    ensures { result ≡ triple_of s p o }
{
    match (s, p, o) {
        (Some(s), Some(p), Some(o)) => Quad::new(s, p, o, Graph::Absent).ok(),
        _ => None,
    }
}

impl Shape {
    fn triple(&self, alloc: Global, row: &[Option<Term>]) -> Result<Option<Quad>, Memory>
        ensures { IfOk result (λ triple. triple ≡ triple_in row.now self.now) }
    {
        Ok(triple_of(
            self.s.copied(alloc, row)?,
            self.p.copied(alloc, row)?,
            self.o.copied(alloc, row)?,
        ))
    }
}

fn shape_of(alloc: Global, names: &Unknowns, pattern: &TriplePattern) -> Result<Shape, Memory>
    ensures { IfOk result (λ shape. shape ≡ shape_of names.now pattern.now) }
{
    Ok(Shape {
        s: names.part(alloc, &pattern.s)?,
        p: names.part(alloc, &pattern.p)?,
        o: names.part(alloc, &pattern.o)?,
    })
}

fn shapes(alloc: Global, names: &Unknowns, template: &[TriplePattern]) -> Result<Vec<Shape>, Memory>
    ensures { IfOk result (λ shapes. shapes.items ≡ map (shape_of names.now) template.now) }
{
    let mut shapes = Vec::new(alloc);
    for pattern in template {
        shapes.push(shape_of(alloc, names, pattern)?)?;
    }
    Ok(shapes)
}

fn add(quads: &mut Quads, quad: Option<Quad>) -> Result<(), Memory>
    ensures { OnOk result (quads.new ≡ quads.old ++ option_to_list quad) }
{
    match quad {
        None => Ok(()),
        Some(quad) => quads.push(quad),
    }
}

/// Adds the triples that a row makes of a template.
fn add_triples(
    alloc: Global,
    shapes: &[Shape],
    row: &[Option<Term>],
    quads: &mut Quads,
) -> Result<(), Memory>
    ensures { OnOk result (quads.new ≡ quads.old ++ triples_in shapes.now row.now) }
{
    for shape in shapes {
        add(quads, shape.triple(alloc, row)?)?;
    }
    Ok(())
}

/// The triples that rows make of a template, in order, each once. What is unbound in a row or would be
/// no triple makes none.
pub fn constructed(
    alloc: Global,
    template: &[TriplePattern],
    names: &Unknowns,
    rows: &[Row],
) -> Result<Quads, Memory>
    ensures { IfOk result (λ quads. quads ≡ in_order (flat_map (λ row. filter_map (made_of names.now row) template.now) rows.now)) }
{
    let shapes = shapes(alloc, names, template)?;
    let mut quads = Quads::new(alloc);
    for row in rows {
        add_triples(alloc, shapes.as_slice(), row.as_slice(), &mut quads)?;
    }
    quads.into_set()
}
