ghost use Rattle.std.specs.Prelude.{◌≡◌, map, IfOk};
ghost use Rattle.std.specs.Option.{option_copied};
ghost use Rattle.bgp_eval.specs.Parts.{numbered, part_value};
ghost use Rattle.bgp_eval.specs.Ways.{columns};

use rdf_term::{Duplicate, Memory, Row, Term};
use std::alloc::Global;

/// What stands at a place of a pattern.
#[derive(Debug, Drop)]
pub enum Part {
    /// A term.
    Given(Term),
    /// The unknown of this number, from 0.
    Unknown(usize),
    /// A variable that no pattern binds.
    Unbound,
}

/// What stands for an unknown of this number.
pub fn numbered(number: Option<usize>) -> Part
    ensures { result ≡ numbered number }
{
    match number {
        None => Part::Unbound,
        Some(number) => Part::Unknown(number),
    }
}

/// The value at a place of a row, where it is bound.
fn value_at(row: &[Option<Term>], number: usize) -> Option<&Term>
    ensures { option_copied result ≡ part_value row.now (Part.Unknown number) }
{
    match row.get(number) {
        Some(Some(term)) => Some(term),
        Some(None) => None,
        None => None,
    }
}

impl Part {
    /// The value in a row, where there is one.
    pub fn value<'a>(&'a self, row: &'a [Option<Term>]) -> Option<&'a Term>
        ensures { option_copied result ≡ part_value row.now self.now }
    {
        match self {
            Part::Given(term) => Some(term),
            Part::Unknown(number) => value_at(row, *number),
            Part::Unbound => None,
        }
    }

    /// A copy of that value.
    pub fn copied(&self, alloc: Global, row: &[Option<Term>]) -> Result<Option<Term>, Memory>
        ensures { IfOk result (λ value. value ≡ part_value row.now self.now) }
    {
        match self.value(row) {
            None => Ok(None),
            Some(term) => Ok(Some(term.copy(alloc)?)),
        }
    }
}

/// The values of these parts in a row.
pub fn columns(alloc: Global, parts: &[Part], row: &[Option<Term>]) -> Result<Row, Memory>
    ensures { IfOk result (λ it. it ≡ columns parts.now row.now) }
{
    let mut values = Row::new(alloc);
    for part in parts {
        values.push(part.copied(alloc, row)?)?;
    }
    Ok(values)
}
