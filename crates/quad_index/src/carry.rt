//! Quads of one dictionary in another one.
ghost use Rattle.std.specs.Prelude.{◌≡◌, ℕ, ◌<◌, ◌≤◌, ◌++◌, [], ◌∷◌, if◌then◌else◌, true, false, not, length, map, filter, IfOk, OnOk};
ghost use Rattle.std.specs.List.{list_any, AllByRecursion};
ghost use Rattle.std.specs.List.Sorted.{IsStrictlySortedBy};
ghost use Rattle.std.specs.Ordering.{eq_by_cmp};
ghost use Rattle.rdf_term.specs.Order.{term_cmp};
ghost use Rattle.quad_index.specs.Codes.{code_cmp, decode, IsCode, IsKnown, terms_of};
ghost use Rattle.quad_index.specs.Contents.{is_in};
ghost use Rattle.quad_index.specs.Carry.{AreCodesOf, AreMarked, AreRanks, IsMarked, carry, carry_graph, marked_terms, ranks_of};

use crate::code::{self, Code};
use crate::dictionary::Dictionary;
use rdf_term::{Duplicate, Memory, Quad, Term};
use std::alloc::Global;

/// The codes of those of the quads whose terms are in a dictionary, in the order of codes.
fn known_codes(alloc: Global, terms: &Dictionary, quads: &[Quad]) -> Result<Vec<Code>, Memory>
    ensures codes { IfOk result (λ codes. AreCodesOf terms.now quads.now codes.items) }
    ensures ascending { IfOk result (λ codes. IsStrictlySortedBy code_cmp codes.items) }
{
    // Its clause says that the terms ascend.
    let _ = terms.terms();
    let mut codes = Vec::new(alloc);
    for quad in quads {
        if let Some(code) = terms.code_of(quad) {
            codes.push(code)?;
        }
    }
    Ok(code::set_of(codes))
}

/// Whether a code is among these.
fn is_among(codes: &[Code], code: &Code) -> bool
    requires { IsStrictlySortedBy code_cmp codes.now }
    ensures { result ≡ list_any (eq_by_cmp code_cmp code.now) codes.now }
{
    match codes.binary_search(code) {
        Ok(_) => true,
        Err(_) => false,
    }
}

/// These codes but for those among others.
fn except(alloc: Global, codes: &[Code], others: &[Code]) -> Result<Vec<Code>, Memory>
    requires { IsStrictlySortedBy code_cmp others.now }
    ensures { IfOk result (λ rest. rest.items ≡ filter (λ k. not (list_any (eq_by_cmp code_cmp k) others.now)) codes.now) }
{
    let mut rest = Vec::with_capacity(alloc, codes.len())?;
    for code in codes {
        if !is_among(others, code) {
            rest.push(*code)?;
        }
    }
    Ok(rest)
}

/// The codes of quads but for some of the quads.
pub(crate) fn codes_without(
    alloc: Global,
    terms: &Dictionary,
    codes: &[Code],
    quads: &[Quad],
) -> Result<Vec<Code>, Memory>
    requires { AllByRecursion (IsCode terms.now) codes.now }
    ensures codes { IfOk result (λ it. AllByRecursion (IsCode terms.now) it.items) }
    ensures quads { IfOk result (λ it. map (decode terms.now) it.items ≡ filter (λ q. not (is_in q quads.now)) (map (decode terms.now) codes.now)) }
{
    let gone = known_codes(alloc, terms, quads)?;
    let rest = except(alloc, codes, gone.as_slice())?;
    Ok(rest)
}

/// Marks a rank.
fn mark(marks: &mut Vec<bool>, rank: u32)
    requires { rank < length marks.old.items }
    ensures length { length marks.new.items ≡ length marks.old.items }
    ensures kept { (other : ℕ) → IsMarked marks.old.items other → IsMarked marks.new.items other }
    ensures marked { IsMarked marks.new.items rank }
{
    marks[rank as usize] = true;
}

/// Marks the ranks of a code.
fn mark_code(marks: &mut Vec<bool>, code: &Code)
    requires { AllByRecursion (λ rank. rank < length marks.old.items) (ranks_of code.now) }
    ensures length { length marks.new.items ≡ length marks.old.items }
    ensures kept { (other : ℕ) → IsMarked marks.old.items other → IsMarked marks.new.items other }
    ensures marked { AreMarked marks.new.items code.now }
{
    mark(marks, code.first);
    mark(marks, code.second);
    mark(marks, code.third);
    if code.fourth > 0 {
        mark(marks, code.fourth - 1);
    }
}

/// The ranks of these codes, marked among those of a dictionary.
fn marks_of(alloc: Global, terms: &Dictionary, codes: &[Code]) -> Result<Vec<bool>, Memory>
    requires { AllByRecursion (IsCode terms.now) codes.now }
    ensures length { IfOk result (λ marks. length marks.items ≡ length terms.now) }
    ensures marked { IfOk result (λ marks. AllByRecursion (AreMarked marks.items) codes.now) }
{
    let mut marks = vec![in alloc; false; terms.terms().len()]?;
    for code in codes {
        mark_code(&mut marks, code);
    }
    Ok(marks)
}

/// Adds a copy of a term at the end where it is marked.
fn push_marked(
    alloc: Global,
    kept: &mut Vec<Term>,
    term: &Term,
    is_marked: bool,
) -> Result<(), Memory>
    ensures { OnOk result (kept.new.items ≡ kept.old.items ++ (if is_marked then term.now ∷ [] else [])) }
{
    if is_marked {
        kept.push(term.copy(alloc)?)?;
    }
    Ok(())
}

/// The terms that are marked.
fn marked(alloc: Global, terms: &[Term], marks: &[bool]) -> Result<Vec<Term>, Memory>
    requires { length marks.now ≡ length terms.now }
    ensures { IfOk result (λ it. it.items ≡ marked_terms terms.now marks.now) }
{
    let mut kept = Vec::with_capacity(alloc, terms.len())?;
    for rank in 0..terms.len() {
        push_marked(alloc, &mut kept, &terms[rank], marks[rank])?;
    }
    Ok(kept)
}

/// The terms of a dictionary that the quads of these codes have.
pub(crate) fn used(alloc: Global, terms: &Dictionary, codes: &[Code]) -> Result<Vec<Term>, Memory>
    requires { AllByRecursion (IsCode terms.now) codes.now }
    ensures { IfOk result (λ it. AllByRecursion (λ k. AllByRecursion (IsKnown it.items) (terms_of (decode terms.now k))) codes.now) }
{
    let marks = marks_of(alloc, terms, codes)?;
    let kept = marked(alloc, terms.terms(), marks.as_slice())?;
    Ok(kept)
}

/// The ranks in a dictionary of the terms of another one. A term that isn't there has a number that
/// says nothing.
fn ranks_in(alloc: Global, terms: &Dictionary, others: &[Term]) -> Result<Vec<u32>, Memory>
    ensures { IfOk result (λ ranks. AreRanks terms.now others.now ranks.items) }
{
    let mut ranks = Vec::with_capacity(alloc, others.len())?;
    let mut near = 0;
    for term in others {
        near = terms.rank_behind(term, near);
        ranks.push(near)?;
    }
    Ok(ranks)
}

/// The number of a graph, where these are the ranks of the terms.
fn carried_graph(ranks: &[u32], number: u32) -> u32
    requires { number ≤ length ranks.now }
    ensures { result ≡ carry_graph ranks.now number }
{
    if number == 0 {
        return 0;
    }
    ranks[number as usize - 1].saturating_add(1)
}

/// The code of a quad, where these are the ranks of the terms.
fn carried_code(ranks: &[u32], code: &Code) -> Code
    requires { AllByRecursion (λ rank. rank < length ranks.now) (ranks_of code.now) }
    ensures { result ≡ carry ranks.now code.now }
{
    Code {
        first: ranks[code.first as usize],
        second: ranks[code.second as usize],
        third: ranks[code.third as usize],
        fourth: carried_graph(ranks, code.fourth),
    }
}

/// The codes in a dictionary of the quads that have these codes in another one, and whose terms are
/// in both.
pub(crate) fn carried(
    alloc: Global,
    terms: &Dictionary,
    from: &Dictionary,
    codes: &[Code],
) -> Result<Vec<Code>, Memory>
    requires codes { AllByRecursion (IsCode from.now) codes.now }
    requires known { AllByRecursion (λ k. AllByRecursion (IsKnown terms.now) (terms_of (decode from.now k))) codes.now }
    ensures codes { IfOk result (λ it. AllByRecursion (IsCode terms.now) it.items) }
    ensures quads { IfOk result (λ it. map (decode terms.now) it.items ≡ map (decode from.now) codes.now) }
{
    // Its clause says that the terms are few.
    let _ = terms.terms();
    let ranks = ranks_in(alloc, terms, from.terms())?;
    let mut carried = Vec::with_capacity(alloc, codes.len())?;
    for code in codes {
        carried.push(carried_code(ranks.as_slice(), code))?;
    }
    Ok(carried)
}
