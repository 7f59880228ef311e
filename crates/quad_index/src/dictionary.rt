//! The terms of a set of quads by their ranks.
ghost use Rattle.std.specs.Prelude.{◌≡◌, ℕ, ◌<◌, ◌≤◌, ◌-◌, ◌^◌, true, false, length, map, fold, IfOk, OnOk, IfSome, IfNone};
ghost use Rattle.std.specs.List.{flat_map, AllByRecursion};
ghost use Rattle.std.specs.Option.{option_copied};
ghost use Rattle.std.specs.List.Sorted.{IsStrictlySortedBy};
ghost use Rattle.std.specs.BTreeSet.{insert_key};
ghost use Rattle.rdf_term.specs.Matching.{matches, fits, picks_graph};
ghost use Rattle.rdf_term.specs.Order.{term_cmp};
ghost use Rattle.rdf_term.specs.Sets.{sorted_set};
ghost use Rattle.quad_index.specs.Codes.{term_at, graph_at, decode, IsCode, IsKnown, is_known, graph_terms, terms_of, unless_same, unless_same_graph, new_terms, is_between, is_ranked, is_within};
ghost use Rattle.quad_index.specs.Lent.{graph_of, quad_of};

use crate::Parts;
use crate::code::Code;
use rdf_term::{Duplicate, Graph, GraphPick, Memory, Pattern, Quad, Quads, Term};
use std::alloc::Global;
use std::collections::BTreeSet;
use std::marker::Model;

/// Terms in their order, each once. A term's rank is its place from 0. There are fewer than
/// 2^32 - 1, so that a rank and one more than it are a `u32`.
#[derive(Drop)]
pub(crate) struct Dictionary {
    terms: Vec<Term>,
}

impl Model for Dictionary {
    ghost use Rattle.std.specs.Prelude.{List};
    ghost use Rattle.rdf_term.specs.declared.term.Term.{Term};
    ghost use Rattle.quad_index.specs.Codes.{IsDictionary};

    ghost Value = { List Term };

    ghost view = { λ it. it.terms.items };

    ghost invariant = { λ it. IsDictionary it.terms.items };
}

/// Adds a term to a set.
fn note<'a>(seen: &mut BTreeSet<&'a Term>, term: &'a Term) -> Result<(), Memory>
    ensures { OnOk result (map (λ t. t.now) seen.new.keys ≡ insert_key term_cmp (map (λ t. t.now) seen.old.keys) term.now) }
{
    seen.insert(term)?;
    Ok(())
}

/// Adds the name of a graph, where it has one, to a set.
fn note_graph<'a>(seen: &mut BTreeSet<&'a Term>, graph: &'a Graph) -> Result<(), Memory>
    ensures { OnOk result (map (λ t. t.now) seen.new.keys ≡ fold (insert_key term_cmp) (map (λ t. t.now) seen.old.keys) (graph_terms graph.now)) }
{
    match graph {
        Graph::Absent => Ok(()),
        Graph::Named(name) => note(seen, name),
    }
}

/// Adds a term to a set, unless it is the one before it.
fn note_unless<'a>(
    seen: &mut BTreeSet<&'a Term>,
    term: &'a Term,
    before: &Term,
) -> Result<(), Memory>
    ensures { OnOk result (map (λ t. t.now) seen.new.keys ≡ fold (insert_key term_cmp) (map (λ t. t.now) seen.old.keys) (unless_same before.now term.now)) }
{
    if *term == *before {
        return Ok(());
    }
    note(seen, term)
}

/// Adds the name of a graph, where it has one, to a set, unless the graph is the one before it.
fn note_graph_unless<'a>(
    seen: &mut BTreeSet<&'a Term>,
    graph: &'a Graph,
    before: &Graph,
) -> Result<(), Memory>
    ensures { OnOk result (map (λ t. t.now) seen.new.keys ≡ fold (insert_key term_cmp) (map (λ t. t.now) seen.old.keys) (unless_same_graph before.now graph.now)) }
{
    if *graph == *before {
        return Ok(());
    }
    note_graph(seen, graph)
}

/// Adds the terms of a quad to a set, but for its subject, predicate and graph where they are those
/// of the quad before it.
fn note_new<'a>(seen: &mut BTreeSet<&'a Term>, quad: &'a Quad, before: &Quad) -> Result<(), Memory>
    ensures { OnOk result (map (λ t. t.now) seen.new.keys ≡ fold (insert_key term_cmp) (map (λ t. t.now) seen.old.keys) (new_terms before.now quad.now)) }
{
    note_unless(seen, quad.s(), before.s())?;
    note_unless(seen, quad.p(), before.p())?;
    note(seen, quad.o())?;
    note_graph_unless(seen, quad.c(), before.c())
}

/// Adds the terms of a quad to a set.
fn note_quad<'a>(seen: &mut BTreeSet<&'a Term>, quad: &'a Quad) -> Result<(), Memory>
    ensures { OnOk result (map (λ t. t.now) seen.new.keys ≡ fold (insert_key term_cmp) (map (λ t. t.now) seen.old.keys) (terms_of quad.now)) }
{
    note(seen, quad.s())?;
    note(seen, quad.p())?;
    note(seen, quad.o())?;
    note_graph(seen, quad.c())
}

/// The terms of these quads.
fn mentioned<'a>(alloc: Global, quads: &'a [Quad]) -> Result<BTreeSet<&'a Term>, Memory>
    ensures { IfOk result (λ seen. map (λ t. t.now) seen.keys ≡ sorted_set term_cmp (flat_map terms_of quads.now)) }
{
    let mut seen = BTreeSet::new(alloc);
    let Some((first, rest)) = quads.split_first() else {
        return Ok(seen);
    };
    note_quad(&mut seen, first)?;
    let mut before = first;
    for quad in rest {
        note_new(&mut seen, quad, before)?;
        before = quad;
    }
    Ok(seen)
}

/// Copies of these terms.
fn copies(alloc: Global, seen: &BTreeSet<&Term>) -> Result<Vec<Term>, Memory>
    ensures { IfOk result (λ terms. terms.items ≡ map (λ t. t.now) seen.now.keys) }
{
    let mut terms = Vec::with_capacity(alloc, seen.len())?;
    for term in seen.iter() {
        terms.push(term.copy(alloc)?)?;
    }
    Ok(terms)
}

impl Dictionary {
    /// The terms of these quads. More terms than ranks are answered as want of memory.
    pub(crate) fn of(alloc: Global, quads: &[Quad]) -> Result<Dictionary, Memory>
        ensures terms { IfOk result (λ it. it ≡ sorted_set term_cmp (flat_map terms_of quads.now)) }
        ensures ascending { IfOk result (λ it. IsStrictlySortedBy term_cmp it) }
    {
        let seen = mentioned(alloc, quads)?;
        let terms = copies(alloc, &seen)?;
        if terms.len() >= u32::MAX as usize {
            return Err(Memory);
        }
        Ok(Dictionary { terms })
    }

    /// These terms, in their order, each once. Lists that are in order by themselves are merged. More
    /// terms than ranks are answered as want of memory.
    pub(crate) fn from_terms(terms: Vec<Term>) -> Result<Dictionary, Memory>
        ensures terms { IfOk result (λ it. it ≡ sorted_set term_cmp terms.items) }
        ensures ascending { IfOk result (λ it. IsStrictlySortedBy term_cmp it) }
    {
        let mut terms = terms;
        terms.sort()?;
        terms.dedup();
        if terms.len() >= u32::MAX as usize {
            return Err(Memory);
        }
        Ok(Dictionary { terms })
    }

    /// The terms, in their order.
    pub(crate) fn into_terms(self) -> Vec<Term>
        ensures { result.items ≡ self }
    {
        self.terms
    }

    /// The terms, in their order.
    pub(crate) fn terms(&self) -> &[Term]
        ensures terms { result.now ≡ self.now }
        ensures ascending { IsStrictlySortedBy term_cmp self.now }
        ensures few { length self.now < 2 ^ 32 - 1 }
    {
        self.terms.as_slice()
    }

    /// The rank of a term, where it is in the dictionary.
    pub(crate) fn rank_of(&self, term: &Term) -> Option<u32>
        ensures some { IfSome result (λ rank. (rank < length self.now) × (term_at self.now rank ≡ term.now)) }
        ensures none { IfNone result (is_known self.now term.now ≡ false) }
    {
        match self.terms.as_slice().binary_search(term) {
            Ok(rank) => Some(rank as u32),
            Err(_) => None,
        }
    }

    /// The rank of a term, where it is in the dictionary, or else a number that says nothing. The search
    /// is spared where the rank is one more than a number that is near, or that number.
    pub(crate) fn rank_behind(&self, term: &Term, near: u32) -> u32
        ensures { is_known self.now term.now ≡ true → (result < length self.now) × (term_at self.now result ≡ term.now) }
    {
        self.rank_near(term, near.saturating_add(1)).unwrap_or(near)
    }

    /// Whether a term has a rank.
    fn is_at(&self, rank: u32, term: &Term) -> bool
        ensures { result ≡ true → (rank < length self.now) × (term_at self.now rank ≡ term.now) }
    {
        match self.terms.as_slice().get(rank as usize) {
            Some(found) => *found == *term,
            None => false,
        }
    }

    /// The rank of a term, where it is in the dictionary. A rank near which it may stand, as that of
    /// the term before it in a list that ascends, spares the search where it is that one or the next.
    fn rank_near(&self, term: &Term, near: u32) -> Option<u32>
        ensures some { IfSome result (λ rank. (rank < length self.now) × (term_at self.now rank ≡ term.now)) }
        ensures none { IfNone result (is_known self.now term.now ≡ false) }
    {
        if self.is_at(near, term) {
            return Some(near);
        }
        let next = near.saturating_add(1);
        if self.is_at(next, term) {
            return Some(next);
        }
        self.rank_of(term)
    }

    /// The number of a graph, where it is absent or its name is in the dictionary. The search for
    /// the name is spared where its rank is near another one.
    fn number_near(&self, graph: &Graph, near: u32) -> Option<u32>
        ensures some { IfSome result (λ number. (number ≤ length self.now) × (graph_at self.now number ≡ graph.now)) }
        ensures none { IfNone result (AllByRecursion (IsKnown self.now) (graph_terms graph.now) → ⊥) }
    {
        let _terms = &self.terms;
        match graph {
            Graph::Absent => Some(0),
            Graph::Named(name) => {
                let rank = self.rank_near(name, near.saturating_sub(1))?;
                Some(rank + 1)
            }
        }
    }

    /// The code of a quad, where all its terms are in the dictionary. The search for a term is spared
    /// where its rank is near that in another code.
    fn code_near(&self, quad: &Quad, near: &Code) -> Option<Code>
        ensures some { IfSome result (λ code. IsCode self.now code × (decode self.now code ≡ quad.now)) }
        ensures none { IfNone result (AllByRecursion (IsKnown self.now) (terms_of quad.now) → ⊥) }
    {
        let first = self.rank_near(quad.s(), near.first)?;
        let second = self.rank_near(quad.p(), near.second)?;
        let third = self.rank_near(quad.o(), near.third)?;
        let fourth = self.number_near(quad.c(), near.fourth)?;
        Some(Code {
            first,
            second,
            third,
            fourth,
        })
    }

    /// The code of a quad, where all its terms are in the dictionary.
    pub(crate) fn code_of(&self, quad: &Quad) -> Option<Code>
        ensures some { IfSome result (λ code. IsCode self.now code × (decode self.now code ≡ quad.now)) }
        ensures none { IfNone result (AllByRecursion (IsKnown self.now) (terms_of quad.now) → ⊥) }
    {
        self.code_near(quad, &Code::first())
    }

    /// The codes of quads whose terms are in the dictionary.
    pub(crate) fn codes_of(&self, alloc: Global, quads: &[Quad]) -> Result<Vec<Code>, Memory>
        requires { AllByRecursion (λ q. AllByRecursion (IsKnown self.now) (terms_of q)) quads.now }
        ensures codes { IfOk result (λ codes. AllByRecursion (IsCode self.now) codes.items) }
        ensures quads { IfOk result (λ codes. map (decode self.now) codes.items ≡ quads.now) }
    {
        let mut codes = Vec::with_capacity(alloc, quads.len())?;
        let mut near = Code::first();
        for quad in quads {
            match self.code_near(quad, &near) {
                Some(code) => {
                    codes.push(code)?;
                    near = code;
                }
                None => unreachable!(),
            }
        }
        Ok(codes)
    }

    /// The term of a rank.
    fn term(&self, rank: u32) -> &Term
        requires { rank < length self.now }
        ensures { result.now ≡ term_at self.now rank }
    {
        &self.terms[rank as usize]
    }

    /// The term of a rank, where the number is one.
    fn ranked(&self, rank: u32) -> Option<&Term>
        ensures some { IfSome result (λ term. (rank < length self.now) × (term.now ≡ term_at self.now rank)) }
        ensures none { IfNone result (length self.now ≤ rank) }
    {
        self.terms.as_slice().get(rank as usize)
    }

    /// The name of the graph of a number, none for the absent graph, where the number is a graph's.
    fn name(&self, number: u32) -> Option<Option<&Term>>
        ensures some { IfSome result (λ name. (number ≤ length self.now) × (graph_of (option_copied name) ≡ graph_at self.now number)) }
        ensures none { IfNone result (length self.now < number) }
    {
        if number == 0 {
            return Some(None);
        }
        let name = self.ranked(number - 1)?;
        Some(Some(name))
    }

    /// The parts of the quad of a code, where its numbers are ranks.
    pub(crate) fn parts(&self, code: &Code) -> Option<Parts<'_>>
        ensures some { IfSome result (λ parts. (is_ranked self.now code.now ≡ true) × (quad_of parts ≡ decode self.now code.now)) }
        ensures none { IfNone result (is_ranked self.now code.now ≡ false) }
    {
        let s = self.ranked(code.first)?;
        let p = self.ranked(code.second)?;
        let o = self.ranked(code.third)?;
        let name = self.name(code.fourth)?;
        Some(Parts { s, p, o, name })
    }

    /// A copy of the graph of a number.
    fn graph(&self, alloc: Global, number: u32) -> Result<Graph, Memory>
        requires { number ≤ length self.now }
        ensures { IfOk result (λ graph. graph ≡ graph_at self.now number) }
    {
        if number == 0 {
            return Ok(Graph::Absent);
        }
        Ok(Graph::Named(self.term(number - 1).copy(alloc)?))
    }

    /// The quad of a code.
    pub(crate) fn quad(&self, alloc: Global, code: &Code) -> Result<Quad, Memory>
        requires { IsCode self.now code.now }
        ensures { IfOk result (λ quad. quad ≡ decode self.now code.now) }
    {
        let s = self.term(code.first).copy(alloc)?;
        let p = self.term(code.second).copy(alloc)?;
        let o = self.term(code.third).copy(alloc)?;
        let c = self.graph(alloc, code.fourth)?;
        match Quad::new(s, p, o, c) {
            Ok(quad) => Ok(quad),
            Err(_) => unreachable!(),
        }
    }

    /// The quads of these codes.
    pub(crate) fn quads(&self, alloc: Global, codes: &[Code]) -> Result<Quads, Memory>
        requires { AllByRecursion (IsCode self.now) codes.now }
        ensures { IfOk result (λ quads. quads ≡ map (decode self.now) codes.now) }
    {
        let mut quads = Quads::new(alloc);
        for code in codes {
            quads.push(self.quad(alloc, code)?)?;
        }
        Ok(quads)
    }

    /// The least and the greatest rank of a term that a part of a pattern picks, where there is one.
    fn span(&self, part: &Option<Term>) -> Option<(u32, u32)>
        ensures some { IfSome result (λ span. (i : ℕ) → i < length self.now → is_between span.0 span.1 i ≡ fits part.now (term_at self.now i)) }
        ensures none { IfNone result ((i : ℕ) → i < length self.now → fits part.now (term_at self.now i) ≡ false) }
    {
        let _terms = &self.terms;
        match part {
            None => Some((0, u32::MAX)),
            Some(term) => {
                let rank = self.rank_of(term)?;
                Some((rank, rank))
            }
        }
    }

    /// The least and the greatest number of a graph that a pattern picks, where there is one.
    fn graph_span(&self, pick: &GraphPick) -> Option<(u32, u32)>
        ensures some { IfSome result (λ span. (i : ℕ) → i ≤ length self.now → is_between span.0 span.1 i ≡ picks_graph pick.now (graph_at self.now i)) }
        ensures none { IfNone result ((i : ℕ) → i ≤ length self.now → picks_graph pick.now (graph_at self.now i) ≡ false) }
    {
        let _terms = &self.terms;
        match pick {
            GraphPick::Any => Some((0, u32::MAX)),
            GraphPick::NamedOnly => Some((1, u32::MAX)),
            GraphPick::One(graph) => {
                let number = self.number_near(graph, 0)?;
                Some((number, number))
            }
        }
    }

    /// The codes between which, number by number, those of the quads lie that a pattern matches,
    /// where it can match one.
    pub(crate) fn bounds(&self, pattern: &Pattern) -> Option<(Code, Code)>
        ensures some { IfSome result (λ bounds. (k : Code) → IsCode self.now k → is_within bounds.0 bounds.1 k ≡ matches pattern.now (decode self.now k)) }
        ensures none { IfNone result ((k : Code) → IsCode self.now k → matches pattern.now (decode self.now k) ≡ false) }
    {
        let first = self.span(&pattern.s)?;
        let second = self.span(&pattern.p)?;
        let third = self.span(&pattern.o)?;
        let fourth = self.graph_span(&pattern.c)?;
        let low = Code {
            first: first.0,
            second: second.0,
            third: third.0,
            fourth: fourth.0,
        };
        let high = Code {
            first: first.1,
            second: second.1,
            third: third.1,
            fourth: fourth.1,
        };
        Some((low, high))
    }
}
