//! Which queries some text gives, told without memory.
ghost use Rattle.std.specs.Prelude.{◌≡◌, ◌↔◌, ◌&&◌, IsTrue, length, nat_le};
ghost use Rattle.std.specs.List.{list_all, list_any};
ghost use Rattle.std.specs.Str.{chars};
ghost use Rattle.query_model.specs.WellFormed.{AreProjected, ArePatterns, AreTemplate, IsCut, IsWellFormed, has_variable, is_label, is_label_start, is_var_char, is_var_name, is_variable, is_variable_graph};
ghost use Rattle.query_model.specs.WellFormedTests.{are_patterns, are_projected, are_template, is_any, is_blank, is_count, is_cut, is_fixed, is_fixed_iri, is_label_free, is_limit, is_name, is_no_colon, is_none, is_pattern, is_scope, is_slot, is_template_pattern, is_var_or_iri};

use crate::classes::{is_label_start, is_var_char};
use crate::{Cut, Names1, Patterns, Query, Scope, Slot, TriplePattern};
use rdf_term::{Term, Text};

/// LIMIT and OFFSET have at most 18 digits.
const COUNTS: u64 = 1_000_000_000_000_000_000;

/// Whether a variable's name may have all these characters behind its first.
fn are_var_chars(text: &str) -> bool
    ensures { result ≡ list_all is_var_char (chars text.now) }
{
    text.chars().all(|character| is_var_char(character))
}

fn is_var_name(text: &str) -> bool
    ensures { result ≡ is_var_name (chars text.now) }
{
    match text.chars().next() {
        None => false,
        Some(first) => is_label_start(first) && are_var_chars(text),
    }
}

/// Whether the text is a variable's name, without its mark.
fn is_name(name: &Text) -> bool
    ensures { result ≡ is_name name.now }
{
    is_var_name(name.as_str())
}

fn is_no_colon(character: char) -> bool
    ensures { result ≡ is_no_colon character }
{
    character != ':'
}

fn has_no_colon(text: &str) -> bool
    ensures { result ≡ list_all is_no_colon (chars text.now) }
{
    text.chars().all(|character| is_no_colon(character))
}

/// Whether the text is a blank node's label of a query: one of N-Triples without a colon.
fn is_label(text: &str) -> bool
    ensures { result ≡ is_label (chars text.now) }
{
    rdf_term::is_label(text) && has_no_colon(text)
}

/// Whether the text is a blank node's label in a query, without `_:`.
fn is_blank(label: &Text) -> bool
    ensures { result ≡ is_blank label.now }
{
    label.is_short() && is_label(label.as_str())
}

fn is_fixed(term: &Term) -> bool
    ensures { result ≡ is_fixed term.now }
{
    match term {
        Term::Blank(_) => false,
        Term::Iri(_) => term.is_valid(),
        Term::Plain(_) => term.is_valid(),
        Term::Tagged(_, _) => term.is_valid(),
        Term::Typed(_, _) => term.is_valid(),
    }
}

/// Whether the slot may be a subject or an object.
fn is_slot(slot: &Slot) -> bool
    ensures { result ≡ is_slot slot.now }
{
    match slot {
        Slot::Var(name) => is_name(name),
        Slot::Blank(label) => is_blank(label),
        Slot::Fixed(term) => is_fixed(term),
    }
}

fn is_fixed_iri(term: &Term) -> bool
    ensures { result ≡ is_fixed_iri term.now }
{
    match term {
        Term::Iri(_) => term.is_valid(),
        _ => false,
    }
}

/// Whether the slot may be a predicate or a graph's name.
fn is_var_or_iri(slot: &Slot) -> bool
    ensures { result ≡ is_var_or_iri slot.now }
{
    match slot {
        Slot::Var(name) => is_name(name),
        Slot::Blank(_) => false,
        Slot::Fixed(term) => is_fixed_iri(term),
    }
}

fn is_scope(scope: &Scope) -> bool
    ensures { result ≡ is_scope scope.now }
{
    match scope {
        Scope::Any => true,
        Scope::Graph(name) => is_var_or_iri(name),
    }
}

fn is_pattern(pattern: &TriplePattern) -> bool
    ensures { result ≡ is_pattern pattern.now }
{
    is_slot(&pattern.s)
        && (is_var_or_iri(&pattern.p) && (is_slot(&pattern.o) && is_scope(&pattern.g)))
}

fn is_label_free(slot: &Slot) -> bool
    ensures { result ≡ is_label_free slot.now }
{
    match slot {
        Slot::Var(_) => true,
        Slot::Blank(_) => false,
        Slot::Fixed(_) => true,
    }
}

fn is_any(scope: &Scope) -> bool
    ensures { result ≡ is_any scope.now }
{
    match scope {
        Scope::Any => true,
        Scope::Graph(_) => false,
    }
}

/// Whether the pattern may stand in a template: outside GRAPH and without a blank node.
fn is_template_pattern(pattern: &TriplePattern) -> bool
    ensures { result ≡ is_template_pattern pattern.now }
{
    is_pattern(pattern)
        && (is_label_free(&pattern.s) && (is_label_free(&pattern.o) && is_any(&pattern.g)))
}

fn are_few(patterns: &[TriplePattern]) -> bool
    ensures { result ≡ nat_le (length patterns.now) 256 }
{
    patterns.len() <= 256
}

fn each_is_pattern(patterns: &[TriplePattern]) -> bool
    ensures { result ≡ list_all is_pattern patterns.now }
{
    patterns.iter().all(|pattern| is_pattern(pattern))
}

/// Whether these are the patterns of a group, of which there are at most 256.
fn are_patterns(patterns: &[TriplePattern]) -> bool
    ensures { result ≡ are_patterns patterns.now }
{
    are_few(patterns) && each_is_pattern(patterns)
}

fn each_is_template_pattern(patterns: &[TriplePattern]) -> bool
    ensures { result ≡ list_all is_template_pattern patterns.now }
{
    patterns.iter().all(|pattern| is_template_pattern(pattern))
}

/// Whether these are the patterns of a template, of which there are at most 256.
fn are_template(patterns: &[TriplePattern]) -> bool
    ensures { result ≡ are_template patterns.now }
{
    are_few(patterns) && each_is_template_pattern(patterns)
}

fn is_count(number: u64) -> bool
    ensures { result ≡ is_count number }
{
    number < COUNTS
}

fn is_limit(limit: Option<u64>) -> bool
    ensures { result ≡ is_limit limit }
{
    match limit {
        None => true,
        Some(number) => is_count(number),
    }
}

fn is_cut(cut: &Cut) -> bool
    ensures { result ≡ is_cut cut.now }
{
    is_limit(cut.limit) && is_count(cut.offset)
}

fn is_variable(slot: &Slot) -> bool
    ensures { result ≡ is_variable slot.now }
{
    match slot {
        Slot::Var(_) => true,
        Slot::Blank(_) => false,
        Slot::Fixed(_) => false,
    }
}

fn is_variable_graph(scope: &Scope) -> bool
    ensures { result ≡ is_variable_graph scope.now }
{
    match scope {
        Scope::Any => false,
        Scope::Graph(name) => is_variable(name),
    }
}

fn has_variable(pattern: &TriplePattern) -> bool
    ensures { result ≡ has_variable pattern.now }
{
    is_variable_graph(&pattern.g)
        || (is_variable(&pattern.s) || (is_variable(&pattern.p) || is_variable(&pattern.o)))
}

fn each_is_name(names: &[Text]) -> bool
    ensures { result ≡ list_all is_name names.now }
{
    names.iter().all(|name| is_name(name))
}

fn is_none(names: &[Text]) -> bool
    ensures { result ≡ is_none names.now }
{
    match names {
        [] => true,
        [_, ..] => false,
    }
}

fn some_has_variable(patterns: &[TriplePattern]) -> bool
    ensures { result ≡ list_any has_variable patterns.now }
{
    patterns.iter().any(|pattern| has_variable(pattern))
}

/// Whether these variables may be projected: SELECT * alone projects none, where the group has none.
fn are_projected(vars: &[Text], group: &[TriplePattern]) -> bool
    ensures { result ≡ are_projected vars.now group.now }
{
    each_is_name(vars) && (!is_none(vars) || !some_has_variable(group))
}

fn select_passes(vars: &[Text], group: &[TriplePattern], cut: &Cut) -> bool
    ensures { result ≡ (are_projected vars.now group.now && (are_patterns group.now && is_cut cut.now)) }
{
    are_projected(vars, group) && (are_patterns(group) && is_cut(cut))
}

/// Whether these are the parts of a SELECT. That the variables are distinct, their type says.
fn is_select(vars: &Names1, group: &Patterns, cut: &Cut) -> bool
    ensures { IsTrue result ↔ (AreProjected vars.now group.now × ArePatterns group.now × IsCut cut.now) }
{
    select_passes(vars.as_slice(), group.as_slice(), cut)
}

fn is_group(group: &Patterns) -> bool
    ensures { IsTrue result ↔ ArePatterns group.now }
{
    are_patterns(group.as_slice())
}

fn construct_passes(template: &[TriplePattern], group: &[TriplePattern], cut: &Cut) -> bool
    ensures { result ≡ (are_template template.now && (are_patterns group.now && is_cut cut.now)) }
{
    are_template(template) && (are_patterns(group) && is_cut(cut))
}

/// Whether these are the parts of a CONSTRUCT.
fn is_construct(template: &Patterns, group: &Patterns, cut: &Cut) -> bool
    ensures { IsTrue result ↔ (AreTemplate template.now × ArePatterns group.now × IsCut cut.now) }
{
    construct_passes(template.as_slice(), group.as_slice(), cut)
}

/// Whether some text gives the query: its parts meet the grammar (SPARQL 1.1, section 19.8) and the
/// limits of this product. It takes no memory.
pub fn is_well_formed(query: &Query) -> bool
    ensures { IsTrue result ↔ IsWellFormed query.now }
{
    match query {
        Query::Select {
            vars,
            group,
            cut,
            ..
        } => is_select(vars, group, cut),
        Query::Ask { group } => is_group(group),
        Query::Construct {
            template,
            group,
            cut,
        } => is_construct(template, group, cut),
    }
}
