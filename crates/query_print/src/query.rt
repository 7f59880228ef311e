ghost use Rattle.std.specs.Prelude.{◌≡◌, ◌++◌, ◌∷◌, [], IfOk, OnOk, codes, encode_utf8_all, map};
ghost use Rattle.std.specs.List.{flat_map};
ghost use Rattle.query_print.specs.Printed.{slot_text, var_text, triple_words, pattern_words, group_words, projection_words, distinct_words, limit_words, offset_words, cut_words, spaced, printed};
ghost use Rattle.query_print.specs.Laws.{IsReadAgain};

use crate::laws::{parsed_queries_are_well_formed, printed_queries_are_read_again};
use crate::term::put_term;
use crate::word::{put_number, put_text, put_word};
use query_model::{Cut, Query, Scope, Slot, TriplePattern};
use rdf_term::{Memory, Text};
use std::alloc::Global;

/// Appends a variable, with a space before it.
fn put_var(name: &Text, out: &mut Text) -> Result<(), Memory>
    ensures { OnOk result (out.new ≡ out.old ++ spaced (var_text name.now ∷ [])) }
{
    put_word("?", out)?;
    put_text(name, out)
}

/// Appends a slot, with a space before it.
fn put_slot(slot: &Slot, out: &mut Text) -> Result<(), Memory>
    ensures { OnOk result (out.new ≡ out.old ++ spaced (slot_text slot.now ∷ [])) }
{
    match slot {
        Slot::Var(name) => put_var(name, out),
        Slot::Blank(label) => {
            put_word("_:", out)?;
            put_text(label, out)
        }
        Slot::Fixed(term) => {
            out.push(' ')?;
            put_term(term, out)
        }
    }
}

/// Appends the slots of a pattern and its dot.
fn put_triple(pattern: &TriplePattern, out: &mut Text) -> Result<(), Memory>
    ensures { OnOk result (out.new ≡ out.old ++ spaced (triple_words pattern.now)) }
{
    put_slot(&pattern.s, out)?;
    put_slot(&pattern.p, out)?;
    put_slot(&pattern.o, out)?;
    put_word(".", out)
}

/// Appends a pattern, which has a GRAPH block of its own where it stands in a graph.
fn put_pattern(pattern: &TriplePattern, out: &mut Text) -> Result<(), Memory>
    ensures { OnOk result (out.new ≡ out.old ++ spaced (pattern_words pattern.now)) }
{
    match &pattern.g {
        Scope::Any => put_triple(pattern, out),
        Scope::Graph(name) => {
            put_word("GRAPH", out)?;
            put_slot(name, out)?;
            put_word("{", out)?;
            put_triple(pattern, out)?;
            put_word("}", out)
        }
    }
}

fn put_patterns(patterns: &[TriplePattern], out: &mut Text) -> Result<(), Memory>
    ensures { OnOk result (out.new ≡ out.old ++ spaced (flat_map pattern_words patterns.now)) }
{
    for pattern in patterns {
        put_pattern(pattern, out)?;
    }
    Ok(())
}

/// Appends a group or a template.
fn put_group(patterns: &[TriplePattern], out: &mut Text) -> Result<(), Memory>
    ensures { OnOk result (out.new ≡ out.old ++ spaced (group_words patterns.now)) }
{
    put_word("{", out)?;
    put_patterns(patterns, out)?;
    put_word("}", out)
}

fn put_vars(vars: &[Text], out: &mut Text) -> Result<(), Memory>
    ensures { OnOk result (out.new ≡ out.old ++ spaced (map var_text vars.now)) }
{
    for name in vars {
        put_var(name, out)?;
    }
    Ok(())
}

/// Appends the projected variables, or `*`.
#[tactic(auto, using(crate::proofs::WordLemmas::star_mark))]
fn put_projection(vars: &[Text], out: &mut Text) -> Result<(), Memory>
    ensures { OnOk result (out.new ≡ out.old ++ spaced (projection_words vars.now)) }
{
    if vars.is_empty() {
        put_word("*", out)
    } else {
        put_vars(vars, out)
    }
}

#[tactic(auto, using(crate::proofs::WordLemmas::distinct_word))]
fn put_distinct(distinct: bool, out: &mut Text) -> Result<(), Memory>
    ensures { OnOk result (out.new ≡ out.old ++ spaced (distinct_words distinct)) }
{
    if distinct {
        put_word("DISTINCT", out)
    } else {
        Ok(())
    }
}

fn put_limit(alloc: Global, limit: Option<u64>, out: &mut Text) -> Result<(), Memory>
    ensures { OnOk result (out.new ≡ out.old ++ spaced (limit_words limit)) }
{
    match limit {
        None => Ok(()),
        Some(number) => {
            put_word("LIMIT", out)?;
            put_number(alloc, number, out)
        }
    }
}

fn put_offset(alloc: Global, offset: u64, out: &mut Text) -> Result<(), Memory>
    ensures { OnOk result (out.new ≡ out.old ++ spaced (offset_words offset)) }
{
    if offset == 0 {
        return Ok(());
    }
    put_word("OFFSET", out)?;
    put_number(alloc, offset, out)
}

/// Appends LIMIT and OFFSET, as far as they stand.
fn put_cut(alloc: Global, cut: &Cut, out: &mut Text) -> Result<(), Memory>
    ensures { OnOk result (out.new ≡ out.old ++ spaced (cut_words cut.now)) }
{
    put_limit(alloc, cut.limit, out)?;
    put_offset(alloc, cut.offset, out)
}

/// Appends WHERE and its group.
fn put_where(patterns: &[TriplePattern], out: &mut Text) -> Result<(), Memory>
    ensures { OnOk result (out.new ≡ out.old ++ spaced (codes "WHERE" ∷ group_words patterns.now)) }
{
    put_word("WHERE", out)?;
    put_group(patterns, out)
}

fn put_query(alloc: Global, query: &Query, out: &mut Text) -> Result<(), Memory>
    ensures { OnOk result (out.new ≡ out.old ++ printed query.now) }
{
    match query {
        Query::Select {
            distinct,
            vars,
            group,
            cut,
        } => {
            out.append("SELECT")?;
            put_distinct(*distinct, out)?;
            put_projection(vars.as_slice(), out)?;
            put_where(group.as_slice(), out)?;
            put_cut(alloc, cut, out)
        }
        Query::Ask { group } => {
            out.append("ASK")?;
            put_where(group.as_slice(), out)
        }
        Query::Construct {
            template,
            group,
            cut,
        } => {
            out.append("CONSTRUCT")?;
            put_group(template.as_slice(), out)?;
            put_where(group.as_slice(), out)?;
            put_cut(alloc, cut, out)
        }
    }
}

/// The text of a query (SPARQL 1.1, section 19.8): its tokens with one space between them. Each term
/// stands as its canonical text (RDF 1.1 N-Triples, section 4), and each pattern of a graph in a
/// GRAPH block of its own. The text grows in one buffer, in time linear in its length.
///
/// A query that some text in UTF-8 gives is read again from what is printed of it.
pub fn print_query(alloc: Global, query: &Query) -> Result<Text, Memory>
    ensures text { IfOk result (λ text. text ≡ printed query.now) }
    ensures again { IfOk result (λ text. IsReadAgain (encode_utf8_all text) query.now) }
{
    parsed_queries_are_well_formed();
    printed_queries_are_read_again();
    let mut text = Text::new(alloc);
    put_query(alloc, query, &mut text)?;
    Ok(text)
}
