//! Contexts and prefixes by the tables that are written of them.
ghost use Rattle.std.specs.Prelude.{◌≡◌, ◌↔◌, ℕ, List, IfOk, IsTrue, MatchOption, map};
ghost use Rattle.std.specs.List.{list_all};
ghost use Rattle.std.specs.Char.{is_ascii};
ghost use Rattle.rdf_term.specs.declared.term.Term.{Term as SpecTerm};
ghost use Rattle.rdf_term.specs.declared.term.Term.TheVariants.{Plain as IsPlain};
ghost use Rattle.api_replies.specs.Tables.{context_names, context_row, contexts_table, namespace_names, namespace_row, namespaces_table};

use journal::{Names, Terms};
use query_model::{Names1, Row, Rows, Table};
use rdf_term::{Memory, Term, Text};
use std::alloc::Global;

/// Whether a column has this name.
fn is_named(name: &Text, wanted: &str) -> bool
    requires { IsTrue (list_all is_ascii wanted.now) }
    ensures { IsTrue result ↔ (name.now ≡ wanted.now) }
{
    name.as_str() == wanted
}

/// Whether a table has the columns of contexts.
fn has_context_names(names: &Names1) -> bool
    ensures { IsTrue result ↔ (names.now ≡ context_names) }
{
    match names.as_slice() {
        [name] => is_named(name, "contextID"),
        _ => false,
    }
}

/// Whether a table has the columns of namespaces.
fn has_namespace_names(names: &Names1) -> bool
    ensures { IsTrue result ↔ (names.now ≡ namespace_names) }
{
    match names.as_slice() {
        [prefix, name] => is_named(prefix, "prefix") & is_named(name, "namespace"),
        _ => false,
    }
}

/// The context of a row of one place, where that is bound.
fn context_of(row: Row) -> Option<Term>
    ensures { MatchOption result ((t : SpecTerm) → row ≡ context_row t → ⊥) (λ t. row ≡ context_row t) }
{
    let mut places = row.into_vec();
    let Some(Some(term)) = places.pop() else {
        return None;
    };
    if places.is_empty() { Some(term) } else { None }
}

/// The text of a place that a plain literal binds.
fn plain_of(place: Option<Term>) -> Option<Text>
    ensures { MatchOption result ((text : List ℕ) → place ≡ Some (IsPlain text) → ⊥) (λ text. place ≡ Some (IsPlain text)) }
{
    match place {
        None => None,
        Some(term) => match term.into_plain() {
            Ok(text) => Some(text),
            Err(_) => None,
        },
    }
}

/// The prefix and its name of a row of two places, where plain literals bind both.
fn pair_of(row: Row) -> Option<(Text, Text)>
    ensures { MatchOption result ((pair : List ℕ × List ℕ) → row ≡ namespace_row pair → ⊥) (λ pair. row ≡ namespace_row pair) }
{
    let mut places = row.into_vec();
    let (Some(second), Some(first)) = (places.pop(), places.pop()) else {
        return None;
    };
    let (Some(prefix), Some(name)) = (plain_of(first), plain_of(second)) else {
        return None;
    };
    if places.is_empty() {
        Some((prefix, name))
    } else {
        None
    }
}

/// The contexts of rows.
fn contexts_in(alloc: Global, rows: Rows) -> Result<Option<Terms>, Memory>
    ensures { IfOk result (λ it. MatchOption it ((names : List SpecTerm) → rows ≡ map context_row names → ⊥) (λ names. rows ≡ map context_row names)) }
{
    let mut names = Terms::new(alloc);
    for row in rows.into_vec() {
        match context_of(row) {
            None => return Ok(None),
            Some(name) => names.push(name)?,
        }
    }
    Ok(Some(names))
}

/// The prefixes of rows, with their names.
fn pairs_in(alloc: Global, rows: Rows) -> Result<Option<Names>, Memory>
    ensures { IfOk result (λ it. MatchOption it ((pairs : List (List ℕ × List ℕ)) → rows ≡ map namespace_row pairs → ⊥) (λ pairs. rows ≡ map namespace_row pairs)) }
{
    let mut pairs = Names::new(alloc);
    for row in rows.into_vec() {
        match pair_of(row) {
            None => return Ok(None),
            Some(pair) => pairs.push(pair)?,
        }
    }
    Ok(Some(pairs))
}

/// The contexts whose table this is.
pub fn contexts_of(alloc: Global, table: Table) -> Result<Option<Terms>, Memory>
    ensures { IfOk result (λ it. MatchOption it ((names : List SpecTerm) → table ≡ contexts_table names → ⊥) (λ names. table ≡ contexts_table names)) }
{
    let Table { vars, rows } = table;
    if !has_context_names(&vars) {
        return Ok(None);
    }
    contexts_in(alloc, rows)
}

/// The prefixes, with their names, whose table this is.
pub fn pairs_of(alloc: Global, table: Table) -> Result<Option<Names>, Memory>
    ensures { IfOk result (λ it. MatchOption it ((pairs : List (List ℕ × List ℕ)) → table ≡ namespaces_table pairs → ⊥) (λ pairs. table ≡ namespaces_table pairs)) }
{
    let Table { vars, rows } = table;
    if !has_namespace_names(&vars) {
        return Ok(None);
    }
    pairs_in(alloc, rows)
}
