ghost use Rattle.std.specs.Prelude.{◌≡◌, ◌∷◌, ◌++◌, [], OnOk, map, codes};
ghost use Rattle.std.specs.Option.{option_copied};
ghost use Rattle.json.specs.Token.{key, string};
ghost use Rattle.serde_json.specs.Data.{no_members, member, array, object};
ghost use Rattle.serde_json.specs.View.{items_of};
ghost use Rattle.results_json.specs.Tables.{term_members, term_value, typed_members, text_value};
ghost use Rattle.results_json.specs.Columns.{data_tokens, open_tokens, list_tokens, bound, bound_cell, named};

use crate::columns::Columns;
use json::Writer;
use query_model::Row;
use rdf_term::{Term, Text};
use std::alloc::AllocError;

/// Writes a member that is a string.
fn put_text(out: &mut Writer, name: &str, text: &str) -> Result<(), AllocError>
    ensures before { out.new.before ≡ out.old.before }
    ensures tokens { OnOk result (out.new.tokens ≡ out.old.tokens ++ key name.now ∷ string text.now ∷ []) }
{
    out.key(name)?;
    out.string(text)
}

/// Writes the members that each term has.
fn put_type(out: &mut Writer, words: &str, text: &Text) -> Result<(), AllocError>
    ensures before { out.new.before ≡ out.old.before }
    ensures tokens { OnOk result (out.new.tokens ≡ out.old.tokens ++ open_tokens (typed_members words.now text.now no_members)) }
{
    put_text(out, "type", words)?;
    put_text(out, "value", text.as_str())
}

/// Writes a term's members in the order of their keys' bytes.
fn put_members(out: &mut Writer, term: &Term) -> Result<(), AllocError>
    ensures before { out.new.before ≡ out.old.before }
    ensures tokens { OnOk result (out.new.tokens ≡ out.old.tokens ++ open_tokens (term_members term.now)) }
{
    match term {
        Term::Iri(iri) => put_type(out, "uri", iri),
        Term::Blank(label) => put_type(out, "bnode", label),
        Term::Plain(text) => put_type(out, "literal", text),
        Term::Tagged(text, tag) => {
            put_type(out, "literal", text)?;
            put_text(out, "xml:lang", tag.as_str())
        }
        Term::Typed(text, datatype) => {
            put_text(out, "datatype", datatype.as_str())?;
            put_type(out, "literal", text)
        }
    }
}

fn put_term(out: &mut Writer, term: &Term) -> Result<(), AllocError>
    ensures before { out.new.before ≡ out.old.before }
    ensures tokens { OnOk result (out.new.tokens ≡ out.old.tokens ++ data_tokens (term_value term.now)) }
{
    out.begin_object()?;
    put_members(out, term)?;
    out.end_object()
}

/// Writes a column's name and term, where it is bound.
fn put_cell(out: &mut Writer, name: &str, cell: Option<&Option<Term>>) -> Result<(), AllocError>
    ensures before { out.new.before ≡ out.old.before }
    ensures tokens { OnOk result (out.new.tokens ≡ out.old.tokens ++ open_tokens (bound_cell name.now (option_copied cell.entry) no_members)) }
{
    if let Some(Some(term)) = cell {
        out.key(name)?;
        put_term(out, term)?;
    }
    Ok(())
}

fn put_cells(out: &mut Writer, columns: &Columns<'_>, row: &Row) -> Result<(), AllocError>
    ensures before { out.new.before ≡ out.old.before }
    ensures tokens { OnOk result (out.new.tokens ≡ out.old.tokens ++ open_tokens (bound (named columns.now.entries) row.now)) }
{
    for (name, place) in columns.iter() {
        put_cell(out, *name, row.at(*place))?;
    }
    Ok(())
}

fn put_row(out: &mut Writer, columns: &Columns<'_>, row: &Row) -> Result<(), AllocError>
    ensures before { out.new.before ≡ out.old.before }
    ensures tokens { OnOk result (out.new.tokens ≡ out.old.tokens ++ data_tokens (object (bound (named columns.now.entries) row.now))) }
{
    out.begin_object()?;
    put_cells(out, columns, row)?;
    out.end_object()
}

fn put_rows(out: &mut Writer, columns: &Columns<'_>, rows: &[Row]) -> Result<(), AllocError>
    ensures before { out.new.before ≡ out.old.before }
    ensures tokens { OnOk result (out.new.tokens ≡ out.old.tokens
        ++ list_tokens (map (λ row. object (bound (named columns.now.entries) row)) rows.now)) }
{
    for row in rows {
        put_row(out, columns, row)?;
    }
    Ok(())
}

fn put_names(out: &mut Writer, names: &[Text]) -> Result<(), AllocError>
    ensures before { out.new.before ≡ out.old.before }
    ensures tokens { OnOk result (out.new.tokens ≡ out.old.tokens ++ list_tokens (map text_value names.now)) }
{
    for name in names {
        out.string(name.as_str())?;
    }
    Ok(())
}

/// Writes the member `head` of a table.
pub fn put_head(out: &mut Writer, names: &[Text]) -> Result<(), AllocError>
    ensures before { out.new.before ≡ out.old.before }
    ensures tokens { OnOk result (out.new.tokens ≡ out.old.tokens
        ++ open_tokens (member (codes "head") (object (member (codes "vars") (array (items_of (map text_value names.now))) no_members)) no_members)) }
{
    out.key("head")?;
    out.begin_object()?;
    out.key("vars")?;
    out.begin_array()?;
    put_names(out, names)?;
    out.end_array()?;
    out.end_object()
}

/// Writes the member `results` of a table.
pub fn put_results(out: &mut Writer, columns: &Columns<'_>, rows: &[Row]) -> Result<(), AllocError>
    ensures before { out.new.before ≡ out.old.before }
    ensures tokens { OnOk result (out.new.tokens ≡ out.old.tokens
        ++ open_tokens (member (codes "results") (object (member (codes "bindings")
        (array (items_of (map (λ row. object (bound (named columns.now.entries) row)) rows.now))) no_members)) no_members)) }
{
    out.key("results")?;
    out.begin_object()?;
    out.key("bindings")?;
    out.begin_array()?;
    put_rows(out, columns, rows)?;
    out.end_array()?;
    out.end_object()
}
