//! The tables of repositories, contexts and namespaces.
ghost use Rattle.std.specs.Prelude.{◌≡◌, ◌∷◌, ◌++◌, [], Contains, IfOk, IsTrue, codes, map};
ghost use Rattle.std.specs.List.{list_all};
ghost use Rattle.std.specs.Char.{is_ascii};
ghost use Rattle.api_replies.specs.Tables.{context_names, context_row, contexts_table, namespace_names, namespace_row, namespaces_table, repositories_table, repository_names, repository_row, true_term};

use journal::{Names, Terms};
use query_model::{Names1, Row, Rows, Table};
use rdf_term::{Duplicate, Memory, Term, Text};
use std::alloc::Global;

/// A text of ASCII characters.
fn constant(alloc: Global, text: &str) -> Result<Text, Memory>
    requires { IsTrue (list_all is_ascii text.now) }
    ensures { IfOk result (λ it. it ≡ text.now) }
{
    Text::from_chars(alloc, text)
}

/// Adds the name of a column, which is none of those that are there.
fn push_name(alloc: Global, name: &str, names: &mut Names1) -> Result<(), Memory>
    requires ascii { IsTrue (list_all is_ascii name.now) }
    requires fresh { Contains names.old name.now → ⊥ }
    ensures { IfOk result (λ _. names.new ≡ names.old ++ name.now ∷ []) }
{
    let name = constant(alloc, name)?;
    names.push(name)
}

fn repository_names(alloc: Global) -> Result<Names1, Memory>
    ensures { IfOk result (λ it. it ≡ repository_names) }
{
    let mut names = Names1::new(alloc);
    push_name(alloc, "uri", &mut names)?;
    push_name(alloc, "id", &mut names)?;
    push_name(alloc, "title", &mut names)?;
    push_name(alloc, "readable", &mut names)?;
    push_name(alloc, "writable", &mut names)?;
    Ok(names)
}

fn context_names(alloc: Global) -> Result<Names1, Memory>
    ensures { IfOk result (λ it. it ≡ context_names) }
{
    let mut names = Names1::new(alloc);
    push_name(alloc, "contextID", &mut names)?;
    Ok(names)
}

fn namespace_names(alloc: Global) -> Result<Names1, Memory>
    ensures { IfOk result (λ it. it ≡ namespace_names) }
{
    let mut names = Names1::new(alloc);
    push_name(alloc, "prefix", &mut names)?;
    push_name(alloc, "namespace", &mut names)?;
    Ok(names)
}

/// The literal true.
fn true_term(alloc: Global) -> Result<Term, Memory>
    ensures { IfOk result (λ it. it ≡ true_term) }
{
    let text = constant(alloc, "true")?;
    let datatype = constant(alloc, "http://www.w3.org/2001/XMLSchema#boolean")?;
    Ok(Term::Typed(text, datatype))
}

/// The IRI of a repository.
fn repository_iri(alloc: Global, id: &Text) -> Result<Text, Memory>
    ensures { IfOk result (λ it. it ≡ codes "urn:repository:" ++ id.now) }
{
    let mut iri = constant(alloc, "urn:repository:")?;
    iri.append(id.as_str())?;
    Ok(iri)
}

fn repository_row(alloc: Global, id: &Text) -> Result<Row, Memory>
    ensures { IfOk result (λ it. it ≡ repository_row id.now) }
{
    let mut row = Row::new(alloc);
    row.push(Some(Term::Iri(repository_iri(alloc, id)?)))?;
    row.push(Some(Term::Plain(id.copy(alloc)?)))?;
    row.push(Some(Term::Plain(id.copy(alloc)?)))?;
    row.push(Some(true_term(alloc)?))?;
    row.push(Some(true_term(alloc)?))?;
    Ok(row)
}

fn repository_rows(alloc: Global, ids: &[Text]) -> Result<Rows, Memory>
    ensures { IfOk result (λ it. it ≡ map repository_row ids.now) }
{
    let mut rows = Rows::new(alloc);
    for id in ids {
        rows.push(repository_row(alloc, id)?)?;
    }
    Ok(rows)
}

/// The repositories of these IDs.
pub fn repositories_table(alloc: Global, ids: &[Text]) -> Result<Table, Memory>
    ensures { IfOk result (λ it. it ≡ repositories_table ids.now) }
{
    let vars = repository_names(alloc)?;
    let rows = repository_rows(alloc, ids)?;
    Ok(Table { vars, rows })
}

fn context_row(alloc: Global, name: &Term) -> Result<Row, Memory>
    ensures { IfOk result (λ it. it ≡ context_row name.now) }
{
    let mut row = Row::new(alloc);
    row.push(Some(name.copy(alloc)?))?;
    Ok(row)
}

fn context_rows(alloc: Global, names: &[Term]) -> Result<Rows, Memory>
    ensures { IfOk result (λ it. it ≡ map context_row names.now) }
{
    let mut rows = Rows::new(alloc);
    for name in names {
        rows.push(context_row(alloc, name)?)?;
    }
    Ok(rows)
}

/// The names of graphs.
pub fn contexts_table(alloc: Global, names: &Terms) -> Result<Table, Memory>
    ensures { IfOk result (λ it. it ≡ contexts_table names.now) }
{
    let vars = context_names(alloc)?;
    let rows = context_rows(alloc, names.as_slice())?;
    Ok(Table { vars, rows })
}

fn namespace_row(alloc: Global, pair: &(Text, Text)) -> Result<Row, Memory>
    ensures { IfOk result (λ it. it ≡ namespace_row pair.now) }
{
    let mut row = Row::new(alloc);
    row.push(Some(Term::Plain(pair.0.copy(alloc)?)))?;
    row.push(Some(Term::Plain(pair.1.copy(alloc)?)))?;
    Ok(row)
}

fn namespace_rows(alloc: Global, pairs: &[(Text, Text)]) -> Result<Rows, Memory>
    ensures { IfOk result (λ it. it ≡ map namespace_row pairs.now) }
{
    let mut rows = Rows::new(alloc);
    for pair in pairs {
        rows.push(namespace_row(alloc, pair)?)?;
    }
    Ok(rows)
}

/// Prefixes with the names that they stand for.
pub fn namespaces_table(alloc: Global, pairs: &Names) -> Result<Table, Memory>
    ensures { IfOk result (λ it. it ≡ namespaces_table pairs.now) }
{
    let vars = namespace_names(alloc)?;
    let rows = namespace_rows(alloc, pairs.as_slice())?;
    Ok(Table { vars, rows })
}
