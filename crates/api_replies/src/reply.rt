//! Responses to calls, by their replies.
ghost use Rattle.std.specs.Prelude.{◌≡◌, ◌++◌, IfOk, OnOk, decimal, encode_utf8_all};
ghost use Rattle.rdf_term.specs.Canonical.{canonical_line};
ghost use Rattle.nquads.specs.Written.{document_text};
ghost use Rattle.nquads_line.specs.declared.kind.Kind.TheVariants.{Quads as AsQuads};
ghost use Rattle.results_json.specs.Tables.{table_text};
ghost use Rattle.api_replies.specs.Fits.{Fits};
ghost use Rattle.api_paths.specs.TransactionNames.{name_of};
ghost use Rattle.api_replies.specs.Ids.{path_of};
ghost use Rattle.api_replies.specs.Parts.{created, done, in_form, kind_of, refused, truth_body};
ghost use Rattle.api_replies.specs.Responses.{reply_response, response};
ghost use Rattle.api_replies.specs.Tables.{contexts_table, namespaces_table, repositories_table};
ghost use Rattle.journal.specs.Journal.{is_commit};

use crate::parts::{bare, body_of, numbered, octets, refused, with_body};
use crate::tables::{contexts_table, namespaces_table, repositories_table};
use api_calls::Call;
use http_frame::{Fields, Response};
use journal::{Op, Reply, Txn};
use media::Form;
use nquads::{Kind, write_quads};
use query_model::Table;
use rdf_term::{Bytes, Duplicate, Memory, Quad, Quads, Text};
use results_json::{write_rows, write_truth};
use std::alloc::Global;

/// Appends the name of a transaction.
fn append_name(txn: Txn, path: &mut Bytes) -> Result<(), Memory>
    ensures { OnOk result (path.new.items ≡ path.old.items ++ name_of txn) }
{
    path.append_decimal(txn.place)?;
    path.append(b"-")?;
    path.append_decimal(u64::from(txn.level.number()))
}

/// The path of a transaction of a repository.
fn path_of(alloc: Global, repo: &Text, txn: Txn) -> Result<Bytes, Memory>
    ensures { IfOk result (λ it. it.items ≡ path_of repo.now txn) }
{
    let mut path = body_of(alloc, b"/rdf4j-server/repositories/")?;
    path.append(repo.as_str().as_bytes())?;
    path.append(b"/transactions/")?;
    append_name(txn, &mut path)?;
    Ok(path)
}

/// A transaction was begun.
fn created(alloc: Global, repo: &Text, txn: Txn) -> Result<Response, Memory>
    ensures { IfOk result (λ it. it ≡ created repo.now txn) }
{
    let path = path_of(alloc, repo, txn)?;
    let mut fields = Fields::new(alloc);
    fields.push((octets(alloc, b"Location")?, octets(alloc, path.as_slice())?))?;
    Ok(Response {
        status: 201,
        fields,
        body: Bytes::new(alloc),
    })
}

/// What was asked for is done.
fn done(alloc: Global, op: &Op) -> Response
    ensures { result ≡ done (is_commit op.now) }
{
    match op {
        Op::Commit(_) => bare(alloc, 200),
        Op::Begin(_)
        | Op::Read { .. }
        | Op::Step { .. }
        | Op::Write { .. }
        | Op::Rollback(_)
        | Op::Ping(_)
        | Op::Names(_) => bare(alloc, 204),
    }
}

fn table(alloc: Global, form: Form, table: &Table) -> Result<Response, Memory>
    ensures { IfOk result (λ it. it ≡ in_form form (table_text table.now)) }
{
    with_body(alloc, 200, form, write_rows(alloc, table)?)
}

/// A truth value in this form.
fn truth_body(alloc: Global, form: Form, truth: bool) -> Result<Bytes, Memory>
    ensures { IfOk result (λ it. it.items ≡ truth_body form truth) }
{
    match form {
        Form::Boolean => {
            if truth {
                body_of(alloc, b"true")
            } else {
                body_of(alloc, b"false")
            }
        }
        Form::NQuads
        | Form::XNQuads
        | Form::NTriples
        | Form::PlainTriples
        | Form::ResultsJson
        | Form::Json
        | Form::PlainText => write_truth(alloc, truth),
    }
}

fn truth(alloc: Global, form: Form, truth: bool) -> Result<Response, Memory>
    ensures { IfOk result (λ it. it ≡ in_form form (truth_body form truth)) }
{
    with_body(alloc, 200, form, truth_body(alloc, form, truth)?)
}

/// Whether a body of quads in this form names the graphs.
pub fn kind_of(form: Form) -> Kind
    ensures { result ≡ kind_of form }
{
    match form {
        Form::NTriples | Form::PlainTriples => Kind::Triples,
        Form::NQuads
        | Form::XNQuads
        | Form::ResultsJson
        | Form::Json
        | Form::Boolean
        | Form::PlainText => Kind::Quads,
    }
}

fn quads(alloc: Global, form: Form, quads: &Quads) -> Result<Response, Memory>
    ensures { IfOk result (λ it. it ≡ in_form form (encode_utf8_all (document_text (kind_of form) quads.now))) }
{
    let mut body = Bytes::new(alloc);
    write_quads(quads, kind_of(form), &mut body)?;
    with_body(alloc, 200, form, body)
}

fn count(alloc: Global, count: u64) -> Result<Response, Memory>
    ensures { IfOk result (λ it. it ≡ in_form Form.PlainText (decimal count)) }
{
    with_body(alloc, 200, Form::PlainText, numbered(alloc, b"", count)?)
}

fn text(alloc: Global, text: &Text) -> Result<Response, Memory>
    ensures { IfOk result (λ it. it ≡ in_form Form.PlainText (encode_utf8_all text.now)) }
{
    let body = body_of(alloc, text.as_str().as_bytes())?;
    with_body(alloc, 200, Form::PlainText, body)
}

/// A commit clashes with a change of this quad.
fn conflict(alloc: Global, quad: &Quad) -> Result<Response, Memory>
    ensures { IfOk result (λ it. it ≡ refused 409 (encode_utf8_all (canonical_line quad.now))) }
{
    let mut quads = Quads::new(alloc);
    quads.push(quad.copy(alloc)?)?;
    let mut line = Bytes::new(alloc);
    write_quads(&quads, Kind::Quads, &mut line)?;
    with_body(alloc, 409, Form::PlainText, line)
}

/// The response to an op on a repository.
fn reply_response(
    alloc: Global,
    repo: &Text,
    op: &Op,
    form: Form,
    reply: &Reply,
) -> Result<Response, Memory>
    ensures { IfOk result (λ it. it ≡ reply_response repo.now op.now form reply.now) }
{
    match reply {
        Reply::Begun(txn) => created(alloc, repo, *txn),
        Reply::Done => Ok(done(alloc, op)),
        Reply::Table(rows) => table(alloc, form, rows),
        Reply::Truth(value) => truth(alloc, form, *value),
        Reply::Quads(found) => quads(alloc, form, found),
        Reply::Count(number) => count(alloc, *number),
        Reply::Contexts(names) => table(alloc, form, &contexts_table(alloc, names)?),
        Reply::Prefixes(pairs) => table(alloc, form, &namespaces_table(alloc, pairs)?),
        Reply::Prefix(name) => text(alloc, name),
        Reply::NoPrefix => refused(alloc, 404, b"no such prefix"),
        Reply::NoTransaction => refused(alloc, 404, b"no such transaction"),
        Reply::TooManyOpen => refused(alloc, 429, b"too many transactions"),
        Reply::Conflict(_, quad) => conflict(alloc, quad),
        Reply::TooLarge => refused(alloc, 507, b"repository full"),
        Reply::TooManyRows => refused(alloc, 507, b"too many rows"),
    }
}

/// The response to a call, by its reply. `repos` are the IDs of the repositories that are served.
#[tactic(auto, unfolding(crate::specs::Responses::response))]
pub fn write_reply(
    alloc: Global,
    call: &Call,
    repos: &[Text],
    reply: &Reply,
) -> Result<Response, Memory>
    requires { Fits call.now reply.now }
    ensures { IfOk result (λ it. it ≡ response call.now repos.now reply.now) }
{
    match call {
        Call::Protocol => with_body(alloc, 200, Form::PlainText, body_of(alloc, b"12")?),
        Call::Repositories(form) => table(alloc, *form, &repositories_table(alloc, repos)?),
        Call::On { repo, op, form } => reply_response(alloc, repo, op, *form, reply),
    }
}
