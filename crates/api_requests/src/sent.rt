//! What the request of each call is written of.
ghost use Rattle.std.specs.Prelude.{◌≡◌, ◌∷◌, [], IfOk, string_bytes, encode_utf8_all, length};
ghost use Rattle.media.specs.Forms.{content_type_of};
ghost use Rattle.media.specs.declared.form.Form.TheVariants.{PlainText};
ghost use Rattle.journal.specs.declared.op.Op.TheVariants as ops;
ghost use Rattle.api_requests.specs.Requests.{acted, context_pairs, document_content, listed, selection_pairs, written, sent, sent_alone, sent_names, sent_op, sent_query, sent_read, sent_removal, sent_size, sent_write};
ghost use Rattle.api_requests.specs.Changes.{every, graphs_in, quads_in};
ghost use Rattle.change_set.specs.declared.change.Change.TheVariants.{RemoveMatching};

use crate::documents::{document_content, every, quads_in, query_content, write_word};
use crate::pairs::{
    action_pairs, context_pairs, level_text, pair, put_parts, put_picks, selection_pairs,
};
use crate::sending::{Content, Sending, Verb, octets};
use crate::target::{namespace_path, part_path, repository_path, server_path, transaction_path};
use api_calls::Call;
use api_parts::Parameters;
use change_set::Change;
use journal::{Ask, Graphs, Level, NamesOp, Op, Txn};
use media::Form;
use query_text::Query;
use rdf_term::{Bytes, Memory, Pattern, Quads, Text};
use std::alloc::Global;

/// A request without a body.
fn bodiless(verb: Verb, path: String, pairs: Parameters, accept: Option<Form>) -> Sending
    ensures { result ≡ record { verb = verb; path = string_bytes path; pairs = pairs; accept = accept; content = None } }
{
    Sending {
        verb,
        path,
        pairs,
        accept,
        content: None,
    }
}

/// An action: PUT on the transaction.
fn acted(
    alloc: Global,
    repo: &Text,
    txn: Txn,
    word: &[u8],
    pairs: Parameters,
    accept: Option<Form>,
    content: Option<Content>,
) -> Result<Sending, Memory>
    ensures { IfOk result (λ it. it ≡ acted repo.now txn word.now pairs accept content) }
{
    let path = transaction_path(alloc, repo, txn)?;
    let pairs = action_pairs(alloc, word, pairs)?;
    Ok(Sending {
        verb: Verb::Put,
        path,
        pairs,
        accept,
        content,
    })
}

/// A write of statements outside transactions.
fn written(
    alloc: Global,
    repo: &Text,
    verb: Verb,
    pairs: Parameters,
    content: Option<Content>,
) -> Result<Sending, Memory>
    ensures { IfOk result (λ it. it ≡ written repo.now verb pairs content) }
{
    let path = part_path(alloc, repo, b"statements")?;
    Ok(Sending {
        verb,
        path,
        pairs,
        accept: None,
        content,
    })
}

fn sent_query(
    alloc: Global,
    repo: &Text,
    txn: Option<Txn>,
    query: &Query,
    form: Form,
) -> Result<Sending, Memory>
    ensures { IfOk result (λ it. it ≡ sent_query repo.now txn query.now form) }
{
    let content = Some(query_content(alloc, query)?);
    let pairs = Parameters::new(alloc);
    match txn {
        None => Ok(Sending {
            verb: Verb::Post,
            path: repository_path(alloc, repo)?,
            pairs,
            accept: Some(form),
            content,
        }),
        Some(txn) => acted(alloc, repo, txn, b"QUERY", pairs, Some(form), content),
    }
}

fn sent_list(
    alloc: Global,
    repo: &Text,
    txn: Option<Txn>,
    pairs: Parameters,
    form: Form,
) -> Result<Sending, Memory>
    ensures { IfOk result (λ it. it ≡ listed repo.now txn pairs form) }
{
    match txn {
        None => {
            let path = part_path(alloc, repo, b"statements")?;
            Ok(bodiless(Verb::Get, path, pairs, Some(form)))
        }
        Some(txn) => acted(alloc, repo, txn, b"GET", pairs, Some(form), None),
    }
}

fn sent_size(
    alloc: Global,
    repo: &Text,
    txn: Option<Txn>,
    contexts: &Graphs,
) -> Result<Sending, Memory>
    ensures { IfOk result (λ it. it ≡ sent_size repo.now txn contexts.now) }
{
    let pairs = context_pairs(alloc, contexts.as_slice())?;
    match txn {
        None => {
            let path = part_path(alloc, repo, b"size")?;
            Ok(bodiless(Verb::Get, path, pairs, None))
        }
        Some(txn) => acted(alloc, repo, txn, b"SIZE", pairs, None, None),
    }
}

fn sent_read(
    alloc: Global,
    repo: &Text,
    txn: Option<Txn>,
    ask: &Ask,
    form: Form,
) -> Result<Sending, Memory>
    ensures { IfOk result (λ it. it ≡ sent_read repo.now txn ask.now form) }
{
    match ask {
        Ask::Query(query) => sent_query(alloc, repo, txn, query, form),
        Ask::List { s, p, o, contexts } => {
            let pairs = selection_pairs(alloc, s, p, o, contexts.as_slice())?;
            sent_list(alloc, repo, txn, pairs, form)
        }
        Ask::Size { contexts } => sent_size(alloc, repo, txn, contexts),
        Ask::Contexts => {
            let path = part_path(alloc, repo, b"contexts")?;
            Ok(bodiless(Verb::Get, path, Parameters::new(alloc), Some(form)))
        }
    }
}

/// The addition of a document.
fn sent_addition(alloc: Global, repo: &Text, changes: &[Change]) -> Result<Sending, Memory>
    ensures { IfOk result (λ it. it ≡ written repo.now Verb.Post [] (document_content (quads_in changes.now))) }
{
    let quads = quads_in(alloc, changes)?;
    let content = document_content(alloc, &quads)?;
    written(
        alloc,
        repo,
        Verb::Post,
        Parameters::new(alloc),
        Some(content),
    )
}

/// The removal of what the patterns of changes select.
fn sent_deletion(
    alloc: Global,
    repo: &Text,
    changes: &[Change],
    pattern: &Pattern,
) -> Result<Sending, Memory>
    ensures { IfOk result (λ it. it ≡ written repo.now Verb.Delete (selection_pairs (record { s = pattern.now.s; p = pattern.now.p; o = pattern.now.o; contexts = graphs_in changes.now })) None) }
{
    let mut pairs = Parameters::new(alloc);
    put_parts(alloc, &pattern.s, &pattern.p, &pattern.o, &mut pairs)?;
    put_picks(alloc, changes, &mut pairs)?;
    written(alloc, repo, Verb::Delete, pairs, None)
}

/// The replacement of what the patterns of changes pick by statements of a document.
fn sent_replacement(
    alloc: Global,
    repo: &Text,
    changes: &[Change],
    quads: &Quads,
) -> Result<Sending, Memory>
    ensures { IfOk result (λ it. it ≡ written repo.now Verb.Put (context_pairs (graphs_in changes.now)) (document_content (every (length (graphs_in changes.now)) 0 quads.now))) }
{
    let mut pairs = Parameters::new(alloc);
    put_picks(alloc, changes, &mut pairs)?;
    let quads = every(alloc, pairs.len(), quads)?;
    let content = document_content(alloc, &quads)?;
    written(alloc, repo, Verb::Put, pairs, Some(content))
}

/// What removes first, and then adds.
fn sent_removal(
    alloc: Global,
    repo: &Text,
    changes: &[Change],
    pattern: &Pattern,
    rest: &[Change],
) -> Result<Sending, Memory>
    requires { changes.now ≡ RemoveMatching pattern.now ∷ rest.now }
    ensures { IfOk result (λ it. it ≡ sent_removal repo.now changes.now (quads_in rest.now)) }
{
    let quads = quads_in(alloc, rest)?;
    if quads.as_slice().is_empty() {
        return sent_deletion(alloc, repo, changes, pattern);
    }
    sent_replacement(alloc, repo, changes, &quads)
}

/// A write outside transactions.
fn sent_alone(alloc: Global, repo: &Text, changes: &[Change]) -> Result<Sending, Memory>
    ensures { IfOk result (λ it. it ≡ sent_alone repo.now changes.now) }
{
    let Some((first, rest)) = changes.split_first() else {
        return sent_addition(alloc, repo, changes);
    };
    match first {
        Change::RemoveMatching(pattern) => sent_removal(alloc, repo, changes, pattern, rest),
        Change::Add(_) => sent_addition(alloc, repo, changes),
        Change::Remove(_) => sent_addition(alloc, repo, changes),
    }
}

fn sent_write(
    alloc: Global,
    repo: &Text,
    txn: Option<Txn>,
    changes: &[Change],
) -> Result<Sending, Memory>
    ensures { IfOk result (λ it. it ≡ sent_write repo.now txn changes.now) }
{
    match txn {
        None => sent_alone(alloc, repo, changes),
        Some(txn) => {
            let quads = quads_in(alloc, changes)?;
            let content = document_content(alloc, &quads)?;
            let word = write_word(changes);
            acted(
                alloc,
                repo,
                txn,
                word,
                Parameters::new(alloc),
                None,
                Some(content),
            )
        }
    }
}

/// A namespace as a body of plain text.
fn name_content(alloc: Global, name: &Text) -> Result<Content, Memory>
    ensures { IfOk result (λ it. it ≡ (content_type_of PlainText, encode_utf8_all name.now)) }
{
    let mut body = Bytes::new(alloc);
    body.append(name.as_str().as_bytes())?;
    Ok(Content {
        media_type: octets(alloc, Form::PlainText.content_type().as_bytes())?,
        body,
    })
}

fn sent_names(alloc: Global, repo: &Text, op: &NamesOp, form: Form) -> Result<Sending, Memory>
    ensures { IfOk result (λ it. it ≡ sent_names repo.now op.now form) }
{
    let pairs = Parameters::new(alloc);
    match op {
        NamesOp::List => {
            let path = part_path(alloc, repo, b"namespaces")?;
            Ok(bodiless(Verb::Get, path, pairs, Some(form)))
        }
        NamesOp::Clear => {
            let path = part_path(alloc, repo, b"namespaces")?;
            Ok(bodiless(Verb::Delete, path, pairs, None))
        }
        NamesOp::Get(prefix) => {
            let path = namespace_path(alloc, repo, prefix)?;
            Ok(bodiless(Verb::Get, path, pairs, None))
        }
        NamesOp::Put(prefix, name) => Ok(Sending {
            verb: Verb::Put,
            path: namespace_path(alloc, repo, prefix)?,
            pairs,
            accept: None,
            content: Some(name_content(alloc, name)?),
        }),
        NamesOp::Remove(prefix) => {
            let path = namespace_path(alloc, repo, prefix)?;
            Ok(bodiless(Verb::Delete, path, pairs, None))
        }
    }
}

/// The begin of a transaction.
fn sent_begin(alloc: Global, repo: &Text, level: Level) -> Result<Sending, Memory>
    ensures { IfOk result (λ it. it ≡ sent_op repo.now (ops.Begin level) PlainText) }
{
    let path = part_path(alloc, repo, b"transactions")?;
    let mut pairs = Parameters::new(alloc);
    pairs.push(pair(alloc, b"isolation-level", level_text(level))?)?;
    Ok(bodiless(Verb::Post, path, pairs, None))
}

/// An action without other parameters and without a body.
fn sent_action(alloc: Global, repo: &Text, txn: Txn, word: &[u8]) -> Result<Sending, Memory>
    ensures { IfOk result (λ it. it ≡ acted repo.now txn word.now [] None None) }
{
    acted(alloc, repo, txn, word, Parameters::new(alloc), None, None)
}

fn sent_op(alloc: Global, repo: &Text, op: &Op, form: Form) -> Result<Sending, Memory>
    ensures { IfOk result (λ it. it ≡ sent_op repo.now op.now form) }
{
    match op {
        Op::Begin(level) => sent_begin(alloc, repo, *level),
        Op::Read { txn, ask } => sent_read(alloc, repo, *txn, ask, form),
        Op::Step {
            txn,
            query,
            number: _,
        } => sent_query(alloc, repo, Some(*txn), query, form),
        Op::Write { txn, changes } => sent_write(alloc, repo, *txn, changes.as_slice()),
        Op::Commit(txn) => sent_action(alloc, repo, *txn, b"COMMIT"),
        Op::Rollback(txn) => {
            let path = transaction_path(alloc, repo, *txn)?;
            Ok(bodiless(Verb::Delete, path, Parameters::new(alloc), None))
        }
        Op::Ping(txn) => sent_action(alloc, repo, *txn, b"PING"),
        Op::Names(op) => sent_names(alloc, repo, op, form),
    }
}

/// What the request of a call is written of.
pub fn sent(alloc: Global, call: &Call) -> Result<Sending, Memory>
    ensures { IfOk result (λ it. it ≡ sent call.now) }
{
    match call {
        Call::Protocol => {
            let path = server_path(alloc, b"protocol")?;
            Ok(bodiless(Verb::Get, path, Parameters::new(alloc), None))
        }
        Call::Repositories(form) => {
            let path = server_path(alloc, b"repositories")?;
            Ok(bodiless(Verb::Get, path, Parameters::new(alloc), Some(*form)))
        }
        Call::On { repo, op, form } => sent_op(alloc, repo, op, *form),
    }
}
