//! Which calls some request gives. No call takes memory.
ghost use Rattle.std.specs.Prelude.{◌≡◌, ◌↔◌, IsTrue, None, Some};
ghost use Rattle.std.specs.List.{list_all};
ghost use Rattle.rdf_term.specs.Validity.{IsValidTerm};
ghost use Rattle.rdf_term.specs.declared.term.Term.TheVariants.{Iri};
ghost use Rattle.query_model.specs.WellFormed.{IsWellFormed};
ghost use Rattle.journal.specs.declared.ask.Ask.TheVariants as asks;
ghost use Rattle.media.specs.declared.form.Form.TheVariants.{PlainText};
ghost use Rattle.repo_api.specs.Accepts.{quad_forms, table_forms, truth_forms};
ghost use Rattle.repo_api.specs.Queries.{forms_of};
ghost use Rattle.api_requests.specs.Spellable.{AreContextGraphs, IsAmong, IsAskable, IsNamed, IsNamedOrNone, IsNaming, IsPrefixText, IsSelectable, IsSpellable, IsSpellableOp, IsText, IsWriting};
ghost use Rattle.api_requests.specs.Tests.{is_context};

use crate::terms::{
    is_context, is_object, is_plain, is_predicate, is_quad_form, is_subject, is_table, is_truth,
};
use crate::writes::{are_additions, are_deletions, writes_alone};
use api_calls::Call;
use api_paths::is_prefix;
use change_set::Change;
use journal::{Ask, Graphs, NamesOp, Op, Txn};
use media::Form;
use query_text::{Query, is_well_formed};
use rdf_term::{Graph, Term, Text};

/// The greatest place that a name of a transaction has.
const MOST_PLACE: u64 = 4_611_686_018_427_387_903;

fn is_named(txn: Txn) -> bool
    ensures { IsTrue result ↔ IsNamed txn }
{
    txn.place <= MOST_PLACE
}

fn is_named_or_none(txn: Option<Txn>) -> bool
    ensures { IsTrue result ↔ IsNamedOrNone txn }
{
    match txn {
        None => true,
        Some(txn) => is_named(txn),
    }
}

fn has_table(form: Form) -> bool
    ensures { IsTrue result ↔ IsAmong table_forms form }
{
    is_table(form)
}

fn has_truth(form: Form) -> bool
    ensures { IsTrue result ↔ IsAmong truth_forms form }
{
    is_truth(form)
}

fn has_quads(form: Form) -> bool
    ensures { IsTrue result ↔ IsAmong quad_forms form }
{
    is_quad_form(form)
}

fn is_plain_text(form: Form) -> bool
    ensures { IsTrue result ↔ (form ≡ PlainText) }
{
    is_plain(form)
}

/// Whether the answer of a query is offered in the form.
fn has_answer(query: &Query, form: Form) -> bool
    ensures { IsTrue result ↔ IsAmong (forms_of query.now) form }
{
    match query {
        Query::Select { .. } => has_table(form),
        Query::Ask { .. } => has_truth(form),
        Query::Construct { .. } => has_quads(form),
    }
}

#[tactic(auto, using(crate::proofs::DecideLemmas::both_decide))]
fn is_query(query: &Query, form: Form) -> bool
    ensures { IsTrue result ↔ (IsWellFormed query.now × IsAmong (forms_of query.now) form) }
{
    let well_formed = is_well_formed(query);
    let offered = has_answer(query, form);
    well_formed & offered
}

fn are_all_contexts(graphs: &[Graph]) -> bool
    ensures { result ≡ list_all is_context graphs.now }
{
    graphs.iter().all(|graph| is_context(graph))
}

fn are_contexts(contexts: &Graphs) -> bool
    ensures { IsTrue result ↔ AreContextGraphs contexts.now }
{
    are_all_contexts(contexts.as_slice())
}

fn is_selectable(s: &Option<Term>, p: &Option<Term>, o: &Option<Term>, contexts: &Graphs) -> bool
    ensures { IsTrue result ↔ IsSelectable (record { s = s.now; p = p.now; o = o.now; contexts = contexts.now }) }
{
    let subject = is_subject(s);
    let predicate = is_predicate(p);
    let object = is_object(o);
    let graphs = are_contexts(contexts);
    subject & predicate & object & graphs
}

#[tactic(auto, using(crate::proofs::DecideLemmas::both_decide))]
fn is_list(
    s: &Option<Term>,
    p: &Option<Term>,
    o: &Option<Term>,
    contexts: &Graphs,
    form: Form,
) -> bool
    ensures { IsTrue result ↔ (IsSelectable (record { s = s.now; p = p.now; o = o.now; contexts = contexts.now }) × IsAmong quad_forms form) }
{
    let selectable = is_selectable(s, p, o, contexts);
    let offered = has_quads(form);
    selectable & offered
}

#[tactic(auto, using(crate::proofs::DecideLemmas::both_decide))]
fn is_size(contexts: &Graphs, form: Form) -> bool
    ensures { IsTrue result ↔ (AreContextGraphs contexts.now × (form ≡ PlainText)) }
{
    let graphs = are_contexts(contexts);
    let plain = is_plain_text(form);
    graphs & plain
}

/// Whether the names of the graphs are asked in this form: outside transactions alone.
fn is_graph_list(txn: Option<Txn>, form: Form) -> bool
    ensures { IsTrue result ↔ IsAskable txn asks.Contexts form }
{
    match txn {
        None => has_table(form),
        Some(_) => false,
    }
}

fn is_askable(txn: Option<Txn>, ask: &Ask, form: Form) -> bool
    ensures { IsTrue result ↔ IsAskable txn ask.now form }
{
    match ask {
        Ask::Query(query) => is_query(query, form),
        Ask::List { s, p, o, contexts } => is_list(s, p, o, contexts, form),
        Ask::Size { contexts } => is_size(contexts, form),
        Ask::Contexts => is_graph_list(txn, form),
    }
}

#[tactic(auto, using(crate::proofs::DecideLemmas::both_decide))]
fn is_read(txn: Option<Txn>, ask: &Ask, form: Form) -> bool
    ensures { IsTrue result ↔ (IsNamedOrNone txn × IsAskable txn ask.now form) }
{
    let named = is_named_or_none(txn);
    let askable = is_askable(txn, ask, form);
    named & askable
}

/// Whether the changes are a write outside transactions.
fn is_written_alone(changes: &[Change]) -> bool
    ensures { IsTrue result ↔ IsWriting None changes.now }
{
    writes_alone(changes)
}

/// Whether the changes are a write in a transaction.
fn is_written_in(txn: Txn, changes: &[Change]) -> bool
    ensures { IsTrue result ↔ IsWriting (Some txn) changes.now }
{
    let adds = are_additions(changes);
    let deletes = are_deletions(changes);
    adds | deletes
}

fn is_writing(txn: Option<Txn>, changes: &[Change]) -> bool
    ensures { IsTrue result ↔ IsWriting txn changes.now }
{
    match txn {
        None => is_written_alone(changes),
        Some(txn) => is_written_in(txn, changes),
    }
}

#[tactic(auto, using(crate::proofs::DecideLemmas::three_decide))]
fn is_write(txn: Option<Txn>, changes: &[Change], form: Form) -> bool
    ensures { IsTrue result ↔ (IsNamedOrNone txn × IsWriting txn changes.now × (form ≡ PlainText)) }
{
    let named = is_named_or_none(txn);
    let written = is_writing(txn, changes);
    let plain = is_plain_text(form);
    named & written & plain
}

fn is_prefix_text(prefix: &Text) -> bool
    ensures { IsTrue result ↔ IsPrefixText prefix.now }
{
    // Its clause says that the text is of Unicode characters.
    let _ = prefix.is_short();
    is_prefix(prefix)
}

fn is_namespace(name: &Text) -> bool
    ensures { IsTrue result ↔ IsValidTerm (Iri name.now) }
{
    name.is_short() && name.is_iri_text()
}

#[tactic(auto, using(crate::proofs::DecideLemmas::both_decide))]
fn is_about(prefix: &Text, form: Form) -> bool
    ensures { IsTrue result ↔ (IsPrefixText prefix.now × (form ≡ PlainText)) }
{
    let prefixed = is_prefix_text(prefix);
    let plain = is_plain_text(form);
    prefixed & plain
}

#[tactic(auto, using(crate::proofs::DecideLemmas::three_decide))]
fn is_put(prefix: &Text, name: &Text, form: Form) -> bool
    ensures { IsTrue result ↔ (IsPrefixText prefix.now × IsValidTerm (Iri name.now) × (form ≡ PlainText)) }
{
    let prefixed = is_prefix_text(prefix);
    let named = is_namespace(name);
    let plain = is_plain_text(form);
    prefixed & named & plain
}

fn is_naming(op: &NamesOp, form: Form) -> bool
    ensures { IsTrue result ↔ IsNaming op.now form }
{
    match op {
        NamesOp::List => has_table(form),
        NamesOp::Get(prefix) => is_about(prefix, form),
        NamesOp::Put(prefix, name) => is_put(prefix, name, form),
        NamesOp::Remove(prefix) => is_about(prefix, form),
        NamesOp::Clear => is_plain_text(form),
    }
}

#[tactic(auto, using(crate::proofs::DecideLemmas::both_decide))]
fn is_in(txn: Txn, form: Form) -> bool
    ensures { IsTrue result ↔ (IsNamed txn × (form ≡ PlainText)) }
{
    let named = is_named(txn);
    let plain = is_plain_text(form);
    named & plain
}

fn is_op(op: &Op, form: Form) -> bool
    ensures { IsTrue result ↔ IsSpellableOp op.now form }
{
    match op {
        Op::Begin(_) => is_plain_text(form),
        Op::Read { txn, ask } => is_read(*txn, ask, form),
        Op::Step { .. } => false,
        Op::Write { txn, changes } => is_write(*txn, changes.as_slice(), form),
        Op::Commit(txn) => is_in(*txn, form),
        Op::Rollback(txn) => is_in(*txn, form),
        Op::Ping(txn) => is_in(*txn, form),
        Op::Names(op) => is_naming(op, form),
    }
}

fn is_on(repo: &Text, op: &Op, form: Form) -> bool
    ensures { IsTrue result ↔ (IsText repo.now × IsSpellableOp op.now form) }
{
    // Its clause says that the text is of Unicode characters.
    let _ = repo.is_short();
    is_op(op, form)
}

/// Whether the parts of a call have texts that are read as them.
pub fn has_spelling(call: &Call) -> bool
    ensures { IsTrue result ↔ IsSpellable call.now }
{
    match call {
        Call::Protocol => true,
        Call::Repositories(form) => has_table(*form),
        Call::On { repo, op, form } => is_on(repo, op, *form),
    }
}
