//! The parameters of a request, and what they say.
ghost use Rattle.std.specs.Prelude.{◌≡◌, ◌≢◌, ℕ, List, All, codes, encode_utf8_all, find, IfOk, IsUtf8};
ghost use Rattle.std.specs.Option.{option_copied};
ghost use Rattle.rdf_term.specs.Terms.{IsGraph};
ghost use Rattle.api_calls.specs.declared.fault.ApiFault.TheVariants as faults;
ghost use Rattle.api_parts.specs.Parameters.{values_of};
ghost use Rattle.api_parts.specs.Selections.{name_of};
ghost use Rattle.api_paths.specs.Prefixes.{is_prefix};
ghost use Rattle.repo_api.specs.Checks.{Gives, Is, Passes};
ghost use Rattle.repo_api.specs.Names.{word_of, AreTexts};
ghost use Rattle.repo_api.specs.Parameters.{target_parameters, form_parameters, all_parameters, IsSelected, AreInContexts, level_by, level_in, is_sparql, is_binding, HasNoBinding};
ghost use Rattle.repo_api.specs.Tasks.{bad, task_of_action, task_of_actions};

use crate::ApiFault;
use crate::content::{is_form, type_of};
use crate::task::{Task, Writing};
use api_parts::{
    Graphs, Octets, Parameter, ParameterFault, Parameters, Selection, parameters, query_of,
    read_contexts, read_selection, values_of,
};
use api_paths::{is_prefix, level_of, origin_form};
use http_frame::{Request, same_name};
use journal::{Level, Txn};
use rdf_term::{Memory, Text};
use std::alloc::Global;
use std::str;

/// A parameter that is looked at beside those that select.
#[derive(Clone, Copy, Debug)]
pub enum Named {
    Action,
    IsolationLevel,
    QueryLanguage,
    Query,
    /// The prefix in the path of a namespace.
    Prefix,
}

impl Named {
    fn name(self) -> &'static str
        ensures { result.now ≡ word_of self }
    {
        match self {
            Named::Action => "action",
            Named::IsolationLevel => "isolation-level",
            Named::QueryLanguage => "queryLn",
            Named::Query => "query",
            Named::Prefix => "prefix",
        }
    }

    /// The fault that names the parameter.
    pub fn bad(self, alloc: Global) -> ApiFault
        ensures { result ≢ faults.Memory → result ≡ bad (word_of self) }
    {
        bad(alloc, self.name())
    }
}

/// The fault that names a parameter.
fn bad(alloc: Global, name: &str) -> ApiFault
    ensures { result ≢ faults.Memory → (text : List ℕ) × (encode_utf8_all text ≡ name.now) × (result ≡ bad text) }
{
    match Text::from_chars(alloc, name) {
        Ok(name) => ApiFault::Parameter(name),
        Err(_) => ApiFault::Memory,
    }
}

/// The fault that names a parameter that selects.
fn bad_selecting(alloc: Global, parameter: Parameter) -> ApiFault
    ensures { result ≢ faults.Memory → result ≡ bad (name_of parameter) }
{
    bad(alloc, parameter.name())
}

/// The parameters of the target of a request.
pub fn target_parameters(alloc: Global, request: &Request) -> Result<Parameters, Memory>
    ensures { IfOk result (λ it. it ≡ target_parameters request.now) }
{
    let target = origin_form(request.head.target.as_str().as_bytes());
    parameters(alloc, query_of(target))
}

/// The parameters of a body that is a form.
fn form_parameters(alloc: Global, request: &Request) -> Result<Parameters, Memory>
    ensures { IfOk result (λ it. it ≡ form_parameters request.now) }
{
    if is_form(type_of(&request.head.fields)) {
        parameters(alloc, request.body.as_slice())
    } else {
        Ok(Parameters::new(alloc))
    }
}

/// The parameters of the target, and then those of a body that is a form.
pub fn all_parameters(alloc: Global, request: &Request) -> Result<Parameters, Memory>
    ensures { IfOk result (λ it. it ≡ all_parameters request.now) }
{
    let mut all = target_parameters(alloc, request)?;
    all.append(form_parameters(alloc, request)?)?;
    Ok(all)
}

/// What the parameters `subj`, `pred`, `obj` and `context` select.
pub fn selected(alloc: Global, parameters: &Parameters) -> Result<Selection, ApiFault>
    ensures { Gives (IsSelected parameters.now) result }
{
    match read_selection(alloc, parameters) {
        Ok(selection) => Ok(selection),
        Err(ParameterFault::Bad(parameter)) => Err(bad_selecting(alloc, parameter)),
        Err(ParameterFault::Memory) => Err(ApiFault::Memory),
    }
}

/// The graphs that the parameters `context` name.
pub fn in_contexts(alloc: Global, parameters: &Parameters) -> Result<Graphs, ApiFault>
    ensures answer { Gives (AreInContexts parameters.now) result }
    ensures graphs { IfOk result (λ contexts. All IsGraph contexts) }
{
    match read_contexts(alloc, parameters) {
        Ok(contexts) => Ok(contexts),
        Err(ParameterFault::Bad(parameter)) => Err(bad_selecting(alloc, parameter)),
        Err(ParameterFault::Memory) => Err(ApiFault::Memory),
    }
}

fn level_by(alloc: Global, values: &[Octets]) -> Result<Level, ApiFault>
    ensures { Gives (Is (level_by values.now)) result }
{
    match values {
        [] => Ok(Level::SnapshotRead),
        [value] => match level_of(value.as_slice()) {
            Some(level) => Ok(level),
            None => Err(Named::IsolationLevel.bad(alloc)),
        },
        _ => Err(Named::IsolationLevel.bad(alloc)),
    }
}

/// The level that the parameter `isolation-level` names, SNAPSHOT_READ where it is absent.
pub fn level_in(alloc: Global, parameters: &Parameters) -> Result<Level, ApiFault>
    ensures { Gives (Is (level_in parameters.now)) result }
{
    let values = values_of(alloc, parameters.as_slice(), b"isolation-level")?;
    level_by(alloc, values.as_slice())
}

fn is_sparql(values: &[Octets]) -> bool
    ensures { result ≡ is_sparql values.now }
{
    match values {
        [] => true,
        [value] => same_name(value.as_slice(), b"sparql"),
        _ => false,
    }
}

/// Whether the parameter `queryLn` is absent, or names SPARQL in any case.
pub fn is_language(alloc: Global, parameters: &Parameters) -> Result<(), ApiFault>
    ensures { Gives (Passes (bad (codes "queryLn")) (is_sparql (values_of (codes "queryLn") parameters.now))) result }
{
    let values = values_of(alloc, parameters.as_slice(), b"queryLn")?;
    if is_sparql(values.as_slice()) {
        Ok(())
    } else {
        Err(Named::QueryLanguage.bad(alloc))
    }
}

/// The first parameter whose name begins with `$`.
fn first_binding(pairs: &[(Octets, Octets)]) -> Option<&(Octets, Octets)>
    ensures { option_copied result ≡ find is_binding pairs.now }
{
    pairs
        .iter()
        .find(|pair| pair.0.as_slice().starts_with(b"$"))
}

/// The fault that names a parameter, whose name is UTF-8.
fn bad_octets(alloc: Global, name: &[u8]) -> ApiFault
    requires { IsUtf8 name.now }
    ensures { result ≢ faults.Memory → (text : List ℕ) × (encode_utf8_all text ≡ name.now) × (result ≡ bad text) }
{
    match str::from_utf8(name) {
        Ok(name) => bad(alloc, name),
        Err(_) => unreachable!(),
    }
}

/// Whether no parameter binds a variable. The first one that does is named.
pub fn has_no_binding(alloc: Global, parameters: &Parameters) -> Result<(), ApiFault>
    requires { AreTexts parameters.now }
    ensures { Gives (HasNoBinding parameters.now) result }
{
    match first_binding(parameters.as_slice()) {
        None => Ok(()),
        Some(pair) => Err(bad_octets(alloc, pair.0.as_slice())),
    }
}

/// Whether the last segment of a path is a prefix.
pub fn prefixed(alloc: Global, prefix: &Text) -> Result<(), ApiFault>
    ensures { Gives (Passes (bad (codes "prefix")) (is_prefix prefix.now)) result }
{
    if is_prefix(prefix) {
        Ok(())
    } else {
        Err(Named::Prefix.bad(alloc))
    }
}

/// What an action, a word in capitals, asks in a transaction.
fn task_of_action(alloc: Global, txn: Txn, word: &[u8]) -> Result<Task, ApiFault>
    ensures { Gives (Is (task_of_action txn word.now)) result }
{
    if word == b"ADD".as_slice() {
        return Ok(Task::Write(Some(txn), Writing::Adds));
    }
    if word == b"DELETE".as_slice() {
        return Ok(Task::Write(Some(txn), Writing::Removes));
    }
    if word == b"GET".as_slice() {
        return Ok(Task::List(Some(txn)));
    }
    if word == b"SIZE".as_slice() {
        return Ok(Task::Size(Some(txn)));
    }
    if word == b"QUERY".as_slice() {
        return Ok(Task::Query(Some(txn)));
    }
    if word == b"COMMIT".as_slice() {
        return Ok(Task::Commit(txn));
    }
    if word == b"PING".as_slice() {
        return Ok(Task::Ping(txn));
    }
    if word == b"ROLLBACK".as_slice() {
        return Ok(Task::Rollback(txn));
    }
    Err(Named::Action.bad(alloc))
}

fn task_of_words(alloc: Global, txn: Txn, words: &[Octets]) -> Result<Task, ApiFault>
    ensures { Gives (Is (task_of_actions txn words.now)) result }
{
    match words {
        [word] => task_of_action(alloc, txn, word.as_slice()),
        _ => Err(Named::Action.bad(alloc)),
    }
}

/// What the one parameter `action` asks in a transaction.
pub fn task_of_actions(alloc: Global, txn: Txn, parameters: &Parameters) -> Result<Task, ApiFault>
    ensures { Gives (Is (task_of_actions txn (values_of (codes "action") parameters.now))) result }
{
    let values = values_of(alloc, parameters.as_slice(), b"action")?;
    task_of_words(alloc, txn, values.as_slice())
}
