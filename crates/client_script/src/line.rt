//! The command that a line is.
ghost use Rattle.std.specs.Prelude.{◌≡◌, IfOk, IfSome, IsTrue, ◌↔◌, Some, position, drop};
ghost use Rattle.std.specs.Str.{IsUtf8};
ghost use Rattle.api_paths.specs.Targets.{text_of};
ghost use Rattle.client_script.specs.Lines.{is_space, prefix_text, iri_text, naming, IsCommandOf, IsValidCommand};
ghost use Rattle.client_script.specs.Rests.{rest_at, IsOfRest, IsQueryOf, IsStatementOf};
ghost use Rattle.client_script.specs.declared.verb.Verb.TheVariants as verbs;

use crate::command::Command;
use crate::laws::commands_are_valid;
use crate::verb::{Verb, verb_of};
use api_paths::{is_prefix, level_named};
use nquads_line::{Kind, LineFault, one_line_reading, read_line};
use query_text::{Query, QueryFault, parse_query};
use rdf_term::{Memory, Quad, Text};
use std::alloc::Global;
use std::str;

/// Whether the bytes are UTF-8.
fn is_utf8(bytes: &[u8]) -> bool
    ensures { IsTrue result ↔ IsUtf8 bytes.now }
{
    str::from_utf8(bytes).is_ok()
}

/// The text that bytes are, where they are UTF-8.
fn text_of(alloc: Global, bytes: &[u8]) -> Result<Option<Text>, Memory>
    ensures { IfOk result (λ it. it ≡ text_of bytes.now) }
{
    match str::from_utf8(bytes) {
        Ok(text) => Ok(Some(Text::from_chars(alloc, text)?)),
        Err(_) => Ok(None),
    }
}

/// The prefix that bytes are.
fn prefix_text(alloc: Global, bytes: &[u8]) -> Result<Option<Text>, Memory>
    ensures { IfOk result (λ it. it ≡ prefix_text bytes.now) }
{
    match text_of(alloc, bytes)? {
        None => Ok(None),
        Some(text) => {
            if is_prefix(&text) {
                Ok(Some(text))
            } else {
                Ok(None)
            }
        }
    }
}

/// The text of an IRI that bytes are.
fn iri_text(alloc: Global, bytes: &[u8]) -> Result<Option<Text>, Memory>
    ensures { IfOk result (λ it. it ≡ iri_text bytes.now) }
{
    match text_of(alloc, bytes)? {
        None => Ok(None),
        Some(text) => {
            if text.is_iri_text() && text.is_short() {
                Ok(Some(text))
            } else {
                Ok(None)
            }
        }
    }
}

/// The place of the first space.
fn space(rest: &[u8]) -> Option<usize>
    ensures { result ≡ position is_space rest.now }
{
    rest.iter().position(|byte| *byte == b' ')
}

/// The prefix and the IRI that it is to stand for.
fn naming(alloc: Global, rest: &[u8]) -> Result<Option<(Text, Text)>, Memory>
    ensures { IfOk result (λ it. it ≡ naming rest.now) }
{
    let Some(end) = space(rest) else {
        return Ok(None);
    };
    let Some(prefix) = prefix_text(alloc, &rest[..end])? else {
        return Ok(None);
    };
    let Some(name) = iri_text(alloc, &rest[end + 1..])? else {
        return Ok(None);
    };
    Ok(Some((prefix, name)))
}

/// The quad of a line of N-Quads that holds a statement.
fn statement(alloc: Global, text: &[u8]) -> Result<Option<Quad>, Memory>
    ensures { IfOk result (λ it. IsStatementOf text.now it) }
{
    one_line_reading();
    match read_line(alloc, Kind::Quads, text) {
        Ok(Some(quad)) => Ok(Some(quad)),
        Ok(None) => Ok(None),
        Err(LineFault::Bad) => Ok(None),
        Err(LineFault::TooLong) => Ok(None),
        Err(LineFault::Memory) => Err(Memory),
    }
}

/// The query of a text.
fn query(alloc: Global, text: &[u8]) -> Result<Option<Query>, Memory>
    ensures { IfOk result (λ it. IsQueryOf text.now it) }
{
    let Ok(text) = str::from_utf8(text) else {
        return Ok(None);
    };
    match parse_query(alloc, text) {
        Ok(query) => Ok(Some(query)),
        Err(QueryFault::Memory) => Err(Memory),
        Err(QueryFault::BadAt(_)) => Ok(None),
        Err(QueryFault::Unsupported(_)) => Ok(None),
        Err(QueryFault::UnknownPrefix(_)) => Ok(None),
    }
}

/// A line that does nothing.
fn nothing(rest: &[u8]) -> Option<Command>
    ensures { IsOfRest verbs.Nothing rest.now result }
{
    if is_utf8(rest) {
        Some(Command::Nothing)
    } else {
        None
    }
}

fn begin(rest: &[u8]) -> Option<Command>
    ensures { IsOfRest verbs.Begin rest.now result }
{
    match level_named(rest) {
        Some(level) => Some(Command::Begin(level)),
        None => None,
    }
}

fn add(alloc: Global, rest: &[u8]) -> Result<Option<Command>, Memory>
    ensures { IfOk result (λ it. IsOfRest verbs.Add rest.now it) }
{
    match statement(alloc, rest)? {
        Some(quad) => Ok(Some(Command::Add(quad))),
        None => Ok(None),
    }
}

fn remove(alloc: Global, rest: &[u8]) -> Result<Option<Command>, Memory>
    ensures { IfOk result (λ it. IsOfRest verbs.Remove rest.now it) }
{
    match statement(alloc, rest)? {
        Some(quad) => Ok(Some(Command::Remove(quad))),
        None => Ok(None),
    }
}

fn ask(alloc: Global, rest: &[u8]) -> Result<Option<Command>, Memory>
    ensures { IfOk result (λ it. IsOfRest verbs.Query rest.now it) }
{
    match query(alloc, rest)? {
        Some(query) => Ok(Some(Command::Query(query))),
        None => Ok(None),
    }
}

fn name(alloc: Global, rest: &[u8]) -> Result<Option<Command>, Memory>
    ensures { IfOk result (λ it. IsOfRest verbs.Prefix rest.now it) }
{
    match naming(alloc, rest)? {
        Some((prefix, name)) => Ok(Some(Command::Prefix(prefix, name))),
        None => Ok(None),
    }
}

/// The command of a line of this kind with this rest.
fn of_rest(alloc: Global, verb: Verb, rest: &[u8]) -> Result<Option<Command>, Memory>
    ensures { IfOk result (λ it. IsOfRest verb rest.now it) }
{
    match verb {
        Verb::Nothing => Ok(nothing(rest)),
        Verb::Begin => Ok(begin(rest)),
        Verb::Add => add(alloc, rest),
        Verb::Remove => remove(alloc, rest),
        Verb::Query => ask(alloc, rest),
        Verb::List => Ok(Some(Command::List)),
        Verb::Size => Ok(Some(Command::Size)),
        Verb::Contexts => Ok(Some(Command::Contexts)),
        Verb::Namespaces => Ok(Some(Command::Namespaces)),
        Verb::Prefix => name(alloc, rest),
        Verb::Ping => Ok(Some(Command::Ping)),
        Verb::Commit => Ok(Some(Command::Commit)),
        Verb::Rollback => Ok(Some(Command::Rollback)),
        Verb::Quit => Ok(Some(Command::Quit)),
    }
}

/// How many bytes of a line stand before its rest.
fn rest_at(verb: Verb) -> usize
    ensures { result ≡ rest_at verb }
{
    match verb {
        Verb::Nothing => 1,
        Verb::Begin | Verb::Query => 6,
        Verb::Add => 4,
        Verb::Remove | Verb::Prefix => 7,
        Verb::List
        | Verb::Size
        | Verb::Contexts
        | Verb::Namespaces
        | Verb::Ping
        | Verb::Commit
        | Verb::Rollback
        | Verb::Quit => 0,
    }
}

/// The bytes behind the first `count`.
fn behind(line: &[u8], count: usize) -> &[u8]
    ensures { result.now ≡ drop count line.now }
{
    if count <= line.len() {
        &line[count..]
    } else {
        &[]
    }
}

/// The command of a line.
fn line_command(alloc: Global, line: &[u8]) -> Result<Option<Command>, Memory>
    ensures { IfOk result (λ it. IsCommandOf line.now it) }
{
    match verb_of(line) {
        None => Ok(None),
        Some(verb) => of_rest(alloc, verb, behind(line, rest_at(verb))),
    }
}

/// The command that a line, without its end, stands for, or `None` where it is none of a script. No line
/// of a script has more than 1,048,576 bytes, which is left to the caller.
pub fn read_command(alloc: Global, line: &[u8]) -> Result<Option<Command>, Memory>
    ensures command { IfOk result (λ it. IsCommandOf line.now it) }
    ensures valid { IfOk result (λ it. IfSome it IsValidCommand) }
{
    commands_are_valid();
    match line_command(alloc, line)? {
        Some(command) => Ok(Some(command)),
        None => Ok(None),
    }
}
