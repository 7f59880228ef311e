//! The words of the client.
ghost use Rattle.std.specs.Prelude.{◌≡◌, IfOk, IfSome, IsTrue, false, map, option_map};
ghost use Rattle.std.specs.Str.{chars};
ghost use Rattle.clap.specs.Words.{app_of, first_of, found_of, rows_of, rule_of};
ghost use Rattle.api_replies.specs.Ids.{is_id};
ghost use Rattle.api_requests.specs.Spellable.{IsHost};
ghost use Rattle.rdf_cli.specs.Words.{client_app, client_line, client_words, if_right, option_rule};

use api_replies::is_id;
use clap::error::ErrorKind;
use clap::{Arg, ArgAction, ArgMatches, Command};
use rdf_client::is_host;
use rdf_term::{Memory, Text};
use std::alloc::Global;

/// The words behind the program's name, as `clap` takes them.
fn line<'a>(alloc: Global, words: &'a [Text]) -> Result<Vec<&'a str>, Memory>
    ensures { IfOk result (λ it. map (λ s. s.now) it.items ≡ client_line words.now) }
{
    let mut line: Vec<&'a str> = Vec::new(alloc);
    line.push("rdf4j_client")?;
    for word in words {
        line.push(word.as_str())?;
    }
    Ok(line)
}

/// A required option with a value.
fn option<'a>(alloc: Global, name: &'a str) -> Arg<'a>
    ensures rule { rule_of result ≡ option_rule name.entry.now }
    ensures local { result.global ≡ false }
{
    Arg::new(alloc, name)
        .long(name)
        .action(ArgAction::Set)
        .required(true)
}

/// The command that reads the words.
fn command<'a>(alloc: Global) -> Result<Command<'a>, Memory>
    ensures { IfOk result (λ it. app_of it ≡ client_app) }
{
    let command = Command::new(alloc, "rdf4j_client").arg(option(alloc, "server"))?;
    Ok(command.arg(option(alloc, "repository"))?)
}

/// The value of an option, where it has one.
fn value(alloc: Global, matches: &ArgMatches, name: &str) -> Result<Option<Text>, Memory>
    ensures { IfOk result (λ it. it ≡ option_map chars (first_of name.now (rows_of (found_of matches.now)))) }
{
    match matches.get_str(name) {
        None => Ok(None),
        Some(value) => Ok(Some(Text::from_chars(alloc, value)?)),
    }
}

/// The values, where both are given and may be a server and the ID of a repository.
fn if_right(server: Option<Text>, repository: Option<Text>) -> Option<(Text, Text)>
    ensures value { result ≡ if_right server repository }
    ensures right { IfSome result (λ it. IsHost it.0 × IsTrue (is_id it.1)) }
{
    let server = server?;
    let repository = repository?;
    if is_host(&server) && is_id(&repository) {
        Some((server, repository))
    } else {
        None
    }
}

/// The server and the repository that words name, or none where they are no words of the client: where
/// `clap` refuses them, the server holds a character outside `!` to `~`, or the repository is no ID.
pub fn client_words(alloc: Global, words: &[Text]) -> Result<Option<(Text, Text)>, Memory>
    ensures value { IfOk result (λ it. it ≡ client_words words.now) }
    ensures right { IfOk result (λ it. IfSome it (λ p. IsHost p.0 × IsTrue (is_id p.1))) }
{
    let line = line(alloc, words)?;
    match command(alloc)?.try_get_matches_from(line.as_slice()) {
        Ok(matches) => {
            let server = value(alloc, &matches, "server")?;
            Ok(if_right(server, value(alloc, &matches, "repository")?))
        }
        Err(error) if error.kind() == ErrorKind::OutOfMemory => Err(Memory),
        Err(_) => Ok(None),
    }
}
