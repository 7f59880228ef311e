ghost use Rattle.std.specs.Prelude.{◌≡◌, IfOk};
ghost use Rattle.client_script.specs.Actions.{next_call};

use crate::action::{
    Action, all_sizes, asks, begins, everything, in_txn, names, puts, reads, removal, writes,
};
use change_set::Change;
use journal::{Ask, Level, NamesOp, Op, Txn};
use media::Form;
use query_text::Query;
use rdf_term::{Memory, Quad, Text};
use std::alloc::Global;

/// What a line of a script asks for.
#[derive(Debug)]
pub enum Command {
    /// Nothing: the line is empty or a comment.
    Nothing,
    /// To begin a transaction of the level.
    Begin(Level),
    /// To add a quad.
    Add(Quad),
    /// To remove a quad.
    Remove(Quad),
    /// The answer of a query.
    Query(Query),
    /// All quads.
    List,
    /// The number of quads.
    Size,
    /// The names of the graphs.
    Contexts,
    /// All prefixes with their names.
    Namespaces,
    /// That the prefix stands for the IRI.
    Prefix(Text, Text),
    /// Whether the current transaction is open.
    Ping,
    /// To commit the current transaction.
    Commit,
    /// To end the current transaction without its changes.
    Rollback,
    /// To end the script.
    Quit,
}

// By hand, since a derived drop is expanded down to each text wherever a command is let go.
impl Drop for Command {
    fn drop(self) {
        match self {
            Command::Nothing => {}
            Command::Begin(_) => {}
            Command::Add(quad) => drop(quad),
            Command::Remove(quad) => drop(quad),
            Command::Query(query) => drop(query),
            Command::List => {}
            Command::Size => {}
            Command::Contexts => {}
            Command::Namespaces => {}
            Command::Prefix(prefix, name) => {
                drop(prefix);
                drop(name);
            }
            Command::Ping => {}
            Command::Commit => {}
            Command::Rollback => {}
            Command::Quit => {}
        }
    }
}

impl Command {
    /// What is done at the command on this repository, where this is the current transaction.
    ///
    /// The calls of a script ask for quads as N-Quads and for tables and truth values as JSON.
    pub fn next_call(self, alloc: Global, repo: &Text, txn: Option<Txn>) -> Result<Action, Memory>
        ensures { IfOk result (λ it. it ≡ next_call repo.now txn self) }
    {
        match self {
            Command::Nothing => Ok(Action::Skip),
            Command::Begin(level) => begins(alloc, repo, Op::Begin(level), txn),
            Command::Add(quad) => writes(alloc, repo, txn, Change::Add(quad)),
            Command::Remove(quad) => writes(alloc, repo, txn, removal(alloc, txn, quad)?),
            Command::Query(query) => asks(alloc, repo, txn, query),
            Command::List => reads(alloc, repo, txn, everything(alloc), Form::NQuads),
            Command::Size => reads(alloc, repo, txn, all_sizes(alloc), Form::PlainText),
            Command::Contexts => reads(alloc, repo, None, Ask::Contexts, Form::ResultsJson),
            Command::Namespaces => names(alloc, repo, NamesOp::List, Form::ResultsJson),
            Command::Prefix(prefix, name) => puts(alloc, repo, prefix, name),
            Command::Ping => in_txn(alloc, repo, txn.map(|txn| Op::Ping(txn))),
            Command::Commit => in_txn(alloc, repo, txn.map(|txn| Op::Commit(txn))),
            Command::Rollback => in_txn(alloc, repo, txn.map(|txn| Op::Rollback(txn))),
            Command::Quit => Ok(Action::End),
        }
    }
}
