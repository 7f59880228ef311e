use crate::Txn;
use query_model::Table;
use rdf_term::{Duplicate, Memory, Pattern, Quad, Quads, Seq, Term, Text};
use std::alloc::Global;

/// A list of terms.
pub type Terms = Seq<Term>;

/// Prefixes, each with the name that it stands for.
pub type Names = Seq<(Text, Text)>;

/// The reply to an entry.
#[derive(Debug)]
pub enum Reply {
    /// The transaction that was begun.
    Begun(Txn),
    /// What was asked for is done.
    Done,
    /// The rows of a SELECT.
    Table(Table),
    /// Whether an ASK has a solution.
    Truth(bool),
    /// The quads of a list, or the triples of a CONSTRUCT.
    Quads(Quads),
    /// The number of quads.
    Count(u64),
    /// The names of the graphs.
    Contexts(Terms),
    /// All prefixes with their names.
    Prefixes(Names),
    /// The name of a prefix.
    Prefix(Text),
    /// The prefix stands for nothing.
    NoPrefix,
    /// The transaction that is named is not open.
    NoTransaction,
    /// As many transactions are open as may be.
    TooManyOpen,
    /// A quad that was changed since the transaction began, and the pattern of one of its reads
    /// that matches the quad.
    Conflict(Pattern, Quad),
    /// More would be kept than may be.
    TooLarge,
    /// A query has more solutions than may be.
    TooManyRows,
}

// By hand, since a derived drop is expanded down to each text wherever a reply is let go.
impl Drop for Reply {
    fn drop(self) {
        match self {
            Reply::Begun(_) => {}
            Reply::Done => {}
            Reply::Table(table) => drop(table),
            Reply::Truth(_) => {}
            Reply::Quads(quads) => drop(quads),
            Reply::Count(_) => {}
            Reply::Contexts(names) => drop(names),
            Reply::Prefixes(names) => drop(names),
            Reply::Prefix(name) => drop(name),
            Reply::NoPrefix => {}
            Reply::NoTransaction => {}
            Reply::TooManyOpen => {}
            Reply::Conflict(pattern, quad) => {
                drop(pattern);
                drop(quad);
            }
            Reply::TooLarge => {}
            Reply::TooManyRows => {}
        }
    }
}

impl Duplicate for Reply {
    fn copy(&self, alloc: Global) -> Result<Reply, Memory> {
        Ok(match self {
            Reply::Begun(txn) => Reply::Begun(*txn),
            Reply::Done => Reply::Done,
            Reply::Table(table) => Reply::Table(table.copy(alloc)?),
            Reply::Truth(truth) => Reply::Truth(*truth),
            Reply::Quads(quads) => Reply::Quads(quads.copy(alloc)?),
            Reply::Count(count) => Reply::Count(*count),
            Reply::Contexts(names) => Reply::Contexts(names.copy(alloc)?),
            Reply::Prefixes(names) => Reply::Prefixes(names.copy(alloc)?),
            Reply::Prefix(name) => Reply::Prefix(name.copy(alloc)?),
            Reply::NoPrefix => Reply::NoPrefix,
            Reply::NoTransaction => Reply::NoTransaction,
            Reply::TooManyOpen => Reply::TooManyOpen,
            Reply::Conflict(pattern, quad) => {
                Reply::Conflict(pattern.copy(alloc)?, quad.copy(alloc)?)
            }
            Reply::TooLarge => Reply::TooLarge,
            Reply::TooManyRows => Reply::TooManyRows,
        })
    }
}
