//! Entries as plain data.
use crate::quads::Edit;
use crate::replies::{NAMES, PREFIX};
use journal::{Level, NamesOp, Txn};
use rdf_term::{Memory, Text};
use std::alloc::Global;

/// What is asked of the one prefix or done to it, by the number of a name.
#[derive(Clone, Copy)]
pub(crate) enum Naming {
    List,
    Get,
    Put(usize),
    Remove,
    Clear,
}

/// What a call does.
#[derive(Clone, Copy)]
pub(crate) enum Act {
    Begin(Level),
    /// The ask of a number, by one entry.
    Read(Option<Txn>, usize),
    /// The query of a number in a READ_COMMITTED transaction, by an entry for each pattern.
    Steps(Txn, usize),
    Write(Option<Txn>, &'static [Edit]),
    Commit(Txn),
    Rollback(Txn),
    Ping(Txn),
    Names(Naming),
}

/// The transaction that an act names.
pub(crate) fn named(act: Act) -> Option<Txn> {
    match act {
        Act::Begin(_) | Act::Names(_) => None,
        Act::Read(txn, _) | Act::Write(txn, _) => txn,
        Act::Steps(txn, _) | Act::Commit(txn) | Act::Rollback(txn) | Act::Ping(txn) => Some(txn),
    }
}

fn prefix(alloc: Global) -> Result<Text, Memory> {
    Text::from_chars(alloc, PREFIX)
}

fn put(alloc: Global, name: usize) -> Result<NamesOp, Memory> {
    let Some(text) = NAMES.get(name) else {
        return Err(Memory);
    };
    let name = Text::from_chars(alloc, text)?;
    Ok(NamesOp::Put(prefix(alloc)?, name))
}

pub(crate) fn names_op(alloc: Global, naming: Naming) -> Result<NamesOp, Memory> {
    match naming {
        Naming::List => Ok(NamesOp::List),
        Naming::Get => Ok(NamesOp::Get(prefix(alloc)?)),
        Naming::Put(name) => put(alloc, name),
        Naming::Remove => Ok(NamesOp::Remove(prefix(alloc)?)),
        Naming::Clear => Ok(NamesOp::Clear),
    }
}
