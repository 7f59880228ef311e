use crate::{Ask, Level, Txn};
use change_set::Changes;
use query_model::Query;
use rdf_term::{Duplicate, Memory, Text};
use std::alloc::Global;

/// What is asked of the namespaces or done to them. They belong to no transaction.
#[derive(Debug)]
pub enum NamesOp {
    /// All prefixes with their names.
    List,
    /// The name of a prefix.
    Get(Text),
    /// The prefix stands for the name from now on.
    Put(Text, Text),
    /// The prefix stands for nothing from now on.
    Remove(Text),
    /// No prefix stands for anything from now on.
    Clear,
}

/// What an entry does.
#[derive(Debug)]
pub enum Op {
    /// Begins a transaction of the level, which is named by the entry's place.
    Begin(Level),
    /// Asks something, in a transaction or in none.
    Read { txn: Option<Txn>, ask: Ask },
    /// Looks up one pattern of a query in a READ_COMMITTED transaction. Steps are numbered from 0,
    /// and the last one has the reply of the query.
    Step { txn: Txn, query: Query, number: u32 },
    /// Changes the content, in a transaction or in none.
    Write { txn: Option<Txn>, changes: Changes },
    /// Commits the changes of the transaction and ends it.
    Commit(Txn),
    /// Ends the transaction without its changes.
    Rollback(Txn),
    /// Asks whether the transaction is open.
    Ping(Txn),
    /// Asks or changes the namespaces.
    Names(NamesOp),
}

// By hand, since a derived drop is expanded down to each text wherever an op is let go.
impl Drop for NamesOp {
    fn drop(self) {
        match self {
            NamesOp::List => {}
            NamesOp::Get(prefix) => drop(prefix),
            NamesOp::Put(prefix, name) => {
                drop(prefix);
                drop(name);
            }
            NamesOp::Remove(prefix) => drop(prefix),
            NamesOp::Clear => {}
        }
    }
}

impl Duplicate for NamesOp {
    fn copy(&self, alloc: Global) -> Result<NamesOp, Memory> {
        Ok(match self {
            NamesOp::List => NamesOp::List,
            NamesOp::Get(prefix) => NamesOp::Get(prefix.copy(alloc)?),
            NamesOp::Put(prefix, name) => NamesOp::Put(prefix.copy(alloc)?, name.copy(alloc)?),
            NamesOp::Remove(prefix) => NamesOp::Remove(prefix.copy(alloc)?),
            NamesOp::Clear => NamesOp::Clear,
        })
    }
}

impl Drop for Op {
    fn drop(self) {
        match self {
            Op::Begin(_) => {}
            Op::Read { txn: _, ask } => drop(ask),
            Op::Step {
                txn: _,
                query,
                number: _,
            } => drop(query),
            Op::Write { txn: _, changes } => drop(changes),
            Op::Commit(_) => {}
            Op::Rollback(_) => {}
            Op::Ping(_) => {}
            Op::Names(names) => drop(names),
        }
    }
}

impl Duplicate for Op {
    fn copy(&self, alloc: Global) -> Result<Op, Memory> {
        Ok(match self {
            Op::Begin(level) => Op::Begin(*level),
            Op::Read { txn, ask } => Op::Read {
                txn: *txn,
                ask: ask.copy(alloc)?,
            },
            Op::Step { txn, query, number } => Op::Step {
                txn: *txn,
                query: query.copy(alloc)?,
                number: *number,
            },
            Op::Write { txn, changes } => Op::Write {
                txn: *txn,
                changes: changes.copy(alloc)?,
            },
            Op::Commit(txn) => Op::Commit(*txn),
            Op::Rollback(txn) => Op::Rollback(*txn),
            Op::Ping(txn) => Op::Ping(*txn),
            Op::Names(names) => Op::Names(names.copy(alloc)?),
        })
    }
}
