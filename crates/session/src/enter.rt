//! The entries of a call.
ghost use Rattle.std.specs.Prelude.{◌≡◌, ◌+◌, ◌≤◌, ◌<◌, ◌∷◌, [], ℕ, List, Some, length, vec_len, false};
ghost use Rattle.std.specs.Vec.{vec_capacity};
ghost use Rattle.query_model.specs.Solutions.{lookups_of};
ghost use Rattle.journal.specs.declared.ask.Ask.TheVariants as asks;
ghost use Rattle.journal.specs.declared.level.Level.TheVariants as levels;
ghost use Rattle.journal.specs.declared.op.Op.TheVariants as op;
ghost use Rattle.media.specs.declared.form.Form.{Form};
ghost use Rattle.api_calls.specs.Calls.{ops_of};
ghost use Rattle.repo_api.specs.Laws.{IsCallable};
ghost use Rattle.api_calls.specs.declared.call.Call.TheVariants.{On};
ghost use Rattle.session.specs.Entering.{Enters, IsNoted};
ghost use Rattle.session.specs.Turns.{ground};

use crate::store::Store;
use iso_txn::Pinned;
use journal::{Ask, Level, Mark, Op, Reply, StoreFault, Txn, reply_reads_no_later_entry};
use query_model::{Query, lookups_of};
use std::alloc::Global;

/// What came of the entries of a call.
#[derive(Drop)]
pub(crate) enum Entered {
    /// They were made, and this is the reply at the last one.
    Replied(Reply),
    /// They were made, and what is found in this is the reply.
    Pinned(Pinned),
    /// The journal was full before all were made.
    Full,
    /// No memory was found.
    NoMemory,
}

/// Marks the entry of a call of the store, where it was made.
fn noted(made: Result<(u64, Reply), StoreFault>, repo: u32, marks: &mut Vec<Mark>) -> Entered
    requires { vec_len marks.old < vec_capacity marks.old }
    ensures noted { IsNoted repo marks.old.items marks.new.items made result }
    ensures few { vec_len marks.new ≤ vec_len marks.old + 1 }
{
    match made {
        Ok((place, reply)) => {
            marks.push_reserved(Mark { repo, place });
            Entered::Replied(reply)
        }
        Err(StoreFault::JournalFull) => Entered::Full,
        Err(StoreFault::Memory) => Entered::NoMemory,
    }
}

/// A read that makes one entry.
fn enter_pin<T: Store>(
    store: &T,
    pass: &mut T::Pass,
    repo: u32,
    txn: Option<Txn>,
    ask: &Ask,
    marks: &mut Vec<Mark>,
) -> Entered
    requires serves { T.serves store.now pass.old }
    requires repo { repo < length (T.names store.now) }
    requires one { ops_of (op.Read txn ask.now) ≡ op.Read txn ask.now ∷ [] }
    requires room { vec_len marks.old < vec_capacity marks.old }
    ensures pass { T.serves store.now pass.new × (T.seats pass.new ≡ T.seats pass.old) }
    ensures entered { (id : List ℕ) (form : Form) → Enters (ground (T.names store.now) (T.limits store.now) (T.journals pass.new) (T.seats pass.old)) (T.journals pass.old) repo
        (On id (op.Read txn ask.now) form) marks.old.items marks.new.items result }
    ensures few { vec_len marks.new ≤ vec_len marks.old + 1 }
{
    match store.pin(pass, repo, txn, ask) {
        Ok((place, pinned)) => {
            marks.push_reserved(Mark { repo, place });
            Entered::Pinned(pinned)
        }
        Err(StoreFault::JournalFull) => Entered::Full,
        Err(StoreFault::Memory) => Entered::NoMemory,
    }
}

/// The Steps of a query in a READ_COMMITTED transaction, one for each of its look-ups.
fn enter_steps<T: Store>(
    store: &T,
    pass: &mut T::Pass,
    repo: u32,
    alloc: Global,
    txn: Txn,
    query: &Query,
    marks: &mut Vec<Mark>,
) -> Entered
    requires serves { T.serves store.now pass.old }
    requires repo { repo < length (T.names store.now) }
    requires level { txn.level ≡ levels.ReadCommitted }
    requires most { lookups_of query.now ≤ 256 }
    requires room { vec_len marks.old + 256 ≤ vec_capacity marks.old }
    ensures pass { T.serves store.now pass.new × (T.seats pass.new ≡ T.seats pass.old) }
    ensures entered { (id : List ℕ) (form : Form) → Enters (ground (T.names store.now) (T.limits store.now) (T.journals pass.new) (T.seats pass.old)) (T.journals pass.old) repo
        (On id (op.Read (Some txn) (asks.Query query.now)) form) marks.old.items marks.new.items result }
    ensures few { vec_len marks.new ≤ vec_len marks.old + 256 }
{
    reply_reads_no_later_entry();
    let count = lookups_of(query) as u32;
    let mut pinned = Pinned::empty(alloc);
    for number in 0..count {
        match store.step(pass, repo, txn, query, number, &mut pinned) {
            Ok(place) => marks.push_reserved(Mark { repo, place }),
            Err(StoreFault::JournalFull) => return Entered::Full,
            Err(StoreFault::Memory) => return Entered::NoMemory,
        }
    }
    Entered::Pinned(pinned)
}

/// The entries of a query.
fn enter_query<T: Store>(
    store: &T,
    pass: &mut T::Pass,
    repo: u32,
    alloc: Global,
    txn: Option<Txn>,
    ask: &Ask,
    query: &Query,
    marks: &mut Vec<Mark>,
) -> Entered
    requires serves { T.serves store.now pass.old }
    requires repo { repo < length (T.names store.now) }
    requires asked { ask.now ≡ asks.Query query.now }
    requires most { length (ops_of (op.Read txn ask.now)) ≤ 256 }
    requires room { vec_len marks.old + 256 ≤ vec_capacity marks.old }
    ensures pass { T.serves store.now pass.new × (T.seats pass.new ≡ T.seats pass.old) }
    ensures entered { (id : List ℕ) (form : Form) → Enters (ground (T.names store.now) (T.limits store.now) (T.journals pass.new) (T.seats pass.old)) (T.journals pass.old) repo
        (On id (op.Read txn ask.now) form) marks.old.items marks.new.items result }
    ensures few { vec_len marks.new ≤ vec_len marks.old + 256 }
{
    match txn {
        None => enter_pin(store, pass, repo, None, ask, marks),
        Some(txn) => if txn.level == Level::ReadCommitted {
            enter_steps(store, pass, repo, alloc, txn, query, marks)
        } else {
            enter_pin(store, pass, repo, Some(txn), ask, marks)
        },
    }
}

/// The entries of a read.
fn enter_read<T: Store>(
    store: &T,
    pass: &mut T::Pass,
    repo: u32,
    alloc: Global,
    txn: Option<Txn>,
    ask: &Ask,
    marks: &mut Vec<Mark>,
) -> Entered
    requires serves { T.serves store.now pass.old }
    requires repo { repo < length (T.names store.now) }
    requires most { length (ops_of (op.Read txn ask.now)) ≤ 256 }
    requires room { vec_len marks.old + 256 ≤ vec_capacity marks.old }
    ensures pass { T.serves store.now pass.new × (T.seats pass.new ≡ T.seats pass.old) }
    ensures entered { (id : List ℕ) (form : Form) → Enters (ground (T.names store.now) (T.limits store.now) (T.journals pass.new) (T.seats pass.old)) (T.journals pass.old) repo
        (On id (op.Read txn ask.now) form) marks.old.items marks.new.items result }
    ensures few { vec_len marks.new ≤ vec_len marks.old + 256 }
{
    match ask {
        Ask::Query(query) => enter_query(store, pass, repo, alloc, txn, ask, query, marks),
        Ask::List { .. } => enter_pin(store, pass, repo, txn, ask, marks),
        Ask::Size { .. } => enter_pin(store, pass, repo, txn, ask, marks),
        Ask::Contexts => enter_pin(store, pass, repo, txn, ask, marks),
    }
}

/// Makes the entries of an op on a repository, and marks them.
///
/// A Step is no op of a call: the Steps of a query are made of its Read.
pub(crate) fn enter<T: Store>(
    store: &T,
    pass: &mut T::Pass,
    repo: u32,
    alloc: Global,
    op: &Op,
    marks: &mut Vec<Mark>,
) -> Entered
    requires serves { T.serves store.now pass.old }
    requires repo { repo < length (T.names store.now) }
    requires call { IsCallable op.now }
    requires room { vec_len marks.old + 256 ≤ vec_capacity marks.old }
    ensures pass { T.serves store.now pass.new × (T.seats pass.new ≡ T.seats pass.old) }
    ensures entered { (id : List ℕ) (form : Form) → Enters (ground (T.names store.now) (T.limits store.now) (T.journals pass.new) (T.seats pass.old)) (T.journals pass.old) repo
        (On id (op.now) form) marks.old.items marks.new.items result }
    ensures few { vec_len marks.new ≤ vec_len marks.old + 256 }
{
    match op {
        Op::Begin(level) => noted(store.begin(pass, repo, *level), repo, marks),
        Op::Read { txn, ask } => enter_read(store, pass, repo, alloc, *txn, ask, marks),
        Op::Step { .. } => unreachable!(),
        Op::Write { txn, changes } => noted(store.write(pass, repo, *txn, changes), repo, marks),
        Op::Commit(txn) => noted(store.commit(pass, repo, *txn), repo, marks),
        Op::Rollback(txn) => noted(store.rollback(pass, repo, *txn), repo, marks),
        Op::Ping(txn) => noted(store.ping(pass, repo, *txn), repo, marks),
        Op::Names(names) => noted(store.namespaces(pass, repo, names), repo, marks),
    }
}
