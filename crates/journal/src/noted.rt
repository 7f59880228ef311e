ghost use Rattle.std.specs.Prelude.{◌≡◌};
ghost use Rattle.journal.specs.declared.op.Op.TheVariants as op;
ghost use Rattle.journal.specs.Journal.{entry_of};

use crate::{Ask, Level, NamesOp, Txn};
use change_set::Changes;
use query_model::Query;
use std::marker::Model;
use std::snapshot::Snapshot;

/// An entry that is in the proofs alone, noted of values that stay where they are. Contracts see it
/// as the entry. It takes no memory.
pub struct Noted {
    seat: Snapshot<u32>,
    op: NotedOp,
}

enum NotedOp {
    Begin(Snapshot<Level>),
    Read(Snapshot<Option<Txn>>, Snapshot<Ask>),
    Step(Snapshot<Txn>, Snapshot<Query>, Snapshot<u32>),
    Write(Snapshot<Option<Txn>>, Snapshot<Changes>),
    Commit(Snapshot<Txn>),
    Rollback(Snapshot<Txn>),
    Ping(Snapshot<Txn>),
    Names(Snapshot<NamesOp>),
}

impl Model for Noted {
    ghost use Rattle.journal.specs.declared.entry.Entry.{Entry};
    ghost use Rattle.journal.specs.Notes.{noted_op};

    ghost Value = { Entry };

    ghost view = { λ n. record { seat = n.seat.value; op = noted_op n.op } };
}

// By hand, both of them: a derived drop is expanded over all kinds of entries at each place where an
// entry is noted and let go.
impl Drop for Noted {
    fn drop(self) {
        let Noted { seat, op } = self;
        drop(seat);
        drop(op);
    }
}

impl Drop for NotedOp {
    fn drop(self) {
        match self {
            NotedOp::Begin(level) => drop(level),
            NotedOp::Read(txn, ask) => {
                drop(txn);
                drop(ask);
            }
            NotedOp::Step(txn, query, number) => {
                drop(txn);
                drop(query);
                drop(number);
            }
            NotedOp::Write(txn, changes) => {
                drop(txn);
                drop(changes);
            }
            NotedOp::Commit(txn) => drop(txn),
            NotedOp::Rollback(txn) => drop(txn),
            NotedOp::Ping(txn) => drop(txn),
            NotedOp::Names(names) => drop(names),
        }
    }
}

impl Noted {
    ghost use Rattle.journal.specs.Notes.{noted_op};

    fn of(seat: u32, op: NotedOp) -> Noted
        ensures { result ≡ entry_of seat (noted_op op) }
    {
        Noted {
            seat: Snapshot::of(&seat),
            op,
        }
    }

    /// The entry of a Begin.
    pub fn begin(seat: u32, level: Level) -> Noted
        ensures { result ≡ entry_of seat (op.Begin level) }
    {
        Noted::of(seat, NotedOp::Begin(Snapshot::of(&level)))
    }

    /// The entry of a Read.
    pub fn read(seat: u32, txn: Option<Txn>, ask: &Ask) -> Noted
        ensures { result ≡ entry_of seat (op.Read txn ask.now) }
    {
        Noted::of(seat, NotedOp::Read(Snapshot::of(&txn), Snapshot::of(ask)))
    }

    /// The entry of a Step.
    pub fn step(seat: u32, txn: Txn, query: &Query, number: u32) -> Noted
        ensures { result ≡ entry_of seat (op.Step txn query.now number) }
    {
        let noted = NotedOp::Step(
            Snapshot::of(&txn),
            Snapshot::of(query),
            Snapshot::of(&number),
        );
        Noted::of(seat, noted)
    }

    /// The entry of a Write.
    pub fn write(seat: u32, txn: Option<Txn>, changes: &Changes) -> Noted
        ensures { result ≡ entry_of seat (op.Write txn changes.now) }
    {
        Noted::of(
            seat,
            NotedOp::Write(Snapshot::of(&txn), Snapshot::of(changes)),
        )
    }

    /// The entry of a Commit.
    pub fn commit(seat: u32, txn: Txn) -> Noted
        ensures { result ≡ entry_of seat (op.Commit txn) }
    {
        Noted::of(seat, NotedOp::Commit(Snapshot::of(&txn)))
    }

    /// The entry of a Rollback.
    pub fn rollback(seat: u32, txn: Txn) -> Noted
        ensures { result ≡ entry_of seat (op.Rollback txn) }
    {
        Noted::of(seat, NotedOp::Rollback(Snapshot::of(&txn)))
    }

    /// The entry of a Ping.
    pub fn ping(seat: u32, txn: Txn) -> Noted
        ensures { result ≡ entry_of seat (op.Ping txn) }
    {
        Noted::of(seat, NotedOp::Ping(Snapshot::of(&txn)))
    }

    /// The entry of what is asked of the namespaces or done to them.
    pub fn names(seat: u32, names: &NamesOp) -> Noted
        ensures { result ≡ entry_of seat (op.Names names.now) }
    {
        Noted::of(seat, NotedOp::Names(Snapshot::of(names)))
    }
}
