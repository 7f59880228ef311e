//! Two asks, ops or entries are equal where all their parts are.
ghost use Rattle.std.specs.Prelude.{◌≡◌, ◌↔◌, IsTrue};
ghost use Rattle.std.specs.Cmp.{partial_equiv_from_equiv};
ghost use Rattle.journal.specs.Equality.{ask_eq, change_eq, changes_eq, entry_eq, names_op_eq, op_eq, pattern_eq, pick_eq};
ghost use Rattle.journal.specs.EqualityLaws.{ask_equiv, entry_equiv, names_op_equiv, op_equiv};

use crate::{Ask, Entry, NamesOp, Op};
use change_set::Change;
use rdf_term::{GraphPick, Pattern};

fn is_same_pick(pick: &GraphPick, other: &GraphPick) -> bool
    ensures { result ≡ pick_eq pick.now other.now }
{
    match (pick, other) {
        (GraphPick::Any, GraphPick::Any) => true,
        (GraphPick::NamedOnly, GraphPick::NamedOnly) => true,
        (GraphPick::One(graph), GraphPick::One(other)) => *graph == *other,
        _ => false,
    }
}

fn is_same_pattern(pattern: &Pattern, other: &Pattern) -> bool
    ensures { result ≡ pattern_eq pattern.now other.now }
{
    pattern.s == other.s
        && (pattern.p == other.p && (pattern.o == other.o && is_same_pick(&pattern.c, &other.c)))
}

fn is_same_change(change: &Change, other: &Change) -> bool
    ensures { result ≡ change_eq change.now other.now }
{
    match (change, other) {
        (Change::Add(quad), Change::Add(other)) => *quad == *other,
        (Change::Remove(quad), Change::Remove(other)) => *quad == *other,
        (Change::RemoveMatching(pattern), Change::RemoveMatching(other)) => {
            is_same_pattern(pattern, other)
        }
        _ => false,
    }
}

fn are_same_changes(changes: &[Change], others: &[Change]) -> bool
    ensures { result ≡ changes_eq changes.now others.now }
{
    let mut left = changes;
    let mut others_left = others;
    while let Some((change, rest)) = left.split_first() {
        let Some((other, others_rest)) = others_left.split_first() else {
            return false;
        };
        if !is_same_change(change, other) {
            return false;
        }
        left = rest;
        others_left = others_rest;
    }
    others_left.is_empty()
}

impl Ask {
    fn is_same(&self, other: &Ask) -> bool
        ensures { result ≡ ask_eq self.now other.now }
    {
        match (self, other) {
            (Ask::Query(query), Ask::Query(other)) => *query == *other,
            (
                Ask::List { s, p, o, contexts },
                Ask::List {
                    s: others_s,
                    p: others_p,
                    o: others_o,
                    contexts: others_contexts,
                },
            ) => {
                *s == *others_s
                    && (*p == *others_p && (*o == *others_o && *contexts == *others_contexts))
            }
            (
                Ask::Size { contexts },
                Ask::Size {
                    contexts: others_contexts,
                },
            ) => *contexts == *others_contexts,
            (Ask::Contexts, Ask::Contexts) => true,
            _ => false,
        }
    }
}

impl PartialEq for Ask {
    ghost eq = { ask_eq };

    ghost laws = { partial_equiv_from_equiv ask_equiv };

    fn eq(&self, other: &Ask) -> bool
        ensures value { result ≡ ask_eq self.now other.now }
        ensures same { IsTrue result ↔ (self.now ≡ other.now) }
    {
        self.is_same(other)
    }
}

impl Eq for Ask {
    ghost laws = { ask_equiv };
}

impl NamesOp {
    fn is_same(&self, other: &NamesOp) -> bool
        ensures { result ≡ names_op_eq self.now other.now }
    {
        match (self, other) {
            (NamesOp::List, NamesOp::List) => true,
            (NamesOp::Get(prefix), NamesOp::Get(other)) => *prefix == *other,
            (NamesOp::Put(prefix, name), NamesOp::Put(others_prefix, others_name)) => {
                *prefix == *others_prefix && *name == *others_name
            }
            (NamesOp::Remove(prefix), NamesOp::Remove(other)) => *prefix == *other,
            (NamesOp::Clear, NamesOp::Clear) => true,
            _ => false,
        }
    }
}

impl PartialEq for NamesOp {
    ghost eq = { names_op_eq };

    ghost laws = { partial_equiv_from_equiv names_op_equiv };

    fn eq(&self, other: &NamesOp) -> bool
        ensures value { result ≡ names_op_eq self.now other.now }
        ensures same { IsTrue result ↔ (self.now ≡ other.now) }
    {
        self.is_same(other)
    }
}

impl Eq for NamesOp {
    ghost laws = { names_op_equiv };
}

impl Op {
    fn is_same(&self, other: &Op) -> bool
        ensures { result ≡ op_eq self.now other.now }
    {
        match (self, other) {
            (Op::Begin(level), Op::Begin(other)) => *level == *other,
            (
                Op::Read { txn, ask },
                Op::Read {
                    txn: others_txn,
                    ask: others_ask,
                },
            ) => *txn == *others_txn && *ask == *others_ask,
            (
                Op::Step { txn, query, number },
                Op::Step {
                    txn: others_txn,
                    query: others_query,
                    number: others_number,
                },
            ) => *txn == *others_txn && (*query == *others_query && *number == *others_number),
            (
                Op::Write { txn, changes },
                Op::Write {
                    txn: others_txn,
                    changes: others_changes,
                },
            ) => {
                *txn == *others_txn
                    && are_same_changes(changes.as_slice(), others_changes.as_slice())
            }
            (Op::Commit(txn), Op::Commit(other)) => *txn == *other,
            (Op::Rollback(txn), Op::Rollback(other)) => *txn == *other,
            (Op::Ping(txn), Op::Ping(other)) => *txn == *other,
            (Op::Names(names), Op::Names(other)) => *names == *other,
            _ => false,
        }
    }
}

impl PartialEq for Op {
    ghost eq = { op_eq };

    ghost laws = { partial_equiv_from_equiv op_equiv };

    fn eq(&self, other: &Op) -> bool
        ensures value { result ≡ op_eq self.now other.now }
        ensures same { IsTrue result ↔ (self.now ≡ other.now) }
    {
        self.is_same(other)
    }
}

impl Eq for Op {
    ghost laws = { op_equiv };
}

impl Entry {
    fn is_same(&self, other: &Entry) -> bool
        ensures { result ≡ entry_eq self.now other.now }
    {
        self.seat == other.seat && self.op == other.op
    }
}

impl PartialEq for Entry {
    ghost eq = { entry_eq };

    ghost laws = { partial_equiv_from_equiv entry_equiv };

    fn eq(&self, other: &Entry) -> bool
        ensures value { result ≡ entry_eq self.now other.now }
        ensures same { IsTrue result ↔ (self.now ≡ other.now) }
    {
        self.is_same(other)
    }
}

impl Eq for Entry {
    ghost laws = { entry_equiv };
}
