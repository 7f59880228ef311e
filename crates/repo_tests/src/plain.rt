//! A plain program that keeps the entries of a journal, with what is committed behind each, and answers a
//! new one by the definitions: by looking at all entries again.
use crate::acts::{Act, Naming, named};
use crate::asks::{ask_at, found, observer, steps_of};
use crate::quads::{Content, EMPTY, Looked, bytes, edited, size};
use crate::replies::{Answer, is_refusal};
use journal::{Level, Limits, Txn};
use std::alloc::{AllocError, Global};

/// An entry, whether it was accepted, and what is there behind it.
#[derive(Clone, Copy)]
struct Judged {
    act: Act,
    /// Of the entries of one act, the number of this one.
    number: u32,
    accepted: bool,
    committed: Content,
    name: Option<usize>,
}

/// The entries so far, with the limits.
#[derive(Drop)]
pub(crate) struct Plain {
    past: Vec<Judged>,
    limits: Limits,
}

/// What is committed.
fn committed(past: &[Judged]) -> Content {
    match past.last() {
        Some(entry) => entry.committed,
        None => EMPTY,
    }
}

/// What the prefix stands for.
fn name(past: &[Judged]) -> Option<usize> {
    match past.last() {
        Some(entry) => entry.name,
        None => None,
    }
}

fn begins(entry: &Judged, level: Level) -> bool {
    match entry.act {
        Act::Begin(begun) => entry.accepted && begun == level,
        _ => false,
    }
}

fn ends(entry: &Judged, txn: Txn) -> bool {
    match entry.act {
        Act::Commit(ended) | Act::Rollback(ended) => entry.accepted && ended == txn,
        _ => false,
    }
}

fn is_ended(past: &[Judged], txn: Txn) -> bool {
    for entry in past {
        if ends(entry, txn) {
            return true;
        }
    }
    false
}

fn is_open(past: &[Judged], txn: Txn) -> bool {
    match past.get(txn.place as usize) {
        Some(begin) => begins(begin, txn.level) && !is_ended(past, txn),
        None => false,
    }
}

fn is_begin_of_open(past: &[Judged], place: usize, act: Act) -> bool {
    match act {
        Act::Begin(level) => {
            let place = place as u64;
            is_open(past, Txn { place, level })
        }
        _ => false,
    }
}

fn open_count(past: &[Judged]) -> u32 {
    let mut count = 0u32;
    for (place, entry) in past.iter().enumerate() {
        if is_begin_of_open(past, place, entry.act) {
            count = count.saturating_add(1);
        }
    }
    count
}

/// What an entry leaves of a content where it is a write in the transaction.
fn with_own_of(entry: &Judged, txn: Txn, content: Content) -> Content {
    match entry.act {
        Act::Write(Some(writer), edits) if entry.accepted && writer == txn => {
            edited(content, edits)
        }
        _ => content,
    }
}

/// What the accepted writes in the transaction leave of a content.
fn with_own(past: &[Judged], txn: Txn, content: Content) -> Content {
    let mut content = content;
    for entry in past {
        let next = with_own_of(entry, txn, content);
        content = next;
    }
    content
}

/// What an entry leaves of a content where it is a pending write at READ_UNCOMMITTED.
fn with_pending(past: &[Judged], entry: &Judged, content: Content) -> Content {
    match entry.act {
        Act::Write(Some(writer), edits)
            if entry.accepted && writer.level == Level::ReadUncommitted && is_open(past, writer) =>
            { edited(content, edits) }
        _ => content,
    }
}

/// What is committed with the pending writes at READ_UNCOMMITTED.
fn dirty(past: &[Judged]) -> Content {
    let mut content = committed(past);
    for entry in past {
        let next = with_pending(past, entry, content);
        content = next;
    }
    content
}

/// What was committed before a transaction began.
fn at_begin(past: &[Judged], txn: Txn) -> Content {
    match past.get(..txn.place as usize) {
        Some(before) => committed(before),
        None => EMPTY,
    }
}

fn view(past: &[Judged], txn: Option<Txn>) -> Content {
    let Some(txn) = txn else {
        return committed(past);
    };
    match txn.level {
        Level::NoIsolation => committed(past),
        Level::ReadUncommitted => dirty(past),
        Level::ReadCommitted | Level::SnapshotRead => with_own(past, txn, committed(past)),
        Level::Snapshot | Level::Serializable => with_own(past, txn, at_begin(past, txn)),
    }
}

/// Whether the quad of a number was committed or taken away since a transaction began.
fn is_changed_since(past: &[Judged], txn: Txn, number: usize) -> bool {
    let mut was = at_begin(past, txn);
    for (place, entry) in past.iter().enumerate() {
        if place as u64 > txn.place {
            if was.get(number) != entry.committed.get(number) {
                return true;
            }
            was = entry.committed;
        }
    }
    false
}

/// The pattern of a read in the transaction that observed the quad of a number.
fn observed_by(entry: &Judged, txn: Txn, number: usize) -> Option<Looked> {
    match entry.act {
        Act::Read(Some(reader), ask) if entry.accepted && reader == txn => {
            observer(ask_at(ask), number)
        }
        _ => None,
    }
}

fn observed(past: &[Judged], txn: Txn, number: usize) -> Option<Looked> {
    for entry in past {
        if let Some(pattern) = observed_by(entry, txn, number) {
            return Some(pattern);
        }
    }
    None
}

/// The least quad that was changed since a SERIALIZABLE transaction began and that it observed, with the
/// first such pattern.
fn conflict(past: &[Judged], txn: Txn) -> Option<Answer> {
    for number in 0..8 {
        if let Some(pattern) = observed(past, txn, number) {
            if is_changed_since(past, txn, number) {
                return Some(Answer::Conflict(pattern, number));
            }
        }
    }
    None
}

/// What an accepted act leaves of what is committed.
fn with_effect(past: &[Judged], act: Act) -> Content {
    let content = committed(past);
    match act {
        Act::Write(txn, edits) if Txn::commits_at_once(txn) => edited(content, edits),
        Act::Commit(txn) if txn.level != Level::NoIsolation => with_own(past, txn, content),
        _ => content,
    }
}

/// What an act leaves of the prefix.
fn with_name(name: Option<usize>, act: Act) -> Option<usize> {
    match act {
        Act::Names(Naming::Put(name)) => Some(name),
        Act::Names(Naming::Remove) | Act::Names(Naming::Clear) => None,
        _ => name,
    }
}

fn named_answer(name: Option<usize>, naming: Naming) -> Answer {
    match naming {
        Naming::List => Answer::Prefixes(name),
        Naming::Get => match name {
            Some(name) => Answer::Prefix(name),
            None => Answer::NoPrefix,
        },
        _ => Answer::Done,
    }
}

/// How many entries an act makes.
fn entries_of(act: Act) -> u32 {
    match act {
        Act::Steps(_, ask) => steps_of(ask_at(ask)),
        _ => 1,
    }
}

impl Plain {
    pub(crate) fn new(alloc: Global, limits: Limits) -> Plain {
        Plain {
            past: Vec::new(alloc),
            limits,
        }
    }

    fn begun(&self, level: Level) -> Answer {
        if open_count(self.past.as_slice()) >= self.limits.txns {
            return Answer::TooManyOpen;
        }
        let place = self.past.len() as u64;
        Answer::Begun(Txn { place, level })
    }

    fn read(&self, txn: Option<Txn>, ask: usize) -> Answer {
        found(
            ask_at(ask),
            view(self.past.as_slice(), txn),
            self.limits.rows,
        )
    }

    fn changed(&self, act: Act) -> Answer {
        let content = with_effect(self.past.as_slice(), act);
        if size(&content) <= self.limits.quads && bytes(&content) <= self.limits.bytes {
            Answer::Done
        } else {
            Answer::TooLarge
        }
    }

    fn ended(&self, txn: Txn) -> Answer {
        let conflict = if txn.level == Level::Serializable {
            conflict(self.past.as_slice(), txn)
        } else {
            None
        };
        match conflict {
            Some(conflict) => conflict,
            None => self.changed(Act::Commit(txn)),
        }
    }

    fn answer(&self, act: Act) -> Answer {
        let past = self.past.as_slice();
        match named(act) {
            Some(txn) if !is_open(past, txn) => return Answer::NoTransaction,
            _ => {}
        }
        match act {
            Act::Begin(level) => self.begun(level),
            Act::Read(txn, ask) => self.read(txn, ask),
            Act::Steps(txn, ask) => self.read(Some(txn), ask),
            Act::Write(txn, _) if Txn::commits_at_once(txn) => self.changed(act),
            Act::Commit(txn) => self.ended(txn),
            Act::Names(naming) => named_answer(name(past), naming),
            _ => Answer::Done,
        }
    }

    /// Adds the entries of an act and answers the last one.
    pub(crate) fn enter(&mut self, act: Act) -> Result<Answer, AllocError> {
        let answer = self.answer(act);
        let accepted = !is_refusal(answer);
        let past = self.past.as_slice();
        let committed = if accepted {
            with_effect(past, act)
        } else {
            committed(past)
        };
        let name = if accepted {
            with_name(name(past), act)
        } else {
            name(past)
        };
        for number in 0..entries_of(act) {
            self.past.push(Judged {
                act,
                number,
                accepted,
                committed,
                name,
            })?;
        }
        Ok(answer)
    }

    /// The number of entries.
    pub(crate) fn length(&self) -> u64 {
        self.past.len() as u64
    }

    /// The act that made the entry at a place, and the number of the entry among those of the act.
    pub(crate) fn made_at(&self, place: usize) -> Option<(Act, u32)> {
        match self.past.get(place) {
            Some(entry) => Some((entry.act, entry.number)),
            None => None,
        }
    }
}
