//! A plain program that keeps the entries of a journal, with what is committed behind each, and answers a
//! new one by the definitions: by looking at all entries again.
use crate::acts::{Act, Answer, NO_PREFIXES, Naming, Prefixes};
use crate::quads::{Content, EMPTY, bytes, is_matched, size, walked};
use journal::{Level, Limits, Txn};
use std::alloc::{AllocError, Global};

/// An entry, whether it was accepted, and what is committed behind it.
#[derive(Clone, Copy)]
struct Judged {
    act: Act,
    accepted: bool,
    committed: Content,
}

/// The entries so far, with the limits.
#[derive(Drop)]
pub(crate) struct Plain {
    past: Vec<Judged>,
    limits: Limits,
}

fn is_begin(entry: &Judged, level: Level) -> bool {
    match entry.act {
        Act::Begin(begun) => entry.accepted && begun == level,
        _ => false,
    }
}

fn is_end(entry: &Judged, txn: Txn) -> bool {
    match entry.act {
        Act::Commit(ended) | Act::Rollback(ended) => entry.accepted && ended == txn,
        _ => false,
    }
}

fn is_ended(behind: &[Judged], txn: Txn) -> bool {
    for entry in behind {
        if is_end(entry, txn) {
            return true;
        }
    }
    false
}

fn is_open(past: &[Judged], txn: Txn) -> bool {
    let Some(from) = past.get(txn.place as usize..) else {
        return false;
    };
    match from.split_first() {
        Some((begin, behind)) => is_begin(begin, txn.level) && !is_ended(behind, txn),
        None => false,
    }
}

/// The transaction that the entry at a place began, where it is open.
fn open_at(past: &[Judged], place: usize, act: Act) -> Option<Txn> {
    let Act::Begin(level) = act else {
        return None;
    };
    let txn = Txn {
        place: place as u64,
        level,
    };
    if is_open(past, txn) { Some(txn) } else { None }
}

fn open_count(past: &[Judged]) -> u32 {
    let mut count = 0u32;
    for (place, entry) in past.iter().enumerate() {
        if open_at(past, place, entry.act).is_some() {
            count = count.saturating_add(1);
        }
    }
    count
}

/// What an accepted write in the transaction leaves of a content.
fn with_own_of(entry: &Judged, txn: Txn, content: Content) -> Content {
    match entry.act {
        Act::Write(Some(writer), steps) if entry.accepted && writer == txn => {
            walked(content, steps)
        }
        _ => content,
    }
}

/// What the accepted writes in the transaction leave of a content.
fn with_own(past: &[Judged], txn: Txn, content: Content) -> Content {
    if txn.level == Level::NoIsolation {
        return content;
    }
    let mut content = content;
    for entry in past {
        let next = with_own_of(entry, txn, content);
        content = next;
    }
    content
}

/// What the accepted entry behind others leaves of what is committed.
fn with_effect(past: &[Judged], act: Act, content: Content) -> Content {
    match act {
        Act::Write(txn, steps) if Txn::commits_at_once(txn) => walked(content, steps),
        Act::Commit(txn) => with_own(past, txn, content),
        _ => content,
    }
}

/// What is committed.
fn committed(past: &[Judged]) -> Content {
    match past.last() {
        Some(entry) => entry.committed,
        None => EMPTY,
    }
}

/// What is committed, from all entries again.
fn committed_again(past: &[Judged]) -> Content {
    let mut content = EMPTY;
    for (place, entry) in past.iter().enumerate() {
        if entry.accepted {
            let next = with_effect(&past[..place], entry.act, content);
            content = next;
        }
    }
    content
}

/// What a pending write of a READ_UNCOMMITTED transaction leaves of a content.
fn with_pending(past: &[Judged], entry: &Judged, content: Content) -> Content {
    match entry.act {
        Act::Write(Some(writer), steps)
            if entry.accepted && writer.level == Level::ReadUncommitted && is_open(past, writer) =>
            { walked(content, steps) }
        _ => content,
    }
}

/// What the writes of the open READ_UNCOMMITTED transactions leave of a content.
fn with_dirty(past: &[Judged], content: Content) -> Content {
    let mut content = content;
    for entry in past {
        let next = with_pending(past, entry, content);
        content = next;
    }
    content
}

fn view(past: &[Judged], txn: Option<Txn>) -> Content {
    let Some(txn) = txn else {
        return committed(past);
    };
    match txn.level {
        Level::NoIsolation => committed(past),
        Level::ReadUncommitted => with_dirty(past, committed(past)),
        Level::ReadCommitted | Level::SnapshotRead => with_own(past, txn, committed(past)),
        Level::Snapshot | Level::Serializable => {
            let before = past.len().min(txn.place as usize);
            with_own(past, txn, committed(&past[..before]))
        }
    }
}

/// Whether the quad of a number was committed or taken away since a place.
fn is_changed_since(past: &[Judged], place: usize, number: usize) -> bool {
    let mut was = false;
    for (end, entry) in past.iter().enumerate() {
        let is = entry.committed.get(number) == Some(&true);
        if end > place && is != was {
            return true;
        }
        was = is;
    }
    false
}

/// The first pattern that a read in the transaction observed and that matches the quad of a number.
fn observer(past: &[Judged], txn: Txn, number: usize) -> Option<usize> {
    for entry in past {
        match entry.act {
            Act::Read(Some(reader), pattern)
                if entry.accepted && reader == txn && is_matched(pattern, number) => {
                return Some(pattern);
            }
            _ => {}
        }
    }
    None
}

/// The least quad that was changed since a SERIALIZABLE transaction began and that it observed, behind
/// the pattern.
fn clash(past: &[Judged], txn: Txn) -> Option<(usize, usize)> {
    if txn.level != Level::Serializable {
        return None;
    }
    for number in 0..8 {
        if let Some(pattern) = observer(past, txn, number) {
            if is_changed_since(past, txn.place as usize, number) {
                return Some((pattern, number));
            }
        }
    }
    None
}

/// What an accepted entry leaves of the prefixes.
fn renamed(prefixes: Prefixes, act: Act) -> Prefixes {
    match act {
        Act::Names(Naming::Put(prefix, name)) => prefixes.with(prefix, Some(name)),
        Act::Names(Naming::Remove(prefix)) => prefixes.with(prefix, None),
        Act::Names(Naming::Clear) => NO_PREFIXES,
        _ => prefixes,
    }
}

/// What the prefixes stand for.
fn prefixes_of(past: &[Judged]) -> Prefixes {
    let mut prefixes = NO_PREFIXES;
    for entry in past {
        if entry.accepted {
            prefixes = renamed(prefixes, entry.act);
        }
    }
    prefixes
}

fn named_answer(prefixes: Prefixes, most: u32, naming: Naming) -> Answer {
    match naming {
        Naming::List => Answer::Prefixes(prefixes),
        Naming::Get(prefix) => match prefixes.name(prefix) {
            Some(name) => Answer::Prefix(name),
            None => Answer::NoPrefix,
        },
        Naming::Put(prefix, _)
            if prefixes.name(prefix).is_none() && prefixes.count() >= most as usize => {
            Answer::TooLarge
        }
        _ => Answer::Done,
    }
}

/// The transaction that an entry names.
fn named(act: Act) -> Option<Txn> {
    match act {
        Act::Begin(_) | Act::Names(_) => None,
        Act::Read(txn, _) | Act::Write(txn, _) => txn,
        Act::Commit(txn) | Act::Rollback(txn) | Act::Ping(txn) => Some(txn),
    }
}

fn is_refusal(answer: Answer) -> bool {
    match answer {
        Answer::NoTransaction | Answer::TooManyOpen | Answer::Conflict(_, _) | Answer::TooLarge =>
            true,
        _ => false,
    }
}

impl Plain {
    pub(crate) fn new(alloc: Global, limits: Limits) -> Plain {
        Plain {
            past: Vec::new(alloc),
            limits,
        }
    }

    fn done_if_it_fits(&self, content: Content) -> Answer {
        if size(&content) <= self.limits.quads && bytes(&content) <= self.limits.bytes {
            Answer::Done
        } else {
            Answer::TooLarge
        }
    }

    fn begun(&self, level: Level) -> Answer {
        let past = self.past.as_slice();
        if open_count(past) >= self.limits.txns {
            return Answer::TooManyOpen;
        }
        Answer::Begun(Txn {
            place: past.len() as u64,
            level,
        })
    }

    fn ended(&self, txn: Txn) -> Answer {
        let past = self.past.as_slice();
        match clash(past, txn) {
            Some((pattern, number)) => Answer::Conflict(pattern, number),
            None => self.done_if_it_fits(with_own(past, txn, committed(past))),
        }
    }

    fn answer(&self, act: Act) -> Answer {
        let past = self.past.as_slice();
        match named(act) {
            Some(txn) if !is_open(past, txn) => return Answer::NoTransaction,
            _ => {}
        }
        match act {
            Act::Begin(level) => self.begun(level),
            Act::Read(txn, _) => Answer::Seen(view(past, txn)),
            Act::Write(txn, steps) if Txn::commits_at_once(txn) => {
                self.done_if_it_fits(walked(committed(past), steps))
            }
            Act::Commit(txn) => self.ended(txn),
            Act::Names(naming) => named_answer(prefixes_of(past), self.limits.names, naming),
            _ => Answer::Done,
        }
    }

    /// Adds an entry and answers it.
    pub(crate) fn enter(&mut self, act: Act) -> Result<Answer, AllocError> {
        let answer = self.answer(act);
        let accepted = !is_refusal(answer);
        let past = self.past.as_slice();
        let committed = if accepted {
            with_effect(past, act, committed(past))
        } else {
            committed(past)
        };
        self.past.push(Judged {
            act,
            accepted,
            committed,
        })?;
        Ok(answer)
    }

    /// The number of entries.
    pub(crate) fn length(&self) -> u64 {
        self.past.len() as u64
    }

    /// How many quads are committed, from all entries again.
    pub(crate) fn quads(&self) -> u64 {
        size(&committed_again(self.past.as_slice()))
    }

    /// Whether all entries again leave what was kept behind the last one.
    pub(crate) fn is_kept_right(&self) -> bool {
        committed_again(self.past.as_slice()) == committed(self.past.as_slice())
    }

    /// How many commits were accepted.
    pub(crate) fn commits(&self) -> u64 {
        let mut count = 0u64;
        for entry in self.past.iter() {
            if let Act::Commit(_) = entry.act {
                if entry.accepted {
                    count = count.saturating_add(1);
                }
            }
        }
        count
    }
}
