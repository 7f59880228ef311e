//! Entries and answers as plain data, and a repository's answers to them.
ghost use Rattle.std.specs.Prelude.{◌≡◌};
ghost use Rattle.iso_txn.specs.Repository.{AreAllowed};

use crate::quads::{Content, Step, ask, changes, number_of, number_of_pattern, seen};
use iso_txn::RepoState;
use journal::{Level, Limits, Names, NamesOp, Reply, StoreFault, Txn};
use quad_index::Order;
use rdf_term::{Memory, Text};
use std::alloc::Global;

/// What is asked of the prefixes or done to them, by the numbers of prefixes and of names.
#[derive(Clone, Copy)]
pub(crate) enum Naming {
    List,
    Get(usize),
    Put(usize, usize),
    Remove(usize),
    Clear,
}

/// What an entry does.
#[derive(Clone, Copy)]
pub(crate) enum Act {
    Begin(Level),
    /// An ask that observes the pattern of a number.
    Read(Option<Txn>, usize),
    /// Several changes, in their order.
    Write(Option<Txn>, &'static [Step]),
    Commit(Txn),
    Rollback(Txn),
    Ping(Txn),
    Names(Naming),
}

/// For each of three prefixes, the number of the name that it stands for.
#[derive(Clone, Copy, PartialEq, Eq)]
pub(crate) struct Prefixes {
    pub(crate) empty: Option<usize>,
    pub(crate) a: Option<usize>,
    pub(crate) b: Option<usize>,
}

/// No prefix stands for anything.
pub(crate) const NO_PREFIXES: Prefixes = Prefixes {
    empty: None,
    a: None,
    b: None,
};

impl Prefixes {
    /// What the prefix of a number stands for.
    pub(crate) fn name(self, prefix: usize) -> Option<usize> {
        match prefix {
            0 => self.empty,
            1 => self.a,
            _ => self.b,
        }
    }

    /// The prefixes where the one of a number stands for this.
    pub(crate) fn with(self, prefix: usize, name: Option<usize>) -> Prefixes {
        match prefix {
            0 => Prefixes {
                empty: name,
                ..self
            },
            1 => Prefixes { a: name, ..self },
            _ => Prefixes { b: name, ..self },
        }
    }

    /// How many prefixes stand for something.
    pub(crate) fn count(self) -> usize {
        [self.empty, self.a, self.b]
            .iter()
            .filter(|name| name.is_some())
            .count()
    }
}

/// What an entry is answered.
#[derive(Clone, Copy, PartialEq, Eq)]
pub(crate) enum Answer {
    Begun(Txn),
    Done,
    NoTransaction,
    TooManyOpen,
    /// The numbers of a pattern and of a quad.
    Conflict(usize, usize),
    TooLarge,
    /// What a read sees.
    Seen(Content),
    Prefixes(Prefixes),
    Prefix(usize),
    NoPrefix,
    /// Nothing else is answered by these entries.
    Other,
}

/// The texts of the prefixes, in their order.
const PREFIXES: [&str; 3] = ["", "a", "b"];

const NAMES: [&str; 2] = ["urn:x", "urn:y"];

fn text_at(alloc: Global, texts: &[&str], number: usize) -> Result<Text, Memory> {
    match texts.get(number) {
        Some(text) => Text::from_chars(alloc, text),
        None => Err(Memory),
    }
}

fn number_in(texts: &[&str], wanted: &Text) -> Option<usize> {
    texts.iter().position(|text| *text == wanted.as_str())
}

fn put(alloc: Global, prefix: usize, name: usize) -> Result<NamesOp, Memory> {
    let prefix = text_at(alloc, &PREFIXES, prefix)?;
    let name = text_at(alloc, &NAMES, name)?;
    Ok(NamesOp::Put(prefix, name))
}

fn names_op(alloc: Global, naming: Naming) -> Result<NamesOp, Memory> {
    match naming {
        Naming::List => Ok(NamesOp::List),
        Naming::Get(prefix) => Ok(NamesOp::Get(text_at(alloc, &PREFIXES, prefix)?)),
        Naming::Put(prefix, name) => put(alloc, prefix, name),
        Naming::Remove(prefix) => Ok(NamesOp::Remove(text_at(alloc, &PREFIXES, prefix)?)),
        Naming::Clear => Ok(NamesOp::Clear),
    }
}

/// The listed prefixes, where they stand in their order.
fn prefixes_of(names: &Names) -> Option<Prefixes> {
    let mut prefixes = NO_PREFIXES;
    let mut least = 0usize;
    for (prefix, name) in names.as_slice() {
        let number = number_in(&PREFIXES, prefix)?;
        if number < least {
            return None;
        }
        prefixes = prefixes.with(number, number_in(&NAMES, name));
        least = number.saturating_add(1);
    }
    Some(prefixes)
}

/// The answer that a reply gives.
pub(crate) fn answer_of(reply: &Reply) -> Answer {
    match reply {
        Reply::Begun(txn) => Answer::Begun(*txn),
        Reply::Done => Answer::Done,
        Reply::NoTransaction => Answer::NoTransaction,
        Reply::TooManyOpen => Answer::TooManyOpen,
        Reply::Conflict(pattern, quad) => {
            Answer::Conflict(number_of_pattern(pattern), number_of(quad))
        }
        Reply::TooLarge => Answer::TooLarge,
        Reply::Prefixes(names) => match prefixes_of(names) {
            Some(prefixes) => Answer::Prefixes(prefixes),
            None => Answer::Other,
        },
        Reply::Prefix(name) => match number_in(&NAMES, name) {
            Some(number) => Answer::Prefix(number),
            None => Answer::Other,
        },
        Reply::NoPrefix => Answer::NoPrefix,
        _ => Answer::Other,
    }
}

/// A repository without entries.
pub(crate) fn repository(alloc: Global, limits: Limits) -> Result<RepoState, StoreFault>
    requires { AreAllowed limits }
{
    let orders = Order::standard(alloc)?;
    Ok(RepoState::new(alloc, &orders, limits)?)
}

/// Begins a transaction.
pub(crate) fn begun(repo: &mut RepoState, level: Level) -> Result<Answer, StoreFault> {
    let reply = repo.begin(0, level)?;
    Ok(answer_of(&reply))
}

fn read(
    alloc: Global,
    repo: &mut RepoState,
    txn: Option<Txn>,
    pattern: usize,
) -> Result<Answer, StoreFault> {
    let ask = ask(alloc, pattern)?;
    let pinned = repo.pin_read(0, txn, &ask)?;
    match seen(alloc, &pinned)? {
        Some(content) => Ok(Answer::Seen(content)),
        None => Ok(Answer::NoTransaction),
    }
}

fn written(
    alloc: Global,
    repo: &mut RepoState,
    txn: Option<Txn>,
    steps: &[Step],
) -> Result<Answer, StoreFault> {
    let changes = changes(alloc, steps)?;
    let reply = repo.write(0, txn, &changes)?;
    Ok(answer_of(&reply))
}

fn committed(repo: &mut RepoState, txn: Txn) -> Result<Answer, StoreFault> {
    let reply = repo.commit(0, txn)?;
    Ok(answer_of(&reply))
}

fn rolled_back(repo: &mut RepoState, txn: Txn) -> Result<Answer, StoreFault> {
    let reply = repo.rollback(0, txn)?;
    Ok(answer_of(&reply))
}

fn pinged(repo: &mut RepoState, txn: Txn) -> Result<Answer, StoreFault> {
    let reply = repo.ping(0, txn)?;
    Ok(answer_of(&reply))
}

fn named(alloc: Global, repo: &mut RepoState, naming: Naming) -> Result<Answer, StoreFault> {
    let op = names_op(alloc, naming)?;
    let reply = repo.names(0, &op)?;
    Ok(answer_of(&reply))
}

/// The answer of a repository to an entry.
pub(crate) fn entered(alloc: Global, repo: &mut RepoState, act: Act) -> Result<Answer, StoreFault> {
    match act {
        Act::Begin(level) => begun(repo, level),
        Act::Read(txn, pattern) => read(alloc, repo, txn, pattern),
        Act::Write(txn, steps) => written(alloc, repo, txn, steps),
        Act::Commit(txn) => committed(repo, txn),
        Act::Rollback(txn) => rolled_back(repo, txn),
        Act::Ping(txn) => pinged(repo, txn),
        Act::Names(naming) => named(alloc, repo, naming),
    }
}
