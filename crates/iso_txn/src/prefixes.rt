ghost use Rattle.std.specs.Prelude.{◌≡◌, [], not, filter, find, length, IfOk, OnOk, OnErr};
ghost use Rattle.std.specs.List.{list_any};
ghost use Rattle.journal.specs.Committed.{is_prefix, with_prefix};
ghost use Rattle.journal.specs.Replies.{name_reply};

use journal::{Names, Reply};
use rdf_term::{Duplicate, Memory, Text};
use std::alloc::Global;
use std::collections::BTreeMap;
use std::marker::Model;

/// Prefixes, each with the name that it stands for. Contracts see them as the list of the pairs in
/// the order of the prefixes.
#[derive(Drop)]
pub(crate) struct Prefixes {
    alloc: Global,
    names: BTreeMap<Text, Text>,
}

impl Model for Prefixes {
    ghost use Rattle.std.specs.Prelude.{List, ℕ};

    ghost Value = { List (List ℕ × List ℕ) };

    ghost view = { λ it. it.names.entries };
}

/// The pairs of a map, in its order.
fn listed(alloc: Global, names: &BTreeMap<Text, Text>) -> Result<Names, Memory>
    ensures { IfOk result (λ pairs. pairs ≡ names.now.entries) }
{
    let mut pairs = Names::new(alloc);
    for (prefix, name) in names {
        pairs.push((prefix.copy(alloc)?, name.copy(alloc)?))?;
    }
    Ok(pairs)
}

impl Prefixes {
    /// No prefixes, which take no memory.
    pub(crate) fn new(alloc: Global) -> Prefixes
        ensures { result ≡ [] }
    {
        Prefixes {
            alloc,
            names: BTreeMap::new(alloc),
        }
    }

    /// The number of prefixes.
    pub(crate) fn len(&self) -> usize
        ensures { result ≡ length self.now }
    {
        self.names.len()
    }

    /// Whether a prefix stands for something.
    pub(crate) fn has(&self, prefix: &Text) -> bool
        ensures { result ≡ list_any (is_prefix prefix.now) self.now }
    {
        self.names.contains_key(prefix)
    }

    /// All pairs.
    pub(crate) fn list(&self) -> Result<Names, Memory>
        ensures { IfOk result (λ names. names ≡ self.now) }
    {
        let names = listed(self.alloc, &self.names)?;
        Ok(names)
    }

    /// What a question for the name of a prefix is answered.
    pub(crate) fn get(&self, prefix: &Text) -> Result<Reply, Memory>
        ensures { IfOk result (λ reply. reply ≡ name_reply (find (is_prefix prefix.now) self.now)) }
    {
        match self.names.get(prefix) {
            Some(name) => Ok(Reply::Prefix(name.copy(self.alloc)?)),
            None => Ok(Reply::NoPrefix),
        }
    }

    /// Makes a prefix stand for a name. Without memory the prefixes stay as they were.
    pub(crate) fn put(&mut self, prefix: &Text, name: &Text) -> Result<(), Memory>
        ensures ok { OnOk result (self.new ≡ with_prefix prefix.now name.now self.old) }
        ensures memory { OnErr result (self.new ≡ self.old) }
    {
        let prefix = prefix.copy(self.alloc)?;
        let name = name.copy(self.alloc)?;
        self.names.insert(prefix, name)?;
        Ok(())
    }

    /// Makes a prefix stand for nothing.
    pub(crate) fn remove(&mut self, prefix: &Text)
        ensures { self.new ≡ filter (λ pair. not (is_prefix prefix.now pair)) self.old }
    {
        // Its clause says that the prefixes ascend.
        let _ = self.names.len();
        let _ = self.names.remove(prefix);
    }

    /// Makes every prefix stand for nothing.
    pub(crate) fn clear(&mut self)
        ensures { self.new ≡ [] }
    {
        self.names.clear();
    }
}
