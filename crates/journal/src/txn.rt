ghost use Rattle.std.specs.Prelude.{◌≡◌, ◌↔◌, IsTrue};
ghost use Rattle.std.specs.Cmp.{partial_equiv_from_equiv};
ghost use Rattle.journal.specs.Levels.{is_txn, commits_at_once};
ghost use Rattle.journal.specs.LevelLaws.{txn_equiv};

use crate::Level;

/// A transaction: the place of its Begin in the journal, and its level.
#[derive(Clone, Copy, Debug)]
pub struct Txn {
    pub place: u64,
    pub level: Level,
}

impl Txn {
    /// Whether a write in the transaction, or in none, is committed at once.
    pub fn commits_at_once(txn: Option<Txn>) -> bool
        ensures { result ≡ commits_at_once txn }
    {
        match txn {
            None => true,
            Some(txn) => txn.level == Level::NoIsolation,
        }
    }
}

impl PartialEq for Txn {
    ghost eq = { is_txn };

    ghost laws = { partial_equiv_from_equiv txn_equiv };

    fn eq(&self, other: &Txn) -> bool
        ensures value { result ≡ is_txn self.now other.now }
        ensures same { IsTrue result ↔ (self.now ≡ other.now) }
    {
        self.place == other.place && self.level == other.level
    }
}

impl Eq for Txn {
    ghost laws = { txn_equiv };
}
