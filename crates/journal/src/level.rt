ghost use Rattle.std.specs.Prelude.{◌≡◌, ◌↔◌, IsTrue};
ghost use Rattle.std.specs.Cmp.{partial_equiv_from_equiv};
ghost use Rattle.journal.specs.Levels.{level_number, is_level, sees_begin};
ghost use Rattle.journal.specs.LevelLaws.{level_equiv};

/// The isolation level of a transaction.
#[derive(Clone, Copy, Debug)]
pub enum Level {
    /// NONE: each write is committed at once.
    NoIsolation,
    /// READ_UNCOMMITTED: a read sees the pending changes of all open transactions of this level.
    ReadUncommitted,
    /// READ_COMMITTED: each pattern of a query sees what is committed when it is looked up.
    ReadCommitted,
    /// SNAPSHOT_READ: each read sees what is committed when it is made.
    SnapshotRead,
    /// SNAPSHOT: each read sees what was committed when the transaction began.
    Snapshot,
    /// SERIALIZABLE: as SNAPSHOT, and a commit is refused where a read would have changed.
    Serializable,
}

impl Level {
    /// The number of the level, from 0 for NONE to 5 for SERIALIZABLE.
    pub fn number(self) -> u8
        ensures { result ≡ level_number self }
    {
        match self {
            Level::NoIsolation => 0,
            Level::ReadUncommitted => 1,
            Level::ReadCommitted => 2,
            Level::SnapshotRead => 3,
            Level::Snapshot => 4,
            Level::Serializable => 5,
        }
    }

    /// Whether a transaction of the level reads what was committed before it began.
    pub fn sees_begin(self) -> bool
        ensures { result ≡ sees_begin self }
    {
        matches!(self, Level::Snapshot | Level::Serializable)
    }
}

impl PartialEq for Level {
    ghost eq = { is_level };

    ghost laws = { partial_equiv_from_equiv level_equiv };

    fn eq(&self, other: &Level) -> bool
        ensures value { result ≡ is_level self.now other.now }
        ensures same { IsTrue result ↔ (self.now ≡ other.now) }
    {
        self.number() == other.number()
    }
}

impl Eq for Level {
    ghost laws = { level_equiv };
}
