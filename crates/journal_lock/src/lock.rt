//! The lock.
ghost use Rattle.std.specs.Prelude.{◌≡◌, ◌<◌};

use crate::Journaled;
use crate::table::LockTable;
use std::sync::atomic::AtomicU64;

/// A lock round a value that stands for a list of entries.
#[derive(Drop)]
pub struct JournalLock<V: Journaled + Drop> {
    pub(crate) table: LockTable<V>,
    pub(crate) seats: u32,
    // How many threads sleep until the turn is free, or are about to. It decides nothing but whether
    // one is woken, so no rule speaks of it.
    pub(crate) sleepers: AtomicU64,
    ghost sized: { (table.shared.table_id.words ≡ 2) × (table.shared.table_id.slots ≡ 1) },
    ghost counted: { (table.shared.key.seats ≡ seats) × (0 < seats) },
}
