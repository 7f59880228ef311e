//! Waiting for the turn, and ending a wait. None of it takes a seat or changes the table: it is of
//! use to the schedule alone.
use crate::Journaled;
use crate::lock::JournalLock;
use crate::table::TURN;
use std::sync::Wait;
use std::sync::atomic::Ordering::SeqCst;
use std::thread;

/// How often a thread tries again before it sleeps: a turn is mostly shorter than a sleep.
const TRIES: u64 = 100;

impl<V: Journaled + Drop> JournalLock<V> {
    /// Waits for a while after so many tries.
    pub(crate) fn wait<R: Wait>(&self, rt: &R, tries: u64) {
        if tries < TRIES {
            thread::yield_now();
        } else {
            self.sleep(rt);
        }
    }

    /// Sleeps until another thread wakes it, where the turn is taken. The count rises before the turn
    /// is read, and whoever gives the turn back reads the count after that, so it sees each sleeper.
    fn sleep<R: Wait>(&self, rt: &R) {
        self.sleepers.fetch_add(1, SeqCst);
        // A sleep sees the low half of the word alone, where 0 would be the free turn.
        let low = self.table.shared.peek(TURN) & 0xFFFF_FFFF;
        if low != 0 {
            self.table.shared.park(rt, TURN, low as u32);
        }
        self.sleepers.fetch_sub(1, SeqCst);
    }

    /// Wakes a thread that sleeps, if there is one.
    pub(crate) fn wake(&self) {
        if self.sleepers.load(SeqCst) != 0 {
            self.table.shared.wake_one(TURN);
        }
    }
}
