//! A gate that counts what passes it.
use session::{Gate, GateMark};
use std::sync::atomic::{AtomicU64, Ordering};

/// How often workers came to each place, and how often with the last number that there is.
#[derive(Drop)]
pub(crate) struct Watch {
    pinned: AtomicU64,
    written: AtomicU64,
    last: AtomicU64,
}

impl Watch {
    pub(crate) fn new() -> Watch {
        Watch {
            pinned: AtomicU64::new(0),
            written: AtomicU64::new(0),
            last: AtomicU64::new(0),
        }
    }

    /// The three counts.
    pub(crate) fn counts(&self) -> (u64, u64, u64) {
        (
            self.pinned.load(Ordering::SeqCst),
            self.written.load(Ordering::SeqCst),
            self.last.load(Ordering::SeqCst),
        )
    }
}

fn add_one(count: &AtomicU64) {
    count.store(
        count.load(Ordering::SeqCst).saturating_add(1),
        Ordering::SeqCst,
    );
}

impl Gate for Watch {
    fn enter(&self, mark: GateMark) {
        let number = match mark {
            GateMark::Pinned { worker: _, request } => {
                add_one(&self.pinned);
                request
            }
            GateMark::Written { worker: _, request } => {
                add_one(&self.written);
                request
            }
        };
        if number == u64::MAX {
            add_one(&self.last);
        }
    }
}
