//! The entries of several callers once more, by a repository for one caller.
use crate::acts::enter_locally;
use crate::threads::Heard;
use journal::{Limits, StoreFault};
use quad_index::Order;
use rdf_term::Memory;
use repo_store::LocalRepo;
use std::alloc::Global;

/// The entries by their places, where each place has one.
fn in_order(alloc: Global, heard: &[Vec<Heard>]) -> Result<Option<Vec<Heard>>, Memory> {
    let mut all = Vec::new(alloc);
    for list in heard {
        for entry in list {
            all.push(*entry)?;
        }
    }
    all.sort_unstable_by_key(|entry| entry.place);
    for (place, entry) in all.iter().enumerate() {
        if entry.place != place as u64 {
            return Ok(None);
        }
    }
    Ok(Some(all))
}

/// Whether a repository for one caller gives the answers that were heard, in the order of their places.
pub fn is_replayed(alloc: Global, heard: &[Vec<Heard>]) -> Result<bool, StoreFault> {
    let orders = Order::standard(alloc)?;
    let mut repo = LocalRepo::new(alloc, &orders, Limits::standard())?;
    let Some(entries) = in_order(alloc, heard)? else {
        return Ok(false);
    };
    for entry in &entries {
        if enter_locally(alloc, &mut repo, entry.act)? != (entry.place, entry.answer) {
            return Ok(false);
        }
    }
    Ok(true)
}
