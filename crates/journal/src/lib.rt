//! The journal of a repository: its entries, the replies to them, and what both mean.
//!
//! The types and the definitions alone, with their laws, for whatever keeps a journal, answers its
//! entries or speaks of them. A contract sees a journal as the list of its entries.
#![tactic(auto)]

mod ask;
mod compared;
mod entry;
mod fault;
mod laws;
mod level;
mod limits;
mod noted;
mod observed;
mod op;
mod reply;
mod txn;

pub use ask::{Ask, Graphs};
pub use entry::{Entry, Mark};
pub use fault::{JournalFull, StoreFault};
pub use laws::{
    commits_in_turn, committed_in_turn, committed_reads_as_if_alone, conflicts_in_turn,
    done_commit_reads_as_if_alone, each_entry_is_judged_once, legal_in_turn,
    open_transactions_in_turn, own_changes_in_turn, prefixes_in_turn, reply_at_the_end,
    reply_reads_no_later_entry, serial_journal_agrees, transaction_is_among_the_open_ones,
};
pub use level::Level;
pub use limits::Limits;
pub use noted::Noted;
pub use observed::{Patterns, patterns_of};
pub use op::{NamesOp, Op};
pub use reply::{Names, Reply, Terms};
pub use txn::Txn;
