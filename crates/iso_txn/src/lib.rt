//! A repository at the isolation levels of RDF4J: it stands for the journal of what was done to it.
//!
//! Contracts see a [`RepoState`] as its limits and its journal, which itself takes no memory, and a
//! [`Pinned`] as the contents that a read sees.
#![tactic(auto)]

mod content;
mod lists;
mod opened;
mod pending;
mod pinned;
mod prefixes;
mod repository;
mod seen;
mod sizes;
mod state;
mod watch;
mod writes;

pub use pinned::Pinned;
pub use repository::RepoState;
