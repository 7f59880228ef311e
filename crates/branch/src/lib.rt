//! Sets of quads that share a base index and the change sets above it.
//!
//! Contracts see a [`Branch`] as its set of quads, a strictly ascending list, beside the orders of its
//! base and the number of its change sets. They see a [`Stack`] as the list of its change sets, and a
//! [`View`], which is a branch with a stack above it, as they see a branch.
#![tactic(auto)]

mod branch;
mod counts;
mod deltas;
mod layers;
mod stack;
mod view;

pub use branch::Branch;
pub use deltas::Delta;
pub use stack::Stack;
pub use view::View;
