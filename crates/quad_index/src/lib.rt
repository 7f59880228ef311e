//! A set of quads that answers any pattern by the order that fits it best.
//!
//! An [`Index`] keeps its quads in term order and in one to six further orders. Contracts see it as
//! its set of quads, a strictly ascending list, and its list of orders.
#![tactic(auto)]

mod carry;
mod code;
mod dictionary;
mod index;
mod letter;
mod order;
mod parts;
mod run;
mod runs;

pub use index::Index;
pub use order::Order;
pub use parts::{Parts, Test};

/// Distinct orders of an index.
pub type Orders = rdf_term::Distinct<Order>;
