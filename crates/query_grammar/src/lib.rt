//! Queries of the profile of SPARQL 1.1 that this product answers: the query that a text is, or the
//! first refused token of the text and why it is refused.
#![tactic(auto)]

mod built;
mod classes;
mod fault;
mod laws;
mod mode;
mod names;
mod parts;
mod prefixes;
mod reader;
mod text;
mod values;

pub use fault::QueryFault;
pub use laws::{meaning_is_built, one_fault, one_query};
pub use text::parse_query;
