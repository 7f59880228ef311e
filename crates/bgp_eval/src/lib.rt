//! The answers of queries over whatever is scanned (SPARQL 1.1, sections 15, 16 and 18).
//!
//! A query's patterns are looked up one after the other, depth first: each with what the earlier ones
//! have bound, and the one with the most bound parts next. What an answer is, `query_model`
//! defines without any order of patterns, scan or index.
#![tactic(auto)]

mod answer;
mod construct;
mod fault;
mod part;
mod plan;
mod row;
mod search;
mod step;
mod unknowns;

pub use answer::answer_query;
pub use fault::EvalFault;
pub use query_model::Found;
