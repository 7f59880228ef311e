//! Prints queries of the profile of SPARQL 1.1 that this product answers (SPARQL 1.1, section 19.8),
//! so that `query_grammar` reads the same query again.
#![tactic(auto)]

mod laws;
mod query;
mod term;
mod word;

pub use laws::{
    parsed_queries_are_well_formed, printed_queries_are_read_again, well_formed_where_read,
};
pub use query::print_query;
