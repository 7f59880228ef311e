//! Queries of the profile of SPARQL 1.1 (section 19.8) that this product answers, for whoever asks
//! them: their types, the query that a text is or the fault at its first refused token, and the text
//! of a query.
#![tactic(auto)]

pub use query_grammar::{QueryFault, one_fault, one_query, parse_query};
pub use query_model::{
    Cut, Found, Names1, Patterns, Query, Row, Rows, Scope, Slot, Table, TriplePattern,
    is_well_formed, lookups_of, pattern_of,
};
pub use query_print::{
    parsed_queries_are_well_formed, print_query, printed_queries_are_read_again,
    well_formed_where_read,
};
