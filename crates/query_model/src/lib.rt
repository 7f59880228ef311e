//! Queries of the profile of SPARQL 1.1 that this product answers, tables of solutions, and what is
//! found for a query.
//!
//! The types, what the solutions of a query are, and the laws of what is found, for whatever reads,
//! prints or answers queries or speaks of their answers.
#![tactic(auto)]

mod classes;
mod compared;
mod found;
mod laws;
mod lookups;
mod observed;
mod query;
mod table;
mod well_formed;

pub use classes::{is_label_start, is_name_char, is_var_char};
pub use found::Found;
pub use laws::{
    each_solution_once, few_lookups, found_in_each_view, found_in_one_view, found_is_valid,
    rows_of_solutions, triples_of_solutions, truth_of_solutions,
};
pub use lookups::lookups_of;
pub use observed::pattern_of;
pub use query::{Cut, Patterns, Query, Scope, Slot, TriplePattern};
pub use rdf_term::{Row, Rows};
pub use table::{Names1, Table};
pub use well_formed::is_well_formed;
