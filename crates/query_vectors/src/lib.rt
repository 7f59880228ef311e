//! Queries of the profile of SPARQL 1.1, each with what reading it gives: tables for the tests of
//! whatever reads queries. They keep the limits of the profile and this product's own rules on IRIs
//! and literals too.
#![tactic(auto)]

#[cfg(test)]
mod answer_tests;
mod case;
mod faults;
#[cfg(test)]
mod long_tests;
#[cfg(test)]
mod plain_answers;
mod queries;
mod refusals;
mod terms;
#[cfg(test)]
mod tests;
#[cfg(test)]
mod worked_answer_tests;

pub use case::{QueryCase, QueryReading};
pub use faults::{QUERY_ENDS, QUERY_FORM_FAULTS, QUERY_PATTERN_FAULTS, QUERY_TEXT_FAULTS};
pub use queries::{QUERIES, QUERY_CUTS, QUERY_LISTS};
pub use refusals::{QUERY_REFUSALS, QUERY_WORDS};
pub use terms::QUERY_TERMS;
