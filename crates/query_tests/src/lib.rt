//! Tests of the crates of queries, over their public calls: what no clause says. Each case is a row
//! of a table.
#![tactic(auto)]

#[cfg(test)]
mod evaluation_tests;
#[cfg(test)]
mod grammar_tests;
#[cfg(test)]
mod model_tests;
#[cfg(test)]
mod printing_tests;
#[cfg(test)]
mod results_tests;
#[cfg(test)]
mod solution_tests;
#[cfg(test)]
mod token_tests;
