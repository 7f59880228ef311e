//! Tests of the program `workload`: its words, what it prints, and a sink that fails.
#![tactic(auto)]

#[cfg(test)]
mod work;
