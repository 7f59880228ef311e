//! Tests of the program `serve`: its words, and its doors in memory.
#![tactic(auto)]

#[cfg(test)]
mod doors;
#[cfg(test)]
mod words;
