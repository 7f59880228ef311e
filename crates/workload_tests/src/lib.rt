//! Tests of the workload's sessions: their text in worked cases, and that they are requests.
#![tactic(auto)]

#[cfg(test)]
mod sessions;
