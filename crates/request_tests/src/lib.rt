//! Tests of the requests that are written for calls.
#![tactic(auto)]

#[cfg(test)]
mod refused;
#[cfg(test)]
mod shown;
#[cfg(test)]
mod written;
