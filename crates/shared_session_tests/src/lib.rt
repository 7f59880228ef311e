//! Tests of sessions on a house that several workers share, over memory.
#![tactic(auto)]

#[cfg(test)]
mod exchange;
#[cfg(test)]
mod watch;
#[cfg(test)]
mod workers;
