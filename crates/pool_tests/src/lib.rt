//! Tests of workers side by side: over memory, and over connections on loopback.
#![tactic(auto)]

#[cfg(test)]
mod house;
#[cfg(test)]
mod memory;
#[cfg(test)]
mod network;
