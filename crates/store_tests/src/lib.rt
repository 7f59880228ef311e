//! Tests of the crates that hold quads, over their public calls: what no clause says of them.
#![tactic(auto)]

#[cfg(test)]
mod branches;
#[cfg(test)]
mod changes;
#[cfg(test)]
mod index;
#[cfg(test)]
mod trials;
#[cfg(test)]
mod views;
