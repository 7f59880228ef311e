//! Tests of sessions on a house for one caller: what they report, and what stands behind a fault.
#![tactic(auto)]

#[cfg(test)]
mod houses;
#[cfg(test)]
mod reports;
