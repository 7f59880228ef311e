//! Tests of repositories over their public calls: worked histories at each level, and random ones beside
//! a plain program that follows the definitions.
#![tactic(auto)]

#[cfg(test)]
mod acts;
#[cfg(test)]
mod bounds;
#[cfg(test)]
mod histories;
#[cfg(test)]
mod pins;
#[cfg(test)]
mod plain;
#[cfg(test)]
mod quads;
#[cfg(test)]
mod steps;
#[cfg(test)]
mod worked;
