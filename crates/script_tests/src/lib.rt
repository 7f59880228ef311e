//! Tests of scripts over their public calls: which lines are commands, the calls that they make, and
//! what is printed.
#![tactic(auto)]

#[cfg(test)]
mod calls;
#[cfg(test)]
mod lines;
#[cfg(test)]
mod printed;
#[cfg(test)]
mod scripts;
#[cfg(test)]
mod shown;
