//! Tests of the client over its public calls: whole scripts against stored responses, and against the
//! server in memory.
#![tactic(auto)]

#[cfg(test)]
mod client;
#[cfg(test)]
mod faults;
#[cfg(test)]
mod responses;
#[cfg(test)]
mod rounds;
#[cfg(test)]
mod scripts;
