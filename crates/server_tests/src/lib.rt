//! Tests of the server through its top call: whole sessions in memory, byte for byte.
#![tactic(auto)]

#[cfg(test)]
mod exchange;
#[cfg(test)]
mod sessions;
#[cfg(test)]
mod statements;
#[cfg(test)]
mod transactions;
#[cfg(test)]
mod words;
#[cfg(test)]
mod worked;
