//! Tests of the reading of calls: requests with the call or the refusal that each is, and the parts that
//! it is made of.
#![tactic(auto)]

#[cfg(test)]
mod media_types;
#[cfg(test)]
mod names;
#[cfg(test)]
mod order;
#[cfg(test)]
mod parameters;
#[cfg(test)]
mod requests;
#[cfg(test)]
mod resources;
#[cfg(test)]
mod shown;
