//! Tests of responses as they are read over public calls: good and bad ones of each kind, and other
//! spellings.
#![tactic(auto)]

#[cfg(test)]
mod again;
#[cfg(test)]
mod asked;
#[cfg(test)]
mod bodies;
#[cfg(test)]
mod lists;
#[cfg(test)]
mod shown;
#[cfg(test)]
mod statuses;
