//! Tests of responses over their public calls: their bytes, one case for each kind.
#![tactic(auto)]

#[cfg(test)]
mod refusals;
#[cfg(test)]
mod replies;
#[cfg(test)]
mod shorts;
