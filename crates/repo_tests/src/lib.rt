//! Tests of whole repositories over their public calls: what each ask is answered at each level, random
//! histories of a local repository beside a plain program that follows the definitions, and histories of
//! SERIALIZABLE transactions beside their serial journals.
#![tactic(auto)]

#[cfg(test)]
mod acts;
#[cfg(test)]
mod asks;
#[cfg(test)]
mod histories;
#[cfg(test)]
mod levels;
#[cfg(test)]
mod local;
#[cfg(test)]
mod many;
#[cfg(test)]
mod numbers;
#[cfg(test)]
mod plain;
#[cfg(test)]
mod quads;
#[cfg(test)]
mod replies;
#[cfg(test)]
mod row_limits;
#[cfg(test)]
mod seats;
#[cfg(test)]
mod serial;
