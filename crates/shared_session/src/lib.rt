//! Sessions of several workers over repositories that they share.
//!
//! A house has repositories, and each worker has a pass for each of them. Whatever other workers do, the
//! session of a worker answers its requests in order, each as its transaction's level fixes it at the
//! call's place in the one journal of its repository.
#![tactic(auto)]

mod house;
mod passes;
mod rows;
mod serve;
mod store;

pub use house::House;
pub use passes::Passes;
pub use rows::spread;
pub use serve::serve_shared;
