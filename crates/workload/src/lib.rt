//! The stated sessions of the workload: for each worker a stream of requests that is the same at every
//! run.
//!
//! A session has rounds. In each one it begins a SERIALIZABLE transaction in a repository of its own, adds
//! one quad, commits it, and adds the same quad to the repository `all`, outside a transaction; every
//! fourth round deletes that quad from `all` again. The quads' values are drawn by a generator whose seed
//! is the number of the session.
#![tactic(auto)]

mod numbers;
mod requests;
mod rounds;

pub use rounds::make_session;
