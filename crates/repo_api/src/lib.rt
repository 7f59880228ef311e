//! The HTTP interface of repositories, as far as requests are read: which call a request is, or why it
//! is refused.
#![tactic(auto)]

mod accept;
mod asks;
mod content;
mod laws;
mod method;
mod parameters;
mod query;
mod read;
mod resource;
mod task;

pub use api_calls::{Allow, ApiFault, Call};
pub use laws::{calls_are_callable, calls_are_on_repositories, one_call, writes_are_valid};
pub use read::read_call;
