//! The client's side of calls: which calls some request gives, and the request that is written for one.
#![tactic(auto)]

mod call;
mod documents;
mod laws;
mod pairs;
mod sending;
mod sent;
mod spellable;
mod target;
mod terms;
mod writes;

pub use call::{is_spellable, write_call};
pub use laws::{
    given_is_spellable, requests_are_spelled, spellable_where_given, written_bytes_are_read_back,
    written_is_read_back,
};
