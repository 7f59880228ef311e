//! The client as a program over any dial, input and output.
//!
//! [`run_client`] carries the theorem of the program: what is sent on the link of its dial, what is printed,
//! and when it ends with which status.
#![tactic(auto)]

mod client;
mod laws;
mod words;

pub use client::run_client;
pub use laws::what_words_name;
