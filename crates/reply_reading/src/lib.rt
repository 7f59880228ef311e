//! What a response of the interface is to the client that made the call: the reply, a refusal by its
//! status, or no reply at all.
//!
//! [`read_reply`] reads it by the call. What the server writes of a reply is read as that reply; other
//! spellings of the same formats are read too.
#![tactic(auto)]

mod count;
mod fault;
mod got;
mod laws;
mod lists;
mod location;
mod manner;
mod reading;

pub use got::{Got, ReplyFault};
pub use laws::{one_reading, replies_read_again};
pub use reading::read_reply;
