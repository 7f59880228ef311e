//! Replies of the store, and refusals by form, as responses of the interface.
//!
//! What is answered is the value of a definition: [`write_reply`] and [`write_refusal`] make it as a
//! response, and [`write_short`] writes its bytes where no memory is to be taken. [`is_id`] tells the IDs of
//! repositories.
#![tactic(auto)]

mod ids;
mod laws;
mod parts;
mod refusal;
mod reply;
mod short;
mod short_writer;
mod spare;
mod tables;

pub use ids::is_id;
pub use laws::{last_reply_fits, others_take_memory, short_is_response};
pub use refusal::write_refusal;
pub use reply::{kind_of, write_reply};
pub use short::Short;
pub use short_writer::{short_of, write_short};
