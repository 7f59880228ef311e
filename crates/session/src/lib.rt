//! One session of HTTP/1.1 over several repositories: requests are read, answered and written in order.
#![tactic(auto)]

mod answer;
mod catalog;
mod enter;
mod laws;
mod local;
mod refusal;
mod report;
mod requests;
mod store;
mod visit;

pub use catalog::Catalog;
pub use laws::{sound_sessions_end_alike, undisturbed_sessions_are_alike, whole_streams_end_done};
pub use local::{LocalHouse, serve_local};
pub use rdf_io::{Gate, GateMark, OpenGate};
pub use report::{Outcome, SessionEnd, SessionReport, Turn};
pub use store::Store;
pub use visit::{Visit, serve};
