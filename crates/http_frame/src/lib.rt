//! Frames of HTTP/1.1: requests and responses that are cut from a stream of bytes, and both as bytes
//! (RFC 9112).
//!
//! What stands at the front of a stream is a relation on its bytes, whatever pieces they come in:
//! nothing, a request, or a refusal. [`Frames`] reads it and [`write_response`] writes the answer. On a
//! client's side [`write_request`] writes the request, and [`Frames`] reads the response.
#![tactic(auto)]

mod body;
mod buffer;
mod chunk;
mod chunked_body;
mod end_body;
mod fault;
mod fields;
mod frames;
mod framing;
mod head;
mod laws;
mod length_body;
mod limits;
mod lines;
mod message;
mod request_wire;
mod response;
mod response_framing;
mod search;
mod status_head;
mod status_search;
mod wire;

pub use fault::FrameFault;
pub use fields::{Fields, Octets, count_named, find_named, same_name, trim_ows};
pub use frames::Frames;
pub use laws::{
    frames_are_determined, heads_and_bodies_are_frames, response_frames_are_determined,
    written_requests_are_frames, written_responses_are_frames,
};
pub use message::{Head, Request, Response};
pub use request_wire::write_request;
pub use wire::{continue_of, write_response};
