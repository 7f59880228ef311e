//! Tests of frames through the public calls of `http_frame`: a table of streams, limits, and what heads
//! say.
#![tactic(auto)]

#[cfg(test)]
mod frames;
#[cfg(test)]
mod responses;
#[cfg(test)]
mod streams;
