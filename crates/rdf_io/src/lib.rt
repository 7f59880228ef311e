//! The outside: where bytes come from and where they go.
//!
//! A [`Source`] and a [`Sink`] may tell which bytes they have left and which they took; everything
//! above is proved over what they tell. Both count their faults, and an answer [`Failed`] comes only
//! where that count rose. A [`Door`] gives connections, each a source and a sink, and counts what
//! it gave and what came back broken; a [`Dial`] gives a client its one connection. A [`Gate`] may hold
//! up whoever passes it. [`send`] writes a whole text to any sink.
#![tactic(auto)]

mod dial;
mod door;
mod gate;
mod mem_dial;
mod mem_door;
mod mem_sink;
mod mem_source;
mod sending;
mod sink;
mod source;
mod streams;
mod tcp_dial;
mod tcp_door;

pub use dial::Dial;
pub use door::Door;
pub use gate::{Gate, GateMark, OpenGate};
pub use mem_dial::MemDial;
pub use mem_door::MemDoor;
pub use mem_sink::MemSink;
pub use mem_source::MemSource;
pub use sending::send;
pub use sink::Sink;
pub use source::Source;
pub use streams::{ReaderSource, StdinSource, StdoutSink, WriterSink};
pub use tcp_dial::TcpDial;
pub use tcp_door::{TcpDoor, TcpSink, TcpSource};

/// The outside failed in this call.
#[derive(Clone, Copy, Debug, PartialEq, Eq, Drop)]
pub struct Failed;
