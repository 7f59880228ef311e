/// How a client ends.
#[derive(Clone, Copy, Debug, PartialEq, Eq, Drop)]
pub enum ClientEnd {
    /// The script ended, by `quit` or with its input.
    Done,
    /// A request was refused.
    Refused,
    /// The input or the source failed.
    ReadFault,
    /// The sink or the output failed.
    WriteFault,
    /// A response has no reply to its call.
    BadReply,
    /// No memory was found.
    Memory,
    /// The line of this number, from 1, is none of a script.
    Script(u64),
}
