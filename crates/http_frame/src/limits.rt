//! The limits of frames.

/// The most bytes of a head, and of what a reader of frames holds.
pub const MOST_HEAD: usize = 65_536;

/// The most fields of a head.
pub const MOST_FIELDS: usize = 128;

/// The most bytes of the body of a request.
pub const MOST_BODY: usize = 16_777_216;

/// The most bytes of the body of a response.
pub const MOST_RESPONSE: usize = 536_870_912;

/// The most informational responses that are passed over before another one.
pub const MOST_INFORMATIONAL: usize = 16;

/// The most digits of a chunk's size.
pub const MOST_DIGITS: usize = 16;

/// The most bytes of a chunk extension behind its semicolon.
pub const MOST_EXTENSION: usize = 1024;

/// The most bytes of a trailer section, line ends counted.
pub const MOST_TRAILERS: usize = 65_536;
