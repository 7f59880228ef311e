//! A chunked body, byte by byte (RFC 9112, section 7.1).
ghost use Rattle.std.specs.Prelude.{◌≡◌, ◌≤◌};
ghost use Rattle.http_frame.specs.Places.{hex_digit, wanted, line_step, size_step, extension_step, sized, data_step, text_step, step, IsPlace, IsStep};
ghost use Rattle.http_frame.specs.declared.chunk.Place.TheVariants.{Size, Extension, LineEnd, Data, Trailer};

use crate::limits::{MOST_DIGITS, MOST_EXTENSION, MOST_TRAILERS};

/// Where a reader stands in a chunked body.
#[derive(Clone, Copy)]
pub enum Place {
    /// In the size of a chunk, behind so many digits that write this number.
    Size(usize, u64),
    /// In a chunk extension, behind so many bytes of it. The chunk has this size.
    Extension(usize, u64),
    /// At the line feed of the line of a chunk of this size.
    LineEnd(u64),
    /// In the bytes of a chunk, of which so many are left.
    Data(usize),
    /// At the carriage return behind the bytes of a chunk.
    DataReturn,
    /// At the line feed behind the bytes of a chunk.
    DataEnd,
    /// At the begin of a trailer line, behind so many bytes of trailers.
    Trailers(usize),
    /// In a trailer line, behind so many bytes of trailers.
    Trailer(usize),
    /// At the line feed of a trailer line, behind so many bytes of trailers.
    TrailerEnd(usize),
    /// At the last line feed.
    LastEnd,
}

/// Where one more byte leads.
#[derive(Clone, Copy)]
pub enum Step {
    /// To a place, with so much room left for chunks behind it.
    Next(Place, usize),
    /// Out of the grammar.
    Broken,
    /// To a chunk for which there is no room.
    Long,
    /// To the end of the body.
    Done,
}

fn hex_digit(byte: u8) -> Option<u32>
    ensures { result ≡ hex_digit byte }
{
    char::from(byte).to_digit(16)
}

/// Leads to a place at one byte alone.
fn wanted(byte: u8, found: u8, place: Place, room: usize) -> Step
    ensures { result ≡ wanted byte found place room }
{
    if found == byte {
        Step::Next(place, room)
    } else {
        Step::Broken
    }
}

/// Behind the size of a chunk: an extension, or the end of the line.
fn line_step(size: u64, room: usize, byte: u8) -> Step
    ensures { result ≡ line_step size room byte }
{
    if byte == b';' {
        Step::Next(Place::Extension(0, size), room)
    } else {
        wanted(b'\r', byte, Place::LineEnd(size), room)
    }
}

fn size_step(digits: usize, size: u64, room: usize, byte: u8) -> Step
    requires { IsPlace (Size digits size) }
    ensures step { result ≡ size_step digits size room byte (hex_digit byte) }
    ensures reached { IsStep (Size digits size) room result }
{
    match hex_digit(byte) {
        Some(value) => {
            if digits < MOST_DIGITS {
                Step::Next(Place::Size(digits + 1, size * 16 + u64::from(value)), room)
            } else {
                Step::Broken
            }
        }
        None => {
            if digits > 0 {
                line_step(size, room, byte)
            } else {
                Step::Broken
            }
        }
    }
}

fn extension_step(count: usize, size: u64, room: usize, byte: u8) -> Step
    requires { IsPlace (Extension count size) }
    ensures step { result ≡ extension_step count size room byte }
    ensures reached { IsStep (Extension count size) room result }
{
    if byte == b'\r' {
        Step::Next(Place::LineEnd(size), room)
    } else if byte != b'\n' && count < MOST_EXTENSION {
        Step::Next(Place::Extension(count + 1, size), room)
    } else {
        Step::Broken
    }
}

/// Behind the line of a chunk: its bytes, or the trailers behind the last one.
fn sized(size: u64, room: usize) -> Step
    ensures step { result ≡ sized size room }
    ensures reached { IsStep (LineEnd size) room result }
{
    if size == 0 {
        Step::Next(Place::Trailers(0), room)
    } else if size <= room as u64 {
        Step::Next(Place::Data(size as usize), room - size as usize)
    } else {
        Step::Long
    }
}

/// Behind one byte of a chunk.
fn data_step(left: usize, room: usize) -> Step
    requires { IsPlace (Data left) }
    ensures step { result ≡ data_step left room }
    ensures reached { IsStep (Data left) room result }
{
    match left {
        0 => Step::Broken,
        1 => Step::Next(Place::DataReturn, room),
        _ => Step::Next(Place::Data(left - 1), room),
    }
}

/// Behind a byte of a trailer line, behind which its line end has to fit.
fn text_step(taken: usize, room: usize, byte: u8) -> Step
    requires { taken ≤ 65536 }
    ensures step { result ≡ text_step taken room byte }
    ensures reached { IsStep (Trailer taken) room result }
{
    if byte != b'\n' && taken + 3 <= MOST_TRAILERS {
        Step::Next(Place::Trailer(taken + 1), room)
    } else {
        Step::Broken
    }
}

/// Where one more byte leads.
pub fn next_step(place: Place, room: usize, byte: u8) -> Step
    requires { IsPlace place }
    ensures step { result ≡ step place room byte }
    ensures reached { IsStep place room result }
{
    match place {
        Place::Size(digits, size) => size_step(digits, size, room, byte),
        Place::Extension(count, size) => extension_step(count, size, room, byte),
        Place::LineEnd(size) if byte == b'\n' => sized(size, room),
        Place::LineEnd(_) => Step::Broken,
        Place::Data(left) => data_step(left, room),
        Place::DataReturn => wanted(b'\r', byte, Place::DataEnd, room),
        Place::DataEnd => wanted(b'\n', byte, Place::Size(0, 0), room),
        Place::Trailers(_) if byte == b'\r' => Step::Next(Place::LastEnd, room),
        Place::Trailers(taken) => text_step(taken, room, byte),
        Place::Trailer(taken) if byte == b'\r' => Step::Next(Place::TrailerEnd(taken + 1), room),
        Place::Trailer(taken) => text_step(taken, room, byte),
        Place::TrailerEnd(taken) => wanted(b'\n', byte, Place::Trailers(taken + 1), room),
        Place::LastEnd if byte == b'\n' => Step::Done,
        Place::LastEnd => Step::Broken,
    }
}
