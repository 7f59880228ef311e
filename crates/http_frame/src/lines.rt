//! Lines of a head, followed byte by byte. The search for a head looks where one may stand, and not at
//! each byte that comes.
ghost use Rattle.std.specs.Prelude.{◌≡◌, ℕ, ◌≤◌, List, length, drop};
ghost use Rattle.http_frame.specs.Search.{line_after, is_mark, IsScan};

/// Where the bytes so far leave a reader of lines.
#[derive(Clone, Copy)]
pub enum Line {
    /// In the empty lines before the first line.
    Blank,
    /// In the first line.
    First,
    /// Behind a later line end.
    Start,
    /// Behind a later line end and a carriage return.
    Return,
    /// In a later line.
    Inside,
}

/// A line feed that the search waits for.
#[derive(Clone, Copy)]
pub enum Mark {
    /// The end of the first line that is not empty.
    FirstLine,
    /// The end of an empty line behind it, in which a head ends.
    Section,
}

fn line_after(line: Line, byte: u8) -> Line
    ensures { result ≡ line_after line byte }
{
    match (line, byte) {
        (Line::Blank, b'\n' | b'\r') => Line::Blank,
        (Line::Blank, _) => Line::First,
        (_, b'\n') => Line::Start,
        (Line::First, _) => Line::First,
        (Line::Start, b'\r') => Line::Return,
        (Line::Start | Line::Return | Line::Inside, _) => Line::Inside,
    }
}

fn is_mark(mark: Mark, line: Line, byte: u8) -> bool
    ensures { result ≡ is_mark mark line byte }
{
    match (mark, line) {
        (Mark::FirstLine, Line::First) => byte == b'\n',
        (Mark::Section, Line::Start | Line::Return) => byte == b'\n',
        _ => false,
    }
}

/// Follows the bytes, and answers where they leave the reader, or `None` at a mark.
fn scan(bytes: &[u8], line: Line, mark: Mark) -> Option<Line>
    ensures { IsScan mark line bytes.now result }
{
    let mut behind = line;
    for byte in bytes {
        if is_mark(mark, behind, *byte) {
            return None;
        }
        behind = line_after(behind, *byte);
    }
    Some(behind)
}

/// The same of the bytes from `at` on.
pub fn scan_from(bytes: &[u8], at: usize, line: Line, mark: Mark) -> Option<Line>
    requires { at ≤ length bytes.now }
    ensures { IsScan mark line (drop at bytes.now) result }
{
    scan(&bytes[at..], line, mark)
}
