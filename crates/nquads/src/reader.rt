ghost use Rattle.std.specs.Prelude.{◌≡◌, ℕ, List, [], ◌∷◌, ◌++◌, IfOk, IfErr, IfSome, IsNone, OnOk, OnErr, Some, None, Err, IsTrue, ◌&&◌, ◌==◌, length};
ghost use Rattle.std.specs.List.{All};
ghost use Rattle.std.specs.Option.{option_to_list};
ghost use Rattle.std.specs.declared.option.Option.{Option};
ghost use Rattle.rdf_term.specs.Statement.{Statement};
ghost use Rattle.rdf_term.specs.Validity.{IsValidQuad};
ghost use Rattle.nquads_line.specs.declared.kind.Kind.{Kind};
ghost use Rattle.nquads_line.specs.Grammar.{IsLine, IsShortQuad};
ghost use Rattle.nquads.specs.Lines.{cut, is_end, no_end};
ghost use Rattle.nquads.specs.Documents.{IsDocument, FirstBad, IsRefused, UnlessMemory, line_number};
ghost use Rattle.nquads.specs.State.{new_reader, Stands, Feeds, FailsAt, Stops, Finishes, AppendsValid};

use crate::{DataFault, Kind};
use nquads_line::{LineFault, LineScanner};
use rdf_term::{Memory, Quads};
use std::alloc::Global;
use std::marker::Model;

/// A reader of a document that comes in pieces, which may be cut anywhere, also between CR and LF
/// and inside a character.
///
/// Lines that stand whole in a piece are read from it without a copy. What is kept of a piece is
/// the beginning of a line that has not ended. The reader keeps the room of the longest line for
/// the lines after it.
#[derive(Drop)]
pub struct LineReader {
    scanner: LineScanner,
    kind: Kind,
    line: Vec<u8>,
    after_cr: bool,
    ended: u64,
    fault: Option<DataFault>,
}

impl Model for LineReader {
    ghost use Rattle.nquads.specs.State.{Reader};

    ghost Value = { Reader };

    ghost view = { λ r. record { kind = r.kind; line = r.line.items; after_cr = r.after_cr; ended = r.ended; fault = r.fault } };
}

impl LineReader {
    /// A reader of a document of this kind. It takes no memory yet.
    pub fn new(alloc: Global, kind: Kind) -> Result<LineReader, Memory>
        ensures { IfOk result (λ reader. reader ≡ new_reader kind) }
    {
        Ok(LineReader {
            scanner: LineScanner::new(alloc),
            kind,
            line: Vec::new(alloc),
            after_cr: false,
            ended: 0,
            fault: None,
        })
    }

    /// Takes the next piece of the document, and appends the quads of the lines that ended in it.
    ///
    /// The first line that is refused is answered, and then the same by every later call; `out`
    /// has grown by the quads of some of the first lines. The same holds where no memory is found.
    pub fn feed(&mut self, piece: &[u8], out: &mut Quads) -> Result<(), DataFault>
        ensures ok { OnOk result ((kind : Kind) (taken : List ℕ) → Stands self.old kind taken
            → Feeds kind taken piece.now self.new out.old out.new) }
        ensures refused { IfErr result (λ fault. UnlessMemory fault ((kind : Kind) (taken : List ℕ) → Stands self.old kind taken
            → FailsAt kind taken piece.now fault out.old out.new)) }
        ensures prefix { OnErr result ((kind : Kind) (taken : List ℕ) → Stands self.old kind taken
            → Stops kind taken piece.now out.old out.new) }
        ensures valid { AppendsValid out.old out.new }
        ensures again { IfSome self.old.fault (λ fault. (result ≡ Err fault) × (self.new ≡ self.old) × (out.new ≡ out.old)) }
        ensures err { IfErr result (λ fault. self.new.fault ≡ Some fault) }
    {
        if let Some(fault) = self.fault {
            return Err(fault);
        }
        if let Err(fault) = self.take_piece(piece, out) {
            self.fault = Some(fault);
            return Err(fault);
        }
        Ok(())
    }

    /// Takes what came after the last end as a last line, and appends its quad, where it has one.
    ///
    /// A reader that finished well is as a new one.
    pub fn finish(&mut self, out: &mut Quads) -> Result<(), DataFault>
        ensures ok { OnOk result ((kind : Kind) (taken : List ℕ) → Stands self.old kind taken
            → Finishes kind taken out.old out.new) }
        ensures renewed { OnOk result (self.new ≡ new_reader self.old.kind) }
        ensures refused { IfErr result (λ fault. UnlessMemory fault ((kind : Kind) (taken : List ℕ) → Stands self.old kind taken
            → IsRefused kind (cut taken).rest (line_number (length (cut taken).ended)) fault)) }
        ensures unchanged { OnErr result (out.new ≡ out.old) }
        ensures valid { AppendsValid out.old out.new }
        ensures again { IfSome self.old.fault (λ fault. (result ≡ Err fault) × (self.new ≡ self.old)) }
        ensures err { IfErr result (λ fault. self.new.fault ≡ Some fault) }
    {
        if let Some(fault) = self.fault {
            return Err(fault);
        }
        let number = self.ended.saturating_add(1);
        let last = self.line.as_slice();
        if let Err(fault) = append_line(&mut self.scanner, self.kind, last, number, out) {
            self.fault = Some(fault);
            return Err(fault);
        }
        self.line.clear();
        self.after_cr = false;
        self.ended = 0;
        Ok(())
    }

    /// Takes a piece, and leaves it to the caller to keep a fault.
    fn take_piece(&mut self, piece: &[u8], out: &mut Quads) -> Result<(), DataFault>
        ensures ok { OnOk result ((kind : Kind) (taken : List ℕ) → Stands self.old kind taken
            → Feeds kind taken piece.now self.new out.old out.new) }
        ensures refused { IfErr result (λ fault. UnlessMemory fault ((kind : Kind) (taken : List ℕ) → Stands self.old kind taken
            → FailsAt kind taken piece.now fault out.old out.new)) }
        ensures prefix { OnErr result ((kind : Kind) (taken : List ℕ) → Stands self.old kind taken
            → Stops kind taken piece.now out.old out.new) }
        ensures valid { AppendsValid out.old out.new }
    {
        let mut rest = piece;
        while let Some((line, end, after)) = next_line(rest) {
            if let Err(fault) = self.take_line(line, end, out) {
                return Err(fault);
            }
            rest = after;
        }
        self.keep(rest)
    }

    /// Takes the bytes before an end of a line, and that end.
    fn take_line(&mut self, line: &[u8], end: u8, out: &mut Quads) -> Result<(), DataFault>
        requires line { IsTrue (no_end line.now) }
        requires end { IsTrue (is_end end) }
        ensures ok { OnOk result ((kind : Kind) (taken : List ℕ) → Stands self.old kind taken
            → Feeds kind taken (line.now ++ end ∷ []) self.new out.old out.new) }
        ensures refused { IfErr result (λ fault. UnlessMemory fault ((kind : Kind) (taken : List ℕ) → Stands self.old kind taken
            → FailsAt kind taken (line.now ++ end ∷ []) fault out.old out.new)) }
        ensures unchanged { OnErr result (out.new ≡ out.old) }
        ensures valid { AppendsValid out.old out.new }
    {
        let skips = self.after_cr & line.is_empty() & (end == b'\n');
        self.after_cr = end == b'\r';
        if skips {
            return Ok(());
        }
        self.end_line(line, out)
    }

    /// Reads the line that ends with these bytes.
    fn end_line(&mut self, line: &[u8], out: &mut Quads) -> Result<(), DataFault>
        ensures ok { OnOk result ((q : Option Statement) × IsLine self.old.kind (self.old.line ++ line.now) q × IsShortQuad q
            × (out.new ≡ out.old ++ option_to_list q)
            × (self.new ≡ record self.old { line = []; ended = line_number self.old.ended })) }
        ensures refused { IfErr result (λ fault. UnlessMemory fault
            (IsRefused self.old.kind (self.old.line ++ line.now) (line_number self.old.ended) fault)) }
        ensures unchanged { OnErr result (out.new ≡ out.old) }
        ensures valid { AppendsValid out.old out.new }
    {
        let number = self.ended.saturating_add(1);
        if self.line.is_empty() {
            append_line(&mut self.scanner, self.kind, line, number, out)?;
            self.ended = number;
            return Ok(());
        }
        self.line.extend_from_slice(line)?;
        let whole = self.line.as_slice();
        append_line(&mut self.scanner, self.kind, whole, number, out)?;
        self.line.clear();
        self.ended = number;
        Ok(())
    }

    /// Keeps the beginning of a line.
    fn keep(&mut self, line: &[u8]) -> Result<(), DataFault>
        ensures ok { OnOk result (self.new ≡ record self.old { line = self.old.line ++ line.now; after_cr = self.old.after_cr && (length line.now == 0) }) }
        ensures memory { IfErr result (λ fault. fault ≡ DataFault.Memory) }
    {
        self.line.extend_from_slice(line)?;
        self.after_cr = self.after_cr & line.is_empty();
        Ok(())
    }
}

/// The bytes before the first end of a line, the end's byte, and what follows it.
fn next_line(bytes: &[u8]) -> Option<(&[u8], u8, &[u8])>
    ensures found { IfSome result (λ it. (bytes.now ≡ it.0.now ++ it.1 ∷ it.2.now)
        × IsTrue (no_end it.0.now) × IsTrue (is_end it.1)) }
    ensures none { IsNone result → IsTrue (no_end bytes.now) }
{
    for (place, byte) in bytes.iter().enumerate() {
        if (*byte == b'\r') | (*byte == b'\n') {
            return Some((&bytes[..place], *byte, &bytes[place + 1..]));
        }
    }
    None
}

/// Appends the quad of a line, where it has one.
fn append_line(
    scanner: &mut LineScanner,
    kind: Kind,
    line: &[u8],
    number: u64,
    out: &mut Quads,
) -> Result<(), DataFault>
    ensures ok { OnOk result ((q : Option Statement) × IsLine kind line.now q × IsShortQuad q × (out.new ≡ out.old ++ option_to_list q)) }
    ensures refused { IfErr result (λ fault. UnlessMemory fault (IsRefused kind line.now number fault)) }
    ensures unchanged { OnErr result (out.new ≡ out.old) }
    ensures valid { AppendsValid out.old out.new }
{
    match scanner.read(kind, line) {
        Ok(None) => Ok(()),
        Ok(Some(quad)) => match out.push(quad) {
            Ok(()) => Ok(()),
            Err(_) => Err(DataFault::Memory),
        },
        Err(LineFault::Bad) => Err(DataFault::BadLine(number)),
        Err(LineFault::TooLong) => Err(DataFault::TooLong(number)),
        Err(LineFault::Memory) => Err(DataFault::Memory),
    }
}

/// The quads of a document that stands whole in these bytes, in its order, or the first line that
/// is refused.
pub fn read_document(alloc: Global, kind: Kind, bytes: &[u8]) -> Result<Quads, DataFault>
    ensures ok { IfOk result (λ quads. IsDocument kind bytes.now quads) }
    ensures valid { IfOk result (λ quads. All IsValidQuad quads) }
    ensures refused { IfErr result (λ fault. UnlessMemory fault (FirstBad kind bytes.now fault)) }
{
    let Ok(mut reader) = LineReader::new(alloc, kind) else {
        return Err(DataFault::Memory);
    };
    let mut out = Quads::new(alloc);
    if let Err(fault) = reader.feed(bytes, &mut out) {
        return Err(fault);
    }
    match reader.finish(&mut out) {
        Ok(()) => Ok(out),
        Err(fault) => Err(fault),
    }
}
