//! Laws of the definitions: what makes a clause that says what an answer means say also exactly
//! when it comes.
ghost use Rattle.nquads.specs.Laws.{LinesAreCutAtEnds, OneReading, DocumentsAreValid, OneFirstBadLine, RefusedOrRead, NotBoth, AnyPieces, OneAnswer, OneFault, OneListBeforeAFault, OneTaking, PieceRefusedOrTaken, OneEnd, OneFaultAtTheEnd, EndRefusedOrTaken, DocumentsReadAgain};

use nquads_line::{lines_are_decided, lines_are_valid};

/// The lines of a text are what its ends, CR LF, CR and LF, leave of it.
pub fn lines_are_cut_at_ends()
    ensures { LinesAreCutAtEnds }
{}

/// A document has one reading.
pub fn one_reading()
    ensures { OneReading }
{}

/// The quads of a document are of valid terms.
pub fn documents_are_valid()
    ensures { DocumentsAreValid }
{
    lines_are_valid();
}

/// A text has at most one first bad line, with one fault.
pub fn one_first_bad_line()
    ensures { OneFirstBadLine }
{}

/// Each text is a document or has a first bad line, and no text is both.
pub fn is_refused_or_read()
    ensures one { RefusedOrRead }
    ensures not_both { NotBoth }
{
    lines_are_decided();
}

/// A text has one answer: its quads, or the fault of its first bad line.
pub fn one_answer()
    ensures { OneAnswer }
{}

/// However a text comes in pieces, a new reader's last answer to them is the answer to the whole text.
pub fn any_pieces()
    ensures { AnyPieces }
{}

/// A piece has one answer, and one fault: after the same bytes it isn't taken and refused. What is
/// appended is the same too.
pub fn one_answer_to_a_piece()
    ensures fault { OneFault }
    ensures quads { OneListBeforeAFault }
    ensures taken { OneTaking }
    ensures refused_or_taken { PieceRefusedOrTaken }
{}

/// The end has one answer, and one fault: after the same bytes it isn't taken and refused. What is
/// appended is the same too.
pub fn one_answer_at_the_end()
    ensures fault { OneFaultAtTheEnd }
    ensures taken { OneEnd }
    ensures refused_or_taken { EndRefusedOrTaken }
{}

/// The text that is written of quads of valid terms is a document of those quads. Written as
/// triples it is one of the quads without their graphs, equal neighbours once.
pub fn documents_read_again()
    ensures { DocumentsReadAgain }
{}
