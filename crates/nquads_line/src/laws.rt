ghost use Rattle.nquads_line.specs.Laws.{OneLineReading, OneTermReading, TermsReadAgain, QuadsReadAgain, LinesAreDecided, LinesAreValid, TermsAreValid, TextsAreScalars};

/// A line has at most one reading.
pub fn one_line_reading()
    ensures { OneLineReading }
{}

/// A text is at most one term.
pub fn one_term_reading()
    ensures { OneTermReading }
{}

/// The text that is written of a valid term is read as that term.
pub fn terms_read_again()
    ensures { TermsReadAgain }
{}

/// The canonical line of a quad of valid terms is read as that quad.
pub fn quads_read_again()
    ensures { QuadsReadAgain }
{}

/// A text has a reading as a line, or it is none.
pub fn lines_are_decided()
    ensures { LinesAreDecided }
{}

/// The quad of a line is of valid terms, where none of its parts is too long.
pub fn lines_are_valid()
    ensures { LinesAreValid }
{}

/// The term of a text is valid, where none of its parts is too long.
pub fn terms_are_valid()
    ensures { TermsAreValid }
{}

/// The text of a valid term is of Unicode scalar values.
pub fn texts_are_scalars()
    ensures { TextsAreScalars }
{}
