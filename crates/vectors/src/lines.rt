//! Lines, their ends, white space and comments.
use crate::Document;
use crate::Expected::{Lines, Refused};
use nquads::DataFault::BadLine;
use nquads::Kind::{Quads, Triples};

/// Ends of lines, white space and comments (RDF 1.1 N-Triples, section 7: EOL, WS, `ntriplesDoc`).
pub static LINES: &[Document] = &[
    Document {
        what: "the empty document",
        kind: Triples,
        bytes: b"",
        expected: Lines(""),
    },
    Document {
        what: "a blank line",
        kind: Triples,
        bytes: b"\n",
        expected: Lines(""),
    },
    Document {
        what: "blank lines of spaces and tabs",
        kind: Triples,
        bytes: b" \t \n\t\n  ",
        expected: Lines(""),
    },
    Document {
        what: "blank lines with each end",
        kind: Triples,
        bytes: b"\r\n\r\n\n\r\r",
        expected: Lines(""),
    },
    Document {
        what: "comments alone, one behind white space, the last without an end",
        kind: Triples,
        bytes: b"# c\n#\n \t# <a:s> <a:p> <a:o> .",
        expected: Lines(""),
    },
    Document {
        what: "a comment of marks that mean nothing there, and NUL",
        kind: Quads,
        bytes: b"#\"\\u12 <#\0>\x7f\n",
        expected: Lines(""),
    },
    Document {
        what: "a comment ended by CR",
        kind: Triples,
        bytes: b"# c\r<a:s> <a:p> <a:o> .",
        expected: Lines("<a:s> <a:p> <a:o> .\n"),
    },
    Document {
        what: "a comment behind a statement",
        kind: Triples,
        bytes: b"<a:s> <a:p> <a:o> . # c\n",
        expected: Lines("<a:s> <a:p> <a:o> .\n"),
    },
    Document {
        what: "a comment at once behind the dot",
        kind: Quads,
        bytes: b"<a:s> <a:p> <a:o> .#c",
        expected: Lines("<a:s> <a:p> <a:o> .\n"),
    },
    Document {
        what: "a comment in front of the dot",
        kind: Triples,
        bytes: b"<a:s> <a:p> <a:o> # .\n",
        expected: Refused(BadLine(1)),
    },
    Document {
        what: "one line without an end",
        kind: Triples,
        bytes: b"<a:s> <a:p> <a:o> .",
        expected: Lines("<a:s> <a:p> <a:o> .\n"),
    },
    Document {
        what: "tabs and spaces",
        kind: Triples,
        bytes: b"\t <a:s>\t\t<a:p> \t <a:o>  .\t \n",
        expected: Lines("<a:s> <a:p> <a:o> .\n"),
    },
    Document {
        what: "no white space at all",
        kind: Triples,
        bytes: b"<a:s><a:p><a:o>.",
        expected: Lines("<a:s> <a:p> <a:o> .\n"),
    },
    Document {
        what: "two lines ended by LF",
        kind: Triples,
        bytes: b"<a:1> <a:p> <a:o> .\n<a:2> <a:p> <a:o> .\n",
        expected: Lines("<a:1> <a:p> <a:o> .\n<a:2> <a:p> <a:o> .\n"),
    },
    Document {
        what: "two lines ended by CR",
        kind: Triples,
        bytes: b"<a:1> <a:p> <a:o> .\r<a:2> <a:p> <a:o> .\r",
        expected: Lines("<a:1> <a:p> <a:o> .\n<a:2> <a:p> <a:o> .\n"),
    },
    Document {
        what: "two lines ended by CR LF",
        kind: Quads,
        bytes: b"<a:1> <a:p> <a:o> .\r\n<a:2> <a:p> <a:o> .\r\n",
        expected: Lines("<a:1> <a:p> <a:o> .\n<a:2> <a:p> <a:o> .\n"),
    },
    Document {
        what: "each end once, and a last line without one",
        kind: Triples,
        bytes: b"<a:1> <a:p> <a:o> .\r\n<a:2> <a:p> <a:o> .\r<a:3> <a:p> <a:o> .\n<a:4> <a:p> <a:o> .",
        expected: Lines(
            "<a:1> <a:p> <a:o> .\n<a:2> <a:p> <a:o> .\n<a:3> <a:p> <a:o> .\n<a:4> <a:p> <a:o> .\n",
        ),
    },
    Document {
        what: "the order of the document, and a line that comes again",
        kind: Triples,
        bytes: b"<a:2> <a:p> <a:o> .\n<a:1> <a:p> <a:o> .\n<a:1> <a:p> <a:o> .\n<a:2> <a:p> <a:o> .\n",
        expected: Lines(
            "<a:2> <a:p> <a:o> .\n<a:1> <a:p> <a:o> .\n<a:1> <a:p> <a:o> .\n<a:2> <a:p> <a:o> .\n",
        ),
    },
    Document {
        what: "form feed is no white space",
        kind: Triples,
        bytes: b"<a:s>\x0c<a:p> <a:o> .\n",
        expected: Refused(BadLine(1)),
    },
    Document {
        what: "no-break space is no white space",
        kind: Triples,
        bytes: b"<a:s>\xc2\xa0<a:p> <a:o> .\n",
        expected: Refused(BadLine(1)),
    },
    Document {
        what: "U+0085 ends no line",
        kind: Triples,
        bytes: b"<a:s> <a:p> <a:o> .\xc2\x85<a:s> <a:p> <a:o> .\n",
        expected: Refused(BadLine(1)),
    },
    Document {
        what: "U+2028 ends no line",
        kind: Triples,
        bytes: b"<a:s> <a:p> <a:o> .\xe2\x80\xa8",
        expected: Refused(BadLine(1)),
    },
    Document {
        what: "NUL is no white space",
        kind: Triples,
        bytes: b"<a:s> <a:p> <a:o> .\0\n",
        expected: Refused(BadLine(1)),
    },
];
