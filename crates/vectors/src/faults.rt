//! Lines that are no statements, and the number that names the first of them.
use crate::Document;
use crate::Expected::Refused;
use nquads::DataFault::BadLine;
use nquads::Kind::{Quads, Triples};

/// The first bad line by its number, and tokens that make no statement (RDF 1.1 N-Triples, section 7: `triple`).
pub static FAULTS: &[Document] = &[
    Document {
        what: "a document of four lines, of which the third is bad",
        kind: Triples,
        bytes: b"<http://e/s> <http://e/p> \"1\" .\n<http://e/s> <http://e/p> \"1\" .\n<http://e/s> <http://e/p> \"a\\u12\" .\n<http://e/s> <http://e/p> \"1\" .\n",
        expected: Refused(BadLine(3)),
    },
    Document {
        what: "the first of two bad lines",
        kind: Triples,
        bytes: b"<a:s> <a:p> <a:o> .\nx\ny\n",
        expected: Refused(BadLine(2)),
    },
    Document {
        what: "a bad line behind blank lines and a comment",
        kind: Triples,
        bytes: b"\n \n#\nx\n",
        expected: Refused(BadLine(4)),
    },
    Document {
        what: "a bad last line without an end",
        kind: Triples,
        bytes: b"\n\nx",
        expected: Refused(BadLine(3)),
    },
    Document {
        what: "line numbers behind CR LF",
        kind: Triples,
        bytes: b"<a:s> <a:p> <a:o> .\r\n<a:s> <a:p> <a:o> .\r\nx\r\n",
        expected: Refused(BadLine(3)),
    },
    Document {
        what: "line numbers behind CR",
        kind: Triples,
        bytes: b"<a:s> <a:p> <a:o> .\r\rx\r",
        expected: Refused(BadLine(3)),
    },
    Document {
        what: "LF CR ends two lines",
        kind: Quads,
        bytes: b"\n\rx",
        expected: Refused(BadLine(3)),
    },
    Document {
        what: "CR CR LF ends two lines",
        kind: Quads,
        bytes: b"\r\r\nx",
        expected: Refused(BadLine(3)),
    },
    Document {
        what: "CR LF LF ends two lines",
        kind: Quads,
        bytes: b"\r\n\nx",
        expected: Refused(BadLine(3)),
    },
    Document {
        what: "no dot",
        kind: Triples,
        bytes: b"<a:s> <a:p> <a:o>\n",
        expected: Refused(BadLine(1)),
    },
    Document {
        what: "no dot at the end of the document",
        kind: Triples,
        bytes: b"<a:s> <a:p> <a:o> .\n<a:s> <a:p> <a:o>",
        expected: Refused(BadLine(2)),
    },
    Document {
        what: "text behind the dot",
        kind: Triples,
        bytes: b"<a:s> <a:p> <a:o> . x\n",
        expected: Refused(BadLine(1)),
    },
    Document {
        what: "two dots",
        kind: Triples,
        bytes: b"<a:s> <a:p> <a:o> ..\n",
        expected: Refused(BadLine(1)),
    },
    Document {
        what: "two statements in one line",
        kind: Triples,
        bytes: b"<a:s> <a:p> <a:o> . <a:s> <a:p> <a:o> .\n",
        expected: Refused(BadLine(1)),
    },
    Document {
        what: "a statement over two lines",
        kind: Triples,
        bytes: b"<a:s> <a:p>\n<a:o> .\n",
        expected: Refused(BadLine(1)),
    },
    Document {
        what: "a dot on the next line",
        kind: Triples,
        bytes: b"\n<a:s> <a:p> <a:o>\r\n.\n",
        expected: Refused(BadLine(2)),
    },
    Document {
        what: "a dot alone",
        kind: Triples,
        bytes: b".\n",
        expected: Refused(BadLine(1)),
    },
    Document {
        what: "no object",
        kind: Triples,
        bytes: b"<a:s> <a:p> .\n",
        expected: Refused(BadLine(1)),
    },
    Document {
        what: "a subject alone",
        kind: Triples,
        bytes: b"\r\n<a:s>",
        expected: Refused(BadLine(2)),
    },
    Document {
        what: "a literal as subject",
        kind: Triples,
        bytes: b"\"s\" <a:p> <a:o> .\n",
        expected: Refused(BadLine(1)),
    },
    Document {
        what: "a literal as predicate",
        kind: Triples,
        bytes: b"<a:s> \"p\" <a:o> .\n",
        expected: Refused(BadLine(1)),
    },
    Document {
        what: "a blank node as predicate",
        kind: Triples,
        bytes: b"<a:s> _:p <a:o> .\n",
        expected: Refused(BadLine(1)),
    },
    Document {
        what: "a prefixed name",
        kind: Triples,
        bytes: b"<a:s> a:p <a:o> .\n",
        expected: Refused(BadLine(1)),
    },
    Document {
        what: "a number without quotes",
        kind: Triples,
        bytes: b"<a:s> <a:p> 1 .\n",
        expected: Refused(BadLine(1)),
    },
    Document {
        what: "a word of Turtle",
        kind: Triples,
        bytes: b"@prefix a: <a:> .\n",
        expected: Refused(BadLine(1)),
    },
    Document {
        what: "a comma between objects",
        kind: Triples,
        bytes: b"<a:s> <a:p> <a:o> , <a:o> .\n",
        expected: Refused(BadLine(1)),
    },
];
