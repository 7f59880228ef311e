//! Bytes that are UTF-8 and bytes that are not.
use crate::Document;
use crate::Expected::{Lines, Refused};
use nquads::DataFault::BadLine;
use nquads::Kind::{Quads, Triples};

/// Bytes that are UTF-8 and bytes that are not (RFC 3629), and the byte order mark, which no line begins with.
pub static ENCODING: &[Document] = &[
    Document {
        what: "the first and last characters of each length in UTF-8",
        kind: Triples,
        bytes: b"<a:s> <a:p> \"\xc2\x80\xdf\xbf\xe0\xa0\x80\xef\xbf\xbf\xf0\x90\x80\x80\xf4\x8f\xbf\xbf\" .\n",
        expected: Lines("<a:s> <a:p> \"\u{80}\u{7ff}\u{800}\u{ffff}\u{10000}\u{10ffff}\" .\n"),
    },
    Document {
        what: "a byte order mark inside a literal",
        kind: Triples,
        bytes: b"<a:s> <a:p> \"\xef\xbb\xbf\" .\n",
        expected: Lines("<a:s> <a:p> \"\u{feff}\" .\n"),
    },
    Document {
        what: "a byte order mark before a good line",
        kind: Triples,
        bytes: b"\xef\xbb\xbf<a:s> <a:p> <a:o> .\n",
        expected: Refused(BadLine(1)),
    },
    Document {
        what: "a byte order mark alone",
        kind: Triples,
        bytes: b"\xef\xbb\xbf",
        expected: Refused(BadLine(1)),
    },
    Document {
        what: "a byte order mark before a comment",
        kind: Quads,
        bytes: b"\xef\xbb\xbf# c\n",
        expected: Refused(BadLine(1)),
    },
    Document {
        what: "a byte order mark before a later line",
        kind: Triples,
        bytes: b"<a:s> <a:p> <a:o> .\r\n\xef\xbb\xbf<a:s> <a:p> <a:o> .\n",
        expected: Refused(BadLine(2)),
    },
    Document {
        what: "the byte order mark of UTF-16",
        kind: Quads,
        bytes: b"\xff\xfe<\0",
        expected: Refused(BadLine(1)),
    },
    Document {
        what: "the byte ff in a literal",
        kind: Triples,
        bytes: b"<a:s> <a:p> \"\xff\" .\n",
        expected: Refused(BadLine(1)),
    },
    Document {
        what: "the byte ff in a comment",
        kind: Triples,
        bytes: b"<a:s> <a:p> <a:o> .\n# \xff\n",
        expected: Refused(BadLine(2)),
    },
    Document {
        what: "the byte ff in an IRI",
        kind: Triples,
        bytes: b"<a:\xff> <a:p> <a:o> .\n",
        expected: Refused(BadLine(1)),
    },
    Document {
        what: "the byte e9, which is Latin-1",
        kind: Triples,
        bytes: b"<a:s> <a:p> \"caf\xe9\" .\n",
        expected: Refused(BadLine(1)),
    },
    Document {
        what: "a continuation byte alone",
        kind: Triples,
        bytes: b"<a:s> <a:p> \"\x80\" .\n",
        expected: Refused(BadLine(1)),
    },
    Document {
        what: "one continuation byte too many",
        kind: Triples,
        bytes: b"<a:s> <a:p> \"\xc3\xa9\xa9\" .\n",
        expected: Refused(BadLine(1)),
    },
    Document {
        what: "a character cut short by the closing quote",
        kind: Triples,
        bytes: b"<a:s> <a:p> \"\xe2\x82\" .\n",
        expected: Refused(BadLine(1)),
    },
    Document {
        what: "a character cut short by the end of the line",
        kind: Triples,
        bytes: b"# \xe2\x82\n\xac\n",
        expected: Refused(BadLine(1)),
    },
    Document {
        what: "a character cut short by the end of the document",
        kind: Triples,
        bytes: b"<a:s> <a:p> <a:o> .\n# \xc3",
        expected: Refused(BadLine(2)),
    },
    Document {
        what: "NUL by two bytes",
        kind: Triples,
        bytes: b"<a:s> <a:p> \"\xc0\x80\" .\n",
        expected: Refused(BadLine(1)),
    },
    Document {
        what: "a slash by two bytes",
        kind: Triples,
        bytes: b"<a:\xc0\xaf> <a:p> <a:o> .\n",
        expected: Refused(BadLine(1)),
    },
    Document {
        what: "U+007F by two bytes",
        kind: Triples,
        bytes: b"<a:s> <a:p> \"\xc1\xbf\" .\n",
        expected: Refused(BadLine(1)),
    },
    Document {
        what: "a character of two bytes by three",
        kind: Triples,
        bytes: b"<a:s> <a:p> \"\xe0\x9f\xbf\" .\n",
        expected: Refused(BadLine(1)),
    },
    Document {
        what: "a character of three bytes by four",
        kind: Triples,
        bytes: b"<a:s> <a:p> \"\xf0\x8f\xbf\xbf\" .\n",
        expected: Refused(BadLine(1)),
    },
    Document {
        what: "a line feed by two bytes ends no line",
        kind: Triples,
        bytes: b"# c\xc0\x8a<a:s> <a:p> <a:o> .\n",
        expected: Refused(BadLine(1)),
    },
    Document {
        what: "a surrogate in UTF-8",
        kind: Triples,
        bytes: b"<a:s> <a:p> \"\xed\xa0\x80\" .\n",
        expected: Refused(BadLine(1)),
    },
    Document {
        what: "a number above 10FFFF in UTF-8",
        kind: Triples,
        bytes: b"<a:s> <a:p> \"\xf4\x90\x80\x80\" .\n",
        expected: Refused(BadLine(1)),
    },
    Document {
        what: "the byte f5",
        kind: Triples,
        bytes: b"<a:s> <a:p> \"\xf5\x80\x80\x80\" .\n",
        expected: Refused(BadLine(1)),
    },
];
