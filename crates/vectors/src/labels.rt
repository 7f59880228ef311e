//! Labels of blank nodes.
use crate::Document;
use crate::Expected::{Lines, Refused};
use nquads::DataFault::BadLine;
use nquads::Kind::{Quads, Triples};

/// Labels of blank nodes, each the longest that can stand there (RDF 1.1 N-Triples, section 7: BLANK_NODE_LABEL).
pub static LABELS: &[Document] = &[
    Document {
        what: "labels with dots, colons and digits",
        kind: Triples,
        bytes: b"_:a.b <a:p> _:0:1.:c .\n",
        expected: Lines("_:a.b <a:p> _:0:1.:c .\n"),
    },
    Document {
        what: "labels that begin with a colon or an underscore",
        kind: Triples,
        bytes: b"_::_ <a:p> _:_: .\n",
        expected: Lines("_::_ <a:p> _:_: .\n"),
    },
    Document {
        what: "labels of characters beyond ASCII",
        kind: Triples,
        bytes: b"_:a-\xc2\xb7 <a:p> _:\xc3\xa9\xe2\x80\xbf .\n",
        expected: Lines("_:a-\u{b7} <a:p> _:é\u{203f} .\n"),
    },
    Document {
        what: "a label beyond the basic plane",
        kind: Triples,
        bytes: b"_:\xf0\x90\x80\x80 <a:p> <a:o> .\n",
        expected: Lines("_:\u{10000} <a:p> <a:o> .\n"),
    },
    Document {
        what: "a label with two dots inside",
        kind: Quads,
        bytes: b"_:a..b <a:p> <a:o> .\n",
        expected: Lines("_:a..b <a:p> <a:o> .\n"),
    },
    Document {
        what: "a label at once before the dot",
        kind: Triples,
        bytes: b"<a:s> <a:p> _:a.",
        expected: Lines("<a:s> <a:p> _:a .\n"),
    },
    Document {
        what: "a label before a dot and a comment",
        kind: Triples,
        bytes: b"<a:s> <a:p> _:a.#b\n",
        expected: Lines("<a:s> <a:p> _:a .\n"),
    },
    Document {
        what: "labels between IRIs without white space",
        kind: Quads,
        bytes: b"_:a<a:p>_:b<a:g>.",
        expected: Lines("_:a <a:p> _:b <a:g> .\n"),
    },
    Document {
        what: "one label where two could be read",
        kind: Quads,
        bytes: b"<a:s> <a:p> _:a_:g .\n",
        expected: Lines("<a:s> <a:p> _:a_:g .\n"),
    },
    Document {
        what: "an object that ends with a dot",
        kind: Triples,
        bytes: b"<a:s> <a:p> _:a. .\n",
        expected: Refused(BadLine(1)),
    },
    Document {
        what: "a subject that ends with a dot",
        kind: Triples,
        bytes: b"_:a. <a:p> <a:o> .\n",
        expected: Refused(BadLine(1)),
    },
    Document {
        what: "a label before two dots",
        kind: Triples,
        bytes: b"<a:s> <a:p> _:a..\n",
        expected: Refused(BadLine(1)),
    },
    Document {
        what: "a label that begins with a dot",
        kind: Triples,
        bytes: b"_:.a <a:p> <a:o> .\n",
        expected: Refused(BadLine(1)),
    },
    Document {
        what: "a label that begins with a hyphen",
        kind: Triples,
        bytes: b"_:-a <a:p> <a:o> .\n",
        expected: Refused(BadLine(1)),
    },
    Document {
        what: "a label that begins with U+00B7",
        kind: Triples,
        bytes: b"_:\xc2\xb7 <a:p> <a:o> .\n",
        expected: Refused(BadLine(1)),
    },
    Document {
        what: "an empty label",
        kind: Triples,
        bytes: b"_: <a:p> <a:o> .\n",
        expected: Refused(BadLine(1)),
    },
    Document {
        what: "white space in front of a label",
        kind: Triples,
        bytes: b"_ :a <a:p> <a:o> .\n",
        expected: Refused(BadLine(1)),
    },
    Document {
        what: "an escape in a label",
        kind: Triples,
        bytes: b"_:a\\u0062 <a:p> <a:o> .\n",
        expected: Refused(BadLine(1)),
    },
    Document {
        what: "U+00D7 in a label",
        kind: Triples,
        bytes: b"_:a\xc3\x97 <a:p> <a:o> .\n",
        expected: Refused(BadLine(1)),
    },
    Document {
        what: "U+037E in a label",
        kind: Triples,
        bytes: b"_:a\xcd\xbe <a:p> <a:o> .\n",
        expected: Refused(BadLine(1)),
    },
    Document {
        what: "U+F0000 in a label",
        kind: Triples,
        bytes: b"_:a\xf3\xb0\x80\x80 <a:p> <a:o> .\n",
        expected: Refused(BadLine(1)),
    },
];
