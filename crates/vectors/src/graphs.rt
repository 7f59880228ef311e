//! Names of graphs.
use crate::Document;
use crate::Expected::{Lines, Refused};
use nquads::DataFault::BadLine;
use nquads::Kind::{Quads, Triples};

/// Names of graphs, which N-Quads alone has (RDF 1.1 N-Quads, section 4: `graphLabel`).
pub static GRAPHS: &[Document] = &[
    Document {
        what: "the escaped upload",
        kind: Quads,
        bytes: b"<http://e/s>\t<http://e/p> \"caf\\u00E9 \\U0001F600\"@en <http://e/g> . # c\r\n",
        expected: Lines("<http://e/s> <http://e/p> \"café 😀\"@en <http://e/g> .\n"),
    },
    Document {
        what: "a graph named by an IRI, by a blank node, and none",
        kind: Quads,
        bytes: b"<a:s> <a:p> <a:o> <a:g> .\n<a:s> <a:p> <a:o> _:g .\n<a:s> <a:p> <a:o> .\n",
        expected: Lines(
            "<a:s> <a:p> <a:o> <a:g> .\n<a:s> <a:p> <a:o> _:g .\n<a:s> <a:p> <a:o> .\n",
        ),
    },
    Document {
        what: "a graph without white space",
        kind: Quads,
        bytes: b"<a:s><a:p><a:o><a:g>.",
        expected: Lines("<a:s> <a:p> <a:o> <a:g> .\n"),
    },
    Document {
        what: "a graph behind tabs and before a comment",
        kind: Quads,
        bytes: b"<a:s> <a:p> \"o\"\t\t_:g\t.\t# c",
        expected: Lines("<a:s> <a:p> \"o\" _:g .\n"),
    },
    Document {
        what: "a label of a graph at once before the dot",
        kind: Quads,
        bytes: b"<a:s> <a:p> <a:o> _:g.x.\n",
        expected: Lines("<a:s> <a:p> <a:o> _:g.x .\n"),
    },
    Document {
        what: "a graph at once behind a tag",
        kind: Quads,
        bytes: b"<a:s> <a:p> \"o\"@en_:g .\n",
        expected: Lines("<a:s> <a:p> \"o\"@en _:g .\n"),
    },
    Document {
        what: "a graph at once behind a datatype",
        kind: Quads,
        bytes: b"<a:s> <a:p> \"o\"^^<a:t><a:g> .\n",
        expected: Lines("<a:s> <a:p> \"o\"^^<a:t> <a:g> .\n"),
    },
    Document {
        what: "a graph by an escape",
        kind: Quads,
        bytes: b"<a:s> <a:p> <a:o> <a:\\u0067> .\n",
        expected: Lines("<a:s> <a:p> <a:o> <a:g> .\n"),
    },
    Document {
        what: "a graph in N-Triples, an IRI",
        kind: Triples,
        bytes: b"<a:s> <a:p> <a:o> <a:g> .\n",
        expected: Refused(BadLine(1)),
    },
    Document {
        what: "a graph in N-Triples, a blank node",
        kind: Triples,
        bytes: b"<a:s> <a:p> <a:o> .\n<a:s> <a:p> <a:o> _:g .\n",
        expected: Refused(BadLine(2)),
    },
    Document {
        what: "a literal as graph",
        kind: Quads,
        bytes: b"<a:s> <a:p> <a:o> \"g\" .\n",
        expected: Refused(BadLine(1)),
    },
    Document {
        what: "two graphs",
        kind: Quads,
        bytes: b"<a:s> <a:p> <a:o> <a:g> <a:h> .\n",
        expected: Refused(BadLine(1)),
    },
    Document {
        what: "a relative graph",
        kind: Quads,
        bytes: b"<a:s> <a:p> <a:o> <g> .\n",
        expected: Refused(BadLine(1)),
    },
    Document {
        what: "a graph without a dot",
        kind: Quads,
        bytes: b"<a:s> <a:p> <a:o> <a:g>\n",
        expected: Refused(BadLine(1)),
    },
    Document {
        what: "a graph whose label ends with a dot",
        kind: Quads,
        bytes: b"<a:s> <a:p> <a:o> _:g. .\n",
        expected: Refused(BadLine(1)),
    },
    Document {
        what: "a graph behind the dot",
        kind: Quads,
        bytes: b"<a:s> <a:p> <a:o> . <a:g>\n",
        expected: Refused(BadLine(1)),
    },
];
