//! Literals.
use crate::Document;
use crate::Expected::Lines;
use nquads::Kind::Triples;

/// Literals that are read (RDF 1.1 N-Triples, section 7: `literal`, ECHAR, UCHAR).
pub static LITERALS: &[Document] = &[
    Document {
        what: "a plain literal",
        kind: Triples,
        bytes: b"<a:s> <a:p> \"a b\" .\n",
        expected: Lines("<a:s> <a:p> \"a b\" .\n"),
    },
    Document {
        what: "an empty literal",
        kind: Triples,
        bytes: b"<a:s> <a:p> \"\" .\n",
        expected: Lines("<a:s> <a:p> \"\" .\n"),
    },
    Document {
        what: "marks of other tokens in a literal",
        kind: Triples,
        bytes: b"<a:s> <a:p> \"# <a:s> _:b . '@^^\" .\n",
        expected: Lines("<a:s> <a:p> \"# <a:s> _:b . '@^^\" .\n"),
    },
    Document {
        what: "a literal at once before the dot",
        kind: Triples,
        bytes: b"<a:s> <a:p> \"a\".",
        expected: Lines("<a:s> <a:p> \"a\" .\n"),
    },
    Document {
        what: "a tag, whose case is kept",
        kind: Triples,
        bytes: b"<a:s> <a:p> \"a\"@en-GB .\n<a:s> <a:p> \"a\"@EN-gb .\n",
        expected: Lines("<a:s> <a:p> \"a\"@en-GB .\n<a:s> <a:p> \"a\"@EN-gb .\n"),
    },
    Document {
        what: "a tag with digits behind a hyphen",
        kind: Triples,
        bytes: b"<a:s> <a:p> \"a\"@de-1996-x1 .\n",
        expected: Lines("<a:s> <a:p> \"a\"@de-1996-x1 .\n"),
    },
    Document {
        what: "white space before a tag",
        kind: Triples,
        bytes: b"<a:s> <a:p> \"a\" \t@en .\n",
        expected: Lines("<a:s> <a:p> \"a\"@en .\n"),
    },
    Document {
        what: "a datatype",
        kind: Triples,
        bytes: b"<a:s> <a:p> \"01\"^^<a:t> .\n",
        expected: Lines("<a:s> <a:p> \"01\"^^<a:t> .\n"),
    },
    Document {
        what: "white space around the datatype's mark",
        kind: Triples,
        bytes: b"<a:s> <a:p> \"1\"\t^^ <a:t> .\n",
        expected: Lines("<a:s> <a:p> \"1\"^^<a:t> .\n"),
    },
    Document {
        what: "a datatype by an escape",
        kind: Triples,
        bytes: b"<a:s> <a:p> \"1\"^^<a:\\u0074> .\n",
        expected: Lines("<a:s> <a:p> \"1\"^^<a:t> .\n"),
    },
    Document {
        what: "xsd:string, which is plain",
        kind: Triples,
        bytes: b"<a:s> <a:p> \"a\"^^<http://www.w3.org/2001/XMLSchema#string> .\n",
        expected: Lines("<a:s> <a:p> \"a\" .\n"),
    },
    Document {
        what: "xsd:string by an escape, which is plain too",
        kind: Triples,
        bytes: b"<a:s> <a:p> \"a\"^^<http://www.w3.org/2001/XMLSchema#\\u0073tring> .\n",
        expected: Lines("<a:s> <a:p> \"a\" .\n"),
    },
    Document {
        what: "a datatype that only looks like xsd:string",
        kind: Triples,
        bytes: b"<a:s> <a:p> \"a\"^^<http://www.w3.org/2001/XMLSchema#String> .\n",
        expected: Lines("<a:s> <a:p> \"a\"^^<http://www.w3.org/2001/XMLSchema#String> .\n"),
    },
    Document {
        what: "rdf:langString without a tag",
        kind: Triples,
        bytes: b"<a:s> <a:p> \"a\"^^<http://www.w3.org/1999/02/22-rdf-syntax-ns#langString> .\n",
        expected: Lines(
            "<a:s> <a:p> \"a\"^^<http://www.w3.org/1999/02/22-rdf-syntax-ns#langString> .\n",
        ),
    },
    Document {
        what: "every short escape",
        kind: Triples,
        bytes: b"<a:s> <a:p> \"\\t\\b\\n\\r\\f\\\"\\'\\\\\" .\n",
        expected: Lines("<a:s> <a:p> \"\t\u{8}\\n\\r\u{c}\\\"'\\\\\" .\n"),
    },
    Document {
        what: "numeric escapes of characters that are written by short ones",
        kind: Triples,
        bytes: b"<a:s> <a:p> \"\\u0041\\U00000042\\u000A\\u000d\\u0022\\u005c\" .\n",
        expected: Lines("<a:s> <a:p> \"AB\\n\\r\\\"\\\\\" .\n"),
    },
    Document {
        what: "a raw tab",
        kind: Triples,
        bytes: b"<a:s> <a:p> \"a\tb\" .\n",
        expected: Lines("<a:s> <a:p> \"a\tb\" .\n"),
    },
    Document {
        what: "NUL, U+001F and DEL raw",
        kind: Triples,
        bytes: b"<a:s> <a:p> \"\0\x1f\x7f\" .\n",
        expected: Lines("<a:s> <a:p> \"\0\u{1f}\u{7f}\" .\n"),
    },
    Document {
        what: "NUL and DEL by escapes",
        kind: Triples,
        bytes: b"<a:s> <a:p> \"\\u0000\\U0000007f\" .\n",
        expected: Lines("<a:s> <a:p> \"\0\u{7f}\" .\n"),
    },
    Document {
        what: "characters beyond the basic plane, raw and by an escape",
        kind: Triples,
        bytes: b"<a:s> <a:p> \"\xf0\x9f\x98\x80\\U0001F600\" .\n",
        expected: Lines("<a:s> <a:p> \"😀😀\" .\n"),
    },
    Document {
        what: "the last scalar value by an escape in a literal",
        kind: Triples,
        bytes: b"<a:s> <a:p> \"\\U0010FFFF\" .\n",
        expected: Lines("<a:s> <a:p> \"\u{10ffff}\" .\n"),
    },
    Document {
        what: "the scalar values around the surrogates",
        kind: Triples,
        bytes: b"<a:s> <a:p> \"\\uD7FF\\uE000\" .\n",
        expected: Lines("<a:s> <a:p> \"\u{d7ff}\u{e000}\" .\n"),
    },
    Document {
        what: "a backslash before what looks like an escape",
        kind: Triples,
        bytes: b"<a:s> <a:p> \"\\\\u0041\" .\n",
        expected: Lines("<a:s> <a:p> \"\\\\u0041\" .\n"),
    },
    Document {
        what: "five digits behind a small u",
        kind: Triples,
        bytes: b"<a:s> <a:p> \"\\u00411\" .\n",
        expected: Lines("<a:s> <a:p> \"A1\" .\n"),
    },
    Document {
        what: "U+0085 and U+2028 raw",
        kind: Triples,
        bytes: b"<a:s> <a:p> \"\xc2\x85\xe2\x80\xa8\" .\n",
        expected: Lines("<a:s> <a:p> \"\u{85}\u{2028}\" .\n"),
    },
];
