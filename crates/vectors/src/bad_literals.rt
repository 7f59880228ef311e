//! Literals that are refused.
use crate::Document;
use crate::Expected::Refused;
use nquads::DataFault::BadLine;
use nquads::Kind::Triples;

/// Literals that are refused (RDF 1.1 N-Triples, section 7: STRING_LITERAL_QUOTE, LANGTAG).
pub static BAD_LITERALS: &[Document] = &[
    Document {
        what: "the first surrogate",
        kind: Triples,
        bytes: b"<a:s> <a:p> \"\\uD800\" .\n",
        expected: Refused(BadLine(1)),
    },
    Document {
        what: "the last surrogate",
        kind: Triples,
        bytes: b"<a:s> <a:p> \"\\uDFFF\" .\n",
        expected: Refused(BadLine(1)),
    },
    Document {
        what: "a pair of surrogates",
        kind: Triples,
        bytes: b"<a:s> <a:p> \"\\uD83D\\uDE00\" .\n",
        expected: Refused(BadLine(1)),
    },
    Document {
        what: "a surrogate by eight digits",
        kind: Triples,
        bytes: b"<a:s> <a:p> \"\\U0000D800\" .\n",
        expected: Refused(BadLine(1)),
    },
    Document {
        what: "a number above 10FFFF",
        kind: Triples,
        bytes: b"<a:s> <a:p> \"\\U00110000\" .\n",
        expected: Refused(BadLine(1)),
    },
    Document {
        what: "the greatest number of eight digits",
        kind: Triples,
        bytes: b"<a:s> <a:p> \"\\UFFFFFFFF\" .\n",
        expected: Refused(BadLine(1)),
    },
    Document {
        what: "two digits behind a small u",
        kind: Triples,
        bytes: b"<a:s> <a:p> \"a\\u12\" .\n",
        expected: Refused(BadLine(1)),
    },
    Document {
        what: "a digit that is none",
        kind: Triples,
        bytes: b"<a:s> <a:p> \"\\u12G4\" .\n",
        expected: Refused(BadLine(1)),
    },
    Document {
        what: "seven digits behind a big U",
        kind: Triples,
        bytes: b"<a:s> <a:p> \"\\U0001F60\" .\n",
        expected: Refused(BadLine(1)),
    },
    Document {
        what: "an escape of no meaning",
        kind: Triples,
        bytes: b"<a:s> <a:p> \"\\a\" .\n",
        expected: Refused(BadLine(1)),
    },
    Document {
        what: "an escape of a slash",
        kind: Triples,
        bytes: b"<a:s> <a:p> \"\\/\" .\n",
        expected: Refused(BadLine(1)),
    },
    Document {
        what: "an escape of two digits behind x",
        kind: Triples,
        bytes: b"<a:s> <a:p> \"\\x41\" .\n",
        expected: Refused(BadLine(1)),
    },
    Document {
        what: "a backslash before the closing quote",
        kind: Triples,
        bytes: b"<a:s> <a:p> \"\\\" .\n",
        expected: Refused(BadLine(1)),
    },
    Document {
        what: "a quote inside",
        kind: Triples,
        bytes: b"<a:s> <a:p> \"a\"b\" .\n",
        expected: Refused(BadLine(1)),
    },
    Document {
        what: "a literal that is not closed",
        kind: Triples,
        bytes: b"<a:s> <a:p> \"a .\n",
        expected: Refused(BadLine(1)),
    },
    Document {
        what: "single quotes",
        kind: Triples,
        bytes: b"<a:s> <a:p> 'a' .\n",
        expected: Refused(BadLine(1)),
    },
    Document {
        what: "three quotes",
        kind: Triples,
        bytes: b"<a:s> <a:p> \"\"\"a\"\"\" .\n",
        expected: Refused(BadLine(1)),
    },
    Document {
        what: "a tag that begins with a digit",
        kind: Triples,
        bytes: b"<a:s> <a:p> \"a\"@1a .\n",
        expected: Refused(BadLine(1)),
    },
    Document {
        what: "a tag that ends with a hyphen",
        kind: Triples,
        bytes: b"<a:s> <a:p> \"a\"@en- .\n",
        expected: Refused(BadLine(1)),
    },
    Document {
        what: "a tag with two hyphens",
        kind: Triples,
        bytes: b"<a:s> <a:p> \"a\"@en--x .\n",
        expected: Refused(BadLine(1)),
    },
    Document {
        what: "an empty tag",
        kind: Triples,
        bytes: b"<a:s> <a:p> \"a\"@ .\n",
        expected: Refused(BadLine(1)),
    },
    Document {
        what: "white space behind the tag's mark",
        kind: Triples,
        bytes: b"<a:s> <a:p> \"a\"@ en .\n",
        expected: Refused(BadLine(1)),
    },
    Document {
        what: "a tag with an underscore",
        kind: Triples,
        bytes: b"<a:s> <a:p> \"a\"@en_GB .\n",
        expected: Refused(BadLine(1)),
    },
    Document {
        what: "a tag beyond ASCII",
        kind: Triples,
        bytes: b"<a:s> <a:p> \"a\"@\xc3\xa9 .\n",
        expected: Refused(BadLine(1)),
    },
    Document {
        what: "two tags",
        kind: Triples,
        bytes: b"<a:s> <a:p> \"a\"@en@de .\n",
        expected: Refused(BadLine(1)),
    },
    Document {
        what: "a tag and a datatype",
        kind: Triples,
        bytes: b"<a:s> <a:p> \"a\"@en^^<a:t> .\n",
        expected: Refused(BadLine(1)),
    },
    Document {
        what: "a datatype and a tag",
        kind: Triples,
        bytes: b"<a:s> <a:p> \"a\"^^<a:t>@en .\n",
        expected: Refused(BadLine(1)),
    },
    Document {
        what: "one circumflex",
        kind: Triples,
        bytes: b"<a:s> <a:p> \"1\"^<a:t> .\n",
        expected: Refused(BadLine(1)),
    },
    Document {
        what: "a parted datatype's mark",
        kind: Triples,
        bytes: b"<a:s> <a:p> \"1\"^ ^<a:t> .\n",
        expected: Refused(BadLine(1)),
    },
    Document {
        what: "no datatype behind its mark",
        kind: Triples,
        bytes: b"<a:s> <a:p> \"1\"^^ .\n",
        expected: Refused(BadLine(1)),
    },
    Document {
        what: "a blank node as datatype",
        kind: Triples,
        bytes: b"<a:s> <a:p> \"1\"^^_:t .\n",
        expected: Refused(BadLine(1)),
    },
    Document {
        what: "a relative datatype",
        kind: Triples,
        bytes: b"<a:s> <a:p> \"1\"^^<t> .\n",
        expected: Refused(BadLine(1)),
    },
    Document {
        what: "an excluded character in a datatype",
        kind: Triples,
        bytes: b"<a:s> <a:p> \"1\"^^<a:\\u0020> .\n",
        expected: Refused(BadLine(1)),
    },
    Document {
        what: "a raw CR in a literal",
        kind: Triples,
        bytes: b"<a:s> <a:p> \"a\rb\" .\n",
        expected: Refused(BadLine(1)),
    },
    Document {
        what: "a raw LF in a literal",
        kind: Triples,
        bytes: b"<a:s> <a:p> <a:o> .\n<a:s> <a:p> \"a\nb\" .\n",
        expected: Refused(BadLine(2)),
    },
    Document {
        what: "a raw CR LF in a literal",
        kind: Triples,
        bytes: b"<a:s> <a:p> <a:o> .\r\n<a:s> <a:p> \"a\r\nb\" .\n",
        expected: Refused(BadLine(2)),
    },
];
