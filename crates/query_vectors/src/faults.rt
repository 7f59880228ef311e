//! Texts that the grammar of queries does not take.
use crate::QueryCase;
use crate::QueryReading::{BadAt, Unsupported};

/// Texts whose end is refused: the fault stands at the length of the text.
pub static QUERY_ENDS: &[QueryCase] = &[
    QueryCase {
        what: "an empty text",
        text: "",
        gives: BadAt(0),
    },
    QueryCase {
        what: "white space alone",
        text: " \t\r\n ",
        gives: BadAt(5),
    },
    QueryCase {
        what: "a comment alone",
        text: "# only\n",
        gives: BadAt(7),
    },
    QueryCase {
        what: "a prefix alone",
        text: "PREFIX e: <http://e/>",
        gives: BadAt(21),
    },
    QueryCase {
        what: "SELECT alone",
        text: "SELECT",
        gives: BadAt(6),
    },
    QueryCase {
        what: "no group",
        text: "SELECT ?s WHERE",
        gives: BadAt(15),
    },
    QueryCase {
        what: "no group behind a template",
        text: "CONSTRUCT { ?s ?p ?o }",
        gives: BadAt(22),
    },
    QueryCase {
        what: "a group that is not closed",
        text: "ASK { ?s ?p ?o",
        gives: BadAt(14),
    },
    QueryCase {
        what: "a group that is not closed, behind other letters",
        text: "ASK { ?s ?é \"é😀\" # é",
        gives: BadAt(26),
    },
    QueryCase {
        what: "no number behind LIMIT",
        text: "SELECT * {} LIMIT ",
        gives: BadAt(18),
    },
    QueryCase {
        what: "no name behind GRAPH",
        text: "ASK { GRAPH",
        gives: BadAt(11),
    },
];

/// Tokens around the group that can not stand there (SPARQL 1.1, section 19.8).
pub static QUERY_FORM_FAULTS: &[QueryCase] = &[
    QueryCase {
        what: "a word that begins no query",
        text: "FOO { }",
        gives: BadAt(0),
    },
    QueryCase {
        what: "a brace before the query",
        text: "{ ASK {} }",
        gives: Unsupported(0),
    },
    QueryCase {
        what: "a prefix without its colon",
        text: "PREFIX e <http://e/> ASK {}",
        gives: BadAt(7),
    },
    QueryCase {
        what: "a prefix with a local part",
        text: "PREFIX e:a <http://e/> ASK {}",
        gives: BadAt(7),
    },
    QueryCase {
        what: "a prefixed name for a namespace",
        text: "PREFIX e: e: ASK {}",
        gives: BadAt(10),
    },
    QueryCase {
        what: "a prefix behind the form",
        text: "ASK PREFIX e: <http://e/> {}",
        gives: BadAt(4),
    },
    QueryCase {
        what: "a query behind a query",
        text: "ASK {} ASK {}",
        gives: BadAt(7),
    },
    QueryCase {
        what: "SELECT without variables",
        text: "SELECT WHERE { ?s ?p ?o }",
        gives: BadAt(7),
    },
    QueryCase {
        what: "SELECT before its group",
        text: "SELECT { ?s ?p ?o }",
        gives: Unsupported(7),
    },
    QueryCase {
        what: "a comma between variables",
        text: "SELECT ?s, ?p { ?s ?p ?o }",
        gives: BadAt(9),
    },
    QueryCase {
        what: "a star behind a variable",
        text: "SELECT ?s * { ?s ?p ?o }",
        gives: Unsupported(10),
    },
    QueryCase {
        what: "a variable behind the star",
        text: "SELECT * ?s { ?s ?p ?o }",
        gives: BadAt(9),
    },
    QueryCase {
        what: "DISTINCT REDUCED",
        text: "SELECT DISTINCT REDUCED ?s { ?s ?p ?o }",
        gives: BadAt(16),
    },
    QueryCase {
        what: "an IRI that is projected",
        text: "SELECT <http://e/a> { ?s ?p ?o }",
        gives: BadAt(7),
    },
    QueryCase {
        what: "WHERE twice",
        text: "ASK WHERE WHERE {}",
        gives: BadAt(10),
    },
    QueryCase {
        what: "ASK and a variable",
        text: "ASK ?s { ?s ?p ?o }",
        gives: BadAt(4),
    },
    QueryCase {
        what: "CONSTRUCT and a variable",
        text: "CONSTRUCT ?s { ?s ?p ?o }",
        gives: BadAt(10),
    },
    QueryCase {
        what: "CONSTRUCT WHERE twice",
        text: "CONSTRUCT WHERE { ?s ?p ?o } WHERE { ?s ?p ?o }",
        gives: BadAt(29),
    },
    QueryCase {
        what: "LIMIT before the group",
        text: "SELECT * LIMIT 1 {}",
        gives: BadAt(9),
    },
    QueryCase {
        what: "LIMIT behind ASK",
        text: "ASK {} LIMIT 5",
        gives: BadAt(7),
    },
    QueryCase {
        what: "a sign before LIMIT",
        text: "SELECT * {} LIMIT +5",
        gives: BadAt(18),
    },
    QueryCase {
        what: "a decimal behind LIMIT",
        text: "SELECT * {} LIMIT 5.0",
        gives: BadAt(18),
    },
    QueryCase {
        what: "LIMIT twice",
        text: "SELECT * {} LIMIT 1 LIMIT 1",
        gives: BadAt(20),
    },
    QueryCase {
        what: "OFFSET twice",
        text: "SELECT * {} OFFSET 1 LIMIT 1 OFFSET 1",
        gives: BadAt(29),
    },
    QueryCase {
        what: "a brace that closes nothing",
        text: "ASK {} }",
        gives: BadAt(7),
    },
];

/// Tokens in a group or a template that can not stand there (SPARQL 1.1, section 19.8).
pub static QUERY_PATTERN_FAULTS: &[QueryCase] = &[
    QueryCase {
        what: "two slots",
        text: "ASK { ?s ?p }",
        gives: BadAt(12),
    },
    QueryCase {
        what: "four slots",
        text: "ASK { ?s ?p ?o ?x }",
        gives: BadAt(15),
    },
    QueryCase {
        what: "a literal as a verb",
        text: "ASK { ?s \"p\" ?o }",
        gives: BadAt(9),
    },
    QueryCase {
        what: "a number as a verb",
        text: "ASK { ?s 1 ?o }",
        gives: BadAt(9),
    },
    QueryCase {
        what: "a blank node as a verb",
        text: "ASK { ?s _:p ?o }",
        gives: BadAt(9),
    },
    QueryCase {
        what: "the verb a in capitals",
        text: "ASK { ?s A ?o }",
        gives: BadAt(9),
    },
    QueryCase {
        what: "TRUE in capitals",
        text: "ASK { ?s ?p TRUE }",
        gives: BadAt(12),
    },
    QueryCase {
        what: "False with a capital",
        text: "ASK { False ?p ?o }",
        gives: BadAt(6),
    },
    QueryCase {
        what: "a as a subject",
        text: "ASK { a ?p ?o }",
        gives: BadAt(6),
    },
    QueryCase {
        what: "a as an object",
        text: "ASK { ?s ?p a }",
        gives: BadAt(12),
    },
    QueryCase {
        what: "a dot alone",
        text: "ASK { . }",
        gives: BadAt(6),
    },
    QueryCase {
        what: "two dots",
        text: "ASK { ?s ?p ?o . . }",
        gives: BadAt(17),
    },
    QueryCase {
        what: "two commas",
        text: "ASK { ?s ?p 1,, 2 }",
        gives: BadAt(14),
    },
    QueryCase {
        what: "a comma without an object",
        text: "ASK { ?s ?p ?o , }",
        gives: BadAt(17),
    },
    QueryCase {
        what: "a semicolon without an object",
        text: "ASK { ?s ?p ; ?q ?r }",
        gives: BadAt(12),
    },
    QueryCase {
        what: "a comma behind a semicolon",
        text: "ASK { ?s ?p ?o ; , 1 }",
        gives: BadAt(17),
    },
    QueryCase {
        what: "an object alone behind a semicolon",
        text: "ASK { ?s ?p ?o ; ?q }",
        gives: BadAt(20),
    },
    QueryCase {
        what: "a tag behind a number",
        text: "ASK { ?s ?p 1@en }",
        gives: BadAt(13),
    },
    QueryCase {
        what: "a tag behind an IRI",
        text: "ASK { ?s ?p <http://e/a>@en }",
        gives: BadAt(24),
    },
    QueryCase {
        what: "a tag apart from its mark",
        text: "ASK { ?s ?p 'a' @ en }",
        gives: BadAt(16),
    },
    QueryCase {
        what: "two tags",
        text: "ASK { ?s ?p 'a'@en@de }",
        gives: BadAt(18),
    },
    QueryCase {
        what: "a datatype behind a tag",
        text: "ASK { ?s ?p 'a'@en^^<http://e/d> }",
        gives: BadAt(18),
    },
    QueryCase {
        what: "a datatype behind a number",
        text: "ASK { ?s ?p 1^^<http://e/d> }",
        gives: BadAt(13),
    },
    QueryCase {
        what: "a variable as a datatype",
        text: "ASK { ?s ?p 'a'^^?d }",
        gives: BadAt(17),
    },
    QueryCase {
        what: "one circumflex before a datatype",
        text: "ASK { ?s ?p 'a'^<http://e/d> }",
        gives: Unsupported(15),
    },
    QueryCase {
        what: "two strings in succession",
        text: "ASK { ?s ?p \"a\"\"b\" }",
        gives: BadAt(15),
    },
    QueryCase {
        what: "a graph without a name",
        text: "ASK { GRAPH { ?s ?p ?o } }",
        gives: Unsupported(12),
    },
    QueryCase {
        what: "a graph named by a blank node",
        text: "ASK { GRAPH _:g { ?s ?p ?o } }",
        gives: BadAt(12),
    },
    QueryCase {
        what: "a graph named by a literal",
        text: "ASK { GRAPH 'g' { ?s ?p ?o } }",
        gives: BadAt(12),
    },
    QueryCase {
        what: "a graph named by a",
        text: "ASK { GRAPH a { ?s ?p ?o } }",
        gives: BadAt(12),
    },
    QueryCase {
        what: "a graph without braces",
        text: "ASK { GRAPH ?g ?s ?p ?o }",
        gives: BadAt(15),
    },
    QueryCase {
        what: "a graph in a graph",
        text: "ASK { GRAPH ?g { GRAPH ?h { ?s ?p ?o } } }",
        gives: BadAt(17),
    },
    QueryCase {
        what: "a graph behind a pattern in a graph",
        text: "ASK { GRAPH ?g { ?s ?p ?o GRAPH ?h { ?s ?p ?o } } }",
        gives: BadAt(26),
    },
    QueryCase {
        what: "a graph in a template",
        text: "CONSTRUCT { GRAPH ?g { ?s ?p ?o } } WHERE {}",
        gives: BadAt(12),
    },
    QueryCase {
        what: "a graph in CONSTRUCT WHERE",
        text: "CONSTRUCT WHERE { ?s ?p ?o GRAPH ?g { ?s ?p ?o } }",
        gives: BadAt(27),
    },
    QueryCase {
        what: "an empty graph",
        text: "ASK { GRAPH ?g { } }",
        gives: Unsupported(17),
    },
    QueryCase {
        what: "an empty graph behind a pattern",
        text: "ASK { ?s ?p ?o GRAPH <http://e/g> {} }",
        gives: Unsupported(35),
    },
    QueryCase {
        what: "a dot alone in a graph",
        text: "ASK { GRAPH ?g { . } }",
        gives: BadAt(17),
    },
    QueryCase {
        what: "two dots behind a graph",
        text: "ASK { GRAPH ?g { ?s ?p ?o } . . }",
        gives: BadAt(30),
    },
];

/// Texts that are no token, and places counted in bytes of UTF-8.
pub static QUERY_TEXT_FAULTS: &[QueryCase] = &[
    QueryCase {
        what: "a string that is not closed",
        text: "ASK { ?s ?p \"a }",
        gives: BadAt(12),
    },
    QueryCase {
        what: "a line feed in a string",
        text: "ASK { ?s ?p 'a\nb' }",
        gives: BadAt(12),
    },
    QueryCase {
        what: "an escape of no meaning",
        text: "ASK { ?s ?p '\\x' }",
        gives: BadAt(12),
    },
    QueryCase {
        what: "a surrogate",
        text: "ASK { ?s ?p '\\uD800' }",
        gives: BadAt(12),
    },
    QueryCase {
        what: "a space in an IRI",
        text: "ASK { ?s <http://e/a b> ?o }",
        gives: BadAt(9),
    },
    QueryCase {
        what: "a quotation mark in an IRI",
        text: "ASK { ?s <http://e/\"> ?o }",
        gives: BadAt(9),
    },
    QueryCase {
        what: "a variable without a name",
        text: "ASK { ?s ? ?o }",
        gives: BadAt(9),
    },
    QueryCase {
        what: "a label without characters",
        text: "ASK { _: ?p ?o }",
        gives: BadAt(6),
    },
    QueryCase {
        what: "a percent sign with one digit",
        text: "PREFIX e: <http://e/> ASK { e:%4 ?p ?o }",
        gives: BadAt(30),
    },
    QueryCase {
        what: "bytes and not characters are counted",
        text: "ASK { ?é <http://e/é> \"é😀\" ?x }",
        gives: BadAt(33),
    },
    QueryCase {
        what: "a comment of other letters before the fault",
        text: "# é😀\nASK { TRUE ?p ?o }",
        gives: BadAt(15),
    },
    QueryCase {
        what: "a byte order mark",
        text: "\u{feff}ASK {}",
        gives: BadAt(0),
    },
    QueryCase {
        what: "a no-break space",
        text: "ASK\u{a0}{}",
        gives: BadAt(3),
    },
    QueryCase {
        what: "a letter that begins no word",
        text: "ASK { é ?p ?o }",
        gives: BadAt(6),
    },
    QueryCase {
        what: "an exclamation mark",
        text: "ASK { ?s !?p ?o }",
        gives: Unsupported(9),
    },
];
