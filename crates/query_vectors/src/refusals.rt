//! Texts that SPARQL 1.1 has and the profile of queries has not.
use crate::QueryCase;
use crate::QueryReading::{BadAt, UnknownPrefix, Unsupported};

/// Words, marks and quotes of SPARQL 1.1 that the profile has not (SPARQL 1.1, section 19.8).
pub static QUERY_WORDS: &[QueryCase] = &[
    QueryCase {
        what: "BASE",
        text: "BASE <http://e/> ASK {}",
        gives: Unsupported(0),
    },
    QueryCase {
        what: "BASE behind a prefix",
        text: "PREFIX e: <http://e/> base <http://e/> ASK {}",
        gives: Unsupported(22),
    },
    QueryCase {
        what: "FROM",
        text: "SELECT * FROM <http://e/g> {}",
        gives: Unsupported(9),
    },
    QueryCase {
        what: "FROM behind ASK",
        text: "ASK from <http://e/g> {}",
        gives: Unsupported(4),
    },
    QueryCase {
        what: "DESCRIBE",
        text: "DESCRIBE ?x",
        gives: Unsupported(0),
    },
    QueryCase {
        what: "ORDER",
        text: "SELECT * {} ORDER BY ?x",
        gives: Unsupported(12),
    },
    QueryCase {
        what: "GROUP",
        text: "SELECT * {} group by ?x",
        gives: Unsupported(12),
    },
    QueryCase {
        what: "HAVING",
        text: "SELECT * {} LIMIT 1 HAVING (1)",
        gives: Unsupported(20),
    },
    QueryCase {
        what: "SERVICE",
        text: "ASK { SERVICE <http://e/> { ?s ?p ?o } }",
        gives: Unsupported(6),
    },
    QueryCase {
        what: "OPTIONAL",
        text: "ASK { ?s ?p ?o OPTIONAL { ?s ?q ?r } }",
        gives: Unsupported(15),
    },
    QueryCase {
        what: "OPTIONAL behind a dot",
        text: "ASK { ?s ?p ?o . Optional { ?s ?q ?r } }",
        gives: Unsupported(17),
    },
    QueryCase {
        what: "UNION",
        text: "ASK { ?s ?p ?o UNION ?s ?q ?r }",
        gives: Unsupported(15),
    },
    QueryCase {
        what: "UNION behind a graph",
        text: "ASK { GRAPH ?g { ?s ?p ?o } UNION { ?s ?q ?r } }",
        gives: Unsupported(28),
    },
    QueryCase {
        what: "MINUS",
        text: "ASK { ?s ?p ?o . MINUS { ?s ?q ?r } }",
        gives: Unsupported(17),
    },
    QueryCase {
        what: "FILTER",
        text: "ASK { ?s ?p ?o fILTER(?o) }",
        gives: Unsupported(15),
    },
    QueryCase {
        what: "BIND",
        text: "ASK { BIND (1 AS ?x) }",
        gives: Unsupported(6),
    },
    QueryCase {
        what: "VALUES",
        text: "ASK { VALUES ?x { 1 } }",
        gives: Unsupported(6),
    },
    QueryCase {
        what: "VALUES behind the group",
        text: "ASK {} VALUES ?x { 1 }",
        gives: Unsupported(7),
    },
    QueryCase {
        what: "EXISTS",
        text: "ASK { ?s ?p ?o ; EXISTS { ?s ?q ?r } }",
        gives: Unsupported(17),
    },
    QueryCase {
        what: "NOT",
        text: "ASK { ?s ?p NOT EXISTS { ?s ?q ?r } }",
        gives: Unsupported(12),
    },
    QueryCase {
        what: "LOAD",
        text: "LOAD <http://e/g>",
        gives: Unsupported(0),
    },
    QueryCase {
        what: "CLEAR",
        text: "CLEAR ALL",
        gives: Unsupported(0),
    },
    QueryCase {
        what: "DROP",
        text: "DROP ALL",
        gives: Unsupported(0),
    },
    QueryCase {
        what: "CREATE",
        text: "CREATE GRAPH <http://e/g>",
        gives: Unsupported(0),
    },
    QueryCase {
        what: "INSERT",
        text: "INSERT DATA { <http://e/a> <http://e/p> 1 }",
        gives: Unsupported(0),
    },
    QueryCase {
        what: "DELETE",
        text: "DELETE WHERE { ?s ?p ?o }",
        gives: Unsupported(0),
    },
    QueryCase {
        what: "WITH",
        text: "WITH <http://e/g> DELETE { ?s ?p ?o } WHERE {}",
        gives: Unsupported(0),
    },
    QueryCase {
        what: "a group in a group",
        text: "ASK { { ?s ?p ?o } }",
        gives: Unsupported(6),
    },
    QueryCase {
        what: "a blank node of brackets",
        text: "ASK { [] ?p ?o }",
        gives: Unsupported(6),
    },
    QueryCase {
        what: "a blank node of brackets as an object",
        text: "ASK { ?s ?p [ ?q ?r ] }",
        gives: Unsupported(12),
    },
    QueryCase {
        what: "a collection",
        text: "ASK { ?s ?p (1 2) }",
        gives: Unsupported(12),
    },
    QueryCase {
        what: "an expression that is projected",
        text: "SELECT (1 AS ?x) {}",
        gives: Unsupported(7),
    },
    QueryCase {
        what: "a path by a slash",
        text: "ASK { ?s <http://e/p>/<http://e/q> ?o }",
        gives: Unsupported(21),
    },
    QueryCase {
        what: "a path by a bar",
        text: "ASK { ?s <http://e/p> | <http://e/q> ?o }",
        gives: Unsupported(22),
    },
    QueryCase {
        what: "a path by a circumflex",
        text: "ASK { ?s ^<http://e/p> ?o }",
        gives: Unsupported(9),
    },
    QueryCase {
        what: "a path by a star",
        text: "ASK { ?s <http://e/p>* ?o }",
        gives: Unsupported(21),
    },
    QueryCase {
        what: "a path by a plus sign",
        text: "ASK { ?s <http://e/p>+ ?o }",
        gives: Unsupported(21),
    },
    QueryCase {
        what: "a path by an exclamation mark",
        text: "ASK { ?s !<http://e/p> ?o }",
        gives: Unsupported(9),
    },
    QueryCase {
        what: "a path by a question mark is not told apart",
        text: "ASK { ?s <http://e/p>? ?o }",
        gives: BadAt(21),
    },
    QueryCase {
        what: "BY is no such word",
        text: "SELECT * {} BY ?x",
        gives: BadAt(12),
    },
    QueryCase {
        what: "AS is no such word",
        text: "SELECT ?x AS ?y {}",
        gives: BadAt(10),
    },
    QueryCase {
        what: "three quotation marks",
        text: "ASK { ?s ?p \"\"\"a\"\"\" }",
        gives: Unsupported(12),
    },
    QueryCase {
        what: "three apostrophes",
        text: "ASK { ?s ?p 'a' , '''b''' }",
        gives: Unsupported(18),
    },
    QueryCase {
        what: "three quotation marks behind a whole query",
        text: "ASK {} \"\"\"",
        gives: BadAt(7),
    },
    QueryCase {
        what: "three apostrophes behind a whole query",
        text: "ASK {} '''",
        gives: BadAt(7),
    },
    QueryCase {
        what: "three quotation marks in the place of a variable",
        text: "SELECT \"\"\"",
        gives: BadAt(7),
    },
    QueryCase {
        what: "three quotation marks at the start",
        text: "\"\"\"",
        gives: BadAt(0),
    },
];

/// Tokens that are refused although the grammar takes them, unknown prefixes among them, and which of two refused tokens counts.
pub static QUERY_REFUSALS: &[QueryCase] = &[
    QueryCase {
        what: "an IRI without a scheme",
        text: "ASK { ?s <p> ?o }",
        gives: Unsupported(9),
    },
    QueryCase {
        what: "an IRI without characters",
        text: "ASK { ?s ?p <> }",
        gives: Unsupported(12),
    },
    QueryCase {
        what: "a scheme that begins with a digit",
        text: "ASK { <1a:b> ?p ?o }",
        gives: Unsupported(6),
    },
    QueryCase {
        what: "an escape of a space in an IRI",
        text: "ASK { ?s <http://e/\\u0020> ?o }",
        gives: Unsupported(9),
    },
    QueryCase {
        what: "an escape of a mark that an IRI leaves out",
        text: "ASK { ?s <http://e/\\u003E> ?o }",
        gives: Unsupported(9),
    },
    QueryCase {
        what: "a namespace without a scheme",
        text: "PREFIX e: <e> ASK {}",
        gives: Unsupported(10),
    },
    QueryCase {
        what: "a datatype without a scheme",
        text: "ASK { ?s ?p 'a'^^<d> }",
        gives: Unsupported(17),
    },
    QueryCase {
        what: "a graph named without a scheme",
        text: "ASK { GRAPH <g> { ?s ?p ?o } }",
        gives: Unsupported(12),
    },
    QueryCase {
        what: "a label as the subject of a template",
        text: "CONSTRUCT { _:b ?p ?o } WHERE {}",
        gives: Unsupported(12),
    },
    QueryCase {
        what: "a label as the object of a template",
        text: "CONSTRUCT { ?s ?p 1 , _:b } WHERE {}",
        gives: Unsupported(22),
    },
    QueryCase {
        what: "a label in CONSTRUCT WHERE",
        text: "CONSTRUCT WHERE { ?s ?p _:b }",
        gives: Unsupported(24),
    },
    QueryCase {
        what: "19 digits behind LIMIT",
        text: "SELECT * {} LIMIT 1000000000000000000",
        gives: Unsupported(18),
    },
    QueryCase {
        what: "19 zeros behind OFFSET",
        text: "SELECT * {} LIMIT 1 OFFSET 0000000000000000000",
        gives: Unsupported(27),
    },
    QueryCase {
        what: "19 digits behind OFFSET before LIMIT",
        text: "SELECT * {} OFFSET 9999999999999999999 LIMIT 1",
        gives: Unsupported(19),
    },
    QueryCase {
        what: "an unknown prefix",
        text: "ASK { e:a ?p ?o }",
        gives: UnknownPrefix(6),
    },
    QueryCase {
        what: "an unknown prefix alone",
        text: "ASK { ?s e: ?o }",
        gives: UnknownPrefix(9),
    },
    QueryCase {
        what: "the empty prefix is unknown too",
        text: "ASK { ?s ?p :o }",
        gives: UnknownPrefix(12),
    },
    QueryCase {
        what: "an unknown prefix of a datatype",
        text: "ASK { ?s ?p 'a'^^e:d }",
        gives: UnknownPrefix(17),
    },
    QueryCase {
        what: "an unknown prefix of the datatype of a subject",
        text: "ASK { 'a'^^e:d ?p ?o }",
        gives: UnknownPrefix(11),
    },
    QueryCase {
        what: "an unknown prefix of a graph",
        text: "ASK { GRAPH e:g { ?s ?p ?o } }",
        gives: UnknownPrefix(12),
    },
    QueryCase {
        what: "an unknown prefix in a template",
        text: "CONSTRUCT { ?s e:p ?o } { ?s ?p ?o }",
        gives: UnknownPrefix(15),
    },
    QueryCase {
        what: "an unknown prefix of another case of letters",
        text: "PREFIX e: <http://e/> ASK { e:a E:p ?o }",
        gives: UnknownPrefix(32),
    },
    QueryCase {
        what: "a prefix that is declared behind its name",
        text: "ASK { ?s ?p e:o } PREFIX e: <http://e/>",
        gives: UnknownPrefix(12),
    },
    QueryCase {
        what: "an unknown prefix behind other letters",
        text: "ASK { ?é é:p ?o }",
        gives: UnknownPrefix(10),
    },
    QueryCase {
        what: "an unknown prefix where no name may stand",
        text: "ASK e:a",
        gives: BadAt(4),
    },
    QueryCase {
        what: "an unknown prefix as a projected name",
        text: "SELECT e:a {}",
        gives: BadAt(7),
    },
    QueryCase {
        what: "an unknown prefix behind LIMIT",
        text: "SELECT * {} LIMIT e:a",
        gives: BadAt(18),
    },
    QueryCase {
        what: "an unknown prefix before a token that is refused",
        text: "ASK { e:a ?p ?o . } }",
        gives: UnknownPrefix(6),
    },
    QueryCase {
        what: "an unknown prefix behind a token that is refused",
        text: "ASK } { e:a ?p ?o }",
        gives: BadAt(4),
    },
    QueryCase {
        what: "an unknown prefix behind one that is unsupported",
        text: "ASK { ?s ?p ?o OPTIONAL { e:a ?p ?o } }",
        gives: Unsupported(15),
    },
    QueryCase {
        what: "an unknown prefix behind an IRI that is refused",
        text: "ASK { ?s <p> e:o }",
        gives: Unsupported(9),
    },
    QueryCase {
        what: "an unknown prefix behind a label in a template",
        text: "CONSTRUCT { _:b e:p ?o } {}",
        gives: Unsupported(12),
    },
    QueryCase {
        what: "an unknown prefix behind an empty graph",
        text: "ASK { GRAPH ?g { } e:a ?p ?o }",
        gives: Unsupported(17),
    },
    QueryCase {
        what: "an unknown prefix in a group whose end is refused",
        text: "ASK { ?s ?p e:o",
        gives: UnknownPrefix(12),
    },
    QueryCase {
        what: "an empty graph before a token that is refused",
        text: "ASK { GRAPH ?g { } . . }",
        gives: Unsupported(17),
    },
    QueryCase {
        what: "the first of two unknown prefixes",
        text: "PREFIX f: <http://f/> ASK { f:a e:p g:o }",
        gives: UnknownPrefix(32),
    },
];
