//! Queries that are read: their terms.
use crate::QueryCase;
use crate::QueryReading::Printed;

/// Prefixes, IRIs, blank nodes, literals, comments and white space (SPARQL 1.1, sections 4 and 19).
pub static QUERY_TERMS: &[QueryCase] = &[
    QueryCase {
        what: "a prefix",
        text: "PREFIX e: <http://e/> ASK { e:a e:p e:b }",
        gives: Printed("ASK WHERE { <http://e/a> <http://e/p> <http://e/b> . }"),
    },
    QueryCase {
        what: "a later declaration of a prefix counts",
        text: "PREFIX e: <http://f/> PREFIX e: <http://e/> ASK { e:a e:p ?o }",
        gives: Printed("ASK WHERE { <http://e/a> <http://e/p> ?o . }"),
    },
    QueryCase {
        what: "two prefixes",
        text: "prefix e: <http://e/> Prefix f: <http://f/> ASK { e:a f:p e: }",
        gives: Printed("ASK WHERE { <http://e/a> <http://f/p> <http://e/> . }"),
    },
    QueryCase {
        what: "the empty prefix",
        text: "PREFIX : <http://e/> ASK { :a : :b }",
        gives: Printed("ASK WHERE { <http://e/a> <http://e/> <http://e/b> . }"),
    },
    QueryCase {
        what: "prefixes are told apart by the case of their letters",
        text: "PREFIX e: <http://e/> PREFIX E: <http://f/> ASK { e:a E:p ?o }",
        gives: Printed("ASK WHERE { <http://e/a> <http://f/p> ?o . }"),
    },
    QueryCase {
        what: "a word as a prefix",
        text: "PREFIX select: <http://e/> ASK { select:a ?p ?o }",
        gives: Printed("ASK WHERE { <http://e/a> ?p ?o . }"),
    },
    QueryCase {
        what: "a dot inside a prefix and a local part, and one behind",
        text: "PREFIX e.f-g: <http://e/> ASK { ?s ?p e.f-g:a.b. }",
        gives: Printed("ASK WHERE { ?s ?p <http://e/a.b> . }"),
    },
    QueryCase {
        what: "marks in a local part",
        text: "PREFIX e: <http://e/> ASK { e:a\\.\\~b%41:c- ?p e:1 }",
        gives: Printed("ASK WHERE { <http://e/a.~b%41:c-> ?p <http://e/1> . }"),
    },
    QueryCase {
        what: "a prefix that is not used",
        text: "PREFIX e: <http://e/> ASK { ?s ?p ?o }",
        gives: Printed("ASK WHERE { ?s ?p ?o . }"),
    },
    QueryCase {
        what: "escapes in an IRI",
        text: "ASK { <http://e/\\u00e9\\U0001F600> ?p <http://e/é> }",
        gives: Printed("ASK WHERE { <http://e/é😀> ?p <http://e/é> . }"),
    },
    QueryCase {
        what: "blank nodes",
        text: "ASK { _:n ?p _:1.b . _:n ?q _:n }",
        gives: Printed("ASK WHERE { _:n ?p _:1.b . _:n ?q _:n . }"),
    },
    QueryCase {
        what: "strings in both quotes",
        text: "ASK { ?s ?p \"it's\" , 'a \"b\"' , \"\" , '' }",
        gives: Printed(
            "ASK WHERE { ?s ?p \"it's\" . ?s ?p \"a \\\"b\\\"\" . ?s ?p \"\" . ?s ?p \"\" . }",
        ),
    },
    QueryCase {
        what: "escapes in a string",
        text: "ASK { ?s ?p '\\t\\n\\r\\\"\\'\\\\' , \"\\u00e9\\U0001F600\" }",
        gives: Printed("ASK WHERE { ?s ?p \"\t\\n\\r\\\"'\\\\\" . ?s ?p \"é😀\" . }"),
    },
    QueryCase {
        what: "marks inside of a string",
        text: "ASK { ?s ?p \"# } {\" }",
        gives: Printed("ASK WHERE { ?s ?p \"# } {\" . }"),
    },
    QueryCase {
        what: "language tags",
        text: "ASK { ?s ?p 'a'@en , \"b\"@EN-gb-x1 }",
        gives: Printed("ASK WHERE { ?s ?p \"a\"@en . ?s ?p \"b\"@EN-gb-x1 . }"),
    },
    QueryCase {
        what: "a space before a tag and around a datatype",
        text: "PREFIX e: <http://e/> ASK { ?s ?p 'a' @en , 'b' ^^ e:d }",
        gives: Printed("ASK WHERE { ?s ?p \"a\"@en . ?s ?p \"b\"^^<http://e/d> . }"),
    },
    QueryCase {
        what: "datatypes",
        text: "PREFIX d: <http://e/d> ASK { ?s ?p \"1\"^^<http://e/d> , '1'^^d: }",
        gives: Printed("ASK WHERE { ?s ?p \"1\"^^<http://e/d> . ?s ?p \"1\"^^<http://e/d> . }"),
    },
    QueryCase {
        what: "a literal typed as xsd:string is a plain one",
        text: "PREFIX x: <http://www.w3.org/2001/XMLSchema#> ASK { 'a'^^x:string ?p \"x\"^^<http://www.w3.org/2001/XMLSchema#string> }",
        gives: Printed("ASK WHERE { \"a\" ?p \"x\" . }"),
    },
    QueryCase {
        what: "integers",
        text: "ASK { ?s ?p 1 , +1 , -1 , 007 }",
        gives: Printed(
            "ASK WHERE { ?s ?p \"1\"^^<http://www.w3.org/2001/XMLSchema#integer> . ?s ?p \"+1\"^^<http://www.w3.org/2001/XMLSchema#integer> . ?s ?p \"-1\"^^<http://www.w3.org/2001/XMLSchema#integer> . ?s ?p \"007\"^^<http://www.w3.org/2001/XMLSchema#integer> . }",
        ),
    },
    QueryCase {
        what: "decimals",
        text: "ASK { ?s ?p 1.5 , +.5 , -0.50 }",
        gives: Printed(
            "ASK WHERE { ?s ?p \"1.5\"^^<http://www.w3.org/2001/XMLSchema#decimal> . ?s ?p \"+.5\"^^<http://www.w3.org/2001/XMLSchema#decimal> . ?s ?p \"-0.50\"^^<http://www.w3.org/2001/XMLSchema#decimal> . }",
        ),
    },
    QueryCase {
        what: "doubles",
        text: "ASK { ?s ?p 1e3 , +1.E-2 , -.5e+1 }",
        gives: Printed(
            "ASK WHERE { ?s ?p \"1e3\"^^<http://www.w3.org/2001/XMLSchema#double> . ?s ?p \"+1.E-2\"^^<http://www.w3.org/2001/XMLSchema#double> . ?s ?p \"-.5e+1\"^^<http://www.w3.org/2001/XMLSchema#double> . }",
        ),
    },
    QueryCase {
        what: "truth values",
        text: "ASK { ?s ?p true , false }",
        gives: Printed(
            "ASK WHERE { ?s ?p \"true\"^^<http://www.w3.org/2001/XMLSchema#boolean> . ?s ?p \"false\"^^<http://www.w3.org/2001/XMLSchema#boolean> . }",
        ),
    },
    QueryCase {
        what: "literals as subjects",
        text: "ASK { 'a' ?p 1 . 'a'@en ?p ?o . 'a'^^<http://e/d> ?p ?o . -1 ?p ?o . true ?p ?o }",
        gives: Printed(
            "ASK WHERE { \"a\" ?p \"1\"^^<http://www.w3.org/2001/XMLSchema#integer> . \"a\"@en ?p ?o . \"a\"^^<http://e/d> ?p ?o . \"-1\"^^<http://www.w3.org/2001/XMLSchema#integer> ?p ?o . \"true\"^^<http://www.w3.org/2001/XMLSchema#boolean> ?p ?o . }",
        ),
    },
    QueryCase {
        what: "comments",
        text: "ASK # a comment { \n { # é\r ?s ?p ?o } # the end",
        gives: Printed("ASK WHERE { ?s ?p ?o . }"),
    },
    QueryCase {
        what: "a number sign inside of an IRI begins no comment",
        text: "ASK { <http://e/#a> ?p ?o }",
        gives: Printed("ASK WHERE { <http://e/#a> ?p ?o . }"),
    },
    QueryCase {
        what: "white space",
        text: "\t\r\nASK\r{\n?s\t?p\r\n?o}\n",
        gives: Printed("ASK WHERE { ?s ?p ?o . }"),
    },
];
