//! Queries that are read: their forms, modifiers, lists and graphs.
use crate::QueryCase;
use crate::QueryReading::Printed;

/// Forms of queries (SPARQL 1.1, section 19.8).
pub static QUERIES: &[QueryCase] = &[
    QueryCase {
        what: "ASK and an empty group",
        text: "ASK {}",
        gives: Printed("ASK WHERE { }"),
    },
    QueryCase {
        what: "ASK WHERE in lower case",
        text: "ask where { }",
        gives: Printed("ASK WHERE { }"),
    },
    QueryCase {
        what: "no space where none is needed",
        text: "ASK{?s ?p ?o}",
        gives: Printed("ASK WHERE { ?s ?p ?o . }"),
    },
    QueryCase {
        what: "a dot behind the last pattern",
        text: "ASK { ?s ?p ?o . }",
        gives: Printed("ASK WHERE { ?s ?p ?o . }"),
    },
    QueryCase {
        what: "two patterns",
        text: "ASK WHERE { ?s ?p ?o.?o ?q ?r }",
        gives: Printed("ASK WHERE { ?s ?p ?o . ?o ?q ?r . }"),
    },
    QueryCase {
        what: "words in any case of letters",
        text: "sElEcT dIsTiNcT ?x wHeRe { gRaPh ?g { ?x ?p ?o } } lImIt 3 oFfSeT 2",
        gives: Printed("SELECT DISTINCT ?x WHERE { GRAPH ?g { ?x ?p ?o . } } LIMIT 3 OFFSET 2"),
    },
    QueryCase {
        what: "a question mark and a dollar sign name one variable",
        text: "SELECT $x { ?x ?p $o }",
        gives: Printed("SELECT ?x WHERE { ?x ?p ?o . }"),
    },
    QueryCase {
        what: "a variable that is projected twice",
        text: "SELECT ?x ?y $x { ?x ?p ?y }",
        gives: Printed("SELECT ?x ?y WHERE { ?x ?p ?y . }"),
    },
    QueryCase {
        what: "a variable that the group does not hold",
        text: "SELECT ?z ?x { ?x ?p ?y }",
        gives: Printed("SELECT ?z ?x WHERE { ?x ?p ?y . }"),
    },
    QueryCase {
        what: "names of variables are told apart by the case of their letters",
        text: "SELECT ?x ?X { ?x ?p ?X }",
        gives: Printed("SELECT ?x ?X WHERE { ?x ?p ?X . }"),
    },
    QueryCase {
        what: "names of variables of digits and of other letters",
        text: "SELECT ?1 ?_a ?é { ?1 ?_a ?é }",
        gives: Printed("SELECT ?1 ?_a ?é WHERE { ?1 ?_a ?é . }"),
    },
    QueryCase {
        what: "the star stands for the variables in the order in which they first stand",
        text: "SELECT * { ?b ?p _:x . GRAPH ?g { ?c ?b ?a } }",
        gives: Printed("SELECT ?b ?p ?g ?c ?a WHERE { ?b ?p _:x . GRAPH ?g { ?c ?b ?a . } }"),
    },
    QueryCase {
        what: "the star of a group without variables",
        text: "SELECT * WHERE { _:a <http://e/p> <http://e/b> }",
        gives: Printed("SELECT * WHERE { _:a <http://e/p> <http://e/b> . }"),
    },
    QueryCase {
        what: "the star of an empty group",
        text: "SELECT DISTINCT * {}",
        gives: Printed("SELECT DISTINCT * WHERE { }"),
    },
    QueryCase {
        what: "REDUCED has no effect",
        text: "SELECT REDUCED ?s { ?s ?p ?o }",
        gives: Printed("SELECT ?s WHERE { ?s ?p ?o . }"),
    },
    QueryCase {
        what: "REDUCED and the star",
        text: "SELECT REDUCED * { ?s ?p ?o }",
        gives: Printed("SELECT ?s ?p ?o WHERE { ?s ?p ?o . }"),
    },
    QueryCase {
        what: "SELECT without WHERE",
        text: "SELECT ?o { <http://e/a> ?p ?o }",
        gives: Printed("SELECT ?o WHERE { <http://e/a> ?p ?o . }"),
    },
    QueryCase {
        what: "CONSTRUCT",
        text: "CONSTRUCT { ?o ?p ?s } WHERE { ?s ?p ?o }",
        gives: Printed("CONSTRUCT { ?o ?p ?s . } WHERE { ?s ?p ?o . }"),
    },
    QueryCase {
        what: "CONSTRUCT without WHERE",
        text: "CONSTRUCT { ?o <http://e/r> ?s . } { ?s ?p ?o . }",
        gives: Printed("CONSTRUCT { ?o <http://e/r> ?s . } WHERE { ?s ?p ?o . }"),
    },
    QueryCase {
        what: "an empty template",
        text: "CONSTRUCT {} WHERE { ?s ?p ?o }",
        gives: Printed("CONSTRUCT { } WHERE { ?s ?p ?o . }"),
    },
    QueryCase {
        what: "a template and an empty group",
        text: "CONSTRUCT { <http://e/a> <http://e/r> 1 } {}",
        gives: Printed(
            "CONSTRUCT { <http://e/a> <http://e/r> \"1\"^^<http://www.w3.org/2001/XMLSchema#integer> . } WHERE { }",
        ),
    },
    QueryCase {
        what: "a template with lists",
        text: "CONSTRUCT { ?s ?p 1 , 2 ; a <http://e/T> . } WHERE { ?s ?p _:o }",
        gives: Printed(
            "CONSTRUCT { ?s ?p \"1\"^^<http://www.w3.org/2001/XMLSchema#integer> . ?s ?p \"2\"^^<http://www.w3.org/2001/XMLSchema#integer> . ?s <http://www.w3.org/1999/02/22-rdf-syntax-ns#type> <http://e/T> . } WHERE { ?s ?p _:o . }",
        ),
    },
    QueryCase {
        what: "a literal as the subject of a template",
        text: "CONSTRUCT { 'a' ?p ?o } { ?s ?p ?o }",
        gives: Printed("CONSTRUCT { \"a\" ?p ?o . } WHERE { ?s ?p ?o . }"),
    },
    QueryCase {
        what: "a blank node in the group behind a template",
        text: "CONSTRUCT { ?s <http://e/r> ?o } { ?s ?p _:b . _:b ?q ?o }",
        gives: Printed("CONSTRUCT { ?s <http://e/r> ?o . } WHERE { ?s ?p _:b . _:b ?q ?o . }"),
    },
    QueryCase {
        what: "a graph behind a template",
        text: "construct{?s ?p ?o.}where{graph ?g{?s ?p ?o}}",
        gives: Printed("CONSTRUCT { ?s ?p ?o . } WHERE { GRAPH ?g { ?s ?p ?o . } }"),
    },
    QueryCase {
        what: "CONSTRUCT WHERE",
        text: "CONSTRUCT WHERE { ?s ?p ?o . ?o <http://e/q> 'x'@en }",
        gives: Printed(
            "CONSTRUCT { ?s ?p ?o . ?o <http://e/q> \"x\"@en . } WHERE { ?s ?p ?o . ?o <http://e/q> \"x\"@en . }",
        ),
    },
    QueryCase {
        what: "CONSTRUCT WHERE and nothing",
        text: "CONSTRUCT WHERE {}",
        gives: Printed("CONSTRUCT { } WHERE { }"),
    },
];

/// LIMIT and OFFSET (SPARQL 1.1, section 19.8): at most 18 digits, in either order.
pub static QUERY_CUTS: &[QueryCase] = &[
    QueryCase {
        what: "LIMIT",
        text: "SELECT ?s { ?s ?p ?o } LIMIT 5",
        gives: Printed("SELECT ?s WHERE { ?s ?p ?o . } LIMIT 5"),
    },
    QueryCase {
        what: "OFFSET",
        text: "SELECT ?s { ?s ?p ?o } OFFSET 2",
        gives: Printed("SELECT ?s WHERE { ?s ?p ?o . } OFFSET 2"),
    },
    QueryCase {
        what: "LIMIT before OFFSET",
        text: "SELECT ?s { ?s ?p ?o } LIMIT 2 OFFSET 3",
        gives: Printed("SELECT ?s WHERE { ?s ?p ?o . } LIMIT 2 OFFSET 3"),
    },
    QueryCase {
        what: "OFFSET before LIMIT",
        text: "SELECT ?s { ?s ?p ?o } OFFSET 3 LIMIT 2",
        gives: Printed("SELECT ?s WHERE { ?s ?p ?o . } LIMIT 2 OFFSET 3"),
    },
    QueryCase {
        what: "LIMIT 0",
        text: "SELECT ?s { ?s ?p ?o } LIMIT 0",
        gives: Printed("SELECT ?s WHERE { ?s ?p ?o . } LIMIT 0"),
    },
    QueryCase {
        what: "OFFSET 0 says nothing",
        text: "SELECT ?s { ?s ?p ?o } OFFSET 0",
        gives: Printed("SELECT ?s WHERE { ?s ?p ?o . }"),
    },
    QueryCase {
        what: "zeros before a number",
        text: "SELECT ?s { ?s ?p ?o } LIMIT 007 OFFSET 01",
        gives: Printed("SELECT ?s WHERE { ?s ?p ?o . } LIMIT 7 OFFSET 1"),
    },
    QueryCase {
        what: "18 digits, the most",
        text: "SELECT ?s { ?s ?p ?o } LIMIT 999999999999999999 OFFSET 100000000000000000",
        gives: Printed(
            "SELECT ?s WHERE { ?s ?p ?o . } LIMIT 999999999999999999 OFFSET 100000000000000000",
        ),
    },
    QueryCase {
        what: "18 digits, of which 17 are zeros",
        text: "SELECT ?s { ?s ?p ?o } LIMIT 000000000000000001",
        gives: Printed("SELECT ?s WHERE { ?s ?p ?o . } LIMIT 1"),
    },
    QueryCase {
        what: "a cut behind a template",
        text: "CONSTRUCT { ?s ?p ?o } { ?s ?p ?o } OFFSET 1 LIMIT 3",
        gives: Printed("CONSTRUCT { ?s ?p ?o . } WHERE { ?s ?p ?o . } LIMIT 3 OFFSET 1"),
    },
    QueryCase {
        what: "a cut behind CONSTRUCT WHERE",
        text: "CONSTRUCT WHERE { ?s ?p ?o } LIMIT 1",
        gives: Printed("CONSTRUCT { ?s ?p ?o . } WHERE { ?s ?p ?o . } LIMIT 1"),
    },
];

/// Lists of objects and verbs, dots, and graphs (SPARQL 1.1, section 19.8).
pub static QUERY_LISTS: &[QueryCase] = &[
    QueryCase {
        what: "objects behind a comma",
        text: "ASK { ?s ?p <http://e/a>, <http://e/b> ,?o }",
        gives: Printed("ASK WHERE { ?s ?p <http://e/a> . ?s ?p <http://e/b> . ?s ?p ?o . }"),
    },
    QueryCase {
        what: "verbs behind a semicolon",
        text: "ASK { ?s ?p ?o ; ?q ?r }",
        gives: Printed("ASK WHERE { ?s ?p ?o . ?s ?q ?r . }"),
    },
    QueryCase {
        what: "semicolons in succession",
        text: "ASK { ?s ?p ?o ;; ?q ?r ; ;; }",
        gives: Printed("ASK WHERE { ?s ?p ?o . ?s ?q ?r . }"),
    },
    QueryCase {
        what: "a dot behind a semicolon",
        text: "ASK { ?s ?p ?o ; . ?o ?q ?r ;. }",
        gives: Printed("ASK WHERE { ?s ?p ?o . ?o ?q ?r . }"),
    },
    QueryCase {
        what: "lists in lists",
        text: "ASK { ?s ?p 'a' , 'b' ; ?q 'c' , 'd' . ?o ?r 'e' }",
        gives: Printed(
            "ASK WHERE { ?s ?p \"a\" . ?s ?p \"b\" . ?s ?q \"c\" . ?s ?q \"d\" . ?o ?r \"e\" . }",
        ),
    },
    QueryCase {
        what: "the verb a",
        text: "ASK { ?s a ?t ; a <http://e/T> }",
        gives: Printed(
            "ASK WHERE { ?s <http://www.w3.org/1999/02/22-rdf-syntax-ns#type> ?t . ?s <http://www.w3.org/1999/02/22-rdf-syntax-ns#type> <http://e/T> . }",
        ),
    },
    QueryCase {
        what: "a number before the dot",
        text: "ASK { ?s ?p 1. ?s ?p 1.5. ?s ?p 2.}",
        gives: Printed(
            "ASK WHERE { ?s ?p \"1\"^^<http://www.w3.org/2001/XMLSchema#integer> . ?s ?p \"1.5\"^^<http://www.w3.org/2001/XMLSchema#decimal> . ?s ?p \"2\"^^<http://www.w3.org/2001/XMLSchema#integer> . }",
        ),
    },
    QueryCase {
        what: "a graph named by a variable",
        text: "SELECT ?g { GRAPH ?g { ?s ?p ?o } }",
        gives: Printed("SELECT ?g WHERE { GRAPH ?g { ?s ?p ?o . } }"),
    },
    QueryCase {
        what: "a graph named by an IRI",
        text: "SELECT ?s { GRAPH <http://e/g> { ?s ?p ?o . } }",
        gives: Printed("SELECT ?s WHERE { GRAPH <http://e/g> { ?s ?p ?o . } }"),
    },
    QueryCase {
        what: "a graph named by a prefixed name",
        text: "PREFIX e: <http://e/> SELECT ?s { GRAPH e:g { ?s e:p ?o } }",
        gives: Printed("SELECT ?s WHERE { GRAPH <http://e/g> { ?s <http://e/p> ?o . } }"),
    },
    QueryCase {
        what: "a graph named by a namespace",
        text: "PREFIX g: <http://e/g> SELECT ?s { GRAPH g: { ?s ?p ?o } }",
        gives: Printed("SELECT ?s WHERE { GRAPH <http://e/g> { ?s ?p ?o . } }"),
    },
    QueryCase {
        what: "two patterns in a graph",
        text: "SELECT ?s { GRAPH ?g { ?s ?p ?x . ?x ?q ?o } }",
        gives: Printed("SELECT ?s WHERE { GRAPH ?g { ?s ?p ?x . } GRAPH ?g { ?x ?q ?o . } }"),
    },
    QueryCase {
        what: "a dot behind a graph",
        text: "SELECT ?s { GRAPH ?g { ?s ?p ?o } . }",
        gives: Printed("SELECT ?s WHERE { GRAPH ?g { ?s ?p ?o . } }"),
    },
    QueryCase {
        what: "a pattern behind a graph and its dot",
        text: "SELECT ?s { GRAPH ?g { ?s ?p ?o } . ?o ?q ?s }",
        gives: Printed("SELECT ?s WHERE { GRAPH ?g { ?s ?p ?o . } ?o ?q ?s . }"),
    },
    QueryCase {
        what: "a pattern behind a graph without a dot",
        text: "SELECT ?s { GRAPH ?g { ?s ?p ?o } ?o ?q ?s . }",
        gives: Printed("SELECT ?s WHERE { GRAPH ?g { ?s ?p ?o . } ?o ?q ?s . }"),
    },
    QueryCase {
        what: "a graph behind a pattern without a dot",
        text: "SELECT ?s { ?o ?q ?s GRAPH ?g { ?s ?p ?o } }",
        gives: Printed("SELECT ?s WHERE { ?o ?q ?s . GRAPH ?g { ?s ?p ?o . } }"),
    },
    QueryCase {
        what: "a graph behind a semicolon",
        text: "SELECT ?s { ?o ?q ?s ; GRAPH ?g { ?s ?p ?o ; } }",
        gives: Printed("SELECT ?s WHERE { ?o ?q ?s . GRAPH ?g { ?s ?p ?o . } }"),
    },
    QueryCase {
        what: "two graphs",
        text: "SELECT ?s { GRAPH <http://e/g> { ?s ?p 1, 2 } GRAPH ?h { ?s ?p ?o } }",
        gives: Printed(
            "SELECT ?s WHERE { GRAPH <http://e/g> { ?s ?p \"1\"^^<http://www.w3.org/2001/XMLSchema#integer> . } GRAPH <http://e/g> { ?s ?p \"2\"^^<http://www.w3.org/2001/XMLSchema#integer> . } GRAPH ?h { ?s ?p ?o . } }",
        ),
    },
];
