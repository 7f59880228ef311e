//! Tables of Accept values with what they choose.
use media::{Form, QUAD_FORMS, TABLE_FORMS, TRUTH_FORMS, choose, most_specific_range, one_range};

#[test]
fn values_for_quads(rt: HostRuntime) {
    let table = [
        ("", Some(Form::NQuads)),
        (" , ,", Some(Form::NQuads)),
        ("*/*", Some(Form::NQuads)),
        ("application/rdf+xml", None),
        ("application/n-quads", Some(Form::NQuads)),
        ("text/x-nquads", Some(Form::XNQuads)),
        ("application/n-triples", Some(Form::NTriples)),
        ("text/plain", Some(Form::PlainTriples)),
        ("text/plain;charset=utf-8", Some(Form::PlainTriples)),
        ("text/*", Some(Form::XNQuads)),
        ("application/*", Some(Form::NQuads)),
        (
            "application/n-triples, application/n-quads",
            Some(Form::NQuads),
        ),
        (
            "application/n-triples, application/n-quads;q=0.9",
            Some(Form::NTriples),
        ),
        (
            "application/rdf+xml, text/plain;q=0.001",
            Some(Form::PlainTriples),
        ),
        ("*/*;q=0", None),
        ("*/*, application/*;q=0", Some(Form::XNQuads)),
        (
            "*/*;q=0.5, text/*;q=0.6, text/x-nquads;q=0.1",
            Some(Form::PlainTriples),
        ),
        ("APPLICATION/N-Triples", Some(Form::NTriples)),
        ("text/x-nquads, application/n-triples", Some(Form::NTriples)),
    ];
    for (accept, want) in table {
        assert_eq!(rt; choose(accept.as_bytes(), &QUAD_FORMS), want, "at {accept}");
    }
}

#[test]
fn values_for_results(rt: HostRuntime) {
    let table = [
        ("text/*;q=0.5, application/json", Some(Form::Json)),
        (
            "application/json, application/sparql-results+json",
            Some(Form::ResultsJson),
        ),
        ("application/json;q=0, application/json", None),
        ("application/json, application/json;q=0", Some(Form::Json)),
        ("application/sparql-results+xml, text/csv", None),
        ("text/csv, */*;q=0.1", Some(Form::ResultsJson)),
    ];
    for (accept, want) in table {
        assert_eq!(rt;
            choose(accept.as_bytes(), &TABLE_FORMS),
            want,
            "at {accept}"
        );
    }
}

#[test]
fn values_for_truths(rt: HostRuntime) {
    let table = [
        ("", Some(Form::ResultsJson)),
        ("text/plain", None),
        ("text/boolean", Some(Form::Boolean)),
        ("text/*", Some(Form::Boolean)),
        ("application/json", Some(Form::Json)),
        ("application/sparql-results+json", Some(Form::ResultsJson)),
        ("text/boolean;q=0.5, text/plain;q=0.5", Some(Form::Boolean)),
        (
            "text/boolean;q=0.5, text/plain;q=0.50, application/json;q=0.501",
            Some(Form::Json),
        ),
    ];
    for (accept, want) in table {
        assert_eq!(rt;
            choose(accept.as_bytes(), &TRUTH_FORMS),
            want,
            "at {accept}"
        );
    }
}

/// Each element beside `application/json;q=0.5`: it counts only where it is of the form.
#[test]
fn elements(rt: HostRuntime) {
    let offers = [Form::PlainText, Form::Json];
    let table = [
        ("text/plain", true),
        ("\t text/plain \t", true),
        ("text/plain ;\tq=0.6", true),
        ("text/plain;Q=0.6", true),
        ("text/plain;q=1", true),
        ("text/plain;q=1.", true),
        ("text/plain;q=1.000", true),
        ("text/plain;q=0.501", true),
        ("text/plain;;", true),
        ("text/plain; = ;x;q", false),
        ("text/plain; = ;x;y", true),
        ("text/plain;format=\"a;b\"", true),
        ("text/plain;level=1;q=0.6;extra=2", true),
        ("text/plain;qq=0", true),
        ("text/*", true),
        ("TEXT/Plain", true),
        ("text/plain;q=0", false),
        ("text/plain;q=0.", false),
        ("text/plain;q=0.5", true),
        ("text/plain;q=0.499", false),
        ("text/plain;q=", false),
        ("text/plain;q=.6", false),
        ("text/plain;q=0.6000", false),
        ("text/plain;q=1.001", false),
        ("text/plain;q=1.0000", false),
        ("text/plain;q=2", false),
        ("text/plain;q=0,6", false),
        ("text/plain;q=\"0.6\"", false),
        ("text/plain;q =0.6", false),
        ("text/plain;q= 0.6", false),
        ("text/plain;q=0.6;q=0.6", false),
        ("text/plain;q=0.6;Q=0.7", false),
        ("text", false),
        ("text/", false),
        ("/plain", false),
        ("/", false),
        ("*", false),
        ("*/plain", false),
        ("text/plain/x", false),
        ("text /plain", false),
        ("text/ plain", false),
        ("te(xt/plain", false),
        ("text/plain x", false),
        ("text/pl", false),
        ("text/plainer", false),
    ];
    for (element, counts) in table {
        let want = if counts { Form::PlainText } else { Form::Json };
        let mut accept = [b' '; 64];
        assert!(rt; element.len() < 40);
        let end = element.len();
        accept[..end].copy_from_slice(element.as_bytes());
        accept[end..end + 23].copy_from_slice(b",application/json;q=0.5");
        assert_eq!(rt; choose(&accept, &offers), Some(want), "at {element}");
    }
}

#[test]
fn no_offers(rt: HostRuntime) {
    one_range();
    most_specific_range();
    assert_eq!(rt; choose(b"*/*", &[]), None);
    assert_eq!(rt; choose(b"", &[]), None);
}

#[test]
fn content_types(rt: HostRuntime) {
    let table = [
        (Form::NQuads, "application/n-quads"),
        (Form::XNQuads, "text/x-nquads"),
        (Form::NTriples, "application/n-triples"),
        (Form::PlainTriples, "text/plain;charset=UTF-8"),
        (Form::ResultsJson, "application/sparql-results+json"),
        (Form::Json, "application/json"),
        (Form::Boolean, "text/boolean"),
        (Form::PlainText, "text/plain;charset=UTF-8"),
    ];
    for (form, want) in table {
        assert_eq!(rt; form.content_type(), want, "at {form:?}");
    }
}
