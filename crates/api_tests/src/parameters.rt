//! Parameters of a target, good and bad.
use api_parts::{
    Parameter, ParameterFault, one_first_bad, one_selection, parameters, path_of, query_of,
    read_contexts, read_selection,
};
use rdf_term::{Graph, Memory};
use std::alloc::Global;

/// The first bad parameter of a query, or nothing where it selects something.
fn first_bad(alloc: Global, query: &str) -> Result<Option<Parameter>, Memory> {
    let pairs = parameters(alloc, query.as_bytes())?;
    match read_selection(alloc, &pairs) {
        Ok(_) => Ok(None),
        Err(ParameterFault::Bad(parameter)) => Ok(Some(parameter)),
        Err(ParameterFault::Memory) => Err(Memory),
    }
}

#[test]
fn targets_are_cut_at_the_first_question_mark(rt: HostRuntime) {
    assert!(rt; path_of(b"/a?b=c?d") == b"/a".as_slice());
    assert!(rt; query_of(b"/a?b=c?d") == b"b=c?d".as_slice());
    assert!(rt; path_of(b"/a") == b"/a".as_slice());
    assert!(rt; query_of(b"/a") == b"".as_slice());
}

#[test]
fn each_parameter_good_and_bad(rt: HostRuntime) -> Result<(), Memory> {
    one_selection();
    one_first_bad();
    let alloc = rt.alloc();
    for (query, bad) in [
        ("", None),
        ("subj=%3Chttp%3A%2F%2Fe%2Fs%3E&infer=false", None),
        ("subj=<http://e/s>", None),
        ("subj=_:b", None),
        ("obj=%22caf%C3%A9%22@fr", None),
        ("obj=%221%22%5E%5E%3Curn%3At%3E", None),
        ("context=null&context=_%3Ab&context=<urn:g>", None),
        ("subj", Some(Parameter::Subject)),
        ("subj=%221%22", Some(Parameter::Subject)),
        ("subj=_:a&subj=_:a", Some(Parameter::Subject)),
        ("subj=http://e/s", Some(Parameter::Subject)),
        ("pred=_:b", Some(Parameter::Predicate)),
        ("obj=%22a", Some(Parameter::Object)),
        ("obj=%FF", Some(Parameter::Object)),
        ("context=", Some(Parameter::Context)),
        ("context=null&context=%22a%22", Some(Parameter::Context)),
        ("context=NULL", Some(Parameter::Context)),
        ("context=x&pred=x&subj=_:b", Some(Parameter::Predicate)),
        ("obj=x&subj=x", Some(Parameter::Subject)),
    ] {
        assert!(rt; first_bad(alloc, query)? == bad, "{query}");
    }
    Ok(())
}

#[test]
fn equal_contexts_are_taken_once(rt: HostRuntime) -> Result<(), Memory> {
    let alloc = rt.alloc();
    let pairs = parameters(alloc, b"context=null&context=<urn:g>&subj=x&context=null")?;
    let contexts = match read_contexts(alloc, &pairs) {
        Ok(contexts) => contexts,
        Err(_) => return Err(Memory),
    };
    assert_eq!(rt; contexts.len(), 2);
    assert!(rt; matches!(contexts.at(0), Some(Graph::Absent)));
    assert!(rt; matches!(contexts.at(1), Some(Graph::Named(_))));
    Ok(())
}
