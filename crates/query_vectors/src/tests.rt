//! Every text of the tables of queries: its fault and the place of it, or what is printed of it,
//! which is read and printed as itself again.
use crate::{
    QUERIES, QUERY_CUTS, QUERY_ENDS, QUERY_FORM_FAULTS, QUERY_LISTS, QUERY_PATTERN_FAULTS,
    QUERY_REFUSALS, QUERY_TERMS, QUERY_TEXT_FAULTS, QUERY_WORDS, QueryCase, QueryReading,
};
use query_grammar::{QueryFault, parse_query};
use query_print::print_query;
use rdf_term::Text;
use std::alloc::Global;
use std::process::Abort;

/// What is printed of the query that a text is.
pub(crate) fn printed(alloc: Global, text: &str) -> Result<Text, QueryFault> {
    let query = parse_query(alloc, text)?;
    match print_query(alloc, &query) {
        Ok(text) => Ok(text),
        Err(_) => Err(QueryFault::Memory),
    }
}

/// Whether the fault is the one that is expected.
pub(crate) fn is_fault(fault: &QueryFault, gives: QueryReading) -> bool {
    match (fault, gives) {
        (QueryFault::BadAt(at), QueryReading::BadAt(wanted)) => *at == wanted,
        (QueryFault::Unsupported(at), QueryReading::Unsupported(wanted)) => *at == wanted,
        (QueryFault::UnknownPrefix(at), QueryReading::UnknownPrefix(wanted)) => *at == wanted,
        _ => false,
    }
}

/// Reading the text gave what was expected; `how` says which text it was.
fn meets(rt: &impl Abort, case: &QueryCase, read: Result<Text, QueryFault>, how: &str) {
    match (read, case.gives) {
        (Ok(text), QueryReading::Printed(wanted)) => assert!(rt;
            text.as_str() == wanted,
            "{}, {how}: printed as {text:?}",
            case.what
        ),
        (Ok(text), _) => assert!(rt; false, "{}, {how}: read as {text:?}", case.what),
        (Err(fault), gives) => assert!(rt;
            is_fault(&fault, gives),
            "{}, {how}: {fault:?}",
            case.what
        ),
    }
}

fn table_reads(rt: &impl Abort, alloc: Global, table: &[QueryCase]) {
    for case in table {
        meets(rt, case, printed(alloc, case.text), "as it stands");
        if let QueryReading::Printed(text) = case.gives {
            meets(rt, case, printed(alloc, text), "as it is printed");
        }
    }
}

#[test]
fn forms_of_queries(rt: HostRuntime) {
    table_reads(&rt, rt.alloc(), QUERIES);
}

#[test]
fn cuts_of_queries(rt: HostRuntime) {
    table_reads(&rt, rt.alloc(), QUERY_CUTS);
}

#[test]
fn lists_and_graphs_of_queries(rt: HostRuntime) {
    table_reads(&rt, rt.alloc(), QUERY_LISTS);
}

#[test]
fn terms_of_queries(rt: HostRuntime) {
    table_reads(&rt, rt.alloc(), QUERY_TERMS);
}

#[test]
fn ends_that_are_refused(rt: HostRuntime) {
    table_reads(&rt, rt.alloc(), QUERY_ENDS);
}

#[test]
fn tokens_that_are_refused(rt: HostRuntime) {
    table_reads(&rt, rt.alloc(), QUERY_FORM_FAULTS);
    table_reads(&rt, rt.alloc(), QUERY_PATTERN_FAULTS);
}

#[test]
fn texts_that_are_no_token(rt: HostRuntime) {
    table_reads(&rt, rt.alloc(), QUERY_TEXT_FAULTS);
}

#[test]
fn words_that_the_profile_has_not(rt: HostRuntime) {
    table_reads(&rt, rt.alloc(), QUERY_WORDS);
}

#[test]
fn tokens_that_are_refused_although_the_grammar_takes_them(rt: HostRuntime) {
    table_reads(&rt, rt.alloc(), QUERY_REFUSALS);
}
