//! Laws of calls, each as the contract of a function that does nothing.
ghost use Rattle.repo_api.specs.Laws.{CallsAreCallable, OneCall, OnOneOfThese, WritesAreValid};

use api_parts::{one_first_bad, one_selection};
use api_paths::one_transaction;
use nquads::{documents_are_valid, is_refused_or_read, one_first_bad_line, one_reading};
use nquads_line::terms_are_valid;
use query_model::few_lookups;
use query_text::{one_fault, one_query, parsed_queries_are_well_formed};

/// A request is one call, or it has one first refusal. So `read_call` answers each exactly where it is
/// the request's, but for want of memory.
pub fn one_call()
    ensures { OneCall }
{
    one_selection();
    one_first_bad();
    one_transaction();
    one_reading();
    one_first_bad_line();
    is_refused_or_read();
    one_query();
    one_fault();
}

/// A call on a repository is on one of those that are there.
pub fn calls_are_on_repositories()
    ensures { OnOneOfThese }
{}

/// The op of a call is no Step of a query, and makes at most 256 entries.
pub fn calls_are_callable()
    ensures { CallsAreCallable }
{
    parsed_queries_are_well_formed();
    few_lookups();
}

/// What a call adds is of valid terms.
pub fn writes_are_valid()
    ensures { WritesAreValid }
{
    documents_are_valid();
    terms_are_valid();
}
