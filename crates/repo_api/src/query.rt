//! Where a request has its query, and what query that is.
ghost use Rattle.std.specs.Prelude.{◌≡◌, ◌≢◌, ◌++◌, All, IfOk, IfErr, IsUtf8, Ok, Err, option_to_list};
ghost use Rattle.std.specs.Option.{option_copied};
ghost use Rattle.api_calls.specs.declared.fault.ApiFault.TheVariants as faults;
ghost use Rattle.repo_api.specs.Calls.{QueryIn};
ghost use Rattle.repo_api.specs.Checks.{Gives, Passes};
ghost use Rattle.repo_api.specs.Names.{AreTexts};
ghost use Rattle.repo_api.specs.Queries.{may_query, query_bodies, only, IsQueryOf, forms_of};

use crate::ApiFault;
use crate::content::{is_form, is_query_text, type_of};
use crate::method::is_text;
use crate::parameters::{Named, has_no_binding, is_language};
use api_parts::{Octets, Parameters, values_of};
use http_frame::Request;
use media::{Form, QUAD_FORMS, TABLE_FORMS, TRUTH_FORMS};
use query_text::{Query, QueryFault, parse_query};
use std::alloc::Global;
use std::str;

fn may_query(request: &Request) -> bool
    ensures { result ≡ may_query request.now }
{
    if is_text(&request.head.method, b"GET") {
        return true;
    }
    if request.body.as_slice().is_empty() {
        return true;
    }
    let name = type_of(&request.head.fields);
    is_form(name) || is_query_text(name)
}

/// Whether a query is asked without a body that is neither a form nor the text of a query. A body of
/// GET isn't looked at then.
pub fn is_asked(request: &Request) -> Result<(), ApiFault>
    ensures { Gives (Passes faults.Media (may_query request.now)) result }
{
    if may_query(request) {
        Ok(())
    } else {
        Err(ApiFault::Media)
    }
}

/// The body, where it is the text of a query.
fn query_body(request: &Request) -> Option<&str>
    ensures { option_to_list (option_copied result) ≡ query_bodies request.now }
{
    if !is_query_text(type_of(&request.head.fields)) {
        return None;
    }
    let body = request.body.as_slice();
    if body.is_empty() {
        return None;
    }
    match str::from_utf8(body) {
        Ok(text) => Some(text),
        Err(_) => None,
    }
}

/// The text of octets that are UTF-8.
fn text(octets: &Octets) -> &str
    requires { IsUtf8 octets.now }
    ensures { result.now ≡ octets.now }
{
    match str::from_utf8(octets.as_slice()) {
        Ok(text) => text,
        Err(_) => unreachable!(),
    }
}

/// The one text among the values of a parameter and a body.
fn only<'a>(alloc: Global, values: &'a [Octets], body: Option<&'a str>) -> Result<&'a str, ApiFault>
    requires { All IsUtf8 values.now }
    ensures text { IfOk result (λ text. only (values.now ++ option_to_list (option_copied body.entry)) ≡ Ok text.now) }
    ensures refused { IfErr result (λ fault. fault ≢ faults.Memory → only (values.now ++ option_to_list (option_copied body.entry)) ≡ Err fault) }
{
    match (values, body) {
        ([value], None) => Ok(text(value)),
        ([], Some(body)) => Ok(body),
        _ => Err(Named::Query.bad(alloc)),
    }
}

/// The query that a text is.
fn query_of(alloc: Global, text: &str) -> Result<Query, ApiFault>
    ensures { Gives (IsQueryOf text.now) result }
{
    match parse_query(alloc, text) {
        Ok(query) => Ok(query),
        Err(QueryFault::BadAt(at)) => Err(ApiFault::Query(QueryFault::BadAt(at))),
        Err(QueryFault::Unsupported(at)) => Err(ApiFault::Query(QueryFault::Unsupported(at))),
        Err(QueryFault::UnknownPrefix(at)) => Err(ApiFault::Query(QueryFault::UnknownPrefix(at))),
        Err(QueryFault::Memory) => Err(ApiFault::Memory),
    }
}

/// The query of a request with these parameters.
pub fn query_in(
    alloc: Global,
    request: &Request,
    parameters: &Parameters,
) -> Result<Query, ApiFault>
    requires { AreTexts parameters.now }
    ensures { Gives (QueryIn request.now parameters.now) result }
{
    is_language(alloc, parameters)?;
    let values = values_of(alloc, parameters.as_slice(), b"query")?;
    let text = only(alloc, values.as_slice(), query_body(request))?;
    has_no_binding(alloc, parameters)?;
    query_of(alloc, text)
}

/// The forms on offer for the answer of a query.
pub fn forms_of(query: &Query) -> &'static [Form]
    ensures { result.now ≡ forms_of query.now }
{
    match query {
        Query::Select { .. } => &TABLE_FORMS,
        Query::Ask { .. } => &TRUTH_FORMS,
        Query::Construct { .. } => &QUAD_FORMS,
    }
}
