//! Laws of the requests that are written, each as the contract of a function that does nothing.
ghost use Rattle.api_requests.specs.Laws.{GivenIsSpellable, RequestsAreSpelled, SpellableWhereGiven, WrittenBytesAreReadBack, WrittenIsReadBack};

use http_frame::written_requests_are_frames;
use nquads::{documents_are_valid, documents_read_again};
use nquads_line::{terms_are_valid, terms_read_again};
use query_text::{parsed_queries_are_well_formed, printed_queries_are_read_again};

/// The request that is written for a spellable call is read as that call, where its repository is
/// there.
pub fn written_is_read_back()
    ensures { WrittenIsReadBack }
{
    terms_read_again();
    documents_read_again();
    printed_queries_are_read_again();
}

/// A call that a request gives is spellable.
pub fn given_is_spellable()
    ensures { GivenIsSpellable }
{
    terms_are_valid();
    documents_are_valid();
    parsed_queries_are_well_formed();
}

/// A call is spellable exactly where some request gives it.
pub fn spellable_where_given()
    ensures { SpellableWhereGiven }
{
    written_is_read_back();
    given_is_spellable();
}

/// Some bytes spell the request that is written for a call to a host of characters from `!` to `~`, so
/// that [`write_request`](http_frame::write_request) writes what is read as that request, where it keeps
/// the limits.
pub fn requests_are_spelled()
    ensures { RequestsAreSpelled }
{}

/// The bytes of the request that is written for a spellable call are read as that call, where they keep
/// the limits and its repository is there.
pub fn written_bytes_are_read_back()
    ensures { WrittenBytesAreReadBack }
{
    written_is_read_back();
    requests_are_spelled();
    written_requests_are_frames();
}
