//! Responses as replies.
ghost use Rattle.std.specs.Prelude.{◌≡◌, Result};
ghost use Rattle.nquads_line.specs.declared.kind.Kind.{Kind as SpecKind};
ghost use Rattle.reply_reading.specs.declared.got.Got.{Got as SpecGot};
ghost use Rattle.reply_reading.specs.declared.got.ReplyFault.{ReplyFault as SpecFault};
ghost use Rattle.reply_reading.specs.declared.manner.Manner.TheVariants as manner;
ghost use Rattle.reply_reading.specs.Faults.{IsAnswer};
ghost use Rattle.reply_reading.specs.Laws.{HasAnswer, answer_of};
ghost use Rattle.reply_reading.specs.Readings.{IsBadTable, IsReadBy, IsReading, is_success};
ghost use Rattle.results_json.specs.Reading.{IsTable};

use crate::count::count_of;
use crate::fault::{line_fault, row_fault};
use crate::laws::one_reading;
use crate::lists::{contexts_of, pairs_of};
use crate::location::located;
use crate::manner::{Manner, manner_of};
use crate::{Got, ReplyFault};
use api_calls::Call;
use http_frame::Response;
use journal::Reply;
use nquads::{Kind, read_document};
use query_model::Table;
use rdf_term::{Memory, Text};
use results_json::{read_rows, read_truth};
use std::alloc::Global;
use std::str;

/// The transaction that was begun.
fn begun(alloc: Global, response: &Response) -> Result<Reply, ReplyFault>
    ensures { IsReadBy manner.Begun response.now result }
{
    match located(alloc, &response.fields)? {
        Some(txn) => Ok(Reply::Begun(txn)),
        None => Err(ReplyFault::BadReply(0)),
    }
}

/// The table of a body.
fn table_in(alloc: Global, body: &[u8]) -> Result<Table, ReplyFault>
    ensures { IsAnswer (IsTable body.now) (IsBadTable body.now) result }
{
    match read_rows(alloc, body) {
        Ok(table) => Ok(table),
        Err(fault) => Err(row_fault(fault)),
    }
}

fn table(alloc: Global, response: &Response) -> Result<Reply, ReplyFault>
    ensures { IsReadBy manner.Table response.now result }
{
    Ok(Reply::Table(table_in(alloc, response.body.as_slice())?))
}

/// A truth value in JSON.
fn truth(alloc: Global, response: &Response) -> Result<Reply, ReplyFault>
    ensures { IsReadBy manner.Truth response.now result }
{
    match read_truth(alloc, response.body.as_slice()) {
        Ok(truth) => Ok(Reply::Truth(truth)),
        Err(fault) => Err(row_fault(fault)),
    }
}

/// A truth value as a word.
fn word(response: &Response) -> Result<Reply, ReplyFault>
    ensures { IsReadBy manner.Word response.now result }
{
    let body = response.body.as_slice();
    if body == b"true".as_slice() {
        return Ok(Reply::Truth(true));
    }
    if body == b"false".as_slice() {
        return Ok(Reply::Truth(false));
    }
    Err(ReplyFault::BadReply(0))
}

/// The quads of a document.
fn quads(alloc: Global, kind: Kind, response: &Response) -> Result<Reply, ReplyFault>
    ensures { IsReadBy (manner.Quads kind) response.now result }
{
    match read_document(alloc, kind, response.body.as_slice()) {
        Ok(quads) => Ok(Reply::Quads(quads)),
        Err(fault) => Err(line_fault(fault)),
    }
}

/// A number of quads.
fn count(response: &Response) -> Result<Reply, ReplyFault>
    ensures { IsReadBy manner.Count response.now result }
{
    match count_of(response.body.as_slice()) {
        Some(count) => Ok(Reply::Count(count)),
        None => Err(ReplyFault::BadReply(0)),
    }
}

/// The names of graphs.
fn contexts(alloc: Global, response: &Response) -> Result<Reply, ReplyFault>
    ensures { IsReadBy manner.Contexts response.now result }
{
    let table = table_in(alloc, response.body.as_slice())?;
    match contexts_of(alloc, table)? {
        Some(names) => Ok(Reply::Contexts(names)),
        None => Err(ReplyFault::BadReply(0)),
    }
}

/// All prefixes with their names.
fn prefixes(alloc: Global, response: &Response) -> Result<Reply, ReplyFault>
    ensures { IsReadBy manner.Prefixes response.now result }
{
    let table = table_in(alloc, response.body.as_slice())?;
    match pairs_of(alloc, table)? {
        Some(pairs) => Ok(Reply::Prefixes(pairs)),
        None => Err(ReplyFault::BadReply(0)),
    }
}

/// The name of a prefix.
fn prefix(alloc: Global, response: &Response) -> Result<Reply, ReplyFault>
    ensures { IsReadBy manner.Prefix response.now result }
{
    match str::from_utf8(response.body.as_slice()) {
        Ok(text) => Ok(Reply::Prefix(Text::from_chars(alloc, text)?)),
        Err(_) => Err(ReplyFault::BadReply(0)),
    }
}

/// The reply of a response that grants what was asked.
fn reply_by(alloc: Global, manner: Manner, response: &Response) -> Result<Reply, ReplyFault>
    ensures { IsReadBy manner response.now result }
{
    match manner {
        Manner::Begun => begun(alloc, response),
        Manner::Table => table(alloc, response),
        Manner::Truth => truth(alloc, response),
        Manner::Word => word(response),
        Manner::Quads(kind) => quads(alloc, kind, response),
        Manner::Count => count(response),
        Manner::Contexts => contexts(alloc, response),
        Manner::Prefixes => prefixes(alloc, response),
        Manner::Prefix => prefix(alloc, response),
        Manner::Nothing => Ok(Reply::Done),
    }
}

/// Whether a request was granted.
fn is_success(status: u16) -> bool
    ensures { result ≡ is_success status }
{
    status == 200 || status == 201 || status == 204
}

fn got_of(alloc: Global, call: &Call, response: &Response) -> Result<Got, ReplyFault>
    ensures { IsReading call.now response.now result }
{
    if is_success(response.status) {
        let reply = reply_by(alloc, manner_of(call), response)?;
        Ok(Got::Reply(reply))
    } else {
        let body = response.body.copy(alloc)?;
        Ok(Got::Refused(response.status, body))
    }
}

/// What a response to a call is.
///
/// A status other than 200, 201 and 204 is a refusal. Else the reply is read by the call: tables and
/// truth values in JSON (SPARQL 1.1 Query Results JSON Format), or a truth value as the word `true` or
/// `false` in the form of that name; quads as a document of the form's kind; a number as its decimal
/// digits; contexts and prefixes as tables with a bound place in each column; the name of a prefix as
/// UTF-8; and a transaction that was begun by the last segment of the one field `Location`. Any other
/// call is done, whatever the body is.
///
/// `BadReply` is answered where the body, or that field, is not of this form. It has the number, from 1,
/// of the first bad line of a document, or of the first row that holds what is no term, and else 0.
pub fn read_reply(alloc: Global, call: &Call, response: &Response) -> Result<Got, ReplyFault>
    ensures reading { IsReading call.now response.now result }
    ensures exact { (other : Result SpecGot SpecFault) → IsReading call.now response.now other → HasAnswer result → HasAnswer other → answer_of result ≡ answer_of other }
{
    one_reading();
    got_of(alloc, call, response)
}
