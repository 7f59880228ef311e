//! The transaction that a response names, by its field Location (RFC 9110, section 10.2.2).
ghost use Rattle.std.specs.Prelude.{◌≡◌, ◌≤◌, IfOk, MatchOption};
ghost use Rattle.std.specs.Option.{option_copied, option_or};
ghost use Rattle.journal.specs.declared.txn.Txn.{Txn as SpecTxn};
ghost use Rattle.api_paths.specs.TransactionNames.{most_place, name_of};
ghost use Rattle.reply_reading.specs.Locations.{Locates, behind_first, behind_slash, location_name, location_of};

use api_paths::read_transaction_name;
use http_frame::{Fields, count_named, find_named};
use journal::Txn;
use rdf_term::{Memory, Text};
use std::alloc::Global;
use std::str;

/// What stands behind a byte that is a slash; else what stood behind the last one before it.
fn behind_first<'t>(first: u8, rest: &'t [u8], last: Option<&'t [u8]>) -> Option<&'t [u8]>
    ensures { option_copied result ≡ option_or (behind_first first rest.now) (option_copied last.entry) }
{
    if first == b'/' { Some(rest) } else { last }
}

/// What stands behind the last slash, where there is one.
fn behind_slash(text: &[u8]) -> Option<&[u8]>
    ensures { option_copied result ≡ behind_slash text.now }
{
    let mut last = None;
    let mut rest = text;
    while let Some((first, others)) = rest.split_first() {
        last = behind_first(*first, others, last);
        rest = others;
    }
    last
}

/// The value of the field Location, where there is one such field.
fn location_of(fields: &Fields) -> Option<&[u8]>
    ensures { option_copied result ≡ location_of fields.now }
{
    let fields = fields.as_slice();
    if count_named(fields, b"location") != 1 {
        return None;
    }
    match find_named(fields, b"location") {
        None => None,
        Some(field) => Some(field.1.as_slice()),
    }
}

/// The last segment of the one field Location.
fn location_name(fields: &Fields) -> Option<&[u8]>
    ensures { option_copied result ≡ location_name fields.now }
{
    match location_of(fields) {
        None => None,
        Some(location) => behind_slash(location),
    }
}

/// The transaction of a name in a path.
fn txn_named(alloc: Global, name: &[u8]) -> Result<Option<Txn>, Memory>
    ensures { IfOk result (λ it. MatchOption it
        ((t : SpecTxn) → name.now ≡ name_of t → t.place ≤ most_place → ⊥)
        (λ t. (name.now ≡ name_of t) × (t.place ≤ most_place))) }
{
    match str::from_utf8(name) {
        Ok(text) => Ok(read_transaction_name(&Text::from_chars(alloc, text)?)),
        Err(_) => Ok(None),
    }
}

/// The transaction that the last segment of the one field Location names.
pub fn located(alloc: Global, fields: &Fields) -> Result<Option<Txn>, Memory>
    ensures { IfOk result (λ it. MatchOption it ((t : SpecTxn) → Locates fields.now t → ⊥) (λ t. Locates fields.now t)) }
{
    match location_name(fields) {
        None => Ok(None),
        Some(name) => txn_named(alloc, name),
    }
}
