//! The target of a request: its path, and its parameters.
ghost use Rattle.std.specs.Prelude.{◌≡◌, ◌++◌, ◌∷◌, [], IfOk, OnOk, codes, encode_utf8_all, string_bytes};
ghost use Rattle.std.specs.Str.{chars};
ghost use Rattle.form_urlencoded.specs.Form.{append_pair, byte_serialize, extend_pairs, separator};
ghost use Rattle.api_paths.specs.TransactionNames.{name_of};
ghost use Rattle.journal.specs.Levels.{level_number};
ghost use Rattle.api_requests.specs.Requests.{segment_text, path_text, query_text, in_server, in_repository, in_transaction, in_namespace};

use api_parts::{Octets, Parameters};
use form_urlencoded::byte_serialize;
use journal::Txn;
use percent_encoding::{AsciiSet, NON_ALPHANUMERIC, ascii_set, percent_encode};
use rdf_term::{Bytes, Memory, Text};
use std::alloc::Global;

/// The ASCII characters that are escaped in a segment of a path: all but the unreserved ones (RFC 3986,
/// section 2.3).
pub const ESCAPED: AsciiSet = ascii_set!(
    NON_ALPHANUMERIC
        .remove(b'-')
        .remove(b'.')
        .remove(b'_')
        .remove(b'~')
);

/// Adds a slash and a segment.
fn put_segment(segment: &[u8], path: &mut String) -> Result<(), Memory>
    ensures { OnOk result (string_bytes path.new ≡ string_bytes path.old ++ segment_text segment.now) }
{
    path.push_str("/")?;
    percent_encode(segment, ESCAPED).append_to(path)?;
    Ok(())
}

/// The path of a name behind the server's.
pub fn server_path(alloc: Global, name: &[u8]) -> Result<String, Memory>
    ensures { IfOk result (λ it. string_bytes it ≡ path_text (in_server (name.now ∷ []))) }
{
    let mut path = String::new(alloc);
    put_segment(b"rdf4j-server", &mut path)?;
    put_segment(name, &mut path)?;
    Ok(path)
}

/// The path of a repository.
pub fn repository_path(alloc: Global, repo: &Text) -> Result<String, Memory>
    ensures { IfOk result (λ it. string_bytes it ≡ path_text (in_repository repo.now [])) }
{
    let mut path = server_path(alloc, b"repositories")?;
    put_segment(repo.as_str().as_bytes(), &mut path)?;
    Ok(path)
}

/// The path of a part of a repository.
pub fn part_path(alloc: Global, repo: &Text, name: &[u8]) -> Result<String, Memory>
    ensures { IfOk result (λ it. string_bytes it ≡ path_text (in_repository repo.now (name.now ∷ []))) }
{
    let mut path = repository_path(alloc, repo)?;
    put_segment(name, &mut path)?;
    Ok(path)
}

/// The path of what stands below a part of a repository.
fn nested_path(alloc: Global, repo: &Text, name: &[u8], inner: &[u8]) -> Result<String, Memory>
    ensures { IfOk result (λ it. string_bytes it ≡ path_text (in_repository repo.now (name.now ∷ inner.now ∷ []))) }
{
    let mut path = part_path(alloc, repo, name)?;
    put_segment(inner, &mut path)?;
    Ok(path)
}

/// The path of a namespace.
pub fn namespace_path(alloc: Global, repo: &Text, prefix: &Text) -> Result<String, Memory>
    ensures { IfOk result (λ it. string_bytes it ≡ path_text (in_namespace repo.now prefix.now)) }
{
    nested_path(alloc, repo, b"namespaces", prefix.as_str().as_bytes())
}

/// The name of a transaction: the place of its Begin, a hyphen and the number of its level.
fn name_of(alloc: Global, txn: Txn) -> Result<Bytes, Memory>
    ensures { IfOk result (λ it. it.items ≡ name_of txn) }
{
    let mut name = Bytes::new(alloc);
    name.append_decimal(txn.place)?;
    name.push(b'-')?;
    name.append_decimal(u64::from(txn.level.number()))?;
    Ok(name)
}

/// The path of a transaction.
pub fn transaction_path(alloc: Global, repo: &Text, txn: Txn) -> Result<String, Memory>
    ensures { IfOk result (λ it. string_bytes it ≡ path_text (in_transaction repo.now txn)) }
{
    let name = name_of(alloc, txn)?;
    nested_path(alloc, repo, b"transactions", name.as_slice())
}

/// Adds a name or a value of a parameter as a form writes it (URL Standard, section 5.2).
fn put_serialized(bytes: &[u8], form: &mut String) -> Result<(), Memory>
    ensures { OnOk result (string_bytes form.new ≡ string_bytes form.old ++ byte_serialize bytes.now) }
{
    for piece in byte_serialize(bytes) {
        form.push_str(piece)?;
    }
    Ok(())
}

/// Adds the sign between two parameters, where one stands before it.
fn put_separator(form: &mut String) -> Result<(), Memory>
    ensures { OnOk result (string_bytes form.new ≡ string_bytes form.old ++ separator (string_bytes form.old)) }
{
    if form.is_empty() {
        return Ok(());
    }
    form.push_str("&")?;
    Ok(())
}

/// Adds a parameter.
fn put_pair(pair: &(Octets, Octets), form: &mut String) -> Result<(), Memory>
    ensures { OnOk result (string_bytes form.new ≡ append_pair (string_bytes form.old) pair.now.0 pair.now.1) }
{
    put_separator(form)?;
    put_serialized(pair.0.as_slice(), form)?;
    form.push_str("=")?;
    put_serialized(pair.1.as_slice(), form)
}

/// The parameters in the syntax `application/x-www-form-urlencoded`.
fn form_of(alloc: Global, pairs: &[(Octets, Octets)]) -> Result<String, Memory>
    ensures { IfOk result (λ it. string_bytes it ≡ extend_pairs [] pairs.now) }
{
    let mut form = String::new(alloc);
    let mut left = pairs;
    while let Some((pair, rest)) = left.split_first() {
        put_pair(pair, &mut form)?;
        left = rest;
    }
    Ok(form)
}

/// Adds the parameters behind a question mark, where there are any.
fn put_query(alloc: Global, pairs: &[(Octets, Octets)], target: &mut String) -> Result<(), Memory>
    ensures { OnOk result (string_bytes target.new ≡ string_bytes target.old ++ query_text pairs.now) }
{
    if pairs.is_empty() {
        return Ok(());
    }
    let form = form_of(alloc, pairs)?;
    target.push_str("?")?;
    target.push_str(form.as_str())?;
    Ok(())
}

/// The characters of a string.
fn text_of(alloc: Global, text: &String) -> Result<Text, Memory>
    ensures { IfOk result (λ it. it ≡ chars (string_bytes text.now)) }
{
    Text::from_chars(alloc, text.as_str())
}

/// The target in origin form (RFC 9112, section 3.2.1).
pub fn target_of(alloc: Global, path: String, pairs: &Parameters) -> Result<Text, Memory>
    ensures { IfOk result (λ it. it ≡ chars (string_bytes path ++ query_text pairs.now)) }
{
    let mut target = path;
    put_query(alloc, pairs.as_slice(), &mut target)?;
    text_of(alloc, &target)
}
