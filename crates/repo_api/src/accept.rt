//! The choice of a reply's form (RFC 9110, section 12.5.1).
ghost use Rattle.std.specs.Prelude.{◌≡◌, IfOk};
ghost use Rattle.repo_api.specs.Accepts.{accept_of, accepted, form_among};
ghost use Rattle.repo_api.specs.Checks.{Gives, Is};
ghost use Rattle.repo_api.specs.Joins.{joined_with, joined_field};

use crate::ApiFault;
use http_frame::{Fields, Octets, same_name};
use media::{Form, choose};
use rdf_term::Memory;
use std::alloc::Global;

/// A list of bytes equal to these.
fn octets(alloc: Global, bytes: &[u8]) -> Result<Octets, Memory>
    ensures { IfOk result (λ it. it ≡ bytes.now) }
{
    Ok(Octets::from_vec(bytes.to_vec(alloc)?))
}

/// A list of values, and a comma and one more behind it.
fn joined_with(
    alloc: Global,
    joined: Option<Octets>,
    value: &[u8],
) -> Result<Option<Octets>, Memory>
    ensures { IfOk result (λ it. it ≡ joined_with joined value.now) }
{
    match joined {
        None => Ok(Some(octets(alloc, value)?)),
        Some(mut text) => {
            text.push(b',')?;
            text.append(octets(alloc, value)?)?;
            Ok(Some(text))
        }
    }
}

/// The same with the value of a field, where it is an Accept field.
fn joined_field(
    alloc: Global,
    joined: Option<Octets>,
    field: &(Octets, Octets),
) -> Result<Option<Octets>, Memory>
    ensures { IfOk result (λ it. it ≡ joined_field joined field.now) }
{
    if same_name(field.0.as_slice(), b"accept") {
        joined_with(alloc, joined, field.1.as_slice())
    } else {
        Ok(joined)
    }
}

/// The values of the fields Accept, with commas between them (RFC 9110, section 5.3).
fn accept_of(alloc: Global, fields: &Fields) -> Result<Octets, Memory>
    ensures { IfOk result (λ it. it ≡ accept_of fields.now) }
{
    let mut joined = None;
    for field in fields.as_slice() {
        joined = joined_field(alloc, joined, field)?;
    }
    match joined {
        None => Ok(Octets::new(alloc)),
        Some(text) => Ok(text),
    }
}

fn accepted(form: Option<Form>) -> Result<Form, ApiFault>
    ensures { result ≡ accepted form }
{
    match form {
        Some(form) => Ok(form),
        None => Err(ApiFault::NotAcceptable),
    }
}

/// The form that is chosen among these.
pub fn form_among(alloc: Global, fields: &Fields, offers: &[Form]) -> Result<Form, ApiFault>
    ensures { Gives (Is (form_among fields.now offers.now)) result }
{
    let accept = accept_of(alloc, fields)?;
    accepted(choose(accept.as_slice(), offers))
}
