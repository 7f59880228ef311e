//! Requests as short texts.
ghost use Rattle.std.specs.Prelude.{IfOk};
ghost use Rattle.api_requests.specs.Spellable.{IsHost};

use api_requests::{is_spellable, write_call};
use http_frame::{Fields, Head, Octets, Request};
use rdf_term::{Bytes, Memory, Text};
use repo_api::{Call, read_call};
use std::alloc::Global;

fn octets(alloc: Global, text: &str) -> Result<Octets, Memory> {
    Ok(Octets::from_vec(text.as_bytes().to_vec(alloc)?))
}

/// The field Content-Type, or the field Accept, with this value, where it has one.
fn fields_of(alloc: Global, accept: &str, media_type: &str) -> Result<Fields, Memory> {
    let mut fields = Fields::new(alloc);
    if !accept.is_empty() {
        fields.push((octets(alloc, "accept")?, octets(alloc, accept)?))?;
    }
    if !media_type.is_empty() {
        fields.push((octets(alloc, "content-type")?, octets(alloc, media_type)?))?;
    }
    Ok(fields)
}

/// A request of version 1.1 with these parts.
fn request(
    alloc: Global,
    method: &str,
    target: &str,
    accept: &str,
    media_type: &str,
    body: &str,
) -> Result<Request, Memory> {
    let mut bytes = Bytes::new(alloc);
    bytes.append(body.as_bytes())?;
    let head = Head {
        method: Text::from_chars(alloc, method)?,
        target: Text::from_chars(alloc, target)?,
        minor: 1,
        fields: fields_of(alloc, accept, media_type)?,
        expects: false,
        closes: false,
    };
    Ok(Request { head, body: bytes })
}

fn append_bytes(text: &mut Bytes, request: &Request) -> Result<(), Memory> {
    text.append(request.head.method.as_str().as_bytes())?;
    text.append(b" ")?;
    text.append(request.head.target.as_str().as_bytes())?;
    for field in request.head.fields.as_slice() {
        text.append(b"|")?;
        text.append(field.0.as_slice())?;
        text.append(b": ")?;
        text.append(field.1.as_slice())?;
    }
    text.append(b"||")?;
    text.append(request.body.as_slice())
}

/// The two calls are one.
fn is_same(call: &Call, other: &Call) -> bool {
    match (call, other) {
        (Call::Protocol, Call::Protocol) => true,
        (Call::Repositories(form), Call::Repositories(other)) => *form == *other,
        (
            Call::On { repo, op, form },
            Call::On {
                repo: other_repo,
                op: other_op,
                form: other_form,
            },
        ) => *repo == *other_repo && *op == *other_op && *form == *other_form,
        _ => false,
    }
}

/// The host that requests are sent to.
fn host(alloc: Global) -> Result<Text, Memory>
    ensures { IfOk result (λ it. IsHost it) }
{
    Text::from_chars(alloc, "h:1")
}

/// The request that is written for the call of a request: its method and target, its fields and its
/// body, with bars between them. It is empty where the request is refused, where its call is not
/// spellable, and where what is written is not read as that call.
pub fn written(
    alloc: Global,
    method: &str,
    target: &str,
    accept: &str,
    media_type: &str,
    body: &str,
) -> Result<Bytes, Memory> {
    let mut text = Bytes::new(alloc);
    let mut repos = Vec::new(alloc);
    repos.push(Text::from_chars(alloc, "r")?)?;
    repos.push(Text::from_chars(alloc, "a/b c")?)?;
    let request = request(alloc, method, target, accept, media_type, body)?;
    let Ok(call) = read_call(alloc, &request, repos.as_slice()) else {
        return Ok(text);
    };
    if !is_spellable(&call) {
        return Ok(text);
    }
    let host = host(alloc)?;
    let request = write_call(alloc, &call, &host)?;
    let Ok(again) = read_call(alloc, &request, repos.as_slice()) else {
        return Ok(text);
    };
    if is_same(&call, &again) {
        append_bytes(&mut text, &request)?;
    }
    Ok(text)
}
