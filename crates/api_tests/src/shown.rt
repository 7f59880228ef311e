//! The answer to a request as a short text.
use http_frame::{Fields, Head, Octets, Request};
use journal::{Ask, NamesOp, Op, Txn};
use media::Form;
use query_text::QueryFault;
use rdf_term::{Bytes, Memory, Text};
use repo_api::{Allow, ApiFault, Call, read_call};
use std::alloc::Global;

fn octets(alloc: Global, text: &str) -> Result<Octets, Memory> {
    Ok(Octets::from_vec(text.as_bytes().to_vec(alloc)?))
}

/// The fields of lines, each a name, a colon, a space and a value.
fn fields_of(alloc: Global, lines: &str) -> Result<Fields, Memory> {
    let mut fields = Fields::new(alloc);
    for line in lines.split('\n') {
        if let Some((name, value)) = line.split_once(':') {
            fields.push((octets(alloc, name)?, octets(alloc, value.trim())?))?;
        }
    }
    Ok(fields)
}

/// A request of version 1.1 with these parts.
pub fn request(
    alloc: Global,
    method: &str,
    target: &str,
    lines: &str,
    body: &[u8],
) -> Result<Request, Memory> {
    let mut bytes = Bytes::new(alloc);
    bytes.append(body)?;
    let head = Head {
        method: Text::from_chars(alloc, method)?,
        target: Text::from_chars(alloc, target)?,
        minor: 1,
        fields: fields_of(alloc, lines)?,
        expects: false,
        closes: false,
    };
    Ok(Request { head, body: bytes })
}

fn form(form: Form) -> &'static str {
    match form {
        Form::NQuads => "NQuads",
        Form::XNQuads => "XNQuads",
        Form::NTriples => "NTriples",
        Form::PlainTriples => "PlainTriples",
        Form::ResultsJson => "ResultsJson",
        Form::Json => "Json",
        Form::Boolean => "Boolean",
        Form::PlainText => "PlainText",
    }
}

fn allow(allow: Allow) -> &'static str {
    match allow {
        Allow::Get => "GET",
        Allow::GetPost => "GET, POST",
        Allow::GetPostPutDelete => "GET, POST, PUT, DELETE",
        Allow::GetDelete => "GET, DELETE",
        Allow::GetPutDelete => "GET, PUT, DELETE",
        Allow::Post => "POST",
        Allow::PostPutDelete => "POST, PUT, DELETE",
    }
}

fn transaction(alloc: Global, txn: Option<Txn>) -> Result<String, Memory> {
    match txn {
        None => Ok(String::new(alloc)),
        Some(txn) => {
            let (place, code) = (txn.place, txn.level.number());
            Ok(format!(in alloc; " in {place}-{code}")?)
        }
    }
}

fn ask(alloc: Global, ask: &Ask) -> Result<String, Memory> {
    Ok(match ask {
        Ask::Query(_) => String::from_str(alloc, "query")?,
        Ask::List { s, p, o, contexts } => {
            let (s, p, o) = (s.is_some(), p.is_some(), o.is_some());
            let count = contexts.len();
            format!(in alloc; "list {s} {p} {o} {count}")?
        }
        Ask::Size { contexts } => {
            let count = contexts.len();
            format!(in alloc; "size {count}")?
        }
        Ask::Contexts => String::from_str(alloc, "contexts")?,
    })
}

fn names(alloc: Global, op: &NamesOp) -> Result<String, Memory> {
    Ok(match op {
        NamesOp::List => String::from_str(alloc, "names")?,
        NamesOp::Clear => String::from_str(alloc, "clear names")?,
        NamesOp::Get(prefix) => {
            let prefix = prefix.as_str();
            format!(in alloc; "get {prefix}")?
        }
        NamesOp::Put(prefix, name) => {
            let (prefix, name) = (prefix.as_str(), name.as_str());
            format!(in alloc; "put {prefix} {name}")?
        }
        NamesOp::Remove(prefix) => {
            let prefix = prefix.as_str();
            format!(in alloc; "remove {prefix}")?
        }
    })
}

fn op(alloc: Global, op: &Op) -> Result<String, Memory> {
    Ok(match op {
        Op::Begin(level) => {
            let code = level.number();
            format!(in alloc; "begin {code}")?
        }
        Op::Read { txn, ask: asked } => {
            let (asked, txn) = (ask(alloc, asked)?, transaction(alloc, *txn)?);
            format!(in alloc; "{asked}{txn}")?
        }
        Op::Step { .. } => String::from_str(alloc, "step")?,
        Op::Write { txn, changes } => {
            let (count, txn) = (changes.len(), transaction(alloc, *txn)?);
            format!(in alloc; "write {count}{txn}")?
        }
        Op::Commit(txn) => {
            let txn = transaction(alloc, Some(*txn))?;
            format!(in alloc; "commit{txn}")?
        }
        Op::Rollback(txn) => {
            let txn = transaction(alloc, Some(*txn))?;
            format!(in alloc; "rollback{txn}")?
        }
        Op::Ping(txn) => {
            let txn = transaction(alloc, Some(*txn))?;
            format!(in alloc; "ping{txn}")?
        }
        Op::Names(op) => names(alloc, op)?,
    })
}

fn query_fault(alloc: Global, fault: QueryFault) -> Result<String, Memory> {
    Ok(match fault {
        QueryFault::BadAt(at) => format!(in alloc; "bad query at {at}")?,
        QueryFault::Unsupported(at) => format!(in alloc; "unsupported at {at}")?,
        QueryFault::UnknownPrefix(at) => format!(in alloc; "unknown prefix at {at}")?,
        QueryFault::Memory => return Err(Memory),
    })
}

fn fault(alloc: Global, fault: &ApiFault) -> Result<String, Memory> {
    Ok(match fault {
        ApiFault::NoResource => String::from_str(alloc, "no such resource")?,
        ApiFault::NoRepository => String::from_str(alloc, "no such repository")?,
        ApiFault::BadName => String::from_str(alloc, "no such transaction")?,
        ApiFault::Method(methods) => {
            let methods = allow(*methods);
            format!(in alloc; "allow {methods}")?
        }
        ApiFault::Media => String::from_str(alloc, "unsupported media type")?,
        ApiFault::Parameter(name) => {
            let name = name.as_str();
            format!(in alloc; "bad parameter {name}")?
        }
        ApiFault::Line(line) => format!(in alloc; "bad line {line}")?,
        ApiFault::LongLine(line) => format!(in alloc; "long line {line}")?,
        ApiFault::Query(fault) => query_fault(alloc, *fault)?,
        ApiFault::Namespace => String::from_str(alloc, "bad namespace")?,
        ApiFault::NotAcceptable => String::from_str(alloc, "not acceptable")?,
        ApiFault::Memory => return Err(Memory),
    })
}

fn call(alloc: Global, call: &Call) -> Result<String, Memory> {
    Ok(match call {
        Call::Protocol => String::from_str(alloc, "protocol")?,
        Call::Repositories(chosen) => {
            let chosen = form(*chosen);
            format!(in alloc; "repositories {chosen}")?
        }
        Call::On {
            repo,
            op: asked,
            form: chosen,
        } => {
            let (repo, asked, chosen) = (repo.as_str(), op(alloc, asked)?, form(*chosen));
            format!(in alloc; "{repo}: {asked}, {chosen}")?
        }
    })
}

/// The answer to a request where the repositories are `r` and `s`.
pub fn shown(
    alloc: Global,
    method: &str,
    target: &str,
    lines: &str,
    body: &[u8],
) -> Result<String, Memory> {
    let mut repos = Vec::new(alloc);
    repos.push(Text::from_chars(alloc, "r")?)?;
    repos.push(Text::from_chars(alloc, "s")?)?;
    let request = request(alloc, method, target, lines, body)?;
    match read_call(alloc, &request, &repos) {
        Ok(answer) => call(alloc, &answer),
        Err(refusal) => fault(alloc, &refusal),
    }
}
