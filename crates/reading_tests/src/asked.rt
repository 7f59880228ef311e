//! Calls, responses to them, and what they are read as.
use crate::shown::shown;
use api_calls::Call;
use http_frame::{Fields, Octets, Response};
use journal::{Ask, Graphs, Op};
use media::Form;
use query_model::{Cut, Names1, Patterns, Query};
use rdf_term::{Bytes, Memory, Text};
use reply_reading::read_reply;
use std::alloc::Global;

/// A call on the repository `r`.
pub fn on(alloc: Global, op: Op, form: Form) -> Result<Call, Memory> {
    let repo = Text::from_chars(alloc, "r")?;
    Ok(Call::On { repo, op, form })
}

pub fn read(ask: Ask) -> Op {
    Op::Read { txn: None, ask }
}

/// Asks for all quads.
pub fn list(alloc: Global) -> Op {
    read(Ask::List {
        s: None,
        p: None,
        o: None,
        contexts: Graphs::new(alloc),
    })
}

pub fn size(alloc: Global) -> Op {
    read(Ask::Size {
        contexts: Graphs::new(alloc),
    })
}

const CUT: Cut = Cut {
    limit: None,
    offset: 0,
};

pub fn select(alloc: Global) -> Op {
    read(Ask::Query(Query::Select {
        distinct: false,
        vars: Names1::new(alloc),
        group: Patterns::new(alloc),
        cut: CUT,
    }))
}

pub fn ask(alloc: Global) -> Op {
    read(Ask::Query(Query::Ask {
        group: Patterns::new(alloc),
    }))
}

pub fn construct(alloc: Global) -> Op {
    read(Ask::Query(Query::Construct {
        template: Patterns::new(alloc),
        group: Patterns::new(alloc),
        cut: CUT,
    }))
}

pub fn bytes(alloc: Global, piece: &[u8]) -> Result<Bytes, Memory> {
    let mut bytes = Bytes::new(alloc);
    bytes.append(piece)?;
    Ok(bytes)
}

fn octets(alloc: Global, piece: &[u8]) -> Result<Octets, Memory> {
    Ok(Octets::from_vec(piece.to_vec(alloc)?))
}

/// What a response is read as, in words.
pub fn got(
    alloc: Global,
    call: &Call,
    status: u16,
    fields: &[(&str, &str)],
    body: &[u8],
) -> Result<Bytes, Memory> {
    let mut seen = Fields::new(alloc);
    for (name, value) in fields {
        seen.push((
            octets(alloc, name.as_bytes())?,
            octets(alloc, value.as_bytes())?,
        ))?;
    }
    let response = Response {
        status,
        fields: seen,
        body: bytes(alloc, body)?,
    };
    shown(alloc, &read_reply(alloc, call, &response))
}
