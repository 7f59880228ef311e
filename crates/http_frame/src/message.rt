use crate::fields::Fields;
use rdf_term::{Bytes, Text};
use std::marker::Model;

/// The head of a request.
#[derive(Drop)]
pub struct Head {
    /// The method, which tells its case apart.
    pub method: Text,
    /// The request target as it was sent.
    pub target: Text,
    /// The minor version: 0 for HTTP/1.0, 1 for HTTP/1.1.
    pub minor: u8,
    /// The fields in the order of the head.
    pub fields: Fields,
    /// Whether the request asks for `100 Continue` before its body is read, and shows no fault by itself
    /// (RFC 9110, section 10.1.1).
    pub expects: bool,
    /// Whether the connection ends after the response (RFC 9112, section 9.6).
    pub closes: bool,
}

/// The head of a response. Contracts see it as it is.
#[derive(Drop)]
pub struct StatusHead {
    /// The status code.
    pub status: u16,
    /// The minor version: 0 for HTTP/1.0, 1 for HTTP/1.1.
    pub minor: u8,
    /// The fields in the order of the head.
    pub fields: Fields,
}

/// A request with its whole body. Contracts see the body's bytes, and not its room.
#[derive(Drop)]
pub struct Request {
    pub head: Head,
    pub body: Bytes,
}

impl Model for Request {
    ghost use Rattle.http_frame.specs.Messages.{SeenRequest};

    ghost Value = { SeenRequest };

    ghost view = { λ r. record { head = r.head; body = r.body.items } };
}

/// A response. Contracts see the body's bytes, and not its room.
#[derive(Drop)]
pub struct Response {
    /// The status code.
    pub status: u16,
    /// The fields in order: of a response that was read all of its head, and of one that is written those
    /// that stand before the fields of the framing.
    pub fields: Fields,
    pub body: Bytes,
}

impl Model for Response {
    ghost use Rattle.http_frame.specs.Messages.{SeenResponse};

    ghost Value = { SeenResponse };

    ghost view = { λ r. record { status = r.status; fields = r.fields; body = r.body.items } };
}
