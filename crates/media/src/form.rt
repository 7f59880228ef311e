//! The forms of bodies and their media types.
ghost use Rattle.std.specs.Prelude.{◌≡◌};

/// A form of a body.
#[derive(Clone, Copy, Debug, PartialEq, Eq)]
pub enum Form {
    /// RDF 1.1 N-Quads.
    NQuads,
    /// RDF 1.1 N-Quads under the older name of its media type.
    XNQuads,
    /// RDF 1.1 N-Triples.
    NTriples,
    /// RDF 1.1 N-Triples as plain text.
    PlainTriples,
    /// SPARQL 1.1 Query Results JSON Format.
    ResultsJson,
    /// The same format under the general media type of JSON.
    Json,
    /// The word `true` or `false`.
    Boolean,
    /// Plain text.
    PlainText,
}

impl Form {
    ghost use Rattle.media.specs.Forms.{main_type_of, subtype_of, content_type_of};

    /// The type in the form's media type, in lower case (RFC 9110, section 8.3.1).
    pub(crate) fn main_type(self) -> &'static [u8]
        ensures { result.now ≡ main_type_of self }
    {
        match self {
            Form::NQuads | Form::NTriples | Form::ResultsJson | Form::Json => b"application",
            Form::XNQuads | Form::PlainTriples | Form::Boolean | Form::PlainText => b"text",
        }
    }

    /// The subtype in the form's media type, in lower case.
    pub(crate) fn subtype(self) -> &'static [u8]
        ensures { result.now ≡ subtype_of self }
    {
        match self {
            Form::NQuads => b"n-quads",
            Form::XNQuads => b"x-nquads",
            Form::NTriples => b"n-triples",
            Form::ResultsJson => b"sparql-results+json",
            Form::Json => b"json",
            Form::Boolean => b"boolean",
            Form::PlainTriples | Form::PlainText => b"plain",
        }
    }

    /// The value of the field Content-Type of a body in this form (RFC 9110, section 8.3).
    pub fn content_type(self) -> &'static str
        ensures { result.now ≡ content_type_of self }
    {
        match self {
            Form::NQuads => "application/n-quads",
            Form::XNQuads => "text/x-nquads",
            Form::NTriples => "application/n-triples",
            Form::ResultsJson => "application/sparql-results+json",
            Form::Json => "application/json",
            Form::Boolean => "text/boolean",
            Form::PlainTriples | Form::PlainText => "text/plain;charset=UTF-8",
        }
    }
}
