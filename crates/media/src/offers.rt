//! The forms in which each kind of answer is offered, the preferred one first. Plain text alone is
//! offered nowhere: it is the form of what has no other.
use crate::Form;

/// Statements and the triples of a CONSTRUCT.
pub const QUAD_FORMS: [Form; 4] = [
    Form::NQuads,
    Form::NTriples,
    Form::XNQuads,
    Form::PlainTriples,
];

/// Tables: the solutions of a SELECT, contexts, namespaces and repositories.
pub const TABLE_FORMS: [Form; 2] = [Form::ResultsJson, Form::Json];

/// The truth value of an ASK.
pub const TRUTH_FORMS: [Form; 3] = [Form::ResultsJson, Form::Boolean, Form::Json];
