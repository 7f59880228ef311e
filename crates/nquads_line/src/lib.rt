//! The grammar of one line of N-Triples and N-Quads, and of one term (RDF 1.1 N-Triples, section 7;
//! RDF 1.1 N-Quads, section 4): a reader of a line, a reader and a writer of a term.
//!
//! An IRI needs a scheme, and after its escapes are replaced it holds none of the characters that
//! the grammar leaves out between `<` and `>`. A literal typed as `xsd:string` is a plain one.
#![tactic(auto)]

mod characters;
mod escape;
mod fault;
mod iri;
mod kind;
mod label;
mod laws;
mod lengths;
mod line;
mod literal;
mod quoted;
mod size;
mod space;
mod tag;
mod term;
mod writer;

pub use fault::{LineFault, TermTextFault};
pub use kind::Kind;
pub use laws::{
    lines_are_decided, lines_are_valid, one_line_reading, one_term_reading, quads_read_again,
    terms_are_valid, terms_read_again, texts_are_scalars,
};
pub use lengths::line_bytes;
pub use line::{LineScanner, read_line};
pub use term::read_term;
pub use writer::write_term;
