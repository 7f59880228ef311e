//! Documents of N-Triples and N-Quads (RDF 1.1), each with what reading it gives: tables for the tests
//! of whatever reads documents, whole or in pieces.
//!
//! Beside the grammar of the standards the tables keep this product's own rules: an IRI has a
//! scheme, and after its escapes are replaced holds none of the characters that IRIREF leaves out;
//! white space may stand between a string and its tag or datatype; a literal typed as `xsd:string`
//! is a plain one; a byte order mark begins no line.
#![tactic(auto)]

mod bad_literals;
mod document;
mod encoding;
mod faults;
mod graphs;
mod iris;
mod labels;
#[cfg(test)]
mod large_tests;
mod lines;
mod literals;
#[cfg(test)]
mod long_tests;
#[cfg(test)]
mod tests;

pub use bad_literals::BAD_LITERALS;
pub use document::{Document, Expected};
pub use encoding::ENCODING;
pub use faults::FAULTS;
pub use graphs::GRAPHS;
pub use iris::IRIS;
pub use labels::LABELS;
pub use lines::LINES;
pub use literals::LITERALS;
