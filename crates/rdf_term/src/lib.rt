//! RDF terms and quads, patterns over them, their order, and the small value types of the whole
//! product.
//!
//! A contract sees a [`Seq`] as the list of its items, a [`Text`] as the list of its characters,
//! [`Bytes`] as its bytes beside its spare room, and a [`Quad`] as the record of its four parts.
#![tactic(auto)]

mod bytes;
mod classes;
mod compared;
mod distinct;
mod escapes;
mod graph;
mod memory;
mod pattern;
mod quad;
mod quads;
mod rows;
mod rules;
mod scan;
mod seq;
mod term;
mod text;
mod value_eq;

pub use bytes::Bytes;
pub use classes::{
    is_digit, is_hex_digit, is_iri_char, is_letter, is_pn_chars, is_pn_chars_base, is_pn_chars_u,
    is_string_char,
};
pub use distinct::Distinct;
pub use escapes::{echar, is_echar};
pub use graph::Graph;
pub use memory::Memory;
pub use pattern::{GraphPick, Pattern};
pub use quad::{Quad, TermFault};
pub use rules::{
    PART_BYTES, XSD_STRING, has_scheme, is_iri_text, is_label, is_short, is_tag, is_xsd_string,
};
pub use scan::Scan;
pub use seq::{Duplicate, Seq};
pub use term::Term;
pub use text::Text;
pub use value_eq::ValueEq;

/// A list of quads.
pub type Quads = Seq<Quad>;

/// A row of a table: a term for each column, or none where the column is unbound.
pub type Row = Seq<Option<Term>>;

/// A list of rows.
pub type Rows = Seq<Row>;
