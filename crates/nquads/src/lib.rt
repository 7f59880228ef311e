//! Documents of N-Triples and N-Quads (RDF 1.1): a reader that takes a text in pieces, and a
//! writer of canonical lines.
#![tactic(auto)]

mod fault;
mod laws;
mod reader;
mod writer;

pub use fault::DataFault;
pub use laws::{
    any_pieces, documents_are_valid, documents_read_again, is_refused_or_read,
    lines_are_cut_at_ends, one_answer, one_answer_at_the_end, one_answer_to_a_piece,
    one_first_bad_line, one_reading,
};
pub use nquads_line::{Kind, TermTextFault, line_bytes, read_term, write_term};
pub use reader::{LineReader, read_document};
pub use writer::write_quads;
