//! Tables of solutions and truth values as text, and back (SPARQL 1.1 Query Results JSON Format).
//!
//! What is written is compact, and each object has its members in the order of their keys' bytes.
//! Any spelling of the format is read: members in any order, other members beside them, escapes,
//! and the older type `typed-literal`.
#![tactic(auto)]

mod columns;
mod fault;
mod json_text;
mod laws;
mod member;
mod names;
mod rows;
mod table;
mod term_value;
mod truth;
mod writer;
mod written;

pub use fault::ResultFault;
pub use laws::{one_table_reading, one_truth_reading, tables_read_again, truths_read_again};
pub use query_model::{Names1, Row, Rows, Table};
pub use table::{read_rows, write_rows};
pub use truth::{read_truth, write_truth};
