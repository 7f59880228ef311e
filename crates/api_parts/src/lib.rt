//! Parts of the HTTP interface of a repository: the parameters of a target, what they select, and the
//! changes that writes make.
//!
//! What the parameters of a target are is the URL Standard's, by the crate `form_urlencoded`. A value
//! that names a term is its text in RDF 1.1 N-Triples.
#![tactic(auto)]

mod laws;
mod selection;
mod target;
mod writes;

pub use laws::{one_first_bad, one_selection};
pub use selection::{Graphs, Parameter, ParameterFault, Selection, read_contexts, read_selection};
pub use target::{Octets, Parameters, parameters, path_of, query_of, values_of};
pub use writes::{SelectedPatterns, additions, deletions, patterns_of, removals, replacements};
