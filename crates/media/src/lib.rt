//! Media types and the choice among them by an Accept field (RFC 9110, sections 8.3.1 and 12.5.1).
#![tactic(auto)]

mod choice;
mod form;
mod laws;
mod offers;
mod quality;
mod range;
mod specificity;
mod text;

pub use choice::choose;
pub use form::Form;
pub use laws::{most_specific_range, one_range};
pub use offers::{QUAD_FORMS, TABLE_FORMS, TRUTH_FORMS};
