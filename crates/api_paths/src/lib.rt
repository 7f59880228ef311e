//! Parts of the HTTP interface of a repository that its paths and parameters name: the segments of a
//! target, transactions, levels of isolation and prefixes.
#![tactic(auto)]

mod laws;
mod level;
mod prefix;
mod target;
mod transaction_name;

pub use laws::one_transaction;
pub use level::{level_named, level_of};
pub use prefix::is_prefix;
pub use target::{Texts, origin_form, segments};
pub use transaction_name::read_transaction_name;
