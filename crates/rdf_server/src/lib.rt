//! The top calls of the server: repositories over any source and sink, or over any doors.
//!
//! [`run_stdio`], [`run_serve`] and [`run_workload`] carry the theorems of the program: which bytes it
//! writes for which bytes it reads, and when it ends with which status.
#![tactic(auto)]

mod plan;
mod serve;
mod serve_end;
mod serve_option;
mod serve_words;
mod stdio;
mod words;
mod work;
mod work_doors;
mod work_end;
mod work_summary;
mod work_words;

pub use plan::Plan;
pub use serve::run_serve;
pub use serve_end::ServeEnd;
pub use serve_words::read_plan;
pub use stdio::run_stdio;
pub use work::run_workload;
pub use work_end::WorkEnd;
