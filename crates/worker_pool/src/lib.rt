//! Workers, each with a door and a thread of its own, over shared repositories.
//!
//! A worker takes the connections of its door one after another and serves each as a session. When all
//! have stopped, each repository is closed, and its journal is the whole history of what they did.
#![tactic(auto)]

mod columns;
mod connections;
mod crossing;
mod door_end;
mod house_end;
mod jobs;
mod pool;

pub use connections::serve_door;
pub use door_end::{DoorEnd, DoorStop};
pub use house_end::{HouseEnd, RepoCount};
pub use pool::serve_all;
