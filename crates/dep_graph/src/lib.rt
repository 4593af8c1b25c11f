//! Which items of a circuit stand on which: their levels, and the items that may be taken next.
#![tactic(auto)]

mod graph;
pub mod laws;
mod level;
mod linking;
mod ready;
pub mod worked;

pub use graph::Graph;
pub use level::levels;
pub use ready::Ready;
