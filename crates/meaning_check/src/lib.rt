//! A program compared with a circuit.
#![tactic(auto)]

mod comparing;
mod items;
pub mod laws;
mod overtaking;
mod verdict;
mod verdict_text;
pub mod worked;

pub use comparing::compare;
pub use verdict::Verdict;
