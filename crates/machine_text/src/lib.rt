//! Machines from the text of a file.
#![tactic(auto)]

mod fault;
mod fault_text;
mod field;
pub mod laws;
mod parts;
mod place;
mod reader;
pub mod worked;

pub use fault::{Part, Spot, TextFault};
pub use reader::read_machine;
