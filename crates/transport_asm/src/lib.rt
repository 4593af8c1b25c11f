//! The texts of transport programs, written and read.
#![tactic(auto)]

mod chains;
mod conditions;
mod faults;
mod fences;
mod gates;
mod item_ops;
mod items;
pub mod laws;
mod lines;
mod ops;
mod program_texts;
mod programs;
mod shapes;
mod words;
pub mod worked;

pub use faults::{AsmFault, OpFault};
pub use op_text::{AsmKind, write_op};
pub use ops::read_op;
pub use program_texts::write_program;
pub use programs::{RawProgram, read_ops};
