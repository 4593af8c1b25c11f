//! The texts of operations: the words of each, and operations sent as their texts.
#![tactic(auto)]

mod kind;
mod pieces;
pub mod worked;
mod writing;

pub use kind::AsmKind;
pub use pieces::put_op;
pub use writing::write_op;
