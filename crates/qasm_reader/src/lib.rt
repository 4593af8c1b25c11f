//! The reading of circuits, as texts in OpenQASM 2.0.
#![tactic(auto)]

mod angle;
mod angle_lists;
mod angles;
mod barriers;
mod cursor;
mod fault;
mod gate_statements;
mod gates;
mod items;
mod kinds;
pub mod laws;
mod names;
mod operand;
mod operands;
mod pieces;
mod reading;
mod registers;
mod short;
mod state;
mod statements;
mod words;
pub mod worked;

pub use fault::{Many, QasmFault, QasmKind};
pub use reading::read;
