//! Definitions of gates: what may be defined, what an application of a definition is, and the items that it
//! expands to.
#![tactic(auto)]

mod angles;
mod defs;
mod expanding;
mod faults;
mod items;
mod kinds;
pub mod laws;
mod lists;
mod measures;
mod numbers;
#[cfg(test)]
mod tests;
pub mod worked;

pub use defs::Defs;
pub use faults::ExpandFault;
pub use items::{add_ccx, add_cswap, item_on};
pub use kinds::{Arg, BodyStep, Callee, Def, Piece};
pub use lists::{ItemList, PieceList, PieceLists, StepList, WireList};
