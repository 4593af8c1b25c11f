//! A list of operations with the places and bindings that they leave.
#![tactic(auto)]

pub mod laws;
mod moving;
mod opening;
mod plan;
mod reading;

pub use opening::opening_cells;
pub use plan::Plan;

#[cfg(test)]
mod tests;
