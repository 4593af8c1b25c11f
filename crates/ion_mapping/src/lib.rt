//! Where the qubits of a circuit stand at the start.
#![tactic(auto)]

mod fault;
pub mod laws;
mod placing;
mod taking;
#[cfg(test)]
mod tests;
pub mod worked;

pub use fault::MapFault;
pub use placing::place;
