//! Bringing a qubit to an end of its chain.
#![tactic(auto)]

mod bring;
pub mod laws;
pub mod worked;

pub use bring::to_end;

#[cfg(test)]
mod tests;
