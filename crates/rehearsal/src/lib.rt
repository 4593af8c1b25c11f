//! Circuits that are made from a number: large valid input, and the same for each who makes it.
#![tactic(auto)]

mod draws;
mod generator;
pub mod laws;
pub mod worked;

pub use generator::rehearsal;

#[cfg(test)]
mod tests;
