//! Why a command is refused, and what is told then.
#![tactic(auto)]

mod refusal;
#[cfg(test)]
mod tests;
pub mod worked;

pub use refusal::{Refusal, tell};
