//! How the words of the command line are read.
#![tactic(auto)]

mod words;
pub mod worked;

pub use words::{Command, MachineWord, request};
