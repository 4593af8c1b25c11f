//! The top call: from the words of the command line to what is written.
#![tactic(auto)]

mod answer;
mod crew;
mod edge;
pub mod laws;
mod limits;
mod output;
mod programs;
mod stages;
mod top;

pub use edge::start;
pub use limits::{CIRCUIT_LIMIT, MACHINE_LIMIT, PROGRAM_LIMIT};
pub use qccd_words::{Command, MachineWord, request};
pub use top::{Status, run};
