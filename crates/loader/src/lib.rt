//! Programs made of what their texts spell.
#![tactic(auto)]

mod fault_text;
mod faults;
pub mod laws;
mod loading;
mod operations;
mod start;

pub use faults::LoadFault;
pub use loading::load;
