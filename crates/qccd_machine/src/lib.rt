//! Machines: traps that hold chains of ions, joined by segments and junctions.
#![tactic(auto)]

mod checking;
mod ends;
mod fault;
mod fault_text;
pub mod laws;
mod machine;
mod names;
mod parts;
mod place;
mod preset;
mod reach;
pub mod worked;

pub use fault::{MachineFault, PartKind};
pub use machine::Machine;
pub use names::{TIME_NAMES, time_name};
pub use parts::Parts;
pub use place::{Place, Preset};
pub use preset::preset_machine;
