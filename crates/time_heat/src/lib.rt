//! How long each step of the machine takes, and how hot it leaves the ions.
#![tactic(auto)]

mod durations;
mod heats;
pub mod laws;
#[cfg(test)]
mod tests;
mod work;
pub mod worked;

pub use durations::duration;
pub use heats::{enter_heat, merge_heat, move_heat, rot_heat, split_heat};
pub use work::Work;
