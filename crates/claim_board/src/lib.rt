//! Claims of a program's resources by many threads, with no lock.
#![tactic(auto)]

mod claimed;
mod claiming;
mod closing;
mod dealing;
mod deck;
mod giving;
pub mod laws;
mod pass;
mod pass_reads;
mod plays;
mod reading;
mod steps;
mod taking;
mod view;

pub use claimed::Claimed;
pub use closing::Closed;
pub use deck::Deck;
pub use pass::Pass;
