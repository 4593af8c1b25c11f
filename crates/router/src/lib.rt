//! Routes: paths from trap to trap, and how many hops it takes.
#![tactic(auto)]

mod hops;
pub mod laws;
mod paths;
mod routes;
mod steps;
mod wiring;
pub mod worked;

pub use routes::Routes;
