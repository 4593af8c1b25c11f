//! All workers of a program together: they do its operations, each worker in a thread of its own.
#![tactic(auto)]

mod executing;
mod finishing;
mod team;

pub use executing::execute;
pub use finishing::finish;
