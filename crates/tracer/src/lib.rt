//! The report of a transport program: its operations in the order of time, what is left at the end, and counts.
#![tactic(auto)]

mod counting;
mod ends;
mod fault;
pub mod laws;
mod merging;
mod order;
mod report;
pub mod worked;

pub use fault::ReportFault;
pub use order::time_order;
pub use report::{write_report, write_summary};

#[cfg(test)]
mod tests;
