//! Operations on cells: what one thread does, a resource at a time.
#![tactic(auto)]

mod cells;
mod changes;
mod cooling;
mod done_list;
mod durations;
mod effects;
mod ends;
mod held;
pub mod laws;
mod legality;
mod numbering;
mod opening;
mod places;
mod running;
pub mod worked;

pub use cells::{Cell, Cells, Done, Held, cool_trap, run_cold, run_one};
pub use cooling::CoolTimes;
pub use done_list::DoneList;
pub use effects::{carry_in, chain_in, heat_in, rider_in};
pub use held::apply;
pub use legality::legal;
pub use numbering::{count_of, index_of};
pub use opening::start_chain;

#[cfg(test)]
mod permitting;
#[cfg(test)]
mod tests;
