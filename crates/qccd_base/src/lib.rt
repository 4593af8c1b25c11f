//! Names, times and number texts that every crate of the compiler shares.
#![tactic(auto)]

pub mod laws;
mod lists;
mod names;
mod numbers;
mod short_texts;
#[cfg(test)]
mod tests;
mod times;
mod wide_numbers;

pub use lists::{BitList, IonList, PosList, QubitList, TrapList};
pub use names::{Bit, End, Ion, JuncId, Mode, NoMemory, Qubit, Res, SegEnd, SegId, TrapId};
pub use numbers::{number_text, read_number};
pub use short_texts::{joined, numbered};
pub use times::Times;
pub use wide_numbers::{read_wide, wide_text};
