//! Circuits: items on qubits and classical bits, when they fit, which of them share, and which lists keep
//! their order.
#![tactic(auto)]

mod circuits;
mod fitting;
mod items;
mod kinds;
pub mod laws;
mod marks;
mod orders;
mod sharing;
mod texts;
pub mod worked;

pub use circuits::Circuit;
pub use fitting::{are_name_bytes, fits};
pub use items::Item;
pub use kinds::{Cond, ItemKind};
pub use marks::Marks;
pub use orders::same_order;
pub use sharing::shares;
pub use texts::{Angle, AngleList, Name};
