//! Hops to neighbouring traps, and room in full traps.
#![tactic(auto)]

mod hopping;
pub mod laws;
mod making;
pub mod worked;

pub use hopping::hop;
pub use making::{has_room, make_room};
