//! Workers that claim operations on a deck, do them and hand them back.
#![tactic(auto)]

mod doing;
mod kind;
mod rounds;
mod sweeping;
mod window;
mod worker;

pub use kind::WorkerKind;
pub use worker::{Swept, Worker};
