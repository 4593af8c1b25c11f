//! Where the compiler's bytes come from and go to: sources, shelves that lend them by name, sinks,
//! and what a worker tells of its operations.
#![tactic(auto)]

mod buffered;
mod failed;
mod fetch;
mod file_shelf;
mod mem_shelf;
mod mem_sink;
mod piece;
mod post;
mod schedule;
mod shelf;
mod sink;
#[cfg(test)]
mod sink_tests;
mod source;
mod std_sink;
#[cfg(test)]
mod tests;
mod texts;

pub use buffered::{Buffer, Buffered};
pub use failed::Failed;
pub use fetch::{FetchFault, fetch_all};
pub use file_shelf::{FileShelf, FileSource};
pub use mem_shelf::{MemShelf, MemSource};
pub use mem_sink::MemSink;
pub use piece::Piece;
pub use post::{NoPost, Post};
pub use shelf::Shelf;
pub use sink::{Sink, send};
pub use source::Source;
pub use std_sink::StdSink;
pub use texts::{send_all, send_labelled, send_number};
