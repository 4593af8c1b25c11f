//! What a failing read or write answers.

/// A read or a write failed.
#[derive(Clone, Copy, Debug, PartialEq, Eq, Hash)]
pub struct Failed;
