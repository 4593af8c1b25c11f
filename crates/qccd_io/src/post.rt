//! What a worker tells between the claim of an operation and its hand-back.

/// What a worker calls between the claim of an operation and its hand-back, so that others may
/// watch or slow the work. It returns, and changes nothing that a clause speaks of.
pub trait Post: Send + Sync {
    /// The worker has claimed the operation and not yet handed it back.
    fn at(&self, worker: u32, op: u32);
}

/// Does nothing.
#[derive(Clone, Copy, Debug, Default, PartialEq, Eq, Hash)]
pub struct NoPost;

impl Post for NoPost {
    fn at(&self, _worker: u32, _op: u32) {}
}
