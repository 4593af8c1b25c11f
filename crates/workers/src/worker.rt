//! What a worker is, and what it tells of a sweep.

ghost use Rattle.claim_board.specs.Deck.{IsEmpty};

use crate::kind::WorkerKind;
use claim_board::Pass;

/// A pass that does operations of one kind. Between two calls it has nothing in hand.
#[derive(Drop)]
pub struct Worker {
    pub(crate) kind: WorkerKind,
    pub(crate) pass: Pass,
    pub ghost empty: { IsEmpty pass },
}

/// What a worker did in a sweep.
#[derive(Clone, Copy, Debug, PartialEq, Eq)]
pub struct Swept {
    /// How many operations it began.
    pub done: u32,
    /// How many claims it made.
    pub claims: u64,
}
