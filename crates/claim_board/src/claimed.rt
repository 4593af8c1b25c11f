//! What a claim answers.

use qccd_base::Res;

/// What a claim answers.
#[derive(Clone, Copy, Debug, PartialEq, Eq)]
pub enum Claimed {
    /// The pass has the operation in hand.
    Got,
    /// The resource has come to this turn only, and the operation needs it at a later one.
    NotNow { res: Res, turn: u32, needed: u32 },
    /// The resource is past the operation's turn, or at it and held: the operation was begun.
    Gone { res: Res, turn: u32, held: bool },
}
