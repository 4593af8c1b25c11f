//! What a worker does with a board, and why it can't.

use qccd_base::Res;

/// What a worker does with a board.
#[derive(Clone, Copy, Debug, PartialEq, Eq)]
pub enum Event {
    /// The worker takes the operation and its first resource.
    Begin { worker: u16, op: u32 },
    /// The worker takes one more resource.
    Reach { worker: u16, op: u32, res: Res },
    /// The worker gives a resource back, and the resource's turn rises by 1.
    Give { worker: u16, op: u32, res: Res },
}

/// Why an event can't happen.
#[derive(Clone, Copy, Debug, PartialEq, Eq)]
pub enum ActFault {
    /// At a Begin the worker has this operation in hand; at the others it has another or none.
    NotYours { worker: u16, hand: Option<u32> },
    /// The resource has come to this turn, and the operation needs it at another.
    NotNow { res: Res, turn: u32, needed: u32 },
    /// The resource is at the operation's turn, and this worker holds it.
    Held { res: Res, by: u16 },
    /// The operation does not touch the resource.
    Untouched { res: Res },
    /// The operation got the resource before, or gave it before.
    Again { res: Res },
    /// The operation has not got this resource yet.
    NotGot { res: Res },
}
