//! Which operations a worker does.

ghost use Rattle.std.specs.Prelude.{◌≡◌};
ghost use Rattle.workers.specs.Kind.{does};

use op_table::{Op, OpKind};

/// Which operations a worker does.
#[derive(Clone, Copy, Debug, PartialEq, Eq, Hash)]
pub enum WorkerKind {
    /// All but items and fences.
    Transport,
    /// Items and fences.
    Gate,
    /// All.
    Any,
}

/// Whether a worker of this kind does the operation.
pub(crate) fn does(kind: WorkerKind, op: &Op) -> bool
    ensures { result ≡ does kind op.now }
{
    let gate_work = match op.kind() {
        OpKind::Item { .. } => true,
        OpKind::Fence { .. } => true,
        _ => false,
    };
    match kind {
        WorkerKind::Transport => !gate_work,
        WorkerKind::Gate => gate_work,
        WorkerKind::Any => true,
    }
}
