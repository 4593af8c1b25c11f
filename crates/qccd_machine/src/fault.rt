//! Why parts make no machine.

use qccd_base::{JuncId, Res, SegId, TrapId};
use std::alloc::AllocError;
use thiserror::Error;

/// What there may be too many of.
#[derive(Clone, Copy, Debug, PartialEq, Eq, Hash)]
pub enum PartKind {
    /// More than 32 traps.
    Traps,
    /// More than 128 segments.
    Segments,
    /// More than 64 junctions.
    Junctions,
}

/// Why parts make no machine. The first that applies is told, in the order in which they stand here
/// but for those of segments: each segment in turn is looked at for an end that is not there, then
/// for being joined to itself, then for an end that is taken.
#[derive(Clone, Copy, Debug, PartialEq, Eq, Error)]
#[error("{}", self.text())]
pub enum MachineFault {
    /// There is no trap.
    NoTrap,
    /// There are more than 32 traps, or more than 128 segments, or more than 64 junctions.
    TooMany { what: PartKind },
    /// The first trap whose capacity is outside 2 to 32.
    Capacity { trap: TrapId },
    /// The segment shares an end of a trap with an earlier one.
    EndTaken { seg: SegId },
    /// An end of the segment is at a trap or a junction that is not there.
    BadEnd { seg: SegId },
    /// Both ends of the segment are at one trap or at one junction.
    SelfJoined { seg: SegId },
    /// The first junction that does not join 2 to 4 ends of segments.
    JunctionDegree { junc: JuncId },
    /// The first trap, else the first junction, to which no path leads from trap 0.
    NotConnected { place: Res },
    /// The first time above 1,000,000, by its place among the fields of `Times`, counted from 0.
    TableRange { field: u8 },
    /// Memory ran out.
    NoMemory,
}

impl From<AllocError> for MachineFault {
    ghost use Rattle.std.specs.Prelude.{◌≡◌};
    ghost use Rattle.qccd_machine.specs.declared.fault.MachineFault.TheVariants.{NoMemory};

    ghost from_gives = { λ _ e. e ≡ NoMemory };

    fn from(_refused: AllocError) -> MachineFault {
        MachineFault::NoMemory
    }
}
