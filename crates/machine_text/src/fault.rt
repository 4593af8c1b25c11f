//! Why a text is that of no machine.

use qccd_machine::MachineFault;
use std::alloc::{AllocError, AllocFailed};
use thiserror::Error;

/// A field or a table of a machine's file.
#[derive(Clone, Copy, Debug, PartialEq, Eq, Hash)]
pub enum Part {
    /// The document itself.
    Top,
    /// `junctions`.
    Junctions,
    /// `trap`, or the trap of that number.
    Trap,
    /// The trap's `capacity`.
    Capacity,
    /// `segment`, or the segment of that number.
    Segment,
    /// The segment's `a`.
    EndA,
    /// The segment's `b`.
    EndB,
    /// `time`.
    Time,
    /// The field of `time` that is at this place among the fields of `Times`, counted from 0.
    TimeField(u8),
}

/// Where in a machine's file a fault is.
#[derive(Clone, Copy, Debug, PartialEq, Eq, Hash)]
pub struct Spot {
    /// The field or the table.
    pub part: Part,
    /// The number of the trap or the segment, counted from 0, and 0 where there is none.
    pub row: u64,
}

impl Part {
    ghost use Rattle.std.specs.Prelude.{◌≡◌};
    ghost use Rattle.machine_text.specs.Checks.{spot};

    /// This part of the trap or segment with this number, or 0 where there is none.
    pub(crate) fn at(self, row: u64) -> Spot
        ensures { result ≡ spot self row }
    {
        Spot { part: self, row }
    }
}

/// Why a text is that of no machine. The first cause is told: whether it is TOML at all, then the
/// fields in the order in which `Part` has them, with those of one trap or segment before those of
/// the next and an unknown field of a table before its other fields, and at last the parts.
#[derive(Clone, Copy, Debug, PartialEq, Eq, Error)]
#[error("{}", self.text())]
pub enum TextFault {
    /// The text is no TOML.
    NotToml,
    /// A field that has to be there is not.
    MissingField { spot: Spot },
    /// A field's value is of another type or form than is wanted, or out of range.
    WrongValue { spot: Spot },
    /// The table has a field that no such table has.
    UnknownField { spot: Spot },
    /// The parts make no machine.
    Machine(MachineFault),
    /// Memory ran out.
    NoMemory,
}

impl From<AllocError> for TextFault {
    ghost use Rattle.std.specs.Prelude.{◌≡◌};
    ghost use Rattle.machine_text.specs.declared.fault.TextFault.TheVariants.{NoMemory};

    ghost from_gives = { λ _ e. e ≡ NoMemory };

    fn from(_refused: AllocError) -> TextFault {
        TextFault::NoMemory
    }
}

impl<T: Drop> From<AllocFailed<T>> for TextFault {
    ghost use Rattle.std.specs.Prelude.{◌≡◌};
    ghost use Rattle.machine_text.specs.declared.fault.TextFault.TheVariants.{NoMemory};

    ghost from_gives = { λ _ e. e ≡ NoMemory };

    fn from(_refused: AllocFailed<T>) -> TextFault {
        TextFault::NoMemory
    }
}
