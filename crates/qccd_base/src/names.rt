//! What is numbered, and what an operation holds.

use std::alloc::{AllocError, AllocFailed};

/// An ion of the machine, numbered from 0.
#[derive(Clone, Copy, Debug, Default, PartialEq, Eq, PartialOrd, Ord, Hash)]
pub struct Ion(pub u16);

/// A qubit of the circuit, numbered from 0 over all its registers.
#[derive(Clone, Copy, Debug, Default, PartialEq, Eq, PartialOrd, Ord, Hash)]
pub struct Qubit(pub u16);

/// A classical bit of the circuit, numbered from 0 over all its registers.
#[derive(Clone, Copy, Debug, Default, PartialEq, Eq, PartialOrd, Ord, Hash)]
pub struct Bit(pub u16);

/// A trap of the machine.
#[derive(Clone, Copy, Debug, Default, PartialEq, Eq, PartialOrd, Ord, Hash)]
pub struct TrapId(pub u8);

/// A segment of the machine.
#[derive(Clone, Copy, Debug, Default, PartialEq, Eq, PartialOrd, Ord, Hash)]
pub struct SegId(pub u8);

/// A junction of the machine.
#[derive(Clone, Copy, Debug, Default, PartialEq, Eq, PartialOrd, Ord, Hash)]
pub struct JuncId(pub u8);

/// An end of a trap's chain: position 0 is at the left.
#[derive(Clone, Copy, Debug, PartialEq, Eq, PartialOrd, Ord, Hash)]
pub enum End {
    Left,
    Right,
}

/// An end of a segment.
#[derive(Clone, Copy, Debug, PartialEq, Eq, PartialOrd, Ord, Hash)]
pub enum SegEnd {
    A,
    B,
}

/// How a qubit is brought to the end of its chain.
#[derive(Clone, Copy, Debug, PartialEq, Eq, PartialOrd, Ord, Hash)]
pub enum Mode {
    /// By exchanging neighbouring ions.
    IonSwap,
    /// By a gate that exchanges the qubits of two ions.
    GateSwap,
}

/// A resource: what an operation holds while it runs. Traps come before segments, these before
/// junctions, these before classical bits, and each by number.
#[derive(Clone, Copy, Debug, PartialEq, Eq, PartialOrd, Ord, Hash)]
pub enum Res {
    Trap(TrapId),
    Seg(SegId),
    Junc(JuncId),
    Bit(Bit),
}

/// Memory ran out.
#[derive(Clone, Copy, Debug, PartialEq, Eq, Hash)]
pub struct NoMemory;

impl From<AllocError> for NoMemory {
    fn from(_refused: AllocError) -> NoMemory {
        NoMemory
    }
}

impl<T: Drop> From<AllocFailed<T>> for NoMemory {
    fn from(_refused: AllocFailed<T>) -> NoMemory {
        NoMemory
    }
}
