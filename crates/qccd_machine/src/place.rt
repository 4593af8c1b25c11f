//! Where ends of segments are, and which machines have names.

use qccd_base::{End, JuncId, TrapId};

/// Where an end of a segment is: at an end of a trap, or at a junction.
#[derive(Clone, Copy, Debug, PartialEq, Eq, PartialOrd, Ord, Hash)]
pub enum Place {
    TrapEnd(TrapId, End),
    Junction(JuncId),
}

/// A machine that is known by name.
#[derive(Clone, Copy, Debug, PartialEq, Eq, Hash)]
pub enum Preset {
    /// Six traps in a line.
    L6,
    /// Six traps in two rows of three, joined by four junctions.
    G2x3,
    /// One trap.
    Single,
}
