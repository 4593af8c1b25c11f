//! How long the steps of a machine take.

ghost use Rattle.std.specs.Prelude.{◌≡◌};
ghost use Rattle.qccd_base.specs.Times.{usual};

/// How long each step takes, in whole microseconds.
#[derive(Clone, Copy, Debug, PartialEq, Eq, Hash)]
pub struct Times {
    /// A split of an ion off a chain.
    pub split: u32,
    /// A merge of an ion into a chain.
    pub merge: u32,
    /// A move along one segment.
    pub shift: u32,
    /// Entering or leaving a junction that joins two segments.
    pub cross2: u32,
    /// The same at a junction that joins three.
    pub cross3: u32,
    /// The same at a junction that joins four.
    pub cross4: u32,
    /// An exchange of two neighbouring ions of a chain.
    pub rot: u32,
    /// A one-qubit gate.
    pub gate1: u32,
    /// A measurement.
    pub measure: u32,
    /// A reset.
    pub reset: u32,
    /// A two-qubit gate on neighbours.
    pub gate2: u32,
    /// What a two-qubit gate takes longer for each ion between its two.
    pub between: u32,
}

impl Times {
    /// The times that a machine has where none are given.
    pub fn usual() -> Times
        ensures { result ≡ usual }
    {
        Times {
            split: 80,
            merge: 80,
            shift: 5,
            cross2: 50,
            cross3: 50,
            cross4: 60,
            rot: 200,
            gate1: 5,
            measure: 100,
            reset: 100,
            gate2: 100,
            between: 10,
        }
    }
}
