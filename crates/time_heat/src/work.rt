//! The steps of a machine.

/// A step of the machine, as far as its time depends on it.
#[derive(Clone, Copy, Debug, PartialEq, Eq, Hash)]
pub enum Work {
    /// A split of an ion off a chain.
    Split,
    /// A merge of an ion into a chain.
    Merge,
    /// A move along one segment.
    Move,
    /// An enter or a leave at a junction that joins so many segment ends.
    Cross(u8),
    /// An exchange of two neighbouring ions of a chain.
    Rot,
    /// A one-qubit gate.
    Gate1,
    /// A measurement.
    Measure,
    /// A reset.
    Reset,
    /// A two-qubit gate with so many ions between its two.
    Gate2(u8),
    /// An exchange of two qubits with so many ions between them.
    GSwap(u8),
    /// A fence, which only orders what stands before and after it.
    Fence,
}
