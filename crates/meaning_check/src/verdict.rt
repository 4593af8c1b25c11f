//! What a comparison finds.

/// How a program stands to a circuit. Of several the first is told.
#[derive(Clone, Copy, Debug, PartialEq, Eq)]
pub enum Verdict {
    /// The numbers of qubits or of bits differ.
    Sizes,
    /// The first operation whose item is not the circuit's of its number, or whose number is none of the
    /// circuit's.
    Differs { op: u32, item: u32 },
    /// The least item of the circuit that is not in the program.
    Missing(u32),
    /// The first item, in program order, that stands before a smaller one that shares with it, and the
    /// least such smaller one.
    Order { first: u32, second: u32 },
    /// None of these: the program implements the circuit.
    Same,
}
