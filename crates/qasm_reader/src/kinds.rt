//! Kinds of registers and of statements.

/// What a register is of.
#[derive(Clone, Copy, Debug, Default, PartialEq, Eq, Hash)]
pub(crate) enum RegisterKind {
    /// Qubits.
    #[default]
    Quantum,
    /// Classical bits.
    Classical,
}

/// What the first word of a statement begins.
#[derive(Clone, Copy, Debug, PartialEq, Eq, Hash)]
pub(crate) enum Opening {
    Include,
    Qreg,
    Creg,
    Measure,
    Reset,
    Barrier,
    /// A statement that is not built yet.
    Later,
    /// Any other word: a gate's name.
    Gate,
}

/// A register: its cells are so many, numbered on from the first.
#[derive(Clone, Copy, Debug, Default, PartialEq, Eq, Hash)]
pub(crate) struct Register {
    pub kind: RegisterKind,
    pub first: u16,
    pub size: u16,
}

/// An operand: the whole register, or the cell of an index.
#[derive(Clone, Copy, Debug, Default, PartialEq, Eq, Hash)]
pub(crate) struct Operand {
    pub register: Register,
    pub index: Option<u16>,
}

/// A cell as an operand: its index in its register, and the byte of its first token.
#[derive(Clone, Copy, Debug, PartialEq, Eq, Hash)]
pub(crate) struct Cell {
    pub at: u32,
    pub register: Register,
    pub index: u16,
}
