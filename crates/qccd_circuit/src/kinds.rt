//! What items do, and the conditions under which they do it.

use qccd_base::Bit;

/// What an item does to its qubits.
#[derive(Clone, Copy, Debug, PartialEq, Eq, Hash)]
pub enum ItemKind {
    /// A gate on one qubit.
    Gate1,
    /// A gate on two qubits.
    Gate2,
    /// A measurement of a qubit into a bit.
    Measure,
    /// A reset of a qubit.
    Reset,
    /// A barrier over its qubits.
    Barrier,
}

/// A condition: the item takes effect where the bits of one register have this value.
#[derive(Clone, Copy, Debug, PartialEq, Eq, Hash)]
pub struct Cond {
    /// The first bit of the register.
    pub first: Bit,
    /// How many bits the register has.
    pub count: u16,
    /// The value, the register's first bit its lowest.
    pub value: u128,
}
