//! Lists that clauses see as the lists of their elements.

ghost use Rattle.std.specs.Prelude.{◌≡◌, ◌==◌, ◌++◌, ◌∷◌, [], IfOk, OnErr, OnOk, length};

use crate::names::{Bit, Ion, NoMemory, Qubit, TrapId};
use smallvec::SmallVec;
use std::alloc::Global;
use std::marker::Model;

/// Ions in order, as a chain from left to right.
#[derive(Debug, Drop)]
pub struct IonList {
    ions: Vec<Ion>,
}

impl Model for IonList {
    ghost use Rattle.std.specs.Prelude.{List};
    ghost use Rattle.qccd_base.specs.declared.names.Ion.{Ion};

    ghost Value = { List Ion };

    ghost view = { λ a. a.ions.items };
}

impl IonList {
    /// The list of the vector's ions.
    pub fn of(vector: Vec<Ion>) -> Self
        ensures { result ≡ vector.items }
    {
        IonList { ions: vector }
    }

    /// The ions, in order.
    pub fn as_slice(&self) -> &[Ion]
        ensures { result.now ≡ self.now }
    {
        self.ions.as_slice()
    }

    /// How many ions there are.
    pub fn len(&self) -> usize
        ensures { result ≡ length self.now }
    {
        self.ions.len()
    }

    /// Whether there is none.
    pub fn is_empty(&self) -> bool
        ensures { result ≡ (length self.now == 0) }
    {
        self.ions.is_empty()
    }
}

/// Qubits in order, as the operands of a gate. Up to eight take no memory of their own, unless the list is made of a
/// vector that has more room: it keeps that vector's memory.
#[derive(Debug, Drop)]
pub struct QubitList {
    qubits: SmallVec<Qubit, 8>,
}

impl Model for QubitList {
    ghost use Rattle.std.specs.Prelude.{List};
    ghost use Rattle.qccd_base.specs.declared.names.Qubit.{Qubit};

    ghost Value = { List Qubit };

    ghost view = { λ a. a.qubits.items };
}

impl QubitList {
    /// The list of the vector's qubits.
    pub fn of(vector: Vec<Qubit>) -> Self
        ensures { result ≡ vector.items }
    {
        QubitList {
            qubits: SmallVec::from_vec(vector),
        }
    }

    /// The list of no qubit.
    pub fn new(alloc: Global) -> Self
        ensures { result ≡ [] }
    {
        QubitList {
            qubits: SmallVec::new(alloc),
        }
    }

    /// The list of these qubits.
    pub fn from_slice(alloc: Global, qubits: &[Qubit]) -> Result<Self, NoMemory>
        ensures { IfOk result (λ list. list ≡ qubits.now) }
    {
        let qubits = SmallVec::from_slice(alloc, qubits)?;
        Ok(QubitList { qubits })
    }

    /// Puts the qubit at the end. Where memory runs out, the list stays as it was.
    pub fn push(&mut self, qubit: Qubit) -> Result<(), NoMemory>
        ensures ok { OnOk result (self.new ≡ self.old ++ qubit ∷ []) }
        ensures err { OnErr result (self.new ≡ self.old) }
    {
        self.qubits.push(qubit)?;
        Ok(())
    }

    /// The qubits, in order.
    pub fn as_slice(&self) -> &[Qubit]
        ensures { result.now ≡ self.now }
    {
        self.qubits.as_slice()
    }

    /// How many qubits there are.
    pub fn len(&self) -> usize
        ensures { result ≡ length self.now }
    {
        self.qubits.len()
    }

    /// Whether there is none.
    pub fn is_empty(&self) -> bool
        ensures { result ≡ (length self.now == 0) }
    {
        self.qubits.is_empty()
    }
}

/// Classical bits in order.
#[derive(Debug, Drop)]
pub struct BitList {
    bits: Vec<Bit>,
}

impl Model for BitList {
    ghost use Rattle.std.specs.Prelude.{List};
    ghost use Rattle.qccd_base.specs.declared.names.Bit.{Bit};

    ghost Value = { List Bit };

    ghost view = { λ a. a.bits.items };
}

impl BitList {
    /// The list of the vector's bits.
    pub fn of(vector: Vec<Bit>) -> Self
        ensures { result ≡ vector.items }
    {
        BitList { bits: vector }
    }

    /// The bits, in order.
    pub fn as_slice(&self) -> &[Bit]
        ensures { result.now ≡ self.now }
    {
        self.bits.as_slice()
    }

    /// How many bits there are.
    pub fn len(&self) -> usize
        ensures { result ≡ length self.now }
    {
        self.bits.len()
    }

    /// Whether there is none.
    pub fn is_empty(&self) -> bool
        ensures { result ≡ (length self.now == 0) }
    {
        self.bits.is_empty()
    }
}

/// Traps in order.
#[derive(Debug, Drop)]
pub struct TrapList {
    traps: Vec<TrapId>,
}

impl Model for TrapList {
    ghost use Rattle.std.specs.Prelude.{List};
    ghost use Rattle.qccd_base.specs.declared.names.TrapId.{TrapId};

    ghost Value = { List TrapId };

    ghost view = { λ a. a.traps.items };
}

impl TrapList {
    /// The list of the vector's traps.
    pub fn of(vector: Vec<TrapId>) -> Self
        ensures { result ≡ vector.items }
    {
        TrapList { traps: vector }
    }

    /// The traps, in order.
    pub fn as_slice(&self) -> &[TrapId]
        ensures { result.now ≡ self.now }
    {
        self.traps.as_slice()
    }

    /// How many traps there are.
    pub fn len(&self) -> usize
        ensures { result ≡ length self.now }
    {
        self.traps.len()
    }

    /// Whether there is none.
    pub fn is_empty(&self) -> bool
        ensures { result ≡ (length self.now == 0) }
    {
        self.traps.is_empty()
    }
}

/// Positions in a chain, counted from 0 at the left, in the order of the operands. Up to sixteen take no memory of
/// their own, unless the list is made of a vector that has more room: it keeps that vector's memory.
#[derive(Debug, Drop)]
pub struct PosList {
    positions: SmallVec<u8, 16>,
}

impl Model for PosList {
    ghost use Rattle.std.specs.Prelude.{List, ℕ};

    ghost Value = { List ℕ };

    ghost view = { λ a. a.positions.items };
}

impl PosList {
    /// The list of the vector's positions.
    pub fn of(vector: Vec<u8>) -> Self
        ensures { result ≡ vector.items }
    {
        PosList {
            positions: SmallVec::from_vec(vector),
        }
    }

    /// The list of no position.
    pub fn new(alloc: Global) -> Self
        ensures { result ≡ [] }
    {
        PosList {
            positions: SmallVec::new(alloc),
        }
    }

    /// Puts the position at the end. Where memory runs out, the list stays as it was.
    pub fn push(&mut self, position: u8) -> Result<(), NoMemory>
        ensures ok { OnOk result (self.new ≡ self.old ++ position ∷ []) }
        ensures err { OnErr result (self.new ≡ self.old) }
    {
        self.positions.push(position)?;
        Ok(())
    }

    /// The positions, in order.
    pub fn as_slice(&self) -> &[u8]
        ensures { result.now ≡ self.now }
    {
        self.positions.as_slice()
    }

    /// How many positions there are.
    pub fn len(&self) -> usize
        ensures { result ≡ length self.now }
    {
        self.positions.len()
    }

    /// Whether there is none.
    pub fn is_empty(&self) -> bool
        ensures { result ≡ (length self.now == 0) }
    {
        self.positions.is_empty()
    }
}
