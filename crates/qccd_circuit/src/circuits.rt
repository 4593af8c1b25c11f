//! Circuits.

ghost use Rattle.std.specs.Prelude.{◌≡◌, ◌<◌, ◌≤◌, ◌++◌, ◌∷◌, [], IfOk, OnErr, OnOk, length};
ghost use Rattle.qccd_circuit.specs.Circuit.{IsCircuit, IsWithin};

use crate::items::Item;
use qccd_base::NoMemory;
use std::alloc::Global;
use std::marker::Model;

/// A circuit: its counts of qubits and of classical bits, and its items in their order.
#[derive(Debug, Drop)]
pub struct Circuit {
    qubits: u16,
    bits: u16,
    items: Vec<Item>,
}

impl Model for Circuit {
    ghost use Rattle.qccd_circuit.specs.Circuit.{CircuitData, IsCircuit};

    ghost Value = { CircuitData };

    ghost view = { λ a. record { qubits = a.qubits; bits = a.bits; items = a.items.items } };

    ghost invariant = { λ a. IsCircuit (record { qubits = a.qubits; bits = a.bits; items = a.items.items }) };
}

impl Circuit {
    /// The circuit of so many qubits and bits with no item yet.
    pub fn begin(alloc: Global, qubits: u16, bits: u16) -> Circuit
        requires few_qubits { qubits ≤ 256 }
        requires few_bits { bits ≤ 256 }
        ensures { result ≡ record { qubits = qubits; bits = bits; items = [] } }
    {
        Circuit {
            qubits,
            bits,
            items: Vec::new(alloc),
        }
    }

    /// The same, with room for so many items.
    pub fn with_room(alloc: Global, qubits: u16, bits: u16, room: u32) -> Result<Circuit, NoMemory>
        requires few_qubits { qubits ≤ 256 }
        requires few_bits { bits ≤ 256 }
        ensures { IfOk result (λ circuit. circuit ≡ record { qubits = qubits; bits = bits; items = [] }) }
    {
        let items = Vec::with_capacity(alloc, room as usize)?;
        Ok(Circuit {
            qubits,
            bits,
            items,
        })
    }

    /// The circuit of these items.
    pub fn of(qubits: u16, bits: u16, items: Vec<Item>) -> Circuit
        requires { IsCircuit (record { qubits = qubits; bits = bits; items = items.items }) }
        ensures { result ≡ record { qubits = qubits; bits = bits; items = items.items } }
    {
        Circuit {
            qubits,
            bits,
            items,
        }
    }

    /// How many qubits the circuit has.
    pub fn qubits(&self) -> u16
        ensures { result ≡ self.now.qubits }
    {
        self.qubits
    }

    /// How many classical bits the circuit has.
    pub fn bits(&self) -> u16
        ensures { result ≡ self.now.bits }
    {
        self.bits
    }

    /// The items, in their order.
    pub fn items(&self) -> &[Item]
        ensures value { result.now ≡ self.now.items }
        ensures is_circuit { IsCircuit self.now }
    {
        self.items.as_slice()
    }

    /// Puts the item at the end. Where memory runs out, the circuit stays as it was.
    pub fn add(&mut self, item: Item) -> Result<(), NoMemory>
        requires within { IsWithin self.old.qubits self.old.bits item }
        requires room { length self.old.items < 65536 }
        ensures ok { OnOk result (self.new ≡ record self.old { items = self.old.items ++ item ∷ [] }) }
        ensures err { OnErr result (self.new ≡ self.old) }
    {
        // The item fits, as the contract of its kind tells.
        let _kind = item.kind();
        self.items.push(item)?;
        Ok(())
    }
}
