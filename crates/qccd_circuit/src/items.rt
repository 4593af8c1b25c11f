//! Items of circuits.

ghost use Rattle.std.specs.Prelude.{◌≡◌, ◌↔◌, ◌+◌, ◌<◌, ◌≤◌, All, IfOk, IsTrue, get_or, length};
ghost use Rattle.qccd_circuit.specs.Circuit.{IsWithin};
ghost use Rattle.qccd_circuit.specs.Item.{Fits, IsCond, bits_from, bits_of, cond_bits};
ghost use Rattle.qccd_circuit.specs.Operands.{operands_of};

use crate::kinds::{Cond, ItemKind};
use crate::texts::{AngleList, Name};
use qccd_base::{Bit, BitList, NoMemory, Qubit, QubitList};
use std::alloc::Global;
use std::marker::Model;

/// One item of a circuit: a gate, a measurement, a reset or a barrier, that fits.
#[derive(Debug, Drop)]
pub struct Item {
    kind: ItemKind,
    name: Name,
    angles: AngleList,
    qubits: QubitList,
    bits: BitList,
    cond: Option<Cond>,
}

impl Model for Item {
    ghost use Rattle.std.specs.Prelude.{◌≡◌};
    ghost use Rattle.qccd_circuit.specs.Item.{ItemData, Fits};

    ghost Value = { ItemData };

    ghost view = { λ a. record { kind = a.kind; name = a.name; angles = a.angles; qubits = a.qubits; bits = a.bits; cond = a.cond } };

    ghost invariant = { λ a. Fits (record { kind = a.kind; name = a.name; angles = a.angles; qubits = a.qubits; bits = a.bits; cond = a.cond }) };
}

impl Item {
    /// The item of these parts.
    pub fn of(
        kind: ItemKind,
        name: Name,
        angles: AngleList,
        qubits: QubitList,
        bits: BitList,
        cond: Option<Cond>,
    ) -> Item
        requires fits { Fits (record { kind = kind; name = name; angles = angles; qubits = qubits; bits = bits; cond = cond }) }
        ensures { result ≡ record { kind = kind; name = name; angles = angles; qubits = qubits; bits = bits; cond = cond } }
    {
        Item {
            kind,
            name,
            angles,
            qubits,
            bits,
            cond,
        }
    }

    /// What the item does.
    pub fn kind(&self) -> ItemKind
        ensures value { result ≡ self.now.kind }
        ensures fits { Fits self.now }
    {
        self.kind
    }

    /// The item's name.
    pub fn name(&self) -> &Name
        ensures { result.now ≡ self.now.name }
    {
        &self.name
    }

    /// The item's angles.
    pub fn angles(&self) -> &AngleList
        ensures { result.now ≡ self.now.angles }
    {
        &self.angles
    }

    /// The qubits that the item acts on, in order.
    pub fn qubits(&self) -> &QubitList
        ensures { result.now ≡ self.now.qubits }
    {
        &self.qubits
    }

    /// The bits that the item writes.
    pub fn bits(&self) -> &BitList
        ensures { result.now ≡ self.now.bits }
    {
        &self.bits
    }

    /// The item's condition.
    pub fn cond(&self) -> &Option<Cond>
        ensures { result.now ≡ self.now.cond }
    {
        &self.cond
    }

    /// How many operands the item has: its qubits, the bits that it writes, and those that its condition
    /// reads.
    pub fn operand_count(&self) -> usize
        ensures { result ≡ length (operands_of self.now) }
    {
        // The item fits, as the contract of its kind tells.
        let _kind = self.kind();
        let (_, read) = read_bits(self.cond());
        let qubits = self.qubits.as_slice();
        let bits = self.bits.as_slice();
        qubits.len() + bits.len() + usize::from(read)
    }

    /// The number of an operand: twice that of a qubit, and one more than twice that of a bit.
    pub fn operand(&self, k: usize) -> usize
        requires { k < length (operands_of self.now) }
        ensures { result ≡ get_or (operands_of self.now) k 0 }
    {
        let qubits = self.qubits.as_slice();
        if k < qubits.len() {
            return 2 * usize::from(qubits[k].0);
        }
        let k = k - qubits.len();
        let bits = self.bits.as_slice();
        if k < bits.len() {
            return 2 * usize::from(bits[k].0) + 1;
        }
        // The item fits, so no bit that its condition reads is above the last number of a bit.
        let _kind = self.kind();
        let (first, _) = read_bits(self.cond());
        2 * (usize::from(first) + (k - bits.len())) + 1
    }

    /// An equal item.
    // Inlined, the copy is made where it goes.
    #[inline(always)]
    pub fn copy(&self) -> Result<Item, NoMemory>
        ensures { IfOk result (λ item. item ≡ self.now) }
    {
        let alloc = self.name.allocator();
        let name = self.name.copy()?;
        let angles = self.angles.copy()?;
        let qubits = QubitList::from_slice(alloc, self.qubits.as_slice())?;
        let bits = copied(alloc, self.bits.as_slice())?;
        Ok(Item {
            kind: self.kind,
            name,
            angles,
            qubits,
            bits: BitList::of(bits),
            cond: self.cond,
        })
    }

    /// Whether each of the item's qubits, and of the bits that it writes or its condition reads, is
    /// below its count.
    pub fn is_within(&self, qubits: u16, bits: u16) -> bool
        ensures { IsTrue result ↔ IsWithin qubits bits self.now }
    {
        qubits_below(self.qubits.as_slice(), qubits) && self.uses_bits_below(bits)
    }

    // Whether each bit that the item writes or its condition reads is below the count.
    #[tactic(auto, using(crate::proofs::Reading::all_below, crate::proofs::Reading::written_below, crate::proofs::Reading::read_below))]
    fn uses_bits_below(&self, count: u16) -> bool
        ensures { IsTrue result ↔ All (λ b. b.0 < count) (bits_of self.now) }
    {
        bits_below(self.bits.as_slice(), count) && cond_below(self.cond(), count)
    }
}

// The same bits. Most items write none.
#[inline(always)]
fn copied(alloc: Global, bits: &[Bit]) -> Result<Vec<Bit>, NoMemory>
    ensures { IfOk result (λ copy. copy.items ≡ bits.now) }
{
    if bits.is_empty() {
        return Ok(Vec::new(alloc));
    }
    let copy = Vec::from_slice(alloc, bits)?;
    Ok(copy)
}

// The first of the bits that the condition reads, and how many there are.
fn read_bits(cond: &Option<Cond>) -> (u16, u16)
    requires { IsCond cond.now }
    ensures value { cond_bits cond.now ≡ bits_from result.0 result.1 }
    ensures end { result.0 + result.1 ≤ 65536 }
{
    match cond {
        None => (0, 0),
        Some(cond) => (cond.first.0, cond.count),
    }
}

// Whether each qubit is below the count.
fn qubits_below(qubits: &[Qubit], count: u16) -> bool
    ensures { IsTrue result ↔ All (λ q. q.0 < count) qubits.now }
{
    qubits.iter().all(|qubit| qubit.0 < count)
}

// Whether each bit is below the count.
fn bits_below(bits: &[Bit], count: u16) -> bool
    ensures { IsTrue result ↔ All (λ b. b.0 < count) bits.now }
{
    bits.iter().all(|bit| bit.0 < count)
}

// Whether each bit that the condition reads is below the count.
fn cond_below(cond: &Option<Cond>, count: u16) -> bool
    ensures { IsTrue result ↔ All (λ b. b.0 < count) (cond_bits cond.now) }
{
    match cond {
        None => true,
        Some(cond) => {
            let end = u32::from(cond.first.0) + u32::from(cond.count);
            cond.count == 0 || end <= u32::from(count)
        }
    }
}
