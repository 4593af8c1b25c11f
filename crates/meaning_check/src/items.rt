//! The items of a program, and whether they are the circuit's.

ghost use Rattle.std.specs.Prelude.{◌≡◌, ◌↔◌, ◌≤◌, ◌<◌, ℕ, false, true, get_or, length, IfOk, IfSome, IfNone, IsTrue, option_map};
ghost use Rattle.std.specs.List.{AllByRecursion};
ghost use Rattle.op_table.specs.Run.{item_in, items_in};
ghost use Rattle.meaning_check.specs.Least.{no_number};
ghost use Rattle.meaning_check.specs.Verdict.{HasEach, IsFirstToDiffer, IsLeastMissing, IsOfCircuit, IsOther};

use op_table::{Op, OpKind};
use qccd_base::{Bit, NoMemory, Qubit};
use qccd_circuit::{Angle, Cond, Item};
use std::alloc::Global;

// Whether the texts of two angles are equal.
fn same_angle(a: &Angle, b: &Angle) -> bool
    ensures { IsTrue result ↔ (a.now ≡ b.now) }
{
    a.as_slice() == b.as_slice()
}

// Whether the angles are equal, one by one.
fn same_angles(a: &[Angle], b: &[Angle]) -> bool
    ensures { IsTrue result ↔ (a.now ≡ b.now) }
{
    if a.len() != b.len() {
        return false;
    }
    for i in 0..a.len() {
        if !same_angle(&a[i], &b[i]) {
            return false;
        }
    }
    true
}

// Whether the kinds, names and angles are equal.
fn same_gate(a: &Item, b: &Item) -> bool
    ensures { IsTrue result ↔ ((a.now.kind ≡ b.now.kind) × (a.now.name ≡ b.now.name) × (a.now.angles ≡ b.now.angles)) }
{
    a.kind() == b.kind()
        && a.name().as_slice() == b.name().as_slice()
        && same_angles(a.angles().as_slice(), b.angles().as_slice())
}

// Whether the qubits are equal, in their order.
fn same_qubits(a: &[Qubit], b: &[Qubit]) -> bool
    ensures { IsTrue result ↔ (a.now ≡ b.now) }
{
    a == b
}

// Whether the bits are equal, in their order.
fn same_bits(a: &[Bit], b: &[Bit]) -> bool
    ensures { IsTrue result ↔ (a.now ≡ b.now) }
{
    a == b
}

// Whether the conditions are equal.
fn same_cond(a: &Option<Cond>, b: &Option<Cond>) -> bool
    ensures { IsTrue result ↔ (a.now ≡ b.now) }
{
    a == b
}

// Whether the qubits, bits and conditions are equal.
fn same_operands(a: &Item, b: &Item) -> bool
    ensures { IsTrue result ↔ ((a.now.qubits ≡ b.now.qubits) × (a.now.bits ≡ b.now.bits) × (a.now.cond ≡ b.now.cond)) }
{
    same_qubits(a.qubits().as_slice(), b.qubits().as_slice())
        && same_bits(a.bits().as_slice(), b.bits().as_slice())
        && same_cond(a.cond(), b.cond())
}

// Whether the items are equal.
fn same_item(a: &Item, b: &Item) -> bool
    ensures { IsTrue result ↔ (a.now ≡ b.now) }
{
    same_gate(a, b) && same_operands(a, b)
}

/// The item that the operation does, with its number.
pub fn item_of(op: &Op) -> Option<(u32, &Item)>
    ensures value { option_map (λ x. (x.0, x.1.now)) result ≡ item_in op.now }
    ensures small { IfSome result (λ x. x.0 ≤ no_number) }
{
    match op.kind() {
        OpKind::Item { number, item, .. } => Some((*number, item)),
        OpKind::Fence { number, item, .. } => Some((*number, item)),
        OpKind::Split { .. } => None,
        OpKind::Move { .. } => None,
        OpKind::Enter { .. } => None,
        OpKind::Leave { .. } => None,
        OpKind::Merge { .. } => None,
        OpKind::Rot { .. } => None,
        OpKind::GSwap { .. } => None,
    }
}

// The number of the operation's item, where that is not the circuit's.
fn differing(items: &[Item], op: &Op) -> Option<u32>
    ensures none { IfNone result (IsOfCircuit items.now op.now) }
    ensures some { IfSome result (IsOther items.now op.now) }
{
    let (number, item) = item_of(op)?;
    match items.get(number as usize) {
        Some(own) if same_item(own, item) => None,
        _ => Some(number),
    }
}

/// The first operation whose item is not the circuit's, and its item's number.
pub fn first_to_differ(items: &[Item], ops: &[Op]) -> Option<(u32, u32)>
    requires few { length ops.now ≤ 4194304 }
    ensures none { IfNone result (AllByRecursion (IsOfCircuit items.now) ops.now) }
    ensures some { IfSome result (λ x. IsFirstToDiffer items.now ops.now x.0 x.1) }
{
    for (number, op) in ops.iter().enumerate() {
        if let Some(item) = differing(items, op) {
            return Some((number as u32, item));
        }
    }
    None
}

// The first place at which nothing was seen.
fn first_unseen(seen: &[bool]) -> Option<u32>
    requires few { length seen.now ≤ 65536 }
    ensures none { IfNone result ((k : ℕ) → k < length seen.now → get_or seen.now k false ≡ true) }
    ensures some { IfSome result (λ at. (at < length seen.now) × (get_or seen.now at false ≡ false) × ((k : ℕ) → k < at → get_or seen.now k false ≡ true)) }
{
    let at = seen.iter().position(|seen| !*seen)?;
    Some(at as u32)
}

/// The least of so many items that the operations do not do.
pub fn least_missing(alloc: Global, count: usize, ops: &[Op]) -> Result<Option<u32>, NoMemory>
    requires few { count ≤ 65536 }
    ensures none { IfOk result (λ found. IfNone found (HasEach count (items_in ops.now))) }
    ensures some { IfOk result (λ found. IfSome found (IsLeastMissing count (items_in ops.now))) }
{
    let mut seen = vec![in alloc; false; count]?;
    for op in ops {
        if let Some((number, _)) = item_of(op) {
            let at = number as usize;
            if at < count {
                seen[at] = true;
            }
        }
    }
    Ok(first_unseen(seen.as_slice()))
}
