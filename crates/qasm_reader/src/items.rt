//! The items of one application of a gate.

ghost use Rattle.std.specs.Prelude.{◌≡◌, ℕ, ◌+◌, ◌<◌, ◌≤◌, ◌++◌, ◌∷◌, [], All, IfOk, IsTrue, List, None, OnOk, length, map};
ghost use Rattle.qccd_circuit.specs.declared.kinds.ItemKind.TheVariants.{Gate1, Gate2};
ghost use Rattle.qccd_circuit.specs.Item.{AreAngles, Fits, are_distinct};
ghost use Rattle.qccd_base.specs.Names.{bit, qubit};
ghost use Rattle.gate_defs.specs.Items.{ccx_items, cswap_items};
ghost use Rattle.qasm_reader.specs.Gates.{applied, gate_item};
ghost use Rattle.qasm_reader.specs.Named.{shape};
ghost use Rattle.qasm_reader.specs.Operand.{cell_of, measure_item};
ghost use Rattle.qasm_reader.specs.Sound.{IsGateOfItems};

use crate::gates::KnownGate;
use crate::kinds::Operand;
use crate::words::same;
use gate_defs::{add_ccx, add_cswap, item_on};
use qccd_base::{Bit, BitList, NoMemory, Qubit, QubitList};
use qccd_circuit::{AngleList, Item, ItemKind, Name};
use std::alloc::Global;

/// The measurement of a qubit into a bit.
pub(crate) fn measurement(alloc: Global, qubit: Qubit, bit: Bit) -> Result<Item, NoMemory>
    ensures { IfOk result (λ item. item ≡ measure_item qubit.0 bit.0) }
{
    let name = Name::from_slice(alloc, b"measure")?;
    let angles = AngleList::of(Vec::new(alloc));
    let qubits = QubitList::from_slice(alloc, &[qubit])?;
    let bits = BitList::of(Vec::from_slice(alloc, &[bit])?);
    Ok(Item::of(ItemKind::Measure, name, angles, qubits, bits, None))
}

/// How many items one application of the gate is.
pub(crate) fn items_of_each(gate: &KnownGate, operands: &[Operand]) -> u32
    ensures value { (angles : List (List ℕ)) (turn : ℕ) → length (applied (shape gate.now) angles (map (cell_of turn) operands.now)) ≡ result }
    ensures most { result ≤ 17 }
{
    match operands {
        [_] | [_, _] => 1,
        [_, _, _] => { if same(gate.name, b"ccx") { 15 } else { 17 } }
        _ => 0,
    }
}

/// The cell that the application with this number takes, the i-th of a register and else the one cell.
pub(crate) fn cell_of(turn: u16, operand: &Operand) -> u16
    requires { cell_of turn operand.now < 256 }
    ensures { result ≡ cell_of turn operand.now }
{
    match operand.index {
        None => operand.register.first + turn,
        Some(index) => operand.register.first + index,
    }
}

/// Puts the items of one application at the end: the one with this number, counted from 0.
pub(crate) fn apply(
    alloc: Global,
    gate: &KnownGate,
    angles: &AngleList,
    operands: &[Operand],
    turn: u16,
    items: &mut Vec<Item>,
) -> Result<(), NoMemory>
    requires is_gate { IsGateOfItems (shape gate.now) }
    requires are_angles { AreAngles angles.now }
    requires distinct { IsTrue (are_distinct (map qubit (map (cell_of turn) operands.now))) }
    requires below { All (λ q. q < 256) (map (cell_of turn) operands.now) }
    ensures { OnOk result (items.new.items ≡ items.old.items ++ applied (shape gate.now) angles.now (map (cell_of turn) operands.now)) }
{
    match operands {
        [a] => {
            let on = [Qubit(cell_of(turn, a))];
            let item = item_on(alloc, ItemKind::Gate1, gate.name, angles.copy()?, &on, None)?;
            items.push(item)?;
        }
        [a, b] => {
            let on = [Qubit(cell_of(turn, a)), Qubit(cell_of(turn, b))];
            let item = item_on(alloc, ItemKind::Gate2, gate.name, angles.copy()?, &on, None)?;
            items.push(item)?;
        }
        [a, b, c] => {
            let (a, b, c) = (cell_of(turn, a), cell_of(turn, b), cell_of(turn, c));
            let on = [Qubit(a), Qubit(b), Qubit(c)];
            if same(gate.name, b"ccx") {
                add_ccx(alloc, &on, None, items)?;
            } else {
                add_cswap(alloc, &on, None, items)?;
            }
        }
        _ => {}
    }
    Ok(())
}
