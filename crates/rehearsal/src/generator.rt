//! The circuit of a number.

ghost use Rattle.std.specs.Prelude.{◌≡◌, ◌<◌, ◌≤◌, IfOk};
ghost use Rattle.qccd_circuit.specs.Item.{Fits};
ghost use Rattle.rehearsal.specs.Generated.{drawn_item, generated, plain_gate};

use crate::draws::Draws;
use qccd_base::{BitList, NoMemory, Qubit, QubitList};
use qccd_circuit::{AngleList, Circuit, Item, ItemKind, Name};
use std::alloc::Global;

/// The circuit of gates `h`, `x` and `cx` that is drawn from the number: so many items on so many qubits, with no
/// bits and no angles. `NoMemory` where memory runs out.
pub fn rehearsal(alloc: Global, number: u32, qubits: u16, items: u32) -> Result<Circuit, NoMemory>
    requires low_number { number < 2147483648 }
    requires some_qubits { 1 ≤ qubits }
    requires few_qubits { qubits ≤ 256 }
    requires few_items { items ≤ 65536 }
    ensures { IfOk result (λ circuit. circuit ≡ generated number qubits items) }
{
    let mut circuit = Circuit::with_room(alloc, qubits, 0, items)?;
    let mut draws = Draws { at: number };
    for _ in 0..items {
        circuit.add(draw_item(&mut draws, alloc, qubits)?)?;
    }
    Ok(circuit)
}

// The item that is drawn next.
fn draw_item(draws: &mut Draws, alloc: Global, qubits: u16) -> Result<Item, NoMemory>
    requires some_qubits { 1 ≤ qubits }
    requires few_qubits { qubits ≤ 256 }
    ensures item { IfOk result (λ item. item ≡ (drawn_item qubits draws.old.at).item) }
    ensures after { draws.new.at ≡ (drawn_item qubits draws.old.at).after }
{
    let kind = draws.draw(3);
    let first = draws.draw(qubits);
    match kind {
        0 => plain_gate(alloc, ItemKind::Gate1, b"h", &[Qubit(first)]),
        2 if qubits >= 2 => {
            let other = draws.draw(qubits - 1);
            let second = if other >= first { other + 1 } else { other };
            plain_gate(
                alloc,
                ItemKind::Gate2,
                b"cx",
                &[Qubit(first), Qubit(second)],
            )
        }
        _ => plain_gate(alloc, ItemKind::Gate1, b"x", &[Qubit(first)]),
    }
}

// The gate of this name on these qubits, with no angle.
fn plain_gate(
    alloc: Global,
    kind: ItemKind,
    name: &[u8],
    qubits: &[Qubit],
) -> Result<Item, NoMemory>
    requires { Fits (plain_gate kind name.now qubits.now) }
    ensures { IfOk result (λ item. item ≡ plain_gate kind name.now qubits.now) }
{
    let name = Name::from_slice(alloc, name)?;
    let qubits = QubitList::from_slice(alloc, qubits)?;
    Ok(Item::of(
        kind,
        name,
        AngleList::of(Vec::new(alloc)),
        qubits,
        BitList::of(Vec::new(alloc)),
        None,
    ))
}
