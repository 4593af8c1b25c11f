//! The start chains of the largest circuit, with ample memory, and the text of a refusal. Start chains of smaller
//! circuits are rows of commands.

use super::*;
use qccd_base::{BitList, End, NoMemory, Qubit, QubitList, Times, TrapId};
use qccd_circuit::{AngleList, Circuit, Item, ItemKind, Name, fits};
use qccd_machine::{Machine, MachineFault, Parts, Place, Preset, preset_machine};
use std::alloc::Global;
use std::process::Abort;
use std::test::Fail;

/// Adds a gate on this qubit, where the circuit has it.
fn add(circuit: &mut Circuit, alloc: Global, qubit: Qubit) -> Result<(), NoMemory> {
    let name = Name::of(Vec::from_slice(alloc, b"x")?);
    let angles = AngleList::of(Vec::new(alloc));
    let qubits = QubitList::of(Vec::from_slice(alloc, &[qubit])?);
    let bits = BitList::of(Vec::new(alloc));
    if fits(ItemKind::Gate1, &name, &angles, &qubits, &bits, &None) {
        let item = Item::of(ItemKind::Gate1, name, angles, qubits, bits, None);
        if circuit.items().len() < 65536 && item.is_within(circuit.qubits(), circuit.bits()) {
            circuit.add(item)?;
        }
    }
    Ok(())
}

#[test]
fn too_many_qubits(rt: HostRuntime) -> Result<(), Fail> {
    let alloc = rt.alloc();
    let line = preset_machine(alloc, Preset::L6, 2)?;
    let circuit = Circuit::begin(alloc, 12, 0);
    match place(alloc, &circuit, &line) {
        Ok(_) => assert!(rt; false),
        Err(fault) => assert_eq!(rt;
            format!(in alloc; "{fault}")?.as_str(),
            "12 qubits, 11 slots"
        ),
    }
    Ok(())
}

/// A machine of 32 traps in a line, with this capacity each.
fn longest_line(alloc: Global, capacity: u64) -> Result<Machine, MachineFault> {
    let segments = (0..31)
        .map(|trap| {
            (
                Place::TrapEnd(TrapId(trap), End::Right),
                Place::TrapEnd(TrapId(trap + 1), End::Left),
            )
        })
        .collect(alloc)?;
    let capacities = vec![in alloc; capacity; 32]?;
    let times = Times::usual();
    Machine::build(
        alloc,
        Parts {
            capacities,
            junctions: 0,
            segments,
            times,
        },
    )
}

#[test]
fn as_many_as_there_can_be(rt: HostRuntime) -> Result<(), Fail> {
    let alloc = rt.alloc();
    let machine = longest_line(alloc, 9)?;
    let mut circuit = Circuit::begin(alloc, 256, 0);
    for number in 0..65535u32 {
        add(&mut circuit, alloc, Qubit((number % 255 + 1) as u16))?;
    }
    let placed = place(alloc, &circuit, &machine)?;
    assert_eq!(rt; placed.len(), 32);
    for (trap, chain) in placed.iter().enumerate() {
        assert_eq!(rt; chain.len(), 8);
        for (position, ion) in chain.as_slice().iter().enumerate() {
            assert_eq!(rt; usize::from(ion.0), (trap * 8 + position + 1) % 256);
        }
    }
    Ok(())
}
