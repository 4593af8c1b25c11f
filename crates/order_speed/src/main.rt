//! Orders the largest circuit as often as standard input says, for the measure of speed in `bench/`.
#![tactic(auto)]

use gate_scheduler::order;
use qccd_base::{BitList, NoMemory, Qubit, QubitList, read_number};
use qccd_circuit::{AngleList, Circuit, Item, ItemKind, Name, fits};
use std::alloc::Global;
use std::io::Read;
use std::process::ExitCode;

/// Adds a gate on two qubits, where they differ and there is room.
fn add_gate(
    circuit: &mut Circuit,
    alloc: Global,
    first: Qubit,
    second: Qubit,
) -> Result<(), NoMemory> {
    let name = Name::from_slice(alloc, b"cx")?;
    let angles = AngleList::of(Vec::new(alloc));
    let qubits = QubitList::from_slice(alloc, &[first, second])?;
    let bits = BitList::of(Vec::new(alloc));
    if !fits(ItemKind::Gate2, &name, &angles, &qubits, &bits, &None) {
        return Ok(());
    }
    let item = Item::of(ItemKind::Gate2, name, angles, qubits, bits, None);
    if item.is_within(circuit.qubits(), circuit.bits()) && circuit.items().len() < 65536 {
        circuit.add(item)?;
    }
    Ok(())
}

/// The circuit of 65,536 gates on pseudo-random pairs of 256 qubits.
fn largest(alloc: Global) -> Result<Circuit, NoMemory> {
    let mut circuit = Circuit::begin(alloc, 256, 0);
    let mut state = 1u32;
    for _ in 0..65536u32 {
        state = state.wrapping_mul(1664525).wrapping_add(1013904223);
        let first = (state >> 24) as u16;
        let step = 1 + (state >> 16) as u16 % 255;
        add_gate(
            &mut circuit,
            alloc,
            Qubit(first),
            Qubit(first.wrapping_add(step) % 256),
        )?;
    }
    Ok(circuit)
}

/// How many items are listed when the circuit is ordered so many times.
fn listed(alloc: Global, circuit: &Circuit, times: u64) -> Result<u64, NoMemory> {
    let mut count = 0u64;
    for _ in 0..times {
        let list = order(alloc, circuit)?;
        count = count.saturating_add(list.len() as u64);
    }
    Ok(count)
}

fn main(rt: HostRuntime) -> ExitCode {
    let mut text = Vec::new(rt.alloc());
    if rt.stdin().read_to_end(&mut text).is_err() {
        return ExitCode::from(2);
    }
    let Some(times) = read_number(text.as_slice()) else {
        return ExitCode::from(2);
    };
    let Ok(circuit) = largest(rt.alloc()) else {
        return ExitCode::from(1);
    };
    let Ok(count) = listed(rt.alloc(), &circuit, times) else {
        return ExitCode::from(1);
    };
    match println!(rt; "{count}") {
        Ok(()) => ExitCode::from(0),
        Err(_) => ExitCode::from(1),
    }
}
