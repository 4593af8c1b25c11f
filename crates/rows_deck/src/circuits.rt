//! The programs whose operations are claimed.

ghost use Rattle.std.specs.Prelude.{◌≤◌};

use compiler::{CompileFault, compile};
use qasm_reader::{QasmFault, read};
use qccd_base::{Mode, NoMemory};
use qccd_circuit::Circuit;
use qccd_machine::{Preset, preset_machine};
use qccd_program::Program;
use rehearsal::rehearsal;
use std::alloc::Global;

/// What stands before a circuit's statements.
const HEAD: &str = "OPENQASM 2.0;include \"qelib1.inc\";";

/// The most bytes of a circuit.
const LIMIT: usize = 16777216;

/// The most items of a circuit.
const MOST_ITEMS: u64 = 65536;

// The circuit compiled for a line of six traps, or nothing where it has no room there.
fn compiled(alloc: Global, circuit: &Circuit, capacity: u8) -> Result<Option<Program>, NoMemory>
    requires least { 2 ≤ capacity }
    requires most { capacity ≤ 32 }
{
    let machine = preset_machine(alloc, Preset::L6, capacity)?;
    match compile(alloc, circuit, machine, Mode::IonSwap) {
        Ok(program) => Ok(Some(program)),
        Err(CompileFault::NoMemory) => Err(NoMemory),
        Err(_) => Ok(None),
    }
}

// The program of the circuit with these statements, where each trap has room for one qubit at the start.
fn program_of(alloc: Global, statements: &str) -> Result<Option<Program>, NoMemory> {
    let mut text = String::from_str(alloc, HEAD)?;
    text.push_str(statements)?;
    if text.len() > LIMIT {
        return Ok(None);
    }
    match read(alloc, text.as_bytes()) {
        Ok(circuit) => compiled(alloc, &circuit, 3),
        Err(QasmFault::NoMemory) => Err(NoMemory),
        Err(_) => Ok(None),
    }
}

/// A gate on the first of two qubits, each in a trap of its own, a barrier over both, and a gate on the second.
pub fn two_gates(alloc: Global) -> Result<Option<Program>, NoMemory> {
    program_of(alloc, "qreg q[2];h q[0];barrier q;h q[1];")
}

/// So many gates on each of four qubits, each in a trap of its own, in turn.
pub fn in_four_traps(alloc: Global, gates: u64) -> Result<Option<Program>, NoMemory> {
    let mut statements = String::from_str(alloc, "qreg q[4];")?;
    for _ in 0..gates {
        statements.push_str("h q;")?;
    }
    program_of(alloc, statements.as_str())
}

/// The program of the circuit that is made from the number, with so many qubits and items.
pub fn generated(
    alloc: Global,
    number: u64,
    qubits: u64,
    items: u64,
) -> Result<Option<Program>, NoMemory> {
    if number >= 2147483648 || qubits < 1 || qubits > 256 || items > MOST_ITEMS {
        return Ok(None);
    }
    let circuit = rehearsal(alloc, number as u32, qubits as u16, items as u32)?;
    compiled(alloc, &circuit, 5)
}
