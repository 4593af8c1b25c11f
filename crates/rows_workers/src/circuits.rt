//! The programs whose operations are swept.

ghost use Rattle.std.specs.Prelude.{◌≤◌};

use compiler::{CompileFault, compile};
use qasm_reader::{QasmFault, read};
use qccd_base::{Mode, NoMemory};
use qccd_machine::{Preset, preset_machine};
use qccd_program::Program;
use std::alloc::Global;

/// What stands before a circuit's statements.
const HEAD: &str = "OPENQASM 2.0;include \"qelib1.inc\";";

/// The most bytes of a circuit.
const LIMIT: usize = 16777216;

// The program of the circuit with these statements on the machine, or nothing where there is none.
fn program_of(
    alloc: Global,
    statements: &str,
    preset: Preset,
    capacity: u8,
) -> Result<Option<Program>, NoMemory>
    requires least { 2 ≤ capacity }
    requires most { capacity ≤ 32 }
{
    let mut text = String::from_str(alloc, HEAD)?;
    text.push_str(statements)?;
    if text.len() > LIMIT {
        return Ok(None);
    }
    let circuit = match read(alloc, text.as_bytes()) {
        Ok(circuit) => circuit,
        Err(QasmFault::NoMemory) => return Err(NoMemory),
        Err(_) => return Ok(None),
    };
    let machine = preset_machine(alloc, preset, capacity)?;
    match compile(alloc, &circuit, machine, Mode::IonSwap) {
        Ok(program) => Ok(Some(program)),
        Err(CompileFault::NoMemory) => Err(NoMemory),
        Err(_) => Ok(None),
    }
}

// So many gates on each of four qubits, each in a trap of its own, in turn.
fn in_four_traps(alloc: Global, gates: u32) -> Result<Option<Program>, NoMemory> {
    let mut statements = String::from_str(alloc, "qreg q[4];")?;
    for _ in 0..gates {
        statements.push_str("h q;")?;
    }
    program_of(alloc, statements.as_str(), Preset::L6, 3)
}

/// The program of this name.
pub fn named(alloc: Global, name: &str) -> Result<Option<Program>, NoMemory> {
    match name {
        "fence" => program_of(alloc, "qreg q[2];h q[0];barrier q;h q[1];", Preset::L6, 3),
        "hop" => program_of(alloc, "qreg q[11];x q;cx q[1],q[10];", Preset::G2x3, 4),
        "four" => in_four_traps(alloc, 40),
        _ => Ok(None),
    }
}
