//! A raw program, loaded on a machine.

ghost use Rattle.std.specs.Prelude.{◌≡◌, ◌≤◌, ◌<◌, ◌^◌, length, IfOk, OnOk};
ghost use Rattle.qccd_program.specs.Legal.{IsLegalProgram};
ghost use Rattle.transport_asm.specs.LineCursor.{raw_data};
ghost use Rattle.loader.specs.Refusal.{on_machine, load_refusal, Answers};

use crate::faults::LoadFault;
use crate::operations::operations;
use crate::start::start;
use qccd_machine::Machine;
use qccd_program::Program;
use std::alloc::Global;
use transport_asm::RawProgram;

// Whether the raw program is one of the machine, and if not, why.
fn is_program(alloc: Global, machine: &Machine, raw: &RawProgram) -> Result<(), LoadFault>
    requires qubits { raw.now.qubits ≤ 256 }
    requires bits { raw.now.bits ≤ 256 }
    requires ops { length raw.now.ops.items ≤ 4194304 }
    requires chains { length raw.now.chains.items < 2 ^ 32 }
    ensures told { Answers result (load_refusal machine.now (raw_data raw.now)) }
    ensures legal { OnOk result (IsLegalProgram (on_machine machine.now (raw_data raw.now))) }
{
    let chains = raw.chains.as_slice();
    start(machine, raw.qubits, chains)?;
    operations(
        alloc,
        machine,
        raw.qubits,
        raw.bits,
        raw.mode,
        chains,
        raw.ops.as_slice(),
    )
}

/// The program of the machine that the raw program is, or the first reason why it is none. Nothing is
/// copied, and a refusal drops both arguments.
pub fn load(alloc: Global, machine: Machine, raw: RawProgram) -> Result<Program, LoadFault>
    requires qubits { raw.qubits ≤ 256 }
    requires bits { raw.bits ≤ 256 }
    requires ops { length raw.ops.items ≤ 4194304 }
    requires chains { length raw.chains.items < 2 ^ 32 }
    ensures told { Answers result (load_refusal machine (raw_data raw)) }
    ensures loaded { IfOk result (λ program. program ≡ on_machine machine (raw_data raw)) }
{
    is_program(alloc, &machine, &raw)?;
    let RawProgram {
        qubits,
        bits,
        mode,
        chains,
        ops,
    } = raw;
    Ok(Program::of(alloc, machine, qubits, bits, mode, chains, ops)?)
}
