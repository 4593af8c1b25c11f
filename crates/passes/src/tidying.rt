//! Takes operations that undo each other out of a program.

ghost use Rattle.std.specs.Prelude.{◌≡◌, ◌≤◌, ◌++◌, IfOk, OnOk, get_or, length, true};
ghost use Rattle.qccd_circuit.specs.Circuit.{CircuitData};
ghost use Rattle.qccd_machine.specs.Machine.{MachineData};
ghost use Rattle.qccd_program.specs.Implements.{Implements};
ghost use Rattle.qccd_program.specs.Program.{end_of};
ghost use Rattle.passes.specs.Kept.{FinishNoLater, SameStands};
ghost use Rattle.passes.specs.Stacks.{kept_one, left_in};
ghost use Rattle.passes.specs.Tidy.{IsTidy, tidied};

use crate::pairing::gone_ops;
use op_table::Op;
use qccd_base::NoMemory;
use qccd_program::Program;
use std::alloc::Global;

// Whether the operation of this number is marked.
fn is_gone(gone: &[bool], k: usize) -> bool
    ensures { result ≡ get_or gone.now k true }
{
    gone.get(k).copied().unwrap_or(true)
}

// Keeps the operation where it does not go. The copy shares its memory.
fn keep(op: &Op, gone: bool, left: &mut Vec<Op>) -> Result<(), NoMemory>
    ensures { OnOk result (left.new.items ≡ left.old.items ++ kept_one gone op.now) }
{
    if !gone {
        left.push(op.copy()?)?;
    }
    Ok(())
}

// The operations that are not marked, in their order.
fn left_ops(alloc: Global, ops: &[Op], gone: &[bool]) -> Result<Vec<Op>, NoMemory>
    ensures { IfOk result (λ left. left.items ≡ left_in gone.now ops.now) }
{
    let mut left = Vec::new(alloc);
    for (k, op) in ops.iter().enumerate() {
        keep(op, is_gone(gone, k), &mut left)?;
    }
    Ok(left)
}

// The program without the operations that undo each other.
fn without_pairs(alloc: Global, program: Program) -> Result<Program, NoMemory>
    ensures { IfOk result (λ p. p ≡ tidied program) }
{
    let gone = gone_ops(alloc, &program)?;
    let left = left_ops(alloc, program.ops(), gone.as_slice())?;
    let qubits = program.qubits();
    let bits = program.bits();
    let mode = program.mode();
    let (machine, start, _all) = program.into_parts();
    Program::of(alloc, machine, qubits, bits, mode, start, left)
}

/// The program without the operations that undo each other, or that memory ran out.
///
/// It implements what the program implements, and leaves the same places and bindings. It has no more operations,
/// each that stays finishes no later, and no two of them cancel. Nothing is said of heats.
pub fn tidy(alloc: Global, program: Program) -> Result<Program, NoMemory>
    ensures value { IfOk result (λ p. p ≡ tidied program) }
    ensures implements { IfOk result (λ p. (c : CircuitData) (m : MachineData) → Implements program c m → Implements p c m) }
    ensures ends { IfOk result (λ p. SameStands (end_of program) (end_of p)) }
    ensures few { IfOk result (λ p. length p.ops ≤ length program.ops) }
    ensures no_later { FinishNoLater program }
    ensures none_left { IfOk result (λ p. IsTidy p.ops) }
{
    let _ops = program.ops();
    without_pairs(alloc, program)
}
