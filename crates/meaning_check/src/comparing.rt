//! The verdict on a program and a circuit.

ghost use Rattle.std.specs.Prelude.{IfOk};
ghost use Rattle.meaning_check.specs.Verdict.{IsVerdict};

use crate::items::{first_to_differ, least_missing};
use crate::overtaking::first_to_overtake;
use crate::verdict::Verdict;
use qccd_base::NoMemory;
use qccd_circuit::Circuit;
use qccd_program::Program;
use std::alloc::Global;

/// How the program stands to the circuit; of several answers that hold the first is given, in the order of
/// `Verdict`. The time grows with the operations and with the operands of the items.
pub fn compare(alloc: Global, circuit: &Circuit, program: &Program) -> Result<Verdict, NoMemory>
    ensures { IfOk result (λ verdict. IsVerdict circuit.now program.now verdict) }
{
    if circuit.qubits() != program.qubits() || circuit.bits() != program.bits() {
        return Ok(Verdict::Sizes);
    }
    let items = circuit.items();
    let ops = program.ops();
    if let Some((op, item)) = first_to_differ(items, ops) {
        return Ok(Verdict::Differs { op, item });
    }
    if let Some(item) = least_missing(alloc, items.len(), ops)? {
        return Ok(Verdict::Missing(item));
    }
    match first_to_overtake(ops) {
        None => Ok(Verdict::Same),
        Some((first, second)) => Ok(Verdict::Order { first, second }),
    }
}
