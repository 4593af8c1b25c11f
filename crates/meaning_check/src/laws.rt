//! What holds of verdicts. Each function does nothing: its contract is the law.

ghost use Rattle.std.specs.Prelude.{◌≡◌, ◌↔◌};
ghost use Rattle.qccd_circuit.specs.Circuit.{CircuitData, IsCircuit};
ghost use Rattle.qccd_machine.specs.Machine.{MachineData};
ghost use Rattle.qccd_program.specs.Implements.{Implements};
ghost use Rattle.qccd_program.specs.Legal.{IsLegalProgram};
ghost use Rattle.qccd_program.specs.Program.{ProgramData};
ghost use Rattle.meaning_check.specs.Verdict.{IsVerdict};
ghost use Rattle.meaning_check.specs.declared.verdict.Verdict.{Verdict};
ghost use Rattle.meaning_check.specs.declared.verdict.Verdict.TheVariants.{Same};

/// A circuit and a program have exactly one verdict.
pub fn one_verdict()
    ensures there { (c : CircuitData) (p : ProgramData) → IsCircuit c → (v : Verdict) × IsVerdict c p v }
    ensures unique { (c : CircuitData) (p : ProgramData) (v w : Verdict) → IsVerdict c p v → IsVerdict c p w → v ≡ w }
{}

/// A legal program of a machine is the same exactly where it implements the circuit on it.
pub fn same_implements()
    ensures { (c : CircuitData) (p : ProgramData) (m : MachineData) → IsLegalProgram p → p.machine ≡ m → IsVerdict c p Same ↔ Implements p c m }
{}
