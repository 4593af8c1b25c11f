//! What holds of loading. Each function does nothing: its contract is the law.

ghost use Rattle.std.specs.Prelude.{◌≡◌, ◌≤◌, ◌↔◌, All, List, ℕ, length, None};
ghost use Rattle.std.specs.List.{AllByRecursion};
ghost use Rattle.qccd_circuit.specs.Circuit.{CircuitData, IsCircuit};
ghost use Rattle.qccd_machine.specs.Machine.{MachineData, IsValid};
ghost use Rattle.op_table.specs.Op.{IsOp, KeepsItemRule};
ghost use Rattle.qccd_program.specs.Implements.{Implements};
ghost use Rattle.qccd_program.specs.Legal.{IsLegalProgram};
ghost use Rattle.qccd_program.specs.Program.{ProgramData};
ghost use Rattle.transport_asm.specs.ProgramText.{program_text};
ghost use Rattle.transport_asm.specs.Texts.{RawData};
ghost use Rattle.loader.specs.Refusal.{on_machine, load_refusal};
ghost use Rattle.loader.specs.Written.{IsLoadedAs, IsPlain, TellsValue};

/// A raw program that keeps the limits is refused or is a legal program of the machine, and not both.
pub fn loads_what_is_legal()
    ensures { (m : MachineData) (raw : RawData) → raw.qubits ≤ 256 → raw.bits ≤ 256 → length raw.ops ≤ 4194304 → AllByRecursion IsOp raw.ops → AllByRecursion KeepsItemRule raw.ops
        → (load_refusal m raw ≡ None) ↔ IsLegalProgram (on_machine m raw) }
{}

/// On a valid machine a text is loaded as a program exactly where it is the text of that program, the program is
/// legal, and each of its items has a number within the limit, and a value of 128 bits in its condition. So reading
/// and loading what was written gives the program back.
pub fn loads_what_was_written()
    ensures { (p : ProgramData) (text : List ℕ) → IsValid p.machine
        → IsLoadedAs p.machine text p ↔ ((text ≡ program_text p) × IsLegalProgram p × AllByRecursion IsPlain p.ops) }
{}

/// A text is loaded as one program of a machine at most.
pub fn loads_one_program()
    ensures { (m : MachineData) (text : List ℕ) (p q : ProgramData) → IsLoadedAs m text p → IsLoadedAs m text q → p ≡ q }
{}

/// A program that implements a circuit whose conditions have values of 128 bits does only items of which a text
/// tells all.
pub fn items_of_circuits()
    ensures { (p : ProgramData) (c : CircuitData) (m : MachineData) → IsCircuit c → All (λ d. TellsValue d.cond) c.items → Implements p c m → AllByRecursion IsPlain p.ops }
{}
