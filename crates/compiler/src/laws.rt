//! What holds of chosen programs. Each function does nothing: its contract is the law.

ghost use Rattle.std.specs.Prelude.{◌≡◌, ◌≤◌, ◌<◌, ◌+◌, ◌*◌, ℕ, IsTrue, Some, length, map};
ghost use Rattle.std.specs.List.{AllByRecursion};
ghost use Rattle.qccd_base.specs.declared.names.Mode.{Mode};
ghost use Rattle.qccd_circuit.specs.Circuit.{CircuitData, IsCircuit};
ghost use Rattle.qccd_machine.specs.Machine.{MachineData, IsValid, slots_of, worst_of};
ghost use Rattle.op_table.specs.Run.{items_in};
ghost use Rattle.qccd_program.specs.Implements.{Implements};
ghost use Rattle.qccd_program.specs.Legal.{IsLegalProgram};
ghost use Rattle.compiler.specs.Chosen.{chosen, chosen_first, chosen_long, picked, IsTooLong};
ghost use Rattle.qccd_program.specs.Mode.{is_of_mode};

/// The chosen program of a circuit within a machine's slots implements the circuit, its items in the order in
/// which they are picked. With no more operations than a program may have it is legal.
pub fn chosen_implements()
    ensures implements { (c : CircuitData) (m : MachineData) (mode : Mode) → IsCircuit c → IsValid m → c.qubits ≤ slots_of m → Implements (chosen c m mode) c m }
    ensures in_order { (c : CircuitData) (m : MachineData) (mode : Mode) → IsCircuit c → IsValid m → c.qubits ≤ slots_of m → map (λ e. e.0) (items_in (chosen c m mode).ops) ≡ picked c m mode }
    ensures legal { (c : CircuitData) (m : MachineData) (mode : Mode) → IsCircuit c → IsValid m → c.qubits ≤ slots_of m → length (chosen c m mode).ops ≤ 4194304 → IsLegalProgram (chosen c m mode) }
{}

/// No item takes more operations than the bound for one. So a program is too long only where the bounds of all
/// items together exceed what a program may have.
pub fn items_are_short()
    ensures each { (c : CircuitData) (m : MachineData) (mode : Mode) (count : ℕ) → IsCircuit c → IsValid m → c.qubits ≤ slots_of m → chosen_long c m mode (count + 1) ≤ chosen_long c m mode count + worst_of m }
    ensures all { (c : CircuitData) (m : MachineData) (mode : Mode) (count : ℕ) → IsCircuit c → IsValid m → c.qubits ≤ slots_of m → chosen_long c m mode count ≤ count * worst_of m }
    ensures too_long { (c : CircuitData) (m : MachineData) (mode : Mode) (done ops : ℕ) → IsCircuit c → IsValid m → c.qubits ≤ slots_of m → IsTooLong c m mode done ops → 4194304 < length c.items * worst_of m }
{}

/// Each operation that is chosen is of the mode.
pub fn chosen_of_mode()
    ensures { (c : CircuitData) (m : MachineData) (mode : Mode) (count : ℕ) → AllByRecursion (λ op. IsTrue (is_of_mode (Some mode) op)) (chosen_first c m mode count).ops }
{}
