//! What holds of the definitions. Each function does nothing: its contract is the law.

ghost use Rattle.std.specs.Prelude.{◌≡◌, ◌≤◌, ℕ, length};
ghost use Rattle.qccd_circuit.specs.Circuit.{IsCircuit};
ghost use Rattle.rehearsal.specs.Generated.{generated};

/// What is generated is a circuit, of as many items as are asked for.
pub fn is_a_circuit()
    ensures circuit { (number qubits items : ℕ) → 1 ≤ qubits → qubits ≤ 256 → items ≤ 65536 → IsCircuit (generated number qubits items) }
    ensures items { (number qubits items : ℕ) → length (generated number qubits items).items ≡ items }
{}
