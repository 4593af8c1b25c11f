//! What holds of every text. Each function does nothing: its contract is the law.

ghost use Rattle.std.specs.Prelude.{◌≡◌, ◌⊎◌, ℕ, List, All, None};
ghost use Rattle.qccd_circuit.specs.Circuit.{CircuitData, IsCircuit};
ghost use Rattle.qasm_reader.specs.declared.fault.QasmKind.{QasmKind};
ghost use Rattle.qasm_reader.specs.Reading.{IsCircuitOf, IsRefusedAt};

/// Each text is that of a circuit, or it is refused.
pub fn every_text()
    ensures { (text : List ℕ) → ((c : CircuitData) × IsCircuitOf text c) ⊎ ((at : ℕ) × (kind : QasmKind) × IsRefusedAt text at kind) }
{}

/// A text is that of one circuit at most.
pub fn one_circuit()
    ensures { (text : List ℕ) (c d : CircuitData) → IsCircuitOf text c → IsCircuitOf text d → c ≡ d }
{}

/// A text is refused in one way at most.
pub fn one_refusal()
    ensures { (text : List ℕ) (at other : ℕ) (kind another : QasmKind) → IsRefusedAt text at kind → IsRefusedAt text other another → (at ≡ other) × (kind ≡ another) }
{}

/// No text is that of a circuit and refused.
pub fn not_both()
    ensures { (text : List ℕ) (c : CircuitData) (at : ℕ) (kind : QasmKind) → IsCircuitOf text c → IsRefusedAt text at kind → ⊥ }
{}

/// The circuit of a text keeps the rule of circuits: its items fit and are on qubits and bits that it has, and there
/// are not too many of anything.
pub fn keeps_the_rule()
    ensures { (text : List ℕ) (c : CircuitData) → IsCircuitOf text c → IsCircuit c }
{}

/// No item of the circuit of a text is conditional.
pub fn no_conditions()
    ensures { (text : List ℕ) (c : CircuitData) → IsCircuitOf text c → All (λ d. d.cond ≡ None) c.items }
{}
