//! What holds of a placement. Each function does nothing: its contract is the law.

ghost use Rattle.std.specs.Prelude.{◌≡◌, ◌≤◌, ◌==◌, nat_lt, if◌then◌else◌, ℕ, [], length, get_or, count_by, flat_map, sum};
ghost use Rattle.qccd_circuit.specs.Circuit.{CircuitData, IsCircuit};
ghost use Rattle.qccd_machine.specs.Machine.{MachineData, IsValid, slots_of};
ghost use Rattle.ion_mapping.specs.Placement.{by_use, chains_at_start};

/// A placement has one chain for each trap, within its capacity, and each ion below the number of qubits in one
/// place and no other ion. So a program may start from it.
pub fn placed_is_a_start()
    ensures chains { (c : CircuitData) (m : MachineData) → length (chains_at_start c m) ≡ length m.capacities }
    ensures capacities { (c : CircuitData) (m : MachineData) (t : ℕ) → IsValid m → length (get_or (chains_at_start c m) t []) ≤ get_or m.capacities t 0 }
    ensures once { (c : CircuitData) (m : MachineData) (i : ℕ) → IsCircuit c → c.qubits ≤ sum m.capacities → count_by (λ x. x.0 == i) (flat_map (λ chain. chain) (chains_at_start c m)) ≡ (if nat_lt i c.qubits then 1 else 0) }
{}

/// What a machine takes is no more than its traps hold, so a circuit within its slots has a placement.
pub fn slots_within_capacities()
    ensures { (m : MachineData) → slots_of m ≤ sum m.capacities }
{}

/// Each qubit stands once in the order of first use.
pub fn each_qubit_once()
    ensures { (c : CircuitData) (k : ℕ) → IsCircuit c → count_by (λ n. n == k) (by_use c) ≡ (if nat_lt k c.qubits then 1 else 0) }
{}
