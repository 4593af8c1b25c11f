//! Worked examples of what the definitions say. Each function does nothing: its contract is the example.

ghost use Rattle.std.specs.Prelude.{◌≡◌, ◌/◌, ◌∷◌, [], codes, map};
ghost use Rattle.std.specs.Fn.{iterate};
ghost use Rattle.std.specs.List.{range_with_len};
ghost use Rattle.qccd_base.specs.Names.{qubit};
ghost use Rattle.qccd_circuit.specs.Example.{cx_on, h_on};
ghost use Rattle.rehearsal.specs.Draws.{next};
ghost use Rattle.rehearsal.specs.Generated.{generated, plain_gate};

use qccd_circuit::ItemKind;

/// The first ten draws from 1, before a bound reduces them.
pub fn first_draws()
    ensures { map (λ k. iterate next k 1 / 65536) (range_with_len 1 10)
        ≡ 16838 ∷ 5758 ∷ 10113 ∷ 17515 ∷ 31051 ∷ 5627 ∷ 23010 ∷ 7419 ∷ 16212 ∷ 4086 ∷ [] }
{}

/// Four items on three qubits, from these ten draws.
pub fn four_items()
    ensures { generated 1 3 4 ≡ record {
      qubits = 3;
      bits = 0;
      items = cx_on 1 2 ∷ plain_gate ItemKind.Gate1 (codes "x") (qubit 1 ∷ []) ∷ cx_on 0 2 ∷ h_on 0 ∷ [];
    } }
{}

/// On one qubit each item takes two draws: the kinds are 16838, 10113, 31051 and 23010 modulo 3, which are 2, 0, 1
/// and 0, and 2 is `x`.
pub fn on_one_qubit()
    ensures { (generated 1 1 4).items ≡ plain_gate ItemKind.Gate1 (codes "x") (qubit 0 ∷ []) ∷ h_on 0
        ∷ plain_gate ItemKind.Gate1 (codes "x") (qubit 0 ∷ []) ∷ h_on 0 ∷ [] }
{}

/// On two qubits the other one is drawn below 1, and takes its draw all the same: the kinds are 16838 and 17515
/// modulo 3, which are 2 and 1, and the qubits 5758 and 31051 modulo 2, which are 0 and 1.
pub fn on_two_qubits()
    ensures { (generated 1 2 2).items ≡ cx_on 0 1 ∷ plain_gate ItemKind.Gate1 (codes "x") (qubit 1 ∷ []) ∷ [] }
{}
