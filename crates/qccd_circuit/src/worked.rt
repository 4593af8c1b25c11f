//! Worked examples of what the definitions say. Each function does nothing: its contract is the example.

ghost use Rattle.std.specs.Prelude.{◌≡◌, ◌∷◌, [], IsTrue, codes, false, replicate};
ghost use Rattle.qccd_circuit.specs.Example.{barrier_over, bits_are_one, cx_on, five_items, h_on, h_under, measure_into, reset_of, three_gates};
ghost use Rattle.qccd_circuit.specs.Item.{AreAngles, Fits, IsCond, IsName};
ghost use Rattle.qccd_circuit.specs.Operands.{operands_of};
ghost use Rattle.qccd_circuit.specs.Order.{SameOrder};
ghost use Rattle.qccd_circuit.specs.Sharing.{shares};

use crate::kinds::ItemKind;

/// Gates fit as they are written most often, and a measurement does.
pub fn usual_items_fit()
    ensures h { Fits (h_on 0) }
    ensures cx { Fits (cx_on 0 1) }
    ensures measure { Fits (measure_into 0 0) }
    ensures conditional { Fits (h_under 0 2 4) }
{}

/// A gate on two copies of one qubit does not fit.
pub fn twice_one_qubit_does_not_fit()
    ensures { Fits (cx_on 1 1) → ⊥ }
{}

/// A name begins with a letter, goes on with letters, digits and underscores, and has at most 64 bytes.
pub fn which_names_fit()
    ensures usual { IsName (codes "u_3X") }
    ensures longest { IsName (replicate 64 104) }
    ensures longer { IsName (replicate 65 104) → ⊥ }
    ensures none { IsName [] → ⊥ }
    ensures digit_first { IsName (codes "3h") → ⊥ }
    ensures underscore_first { IsName (codes "_h") → ⊥ }
    ensures dash { IsName (codes "h-") → ⊥ }
{}

/// There are at most 16 angles, each of 1 to 1,024 bytes from 33 to 126 other than the comma.
pub fn which_angles_fit()
    ensures most { AreAngles (replicate 16 (codes "pi/2")) }
    ensures more { AreAngles (replicate 17 (codes "pi/2")) → ⊥ }
    ensures longest { AreAngles (replicate 1024 55 ∷ []) }
    ensures longer { AreAngles (replicate 1025 55 ∷ []) → ⊥ }
    ensures empty { AreAngles ([] ∷ []) → ⊥ }
    ensures ends { AreAngles (codes "!~" ∷ []) }
    ensures comma { AreAngles (codes "1,2" ∷ []) → ⊥ }
    ensures space { AreAngles (codes "1 2" ∷ []) → ⊥ }
    ensures delete { AreAngles ((127 ∷ []) ∷ []) → ⊥ }
{}

/// A condition has a bit, and no bit above the last number of a bit.
pub fn which_conditions_fit()
    ensures last { IsCond (bits_are_one 65535 1) }
    ensures past { IsCond (bits_are_one 65535 2) → ⊥ }
    ensures none { IsCond (bits_are_one 3 0) → ⊥ }
{}

/// A gate acts on as many qubits as its kind says, on no bit, and has a name of its own.
pub fn which_gates_fit()
    ensures two_for_one { Fits (record (cx_on 0 1) { kind = ItemKind.Gate1 }) → ⊥ }
    ensures one_for_two { Fits (record (h_on 0) { kind = ItemKind.Gate2 }) → ⊥ }
    ensures one_with_bit { Fits (record (measure_into 0 0) { kind = ItemKind.Gate1; name = codes "h" }) → ⊥ }
    ensures named_reset { Fits (record (h_on 0) { name = codes "reset" }) → ⊥ }
    ensures named_barrier { Fits (record (cx_on 0 1) { name = codes "barrier" }) → ⊥ }
    ensures named_measure { Fits (record (cx_on 0 1) { name = codes "measure" }) → ⊥ }
{}

/// A measurement has its name, one qubit, one bit and no angles.
pub fn which_measurements_fit()
    ensures name { Fits (record (measure_into 0 0) { name = codes "h" }) → ⊥ }
    ensures qubits { Fits (record (measure_into 0 0) { qubits = (cx_on 0 1).qubits }) → ⊥ }
    ensures bits { Fits (record (measure_into 0 0) { bits = [] }) → ⊥ }
    ensures angles { Fits (record (measure_into 0 0) { angles = codes "0" ∷ [] }) → ⊥ }
{}

/// A reset has its name, one qubit, no bits and no angles.
pub fn which_resets_fit()
    ensures fits { Fits (reset_of 0) }
    ensures name { Fits (record (reset_of 0) { name = codes "h" }) → ⊥ }
    ensures qubits { Fits (record (reset_of 0) { qubits = (cx_on 0 1).qubits }) → ⊥ }
    ensures bits { Fits (record (reset_of 0) { bits = (measure_into 0 0).bits }) → ⊥ }
    ensures angles { Fits (record (reset_of 0) { angles = codes "0" ∷ [] }) → ⊥ }
{}

/// A barrier has its name, a qubit at least, no bits, no angles and no condition.
pub fn which_barriers_fit()
    ensures fits { Fits (barrier_over (cx_on 2 0).qubits) }
    ensures name { Fits (record (barrier_over (h_on 0).qubits) { name = codes "h" }) → ⊥ }
    ensures qubits { Fits (barrier_over []) → ⊥ }
    ensures bits { Fits (record (barrier_over (h_on 0).qubits) { bits = (measure_into 0 0).bits }) → ⊥ }
    ensures angles { Fits (record (barrier_over (h_on 0).qubits) { angles = codes "0" ∷ [] }) → ⊥ }
    ensures cond { Fits (record (barrier_over (h_on 0).qubits) { cond = bits_are_one 0 1 }) → ⊥ }
{}

/// Items share by a qubit of both, and by a bit of both, whether they write it or read it.
pub fn common_words_share()
    ensures qubit { IsTrue (shares (h_on 0) (cx_on 0 1)) }
    ensures written { IsTrue (shares (measure_into 0 2) (measure_into 1 2)) }
    ensures read { IsTrue (shares (measure_into 0 2) (h_under 1 1 4)) }
{}

/// Items with no qubit and no bit in common don't share.
pub fn other_words_do_not_share()
    ensures qubits { shares (h_on 0) (h_on 1) ≡ false }
    ensures bits { shares (measure_into 0 0) (h_under 1 1 4) ≡ false }
{}

/// The operands of an item are its qubits, the bits that it writes and those that its condition reads.
pub fn conditions_read_operands()
    ensures measured { operands_of (record (measure_into 3 2) { cond = bits_are_one 4 1 }) ≡ 6 ∷ 5 ∷ 9 ∷ [] }
    ensures read { operands_of (h_under 1 2 3) ≡ 2 ∷ 5 ∷ 7 ∷ 9 ∷ [] }
{}

/// Two gates on different qubits may change places before a gate on both.
pub fn gates_apart_change_places()
    ensures { SameOrder three_gates (1 ∷ 0 ∷ 2 ∷ []) }
{}

/// The gate on both qubits may not come before the gates that it follows.
pub fn sharing_gates_do_not()
    ensures { SameOrder three_gates (2 ∷ 0 ∷ 1 ∷ []) → ⊥ }
{}

/// No gate may be left out, and none may come twice.
pub fn each_gate_comes_once()
    ensures left_out { SameOrder three_gates (0 ∷ 1 ∷ []) → ⊥ }
    ensures twice { SameOrder three_gates (0 ∷ 1 ∷ 2 ∷ 2 ∷ []) → ⊥ }
    ensures instead { SameOrder three_gates (0 ∷ 0 ∷ 2 ∷ []) → ⊥ }
{}

/// A gate that shares with none may come anywhere. A gate under a bit may not come before the measurement
/// into that bit, and no gate may pass a barrier over its qubit.
pub fn bits_and_barriers_keep_their_order()
    ensures apart { SameOrder five_items (4 ∷ 0 ∷ 1 ∷ 2 ∷ 3 ∷ []) }
    ensures bit { SameOrder five_items (1 ∷ 0 ∷ 2 ∷ 3 ∷ 4 ∷ []) → ⊥ }
    ensures barrier { SameOrder five_items (0 ∷ 1 ∷ 3 ∷ 2 ∷ 4 ∷ []) → ⊥ }
{}
