//! Worked examples over the definitions, each a function whose contract is the fact.
#![tactic(auto, unfolding(crate::specs::Placement::chains_at_start))]

ghost use Rattle.std.specs.Prelude.{◌≡◌, [], ◌∷◌};
ghost use Rattle.qccd_circuit.specs.declared.kinds.ItemKind.TheVariants.{Barrier};
ghost use Rattle.std.specs.Prelude.{codes};
ghost use Rattle.qccd_machine.specs.Preset.{preset_of, single};
ghost use Rattle.qccd_machine.specs.declared.place.Preset.TheVariants as preset;
ghost use Rattle.ion_mapping.specs.Circuits.{circuit_of, cx_on, eleven, h_on, ions, item_on, toffoli_begins, x_on};
ghost use Rattle.ion_mapping.specs.Placement.{by_use, firsts, chains_at_start, spared};

/// Eleven qubits on six traps of two: no place can be spared, and the one that is left free is at the far end.
pub fn eleven_on_a_line()
    ensures spared { spared (preset_of preset.L6 2) 11 ≡ 0 }
    ensures chains { chains_at_start (eleven 0) (preset_of preset.L6 2) ≡ ions (0 ∷ 1 ∷ []) ∷ ions (2 ∷ 3 ∷ []) ∷ ions (4 ∷ 5 ∷ []) ∷ ions (6 ∷ 7 ∷ []) ∷ ions (8 ∷ 9 ∷ []) ∷ ions (10 ∷ []) ∷ [] }
{}

/// Four qubits on six traps of five: two places are spared in each trap, so the first takes three.
pub fn four_on_a_line()
    ensures spared { spared (preset_of preset.L6 5) 4 ≡ 2 }
    ensures chains { chains_at_start (circuit_of 4 (cx_on 0 1 ∷ x_on 2 ∷ cx_on 0 3 ∷ [])) (preset_of preset.L6 5) ≡ ions (0 ∷ 1 ∷ 2 ∷ []) ∷ ions (3 ∷ []) ∷ [] ∷ [] ∷ [] ∷ [] ∷ [] }
{}

/// Eleven qubits on the grid of traps of four: two in each trap but the last.
pub fn eleven_on_the_grid()
    ensures spared { spared (preset_of preset.G2x3 4) 11 ≡ 2 }
    ensures chains { chains_at_start (eleven 1) (preset_of preset.G2x3 4) ≡ ions (0 ∷ 1 ∷ []) ∷ ions (2 ∷ 3 ∷ []) ∷ ions (4 ∷ 5 ∷ []) ∷ ions (6 ∷ 7 ∷ []) ∷ ions (8 ∷ 9 ∷ []) ∷ ions (10 ∷ []) ∷ [] }
{}

/// A doubly controlled not begins with its last qubit, so that one stands first.
pub fn in_the_order_of_use()
    ensures chains { chains_at_start toffoli_begins (single 3) ≡ ions (2 ∷ 1 ∷ 0 ∷ []) ∷ [] }
    ensures unused { by_use (circuit_of 5 (cx_on 3 1 ∷ x_on 1 ∷ [])) ≡ 3 ∷ 1 ∷ 0 ∷ 2 ∷ 4 ∷ [] }
    ensures barriers { by_use (circuit_of 3 (item_on Barrier (codes "barrier") (2 ∷ 0 ∷ []) ∷ h_on 1 ∷ [])) ≡ 2 ∷ 0 ∷ 1 ∷ [] }
    ensures firsts { firsts (3 ∷ 1 ∷ 3 ∷ 0 ∷ 1 ∷ 2 ∷ []) ≡ 3 ∷ 1 ∷ 0 ∷ 2 ∷ [] }
{}

/// Two qubits in traps of three stand apart, since two places are spared where that is enough.
pub fn places_are_spared()
    ensures two { chains_at_start (circuit_of 2 []) (preset_of preset.L6 3) ≡ ions (0 ∷ []) ∷ ions (1 ∷ []) ∷ [] ∷ [] ∷ [] ∷ [] ∷ [] }
    ensures one { spared (preset_of preset.L6 3) 7 ≡ 1 }
    ensures none { spared (preset_of preset.L6 3) 13 ≡ 0 }
{}

/// Each trap takes one ion at least, so in traps of two a second place is spared while that is enough.
pub fn one_in_each_trap()
    ensures chains { chains_at_start (circuit_of 3 []) (preset_of preset.L6 2) ≡ ions (0 ∷ []) ∷ ions (1 ∷ []) ∷ ions (2 ∷ []) ∷ [] ∷ [] ∷ [] ∷ [] }
    ensures none { chains_at_start (circuit_of 0 []) (single 2) ≡ [] ∷ [] }
{}
