//! Worked examples over the definitions, each a function whose contract is the fact.

ghost use Rattle.std.specs.Prelude.{◌≡◌, [], ◌∷◌, codes};
ghost use Rattle.qccd_base.specs.Names.{qubit, trap, segment, junction};
ghost use Rattle.qccd_base.specs.declared.names.End.TheVariants.{Left, Right};
ghost use Rattle.qccd_circuit.specs.Example.{barrier_over, cx_on, h_on, measure_into, reset_of};
ghost use Rattle.op_table.specs.declared.kinds.OpKind.TheVariants.{Split, Move, Enter, Leave, Merge, Rot, GSwap, Item, Fence};
ghost use Rattle.op_text.specs.OpText.{op_text};
ghost use Rattle.op_text.specs.Example.{turned, under};

/// An ion leaves a chain, and joins one, at either end.
pub fn splits_and_merges()
    ensures split_left { op_text (Split (trap 3) Left (segment 12)) ≡ codes "split T3 left S12" }
    ensures split_right { op_text (Split (trap 10) Right (segment 0)) ≡ codes "split T10 right S0" }
    ensures merge_left { op_text (Merge (segment 12) (trap 3) Left) ≡ codes "merge S12 T3 left" }
    ensures merge_right { op_text (Merge (segment 0) (trap 10) Right) ≡ codes "merge S0 T10 right" }
{}

/// An ion goes along a segment, into a junction and out of it.
pub fn moves()
    ensures along { op_text (Move (segment 127)) ≡ codes "move S127" }
    ensures into { op_text (Enter (segment 12) (junction 7)) ≡ codes "enter S12 J7" }
    ensures out_of { op_text (Leave (junction 7) (segment 12)) ≡ codes "leave J7 S12" }
{}

/// Two ions of a chain exchange their places, or their qubits.
pub fn exchanges()
    ensures ions { op_text (Rot (trap 3) 4) ≡ codes "rot T3 4" }
    ensures qubits { op_text (GSwap (trap 3) 0 15) ≡ codes "gswap T3 0 15" }
{}

/// A gate names its qubits in their order, each with its position, and its angles where it has any.
pub fn gates()
    ensures one { op_text (Item 65535 (trap 3) (h_on 200) (1 ∷ [])) ≡ codes "item 65535 h T3 q200@1" }
    ensures two { op_text (Item 12 (trap 31) (cx_on 10 2) (4 ∷ 0 ∷ [])) ≡ codes "item 12 cx T31 q10@4 q2@0" }
    ensures angles { op_text (Item 9 (trap 1) (turned 0) (2 ∷ [])) ≡ codes "item 9 u3(pi/2,0,-pi) T1 q0@2" }
{}

/// A measurement names its bit at the end, and a reset has none.
pub fn measurement_and_reset()
    ensures measure { op_text (Item 7 (trap 0) (measure_into 3 5) (2 ∷ [])) ≡ codes "item 7 measure T0 q3@2 b5" }
    ensures reset { op_text (Item 4 (trap 2) (reset_of 1) (0 ∷ [])) ≡ codes "item 4 reset T2 q1@0" }
{}

/// A condition comes last: its first bit, how many there are, and their value.
pub fn conditions()
    ensures gate { op_text (Item 1 (trap 1) (under (h_on 1) 0 2 2) (0 ∷ [])) ≡ codes "item 1 h T1 q1@0 if b0 2 2" }
    ensures two { op_text (Item 2 (trap 0) (under (cx_on 0 1) 3 4 9) (0 ∷ 1 ∷ [])) ≡ codes "item 2 cx T0 q0@0 q1@1 if b3 4 9" }
    ensures measure { op_text (Item 7 (trap 0) (under (measure_into 3 5) 65535 1 0) (2 ∷ [])) ≡ codes "item 7 measure T0 q3@2 b5 if b65535 1 0" }
{}

/// A fence names its traps, and then its qubits in their order.
pub fn fences()
    ensures { op_text (Fence 40 (barrier_over (qubit 5 ∷ qubit 0 ∷ qubit 9 ∷ [])) (trap 0 ∷ trap 2 ∷ []))
        ≡ codes "fence 40 T0 T2 q5 q0 q9" }
{}
