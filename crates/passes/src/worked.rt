//! Worked examples over the definitions, each a function whose contract is the fact.

ghost use Rattle.std.specs.Prelude.{◌≡◌, ◌∷◌, [], flat_map, map};
ghost use Rattle.qccd_base.specs.Line.{line};
ghost use Rattle.qccd_base.specs.Names.{junction, segment, trap};
ghost use Rattle.qccd_base.specs.declared.names.End.TheVariants.{Left};
ghost use Rattle.op_table.specs.declared.kinds.OpKind.TheVariants.{Enter, GSwap, Leave, Rot, Split};
ghost use Rattle.qccd_program.specs.Example.{exchange, two_gates_and_one};
ghost use Rattle.passes.specs.Cool.{cooled_run, cools_of};
ghost use Rattle.passes.specs.CooledText.{cooled_text};
ghost use Rattle.passes.specs.Example.{beside, cooled_lines, home, into, numbers_left, of_two_ions, out, out_again, over, turned, there_and_back, with_a_gate, with_a_gate_tidied, x_on_first};
ghost use Rattle.passes.specs.Tidy.{staying, tidied};

/// Two exchanges of the same ions go, and an ion that goes out and comes back stays where it is.
pub fn all_undone()
    ensures { tidied there_and_back ≡ of_two_ions (x_on_first ∷ []) }
{}

/// Nothing goes across a gate in the same trap, but what comes after the gate does.
pub fn a_gate_between()
    ensures left { tidied with_a_gate ≡ with_a_gate_tidied }
    ensures numbers { map (λ e. e.0) (staying with_a_gate.ops) ≡ 0 ∷ 1 ∷ 6 ∷ [] }
{}

/// A pair that stood round others goes once these are gone: exchanges round a way out and back, and the whole way
/// to the second trap and back, from its middle outwards.
pub fn pairs_in_pairs()
    ensures exchanges { numbers_left (turned ∷ out ∷ over ∷ over ∷ home ∷ turned ∷ []) ≡ [] }
    ensures way { numbers_left (out ∷ over ∷ into ∷ out_again ∷ over ∷ home ∷ []) ≡ [] }
    ensures inner { numbers_left (out ∷ turned ∷ turned ∷ home ∷ []) ≡ [] }
    ensures positions { numbers_left (turned ∷ Rot (trap 0) 1 ∷ Rot (trap 0) 1 ∷ turned ∷ []) ≡ [] }
{}

/// What shares one resource of two keeps a pair apart: a gate where the ion was taken, an exchange in the trap that
/// it left, an exchange at the next position.
pub fn pairs_kept_apart()
    ensures gate { numbers_left (out ∷ over ∷ into ∷ beside ∷ out_again ∷ over ∷ home ∷ []) ≡ 0 ∷ 1 ∷ 2 ∷ 3 ∷ 4 ∷ 5 ∷ 6 ∷ [] }
    ensures trap { numbers_left (out ∷ turned ∷ home ∷ []) ≡ 0 ∷ 1 ∷ 2 ∷ [] }
    ensures position { numbers_left (turned ∷ Rot (trap 0) 1 ∷ turned ∷ []) ≡ 0 ∷ 1 ∷ 2 ∷ [] }
    ensures segment { numbers_left (out ∷ over ∷ home ∷ over ∷ []) ≡ 0 ∷ 1 ∷ 2 ∷ 3 ∷ [] }
{}

/// Of three equal exchanges the first two go, and the third stays behind what was between them. What shares nothing
/// with a pair does not keep it apart.
pub fn first_pair_first()
    ensures three { numbers_left (turned ∷ beside ∷ turned ∷ beside ∷ turned ∷ []) ≡ 1 ∷ 3 ∷ 4 ∷ [] }
    ensures four { numbers_left (turned ∷ turned ∷ beside ∷ turned ∷ turned ∷ []) ≡ 2 ∷ [] }
    ensures moves { numbers_left (over ∷ over ∷ over ∷ over ∷ over ∷ []) ≡ 4 ∷ [] }
{}

/// An exchange of qubits is not undone by one of ions, nor at other positions, and a split at one end not by a merge at
/// the other.
pub fn not_undone()
    ensures kinds { numbers_left (exchange ∷ turned ∷ []) ≡ 0 ∷ 1 ∷ [] }
    ensures positions { numbers_left (exchange ∷ GSwap (trap 0) 0 2 ∷ GSwap (trap 0) 0 2 ∷ turned ∷ []) ≡ 0 ∷ 3 ∷ [] }
    ensures ends { numbers_left (Split (trap 0) Left (segment 0) ∷ home ∷ []) ≡ 0 ∷ 1 ∷ [] }
    ensures junctions { numbers_left (Enter (segment 0) (junction 0) ∷ Leave (junction 0) (segment 1) ∷ []) ≡ 0 ∷ 1 ∷ [] }
    ensures crossed { numbers_left (Enter (segment 0) (junction 0) ∷ Leave (junction 0) (segment 0) ∷ []) ≡ [] }
{}

/// A trap with a heat of 343 is cooled before its gate where the ceiling is 300, and is not where it is 343.
pub fn cooled_above_the_ceiling()
    ensures text { cooled_text two_gates_and_one 300 ≡ flat_map line cooled_lines }
    ensures at { cools_of (cooled_run two_gates_and_one 343) ≡ [] }
{}
