//! Worked examples of the definitions. Each function does nothing: its contract is the fact.

ghost use Rattle.std.specs.Prelude.{◌≡◌, ◌∷◌, []};
ghost use Rattle.qccd_base.specs.Names.{qubit, trap};
ghost use Rattle.qccd_base.specs.declared.names.End.TheVariants.{Left, Right};
ghost use Rattle.qccd_base.specs.declared.names.Mode.TheVariants.{GateSwap, IonSwap};
ghost use Rattle.op_table.specs.declared.kinds.OpKind.TheVariants.{GSwap, Rot};
ghost use Rattle.op_table.specs.Example.{hot_three};
ghost use Rattle.chain_reorder.specs.Reorder.{reorder_ops, to_end};

/// The ion at position 2 of the five in trap 3.
pub fn one_of_five()
    ensures left { to_end 3 5 2 Left IonSwap ≡ Rot (trap 3) 1 ∷ Rot (trap 3) 0 ∷ [] }
    ensures right { to_end 3 5 2 Right IonSwap ≡ Rot (trap 3) 2 ∷ Rot (trap 3) 3 ∷ [] }
    ensures left_at_once { to_end 3 5 2 Left GateSwap ≡ GSwap (trap 3) 0 2 ∷ [] }
    ensures right_at_once { to_end 3 5 2 Right GateSwap ≡ GSwap (trap 3) 2 4 ∷ [] }
{}

/// An ion at an end stays there.
pub fn at_its_end()
    ensures left { to_end 3 5 0 Left IonSwap ≡ [] }
    ensures right { to_end 3 5 4 Right IonSwap ≡ [] }
    ensures left_at_once { to_end 3 5 0 Left GateSwap ≡ [] }
    ensures right_at_once { to_end 3 5 4 Right GateSwap ≡ [] }
{}

/// Qubits 1, 2 and 0 are in the first trap.
pub fn of_a_state()
    ensures first { reorder_ops hot_three (qubit 1) Right IonSwap ≡ Rot (trap 0) 0 ∷ Rot (trap 0) 1 ∷ [] }
    ensures last { reorder_ops hot_three (qubit 0) Left GateSwap ≡ GSwap (trap 0) 0 2 ∷ [] }
{}
