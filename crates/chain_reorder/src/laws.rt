//! What holds of reordering. Each function does nothing: its contract is the law.

ghost use Rattle.std.specs.Prelude.{◌≡◌, ◌≤◌, ◌<◌, ◌+◌, ◌-◌, ◌∷◌, ◌++◌, ℕ, List, length, true};
ghost use Rattle.qccd_base.specs.declared.names.End.{End};
ghost use Rattle.qccd_base.specs.declared.names.Mode.{Mode};
ghost use Rattle.qccd_base.specs.declared.names.Qubit.{Qubit};
ghost use Rattle.qccd_machine.specs.Machine.{MachineData};
ghost use Rattle.op_table.specs.State.{State};
ghost use Rattle.op_table.specs.Step.{has_trap};
ghost use Rattle.chain_reorder.specs.Ends.{BringsToEnd};
ghost use Rattle.chain_reorder.specs.Layout.{settled, with_at, Lies};
ghost use Rattle.chain_reorder.specs.Reorder.{to_end};

/// There are fewer operations than ions in the trap.
pub fn fewer_than_ions()
    ensures { (t n p : ℕ) (end : End) (mode : Mode) → p < n → length (to_end t n p end mode) ≤ n - 1 }
{}

/// Where nothing is outside the traps, the operations run and bring the qubit to that end. The others of
/// its chain stay in the trap, and all other chains are as they were.
pub fn brought_to_end()
    ensures { (m : MachineData) (s : State) (chains : ℕ → List Qubit) (t : ℕ) (q : Qubit) (front back : List Qubit) (end : End) (mode : Mode) → has_trap m t ≡ true → Lies s (settled (with_at t (front ++ q ∷ back) chains)) → BringsToEnd m s chains t end q (front ++ back) (to_end t (length front + 1 + length back) (length front) end mode) }
{}
