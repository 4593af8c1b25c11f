//! Worked examples over the definitions, each a function whose contract is the fact.

ghost use Rattle.std.specs.Prelude.{◌≡◌, ◌∷◌, [], None, Some, false, true};
ghost use Rattle.qccd_base.specs.Names.{segment, trap};
ghost use Rattle.qccd_base.specs.declared.names.Mode.TheVariants.{GateSwap, IonSwap};
ghost use Rattle.qccd_base.specs.declared.names.Res.TheVariants as res;
ghost use Rattle.op_table.specs.declared.contents.Content.TheVariants as holds;
ghost use Rattle.op_table.specs.declared.kinds.OpKind.TheVariants as does;
ghost use Rattle.op_table.specs.Touch.{nth, total};
ghost use Rattle.qccd_program.specs.CellOfRun.{cell_at, firsts};
ghost use Rattle.qccd_program.specs.Example.{before_the_split, done, eight_ops, first_at_the_end, second_at_the_end, two_gates_and_one};
ghost use Rattle.qccd_program.specs.Legal.{IsLegalProgram};
ghost use Rattle.qccd_program.specs.Mode.{is_of_mode};

/// The program is legal.
pub fn example_is_legal()
    ensures { IsLegalProgram two_gates_and_one }
{}

/// Four operations touch the first trap before the split, which is number 4, and the split is one more.
/// The merge is the second that touches the second trap's segment after the split.
pub fn turns_of_the_example()
    ensures split { nth eight_ops 4 (res.Trap (trap 0)) ≡ 4 }
    ensures all { total eight_ops (res.Trap (trap 0)) ≡ 5 }
    ensures merge { nth eight_ops 6 (res.Seg (segment 0)) ≡ 2 }
    ensures none { nth eight_ops 6 (res.Trap (trap 1)) ≡ 0 }
{}

/// What the resources hold at some turns of the example, since when, and what was done at them: the merge
/// touches the segment, and is noted at its trap alone.
pub fn cells_of_the_example()
    ensures split { cell_at two_gates_and_one (res.Trap (trap 0)) 4 ≡ before_the_split }
    ensures first { cell_at two_gates_and_one (res.Trap (trap 0)) 5 ≡ first_at_the_end }
    ensures second { cell_at two_gates_and_one (res.Trap (trap 1)) 2 ≡ second_at_the_end }
    ensures segment { cell_at two_gates_and_one (res.Seg (segment 0)) 3 ≡ record { content = holds.Seg None; clock = 670; log = done 5 585 590 ∷ [] } }
    ensures firsts { firsts eight_ops (res.Seg (segment 0)) ≡ 1 }
{}

/// A program of mode ion has no exchange by a gate, one of mode gate no rotation of two ions. One that names
/// no mode may have both.
pub fn modes_of_operations()
    ensures rot_in_ion { is_of_mode (Some IonSwap) (does.Rot (trap 0) 0) ≡ true }
    ensures gswap_in_ion { is_of_mode (Some IonSwap) (does.GSwap (trap 0) 0 1) ≡ false }
    ensures rot_in_gate { is_of_mode (Some GateSwap) (does.Rot (trap 0) 0) ≡ false }
    ensures gswap_in_gate { is_of_mode (Some GateSwap) (does.GSwap (trap 0) 0 1) ≡ true }
    ensures rot_in_none { is_of_mode None (does.Rot (trap 0) 0) ≡ true }
    ensures gswap_in_none { is_of_mode None (does.GSwap (trap 0) 0 1) ≡ true }
    ensures move_in_both { is_of_mode (Some GateSwap) (does.Move (segment 0)) ≡ true }
{}
