//! What holds of the definitions. Each function does nothing: its contract is the law.

ghost use Rattle.std.specs.Prelude.{◌≡◌, ◌≤◌, ◌∷◌, ◌++◌, Bool, false, replicate, set, suc, ℕ, List, [], length, reverse, None, Some, slice_get, true};
ghost use Rattle.std.specs.List.{AllByRecursion, enumerate_from};
ghost use Rattle.qccd_circuit.specs.Circuit.{CircuitData};
ghost use Rattle.qccd_machine.specs.Machine.{MachineData};
ghost use Rattle.op_table.specs.declared.kinds.OpKind.{OpKind};
ghost use Rattle.op_table.specs.Op.{IsOp};
ghost use Rattle.op_table.specs.Run.{items_in};
ghost use Rattle.op_table.specs.State.{State, IsSafe};
ghost use Rattle.op_table.specs.Step.{effect, why};
ghost use Rattle.qccd_program.specs.Implements.{Implements};
ghost use Rattle.qccd_program.specs.Legal.{IsLegalProgram};
ghost use Rattle.qccd_program.specs.Program.{ProgramData, opening_of, end_of};
ghost use Rattle.passes.specs.Cool.{BeginCool, cooled_end, operations_in, tasks};
ghost use Rattle.passes.specs.Kept.{FinishNoLater, SameStands};
ghost use Rattle.op_table.specs.Touch.{touches};
ghost use Rattle.op_cells.specs.Numbering.{count_of, IsThere};
ghost use Rattle.passes.specs.Stacks.{AreStacks, IsPartner, kept_in, partner_of, popped, pushed, SweptTo};
ghost use Rattle.passes.specs.Tidy.{first_removed, IsTidy, IsWithoutFirst, kinds, left_by, Numbered, staying, tidied};
ghost use Rattle.passes.specs.Swept.{Cancels, swept};
ghost use Rattle.passes.specs.Undo.{undoes};

/// Two operations that undo each other, done one after the other, leave the places and bindings as they were.
pub fn undone_in_turn()
    ensures { (m : MachineData) (s : State) (a b : OpKind) → IsSafe m s → IsOp a → IsOp b → why m s a ≡ None → why m (effect m s a) b ≡ None → undoes a b ≡ true → SameStands (effect m (effect m s a) b) s }
{}

/// What is left of a legal program is legal. It implements what the program implements, with the same items in the same
/// order, leaves the same places and bindings, and has no more operations.
pub fn tidied_does_the_same()
    ensures legal { (p : ProgramData) → IsLegalProgram p → IsLegalProgram (tidied p) }
    ensures implements { (p : ProgramData) (c : CircuitData) (m : MachineData) → IsLegalProgram p → Implements p c m → Implements (tidied p) c m }
    ensures ends { (p : ProgramData) → IsLegalProgram p → SameStands (end_of p) (end_of (tidied p)) }
    ensures items { (p : ProgramData) → IsLegalProgram p → items_in (tidied p).ops ≡ items_in p.ops }
    ensures few { (p : ProgramData) → IsLegalProgram p → length (tidied p).ops ≤ length p.ops }
{}

/// Each operation that stays finishes no later than it did.
pub fn no_later()
    ensures { (p : ProgramData) → FinishNoLater p }
{}

/// No two of the operations that stay cancel.
pub fn nothing_left_to_cancel()
    ensures { (ops : List OpKind) → IsTidy (kinds (staying ops)) }
{}

/// Of all pairs that cancel the one goes first whose second operation has the least number; where none goes, no two
/// operations cancel.
pub fn first_pair_goes()
    ensures goes { (ops left : List Numbered) → first_removed [] ops ≡ Some left → IsWithoutFirst ops left }
    ensures none { (ops : List Numbered) → first_removed [] ops ≡ None → IsTidy (kinds ops) }
{}

/// One pass over the operations finds those that stay.
pub fn found_in_one_pass()
    ensures { (ops : List OpKind) → staying ops ≡ reverse (swept [] (enumerate_from 0 ops)) }
{}

/// Where hot traps are cooled before gates, no two-qubit gate and no exchange of qubits begins in a trap with a heat above
/// the ceiling, and each trap that is cooled had one. The places and bindings at the end are the program's, and so are
/// the operations, each once and in order.
pub fn cooled_before_gates()
    ensures cool { (m : MachineData) (ceiling : ℕ) (s : State) (ops : List OpKind) → BeginCool m ceiling s ops }
    ensures ends { (p : ProgramData) (ceiling : ℕ) → IsLegalProgram p → SameStands (cooled_end p ceiling) (end_of p) }
    ensures operations { (m : MachineData) (ceiling k : ℕ) (s : State) (ops : List OpKind) → operations_in (tasks m ceiling k s ops) ≡ enumerate_from k ops }
{}

/// The stacks of the pass tell what an operation cancels, and that it cancels nothing; they are kept by what is put on them
/// and taken off them.
pub fn stacks_tell()
    ensures cancels { (m : MachineData) (n k i : ℕ) (ops : List OpKind) (op : OpKind) (earlier : List Numbered) (stacks : List (List ℕ)) → AllByRecursion (IsThere m n) (touches op) → AllByRecursion (λ e. slice_get ops e.0 ≡ Some e.1) earlier → AreStacks m earlier stacks → partner_of m ops stacks op ≡ Some i → IsPartner (Some i) (k, op) earlier }
    ensures none { (m : MachineData) (n k : ℕ) (ops : List OpKind) (op : OpKind) (earlier : List Numbered) (stacks : List (List ℕ)) → AllByRecursion (IsThere m n) (touches op) → AllByRecursion (λ e. slice_get ops e.0 ≡ Some e.1) earlier → AreStacks m earlier stacks → partner_of m ops stacks op ≡ None → left_by (k, op) earlier ≡ None }
    ensures put { (m : MachineData) (n k : ℕ) (op : OpKind) (earlier : List Numbered) (stacks : List (List ℕ)) → AllByRecursion (IsThere m n) (touches op) → AreStacks m earlier stacks → AreStacks m ((k, op) ∷ earlier) (pushed m k (touches op) stacks) }
    ensures taken { (m : MachineData) (n : ℕ) (b : Numbered) (earlier xs : List Numbered) (stacks : List (List ℕ)) → AllByRecursion (IsThere m n) (touches b.1) → Cancels b earlier xs → AreStacks m earlier stacks → AreStacks m xs (popped m (touches b.1) stacks) }
{}

/// Stacks and marks that are right for the first operations stay so with one operation more. In the end those that are not
/// marked stay.
pub fn pass_goes_on()
    ensures begins { (m : MachineData) (ops : List OpKind) → SweptTo m ops 0 (replicate (count_of m 0) []) [] }
    ensures stays { (m : MachineData) (n k : ℕ) (ops : List OpKind) (op : OpKind) (stacks : List (List ℕ)) (marks : List Bool) → slice_get ops k ≡ Some op → AllByRecursion (IsThere m n) (touches op) → SweptTo m ops k stacks marks → partner_of m ops stacks op ≡ None → SweptTo m ops (suc k) (pushed m k (touches op) stacks) (marks ++ false ∷ []) }
    ensures goes { (m : MachineData) (n k i : ℕ) (ops : List OpKind) (op : OpKind) (stacks : List (List ℕ)) (marks : List Bool) → slice_get ops k ≡ Some op → AllByRecursion (IsThere m n) (touches op) → SweptTo m ops k stacks marks → partner_of m ops stacks op ≡ Some i → SweptTo m ops (suc k) (popped m (touches op) stacks) (set marks i true ++ true ∷ []) }
    ensures ends { (m : MachineData) (ops : List OpKind) (k : ℕ) (stacks : List (List ℕ)) (marks : List Bool) → k ≡ length ops → SweptTo m ops k stacks marks → (kept_in marks (enumerate_from 0 ops) ≡ staying ops) × (length marks ≡ length ops) }
{}
