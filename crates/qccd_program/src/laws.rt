//! What holds of every program. Each function does nothing: its contract is the law.

ghost use Rattle.std.specs.Prelude.{◌≡◌, ◌+◌, ◌<◌, ℕ, All, List, drop, length, map, Some, slice_get};
ghost use Rattle.qccd_base.specs.declared.names.Res.{Res};
ghost use Rattle.qccd_machine.specs.Machine.{IsValid};
ghost use Rattle.op_table.specs.declared.kinds.OpKind.{OpKind};
ghost use Rattle.op_table.specs.Clock.{timed};
ghost use Rattle.op_table.specs.Contents.{content, heat_held};
ghost use Rattle.op_table.specs.Run.{IsRun, after};
ghost use Rattle.op_table.specs.Touch.{nth, total};
ghost use Rattle.op_cells.specs.declared.cells.Cell.{Cell};
ghost use Rattle.op_cells.specs.OneRun.{MayRun, Ran};
ghost use Rattle.qccd_program.specs.AllCells.{AtStep};
ghost use Rattle.qccd_program.specs.CellOfRun.{cell_at, firsts};
ghost use Rattle.qccd_program.specs.Faithful.{IsFaithful, turns_after};
ghost use Rattle.qccd_program.specs.Implements.{KeepsBounds, MeetsOperands};
ghost use Rattle.qccd_program.specs.Legal.{IsLegalProgram};
ghost use Rattle.qccd_program.specs.MeetsCells.{MeetsCells};
ghost use Rattle.qccd_program.specs.Program.{ProgramData, before, opening_of, end_of};

/// A program that runs from its start chains meets the operands of each of its items.
pub fn gates_meet_operands()
    ensures { (p : ProgramData) → IsRun p.machine (opening_of p) p.ops → MeetsOperands p }
{}

/// In every state of a program's run every place keeps its bound.
pub fn safe_in_every_state()
    ensures { (p : ProgramData) → IsLegalProgram p → KeepsBounds p }
{}

/// In the run of every program on a valid machine each operation finishes before 4 * 10^14 microseconds, and in each of its
/// states what a trap, a segment or a junction holds has a heat below 10^10 thousandths.
pub fn times_and_heats_are_bounded()
    ensures times { (p : ProgramData) → IsValid p.machine → IsLegalProgram p → All (λ x. x.finish < 400000000000000) (timed p.machine p.ops) }
    ensures heats { (p : ProgramData) (k : ℕ) (r : Res) → IsLegalProgram p → heat_held (content (before p k) r) < 10000000000 }
{}

/// On the cells that an operation of a program touches, each at its turn, it is legal, its first resource's
/// log has room, and clocks and heats are in range; done on these cells alone, it leaves the cells at the
/// next turns.
pub fn next_cells()
    ensures { (p : ProgramData) (k : ℕ) (op : OpKind) → IsValid p.machine → IsLegalProgram p → slice_get p.ops k ≡ Some op → MeetsCells p k op }
{}

/// The log of a resource just before operation k lacks an entry for each operation from k on of which it is
/// the first, and no other.
pub fn log_lacks()
    ensures { (p : ProgramData) (k : ℕ) (r : Res) → length (cell_at p r (nth p.ops k r)).log + firsts (drop k p.ops) r ≡ firsts p.ops r }
{}

/// Where all cells are those of the run just before operation k, it may be done on them, and then they are
/// those just before the next.
pub fn one_operation_further()
    ensures may { (p : ProgramData) (k : ℕ) (op : OpKind) (cells : List Cell) → IsValid p.machine → IsLegalProgram p → slice_get p.ops k ≡ Some op → AtStep p k cells → MayRun p.machine op cells }
    ensures next { (p : ProgramData) (k : ℕ) (op : OpKind) (old new : List Cell) → IsValid p.machine → IsLegalProgram p → slice_get p.ops k ≡ Some op → AtStep p k old → Ran p.machine p.bits k op old new → AtStep p (k + 1) new }
{}

/// A list in which each operation finds its resources at its own turns is a run. Where each resource is then
/// at its last turn, it ends as the program does.
pub fn faithful_lists_run()
    ensures run { (p : ProgramData) (v : List (ℕ × OpKind)) → IsLegalProgram p → IsFaithful p.ops (λ r. 0) v → IsRun p.machine (opening_of p) (map (λ e. e.1) v) }
    ensures end { (p : ProgramData) (v : List (ℕ × OpKind)) → IsLegalProgram p → IsFaithful p.ops (λ r. 0) v → ((r : Res) → turns_after (λ q. 0) v r ≡ total p.ops r) → after p.machine (opening_of p) (map (λ e. e.1) v) ≡ end_of p }
{}
