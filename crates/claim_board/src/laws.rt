//! What holds of every deck. Each function does nothing: its contract is the law.

ghost use Rattle.std.specs.Prelude.{◌≡◌, ◌≢◌, ◌⊎◌, ◌∷◌, ◌+◌, ◌*◌, ◌<◌, ℕ, true, List, None, Option, Some, slice_get, slice_index};
ghost use mathlib.Core.Option.{some};
ghost use lib.ListN.{get_elem?};
ghost use Rattle.qccd_base.specs.declared.names.Res.{Res};
ghost use Rattle.qccd_base.specs.Resource.{among};
ghost use Rattle.qccd_machine.specs.Machine.{IsValid};
ghost use Rattle.op_table.specs.declared.kinds.OpKind.{OpKind};
ghost use Rattle.op_table.specs.Touch.{nth};
ghost use Rattle.op_cells.specs.declared.cells.Cell.{Cell};
ghost use Rattle.op_cells.specs.declared.cells.Held.{Held};
ghost use Rattle.op_cells.specs.Numbering.{index_of};
ghost use Rattle.atomic_table.specs.Table.{State, stepped, keeps, takes, gives};
ghost use Rattle.qccd_program.specs.CellOfRun.{IsCell};
ghost use Rattle.qccd_program.specs.Legal.{IsLegalProgram};
ghost use Rattle.qccd_program.specs.Program.{ProgramData};
ghost use Rattle.claim_core.specs.declared.event.Event.TheVariants.{Begin, Reach, Give};
ghost use Rattle.claim_core.specs.Board.{BoardData, hand_at, holder_at, is_there, turn_at};
ghost use Rattle.claim_core.specs.Enabled.{IsFinished};
ghost use Rattle.claim_core.specs.Event.{touched};
ghost use Rattle.claim_core.specs.History.{IsBoardOf};
ghost use Rattle.claim_core.specs.Sound.{IsSound};
ghost use Rattle.claim_board.specs.declared.view.Key.{Key};
ghost use Rattle.claim_board.specs.declared.view.View.{View};
ghost use Rattle.claim_board.specs.Applied.{Applied, MayApply};
ghost use Rattle.claim_board.specs.Pass.{AreCells, next_turn};
ghost use Rattle.claim_board.specs.Plays.{MayBegin, MayReach, MayGive, after_look, after_begin, after_reach, after_give};
ghost use Rattle.claim_board.specs.Rule.{Ruled, Shown};
ghost use Rattle.claim_board.specs.Stepping.{Happens, LeavesBoard};

/// Between any two steps the words and the live passes of a deck show a board of its program's histories, which
/// is sound.
pub fn shown_boards_are_sound()
    ensures { (key : Key) (s : State (Option Cell) View) → Ruled key s → (b : BoardData) × IsBoardOf key.program.value b × IsSound key.program.value b × Shown key b s }
{}

/// Each step of a pass on a word is one allowed event on the board that is shown, or leaves it. The exchange on a first
/// word that is free at its turn is a Begin, that on a further word a Reach, and the store a Give; a look leaves the
/// board.
pub fn steps_are_events()
    ensures begin { (key : Key) (s : State (Option Cell) View) (seat : ℕ) (v : View) (c : List (ℕ × Option Cell)) (k : ℕ) (r : Res)
        → Ruled key s → get_elem? s.views seat ≡ some v → MayBegin v k r
        → slice_index s.words (index_of v.program.machine r) ≡ 32 * nth v.program.ops k r
        → (cell : Cell) × Happens key (Begin v.number k) s (stepped s (index_of v.program.machine r) (32 * nth v.program.ops k r + (v.number + 1)) seat c (after_begin k r v) (takes (index_of v.program.machine r) (Some cell))) }
    ensures reach { (key : Key) (s : State (Option Cell) View) (seat : ℕ) (v : View) (c : List (ℕ × Option Cell)) (k : ℕ) (r : Res)
        → Ruled key s → get_elem? s.views seat ≡ some v → MayReach v k r
        → (cell : Cell) × Happens key (Reach v.number k r) s (stepped s (index_of v.program.machine r) (32 * nth v.program.ops k r + (v.number + 1)) seat c (after_reach k r v) (takes (index_of v.program.machine r) (Some cell))) }
    ensures give { (key : Key) (s : State (Option Cell) View) (seat : ℕ) (v : View) (c : List (ℕ × Option Cell)) (k : ℕ) (r : Res) (cell : Cell)
        → Ruled key s → get_elem? s.views seat ≡ some v → MayGive v k r → IsCell v.program r (nth v.program.ops k r + 1) cell
        → Happens key (Give v.number k r) s (stepped s (index_of v.program.machine r) (32 * (nth v.program.ops k r + 1)) seat ((index_of v.program.machine r, Some cell) ∷ c) (after_give k r v) gives) }
    ensures look { (key : Key) (s : State (Option Cell) View) (seat : ℕ) (v : View) (c : List (ℕ × Option Cell)) (r : Res)
        → Ruled key s → get_elem? s.views seat ≡ some v → v.live ≡ true → is_there v.program r ≡ true
        → LeavesBoard key s (stepped s (index_of v.program.machine r) (slice_index s.words (index_of v.program.machine r)) seat c (after_look (index_of v.program.machine r) (slice_index s.words (index_of v.program.machine r)) v) keeps) }
{}

/// On a board of a history, where a resource is past the turn of an operation that touches it, or at that turn
/// and held, the operation was begun: a worker has it in hand, or it is finished.
pub fn gone_was_begun()
    ensures { (p : ProgramData) (b : BoardData) (k : ℕ) (r : Res) → IsLegalProgram p → IsBoardOf p b → among (touched p.ops k) r ≡ true
        → (nth p.ops k r < turn_at p b r) ⊎ ((turn_at p b r ≡ nth p.ops k r) × (holder_at p b r ≢ None)) → ((w : ℕ) × ((hand_at b w).op ≡ Some k)) ⊎ IsFinished p b k }
{}

/// An operation may be applied to the cells that a claim got, and then they are those that a hand-back asks
/// for.
pub fn got_cells_apply()
    ensures may { (p : ProgramData) (k : ℕ) (op : OpKind) (held : List Held) → IsValid p.machine → IsLegalProgram p → slice_get p.ops k ≡ Some op → AreCells p (nth p.ops k) (touched p.ops k) held → MayApply p.machine op held }
    ensures next { (p : ProgramData) (k : ℕ) (op : OpKind) (old new : List Held) → IsValid p.machine → IsLegalProgram p → slice_get p.ops k ≡ Some op → AreCells p (nth p.ops k) (touched p.ops k) old → Applied p.machine k op old new → AreCells p (next_turn p k) (touched p.ops k) new }
{}
