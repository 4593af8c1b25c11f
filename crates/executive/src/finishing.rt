//! What is left after the workers.

ghost use Rattle.std.specs.Prelude.{◌≡◌, ◌<◌, ℕ, true, false, length};
ghost use Rattle.qccd_program.specs.AllCells.{AtEnd, AtTurns};
ghost use Rattle.claim_core.specs.Board.{width};
ghost use Rattle.claim_board.specs.Close.{IsAtRest, NotBegun, Past, turn_of};

use claim_board::Closed;
use op_cells::{Cells, index_of, run_one};
use qccd_program::Program;

// Whether the operation is finished, by these turns.
fn is_finished(program: &Program, turns: &[u32], k: u32) -> bool
    requires there { k < length program.now.ops }
    requires long { length turns.now ≡ width program.now }
    requires rest { (n : ℕ) × IsAtRest program.now.ops (turn_of program.now turns.now) n }
    ensures past { result ≡ true → Past program.now.ops (turn_of program.now turns.now) k }
    ensures not_begun { result ≡ false → NotBegun program.now.ops (turn_of program.now turns.now) k }
{
    let first = program.ops()[k as usize].touches()[0];
    let turn = program.nth(k, 0);
    turns[index_of(program.machine(), first)] > turn
}

/// The cells at the end of the program's run, from what a closed deck of the program left. Each operation that is not
/// finished is done on plain cells, in order. It takes no memory.
pub fn finish(program: &Program, closed: Closed) -> Cells
    requires cells { AtTurns program.now (turn_of program.now closed.turns.items) closed.cells }
    requires long { length closed.turns.items ≡ width program.now }
    requires rest { (n : ℕ) × IsAtRest program.now.ops (turn_of program.now closed.turns.items) n }
    ensures { AtEnd program.now result }
{
    let Closed { mut cells, turns } = closed;
    let machine = program.machine();
    for (k, op) in program.ops().iter().enumerate() {
        if !is_finished(program, turns.as_slice(), k as u32) {
            run_one(machine, k as u32, op, &mut cells);
        }
    }
    cells
}
