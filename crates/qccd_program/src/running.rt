//! What one thread does with a whole program.

ghost use Rattle.qccd_program.specs.AllCells.{AtStep, AtEnd};

use crate::program::Program;
use op_cells::{Cells, run_one};

/// Does all operations of the program, in order, on the cells before the first of them.
pub fn run_in_order(program: &Program, cells: &mut Cells)
    requires first { AtStep program.now 0 cells.old }
    ensures { AtEnd program.now cells.new }
{
    let machine = program.machine();
    for (k, op) in program.ops().iter().enumerate() {
        run_one(machine, k as u32, op, cells);
    }
}
