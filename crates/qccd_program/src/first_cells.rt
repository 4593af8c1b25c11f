//! The cells before the first operation of a program.

ghost use Rattle.std.specs.Prelude.{IfOk};
ghost use Rattle.qccd_program.specs.AllCells.{AtStep};
ghost use Rattle.qccd_program.specs.First.{IsContentAt};

use crate::program::Program;
use op_cells::{Cell, Cells, DoneList, start_chain};
use op_table::Content;
use qccd_base::{NoMemory, TrapId};
use std::alloc::Global;

// What the resource with that number holds before the first operation.
fn first_content(program: &Program, i: usize) -> Content
    ensures { IsContentAt program.now i result }
{
    let machine = program.machine();
    let _ops = program.ops();
    let traps = usize::from(machine.traps());
    let segments = usize::from(machine.segments());
    let junctions = usize::from(machine.junctions());
    if i < traps {
        Content::Trap {
            chain: start_chain(program.start(TrapId(i as u8))),
            heat: 0,
        }
    } else if i < traps + segments {
        Content::Seg { rider: None }
    } else if i < traps + segments + junctions {
        Content::Junc { carry: None }
    } else {
        Content::Bit
    }
}

/// The cells before the first operation, with room in their logs for the whole run.
pub(crate) fn first_cells(alloc: Global, program: &Program) -> Result<Cells, NoMemory>
    ensures { IfOk result (λ cells. AtStep program.now 0 cells) }
{
    let rooms = program.rooms();
    let mut cells = Vec::with_capacity(alloc, rooms.len())?;
    for room in rooms {
        let log = DoneList::with_room(alloc, *room)?;
        let content = first_content(program, cells.as_slice().len());
        cells.push(Cell {
            content,
            free_at: 0,
            log,
        })?;
    }
    Ok(Cells::of_list(cells))
}
