//! How many earlier operations touch each resource that an operation touches.

ghost use Rattle.std.specs.Prelude.{◌≡◌, ◌<◌, ◌≤◌, ◌+◌, ◌++◌, ℕ, true, All, IfOk, OnOk, Some, length, slice_get};
ghost use Rattle.qccd_base.specs.declared.names.Res.{Res};
ghost use Rattle.qccd_base.specs.Resource.{among};
ghost use Rattle.op_table.specs.declared.kinds.OpKind.{OpKind};
ghost use Rattle.op_table.specs.Touch.{touches};
ghost use Rattle.op_cells.specs.Numbering.{count_of, index_of, IsThere};
ghost use Rattle.qccd_program.specs.CellOfRun.{firsts};
ghost use Rattle.qccd_program.specs.Turns.{Counts, HasTurns, counted, first_counted, found};

use op_cells::{count_of, index_of};
use op_table::Op;
use qccd_base::{NoMemory, Res};
use qccd_machine::Machine;
use std::alloc::Global;

/// The turns of all operations in one list, where those of each operation begin in it, and of how many operations
/// each resource is the first.
#[derive(Debug, Drop)]
pub(crate) struct TurnTable {
    pub(crate) starts: Vec<u32>,
    pub(crate) turns: Vec<u32>,
    pub(crate) rooms: Vec<u32>,
}

// Notes the counter of each resource, and counts it.
fn count(
    machine: &Machine,
    touched: &[Res],
    counters: &mut Vec<u32>,
    turns: &mut Vec<u32>,
) -> Result<(), NoMemory>
    requires there { All (λ r. index_of machine.now r < length counters.old.items) touched.now }
    ensures turns { OnOk result (turns.new.items ≡ turns.old.items ++ found machine.now counters.old.items touched.now) }
    ensures counters { OnOk result (counters.new.items ≡ counted machine.now counters.old.items touched.now) }
{
    for r in touched {
        let i = index_of(machine, *r);
        turns.push(counters[i])?;
        counters[i] = counters[i].wrapping_add(1);
    }
    Ok(())
}

// Counts the first of the resources.
fn count_first(machine: &Machine, touched: &[Res], rooms: &mut Vec<u32>)
    requires there { All (λ r. index_of machine.now r < length rooms.old.items) touched.now }
    ensures { rooms.new.items ≡ first_counted machine.now rooms.old.items touched.now }
{
    match touched {
        [] => {}
        [first, ..] => {
            let i = index_of(machine, *first);
            rooms[i] = rooms[i].wrapping_add(1);
        }
    }
}

/// The turns of these operations and the rooms in the logs of their resources, counted in one pass.
pub(crate) fn turn_table(
    alloc: Global,
    machine: &Machine,
    bits: u16,
    ops: &[Op],
) -> Result<TurnTable, NoMemory>
    requires bits { bits ≤ 256 }
    requires few { length ops.now ≤ 4194304 }
    requires there { (k : ℕ) (op : OpKind) (r : Res) → slice_get ops.now k ≡ Some op → among (touches op) r ≡ true → IsThere machine.now bits r }
    ensures turns { IfOk result (λ t. HasTurns ops.now (length ops.now) t.starts.items t.turns.items) }
    ensures rooms { IfOk result (λ t. Counts machine.now bits (firsts ops.now) t.rooms.items) }
{
    let mut counters = vec![in alloc; 0u32; count_of(machine, bits)]?;
    let mut rooms = vec![in alloc; 0u32; count_of(machine, bits)]?;
    let mut starts = Vec::with_capacity(alloc, ops.len())?;
    // Most operations touch one resource or two.
    let mut turns = Vec::with_capacity(alloc, 2 * ops.len())?;
    for op in ops {
        let touched = op.touches();
        starts.push(turns.as_slice().len() as u32)?;
        count(machine, touched, &mut counters, &mut turns)?;
        count_first(machine, touched, &mut rooms);
    }
    Ok(TurnTable {
        starts,
        turns,
        rooms,
    })
}
