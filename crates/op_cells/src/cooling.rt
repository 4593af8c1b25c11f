//! What is cold afterwards: an operation on what cells hold, with no heat kept, and a trap that is cooled.

ghost use Rattle.std.specs.Prelude.{◌≡◌, ◌<◌, ◌+◌, ◌^◌, ℕ, length, map, slice_get};
ghost use Rattle.op_cells.specs.Cold.{chilled, cooled, MayRunCold, RanCold};
ghost use Rattle.op_cells.specs.Places.{adjust, adjust_all, AreWithin, clock_or};
ghost use Rattle.op_cells.specs.Rested.{cool_time, rested};

use crate::cells::Cell;
use crate::numbering::index_of;
use crate::running::act_at;
use op_table::{Content, Op};
use qccd_base::Res;
use qccd_machine::Machine;

// How long a cool takes, in microseconds.
const COOL_TIME: u64 = 400;

/// When a trap was cooled.
#[derive(Clone, Copy, Debug, PartialEq, Eq)]
pub struct CoolTimes {
    /// When that started, in microseconds.
    pub start: u64,
    /// When it was finished, in microseconds.
    pub finish: u64,
}

/// Cools what the cell at this place holds, as soon as it is free, and it is free when that is finished.
pub(crate) fn rest_at(cells: &mut [Cell], at: usize) -> CoolTimes
    requires within { at < length cells.old }
    requires clock { clock_or (slice_get cells.old at) < 2 ^ 62 }
    ensures times { result ≡ record { start = clock_or (slice_get cells.old at); finish = clock_or (slice_get cells.old at) + cool_time } }
    ensures cell { cells.new ≡ adjust rested cells.old at }
{
    rest(&mut cells[at])
}

// The same of one cell.
fn rest(cell: &mut Cell) -> CoolTimes
    requires { cell.old.free_at < 2 ^ 62 }
    ensures times { result ≡ record { start = cell.old.free_at; finish = cell.old.free_at + cool_time } }
    ensures cell { cell.new ≡ rested cell.old }
{
    let start = cell.free_at;
    let finish = start + COOL_TIME;
    cool(&mut cell.content);
    cell.free_at = finish;
    CoolTimes { start, finish }
}

/// Does the operation on what the cells of all resources hold, and leaves what it touched cold.
#[inline(always)]
pub(crate) fn run_cold_on(machine: &Machine, op: &Op, cells: &mut [Cell])
    requires { MayRunCold machine.now op.now cells.old }
    ensures { (bits : ℕ) → RanCold machine.now bits op.now cells.old cells.new }
{
    let touched = op.touches();
    act_at(machine, op, cells);
    cool_all_at(machine, touched, cells);
}

// What the resources hold is cold.
#[inline(always)]
fn cool_all_at(machine: &Machine, touched: &[Res], cells: &mut [Cell])
    requires { AreWithin machine.now (length cells.old) touched.now }
    ensures { cells.new ≡ adjust_all machine.now touched.now (map (λ r. chilled) touched.now) cells.old }
{
    for res in touched {
        let at = index_of(machine, *res);
        cool(&mut cells[at].content);
    }
}

// Sets each heat to 0.
fn cool(content: &mut Content)
    ensures { content.new ≡ cooled content.old }
{
    match content {
        Content::Trap { chain: _, heat } => *heat = 0,
        Content::Seg { rider } => match rider {
            None => {}
            Some(rider) => rider.heat = 0,
        },
        Content::Junc { carry } => match carry {
            None => {}
            Some(carry) => carry.heat = 0,
        },
        Content::Bit => {}
    }
}
