//! An operation on all cells of a machine.

ghost use Rattle.std.specs.Prelude.{◌≡◌, ◌<◌, ◌+◌, ◌^◌, ◌∷◌, [], ℕ, List, length, map, slice_get};
ghost use Rattle.std.specs.List.{AllByRecursion};
ghost use Rattle.qccd_base.specs.Greatest.{greatest};
ghost use Rattle.qccd_base.specs.declared.names.Res.{Res};
ghost use Rattle.op_table.specs.declared.contents.Content.{Content};
ghost use Rattle.op_table.specs.Act.{acted, first, second};
ghost use Rattle.op_table.specs.Contents.{heat_held};
ghost use Rattle.op_table.specs.Touch.{touches, is_first};
ghost use Rattle.op_cells.specs.declared.cells.Cell.{Cell};
ghost use Rattle.op_cells.specs.Numbering.{index_of};
ghost use Rattle.op_cells.specs.OneRun.{MayRun, Ran};
ghost use Rattle.op_cells.specs.Places.{adjust, adjust_all, clock_at, content_at, content_or, free_from, holding, AreInTurn, AreWithin, HasFirstRoom};
ghost use Rattle.op_cells.specs.Settled.{IsLegalOn, noted};

use crate::cells::{Cell, Done};
use crate::changes::{change_one, change_two};
use crate::durations::time_of;
use crate::numbering::index_of;
use op_table::Op;
use qccd_base::Res;
use qccd_machine::Machine;

/// Does the operation, as number `k`, on the cells of all resources.
#[inline(always)]
pub(crate) fn run_on(machine: &Machine, k: u32, op: &Op, cells: &mut [Cell])
    requires { MayRun machine.now op.now cells.old }
    ensures { (bits : ℕ) → Ran machine.now bits k op.now cells.old cells.new }
{
    let touched = op.touches();
    let start = start_at(machine, touched, cells);
    let finish = start + time_of(machine, op);
    act_at(machine, op, cells);
    free_all_at(machine, touched, cells, finish);
    note_first_at(
        machine,
        touched,
        cells,
        Done {
            op: k,
            start,
            finish,
        },
    );
}

// The greatest time at which one of the resources is free.
#[inline(always)]
fn start_at(machine: &Machine, touched: &[Res], cells: &[Cell]) -> u64
    requires { AreWithin machine.now (length cells.now) touched.now }
    ensures { result ≡ greatest (map (clock_at machine.now cells.now) touched.now) }
{
    let mut start = 0;
    for res in touched {
        let cell = &cells[index_of(machine, *res)];
        start = cell.free_at.max(start);
    }
    start
}

/// What the resources hold after the operation. One that touches more than two changes nothing.
// Most operations are gates, which change nothing: a call would cost more than this.
#[inline(always)]
pub(crate) fn act_at(machine: &Machine, op: &Op, cells: &mut [Cell])
    requires within { AreWithin machine.now (length cells.old) (touches op.now) }
    requires in_turn { AreInTurn machine.now (touches op.now) }
    requires legal { IsLegalOn machine.now op.now (map (content_at machine.now cells.old) (touches op.now)) }
    requires heats { AllByRecursion (λ r. heat_held (content_at machine.now cells.old r) < 2 ^ 62) (touches op.now) }
    ensures { cells.new ≡ adjust_all machine.now (touches op.now) (map holding (acted machine.now op.now (map (content_at machine.now cells.old) (touches op.now)))) cells.old }
{
    let touched = op.touches();
    if touched.len() == 1 {
        act_at_one(machine, op, cells, index_of(machine, touched[0]));
    } else if touched.len() == 2 {
        let low = index_of(machine, touched[0]);
        let high = index_of(machine, touched[1]);
        act_at_two(machine, op, cells, low, high);
    }
}

// What one resource holds after an operation that touches it alone.
#[inline(always)]
fn act_at_one(machine: &Machine, op: &Op, cells: &mut [Cell], at: usize)
    requires within { at < length cells.old }
    requires one { length (touches op.now) ≡ 1 }
    requires legal { IsLegalOn machine.now op.now (content_or (slice_get cells.old at) ∷ []) }
    requires heat { heat_held (content_or (slice_get cells.old at)) < 2 ^ 62 }
    ensures { cells.new ≡ adjust (holding (first (acted machine.now op.now (content_or (slice_get cells.old at) ∷ [])))) cells.old at }
{
    change_one(machine, op, &mut cells[at].content);
}

// What two resources hold after an operation that touches them alone.
#[inline(never)]
fn act_at_two(machine: &Machine, op: &Op, cells: &mut [Cell], low: usize, high: usize)
    requires order { low < high }
    requires within { high < length cells.old }
    requires two { length (touches op.now) ≡ 2 }
    requires legal { IsLegalOn machine.now op.now (content_or (slice_get cells.old low) ∷ content_or (slice_get cells.old high) ∷ []) }
    requires low_heat { heat_held (content_or (slice_get cells.old low)) < 2 ^ 62 }
    requires high_heat { heat_held (content_or (slice_get cells.old high)) < 2 ^ 62 }
    ensures { let cs = acted machine.now op.now (content_or (slice_get cells.old low) ∷ content_or (slice_get cells.old high) ∷ []) in cells.new ≡ adjust (holding (second cs)) (adjust (holding (first cs)) cells.old low) high }
{
    let (front, back) = cells.split_at_mut(high);
    let first = &mut front[low].content;
    let second = &mut back[0].content;
    change_two(machine, op, first, second);
}

// The resources are free at the finish.
#[inline(always)]
fn free_all_at(machine: &Machine, touched: &[Res], cells: &mut [Cell], finish: u64)
    requires { AreWithin machine.now (length cells.old) touched.now }
    ensures { cells.new ≡ adjust_all machine.now touched.now (map (λ r. free_from finish) touched.now) cells.old }
{
    for res in touched {
        let at = index_of(machine, *res);
        cells[at].free_at = finish;
    }
}

// The first of the resources notes what was done.
#[inline(always)]
fn note_first_at(machine: &Machine, touched: &[Res], cells: &mut [Cell], done: Done)
    requires within { AreWithin machine.now (length cells.old) touched.now }
    requires room { HasFirstRoom machine.now touched.now cells.old }
    ensures { cells.new ≡ adjust_all machine.now touched.now (noted done ∷ []) cells.old }
{
    if let [first, ..] = touched {
        cells[index_of(machine, *first)].log.note(done);
    }
}
