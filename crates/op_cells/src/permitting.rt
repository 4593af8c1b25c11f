//! Whether an operation may be run: what tests ask before they run one.

ghost use Rattle.std.specs.Prelude.{◌≡◌, ◌^◌, ◌&&◌, IsTrue, length, map, nat_lt};
ghost use Rattle.std.specs.List.{list_all};
ghost use Rattle.op_table.specs.Contents.{heat_held};
ghost use Rattle.op_table.specs.Touch.{touches};
ghost use Rattle.op_cells.specs.Numbering.{index_of};
ghost use Rattle.op_cells.specs.OneRun.{MayRun};
ghost use Rattle.op_cells.specs.Places.{clock_at, content_at, HasFirstRoom};
ghost use Rattle.op_cells.specs.Settled.{IsLegalOn};

use crate::cells::{Cell, Cells};
use crate::legality::told;
use crate::numbering::index_of;
use op_table::{Content, Op};
use qccd_base::Res;
use qccd_machine::Machine;

// A bound of clocks and heats.
const BOUND: u64 = 4611686018427387904;

/// Whether the operation may be run on the cells: they are there, it is legal on them, their clocks and
/// heats are below 2^62, and the log of the first has room.
pub(crate) fn may_run(machine: &Machine, op: &Op, cells: &Cells) -> bool
    ensures { IsTrue result → MayRun machine.now op.now cells.now }
{
    let touched = op.touches();
    let list = cells.as_slice();
    let within = are_within(machine, touched, list);
    let legal = is_legal(machine, op, list);
    let bounded = are_bounded(machine, touched, list);
    let room = first_has_room(machine, touched, list);
    within && legal && bounded && room
}

fn is_legal(machine: &Machine, op: &Op, cells: &[Cell]) -> bool
    ensures { IsTrue result → IsLegalOn machine.now op.now (map (content_at machine.now cells.now) (touches op.now)) }
{
    told(machine, op, cells).is_none()
}

fn are_within(machine: &Machine, touched: &[Res], cells: &[Cell]) -> bool
    ensures { result ≡ list_all (λ r. nat_lt (index_of machine.now r) (length cells.now)) touched.now }
{
    touched
        .iter()
        .all(|res| index_of(machine, *res) < cells.len())
}

fn are_bounded(machine: &Machine, touched: &[Res], cells: &[Cell]) -> bool
    ensures { result ≡ list_all (λ r. nat_lt (clock_at machine.now cells.now r) 4611686018427387904 && nat_lt (heat_held (content_at machine.now cells.now r)) 4611686018427387904) touched.now }
{
    touched.iter().all(|res| is_bounded(machine, *res, cells))
}

fn is_bounded(machine: &Machine, res: Res, cells: &[Cell]) -> bool
    ensures { result ≡ (nat_lt (clock_at machine.now cells.now res) 4611686018427387904 && nat_lt (heat_held (content_at machine.now cells.now res)) 4611686018427387904) }
{
    match cells.get(index_of(machine, res)) {
        None => true,
        Some(cell) => cell.free_at < BOUND && heat_held(&cell.content) < BOUND,
    }
}

// The heat of what a resource holds.
fn heat_held(content: &Content) -> u64
    ensures { result ≡ heat_held content.now }
{
    match content {
        Content::Trap { chain: _, heat } => *heat,
        Content::Seg { rider } => match rider {
            None => 0,
            Some(rider) => rider.heat,
        },
        Content::Junc { carry } => match carry {
            None => 0,
            Some(carry) => carry.heat,
        },
        Content::Bit => 0,
    }
}

fn first_has_room(machine: &Machine, touched: &[Res], cells: &[Cell]) -> bool
    ensures { IsTrue result → HasFirstRoom machine.now touched.now cells.now }
{
    match touched {
        [] => true,
        [first, ..] => match cells.get(index_of(machine, *first)) {
            None => true,
            Some(cell) => 0 < cell.log.room(),
        },
    }
}
