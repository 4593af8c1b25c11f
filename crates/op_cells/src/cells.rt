//! The cells of a machine: what each resource holds, when it is free, and what was done with it.

ghost use Rattle.std.specs.Prelude.{◌≡◌, ◌<◌, ◌^◌, ℕ, IfOk, Some, length, slice_get};
ghost use Rattle.qccd_machine.specs.Machine.{MachineData};
ghost use Rattle.op_cells.specs.Cold.{MayRunCold, RanCold};
ghost use Rattle.op_cells.specs.Kinds.{is_trap, is_up_to_segment, is_up_to_junction, junctions_end, place_of, segments_end, traps_end};
ghost use Rattle.op_cells.specs.Numbering.{count_of};
ghost use Rattle.op_cells.specs.OneRun.{MayRun, Ran};
ghost use Rattle.op_cells.specs.Places.{clock_or};
ghost use Rattle.op_cells.specs.Rested.{fresh_cells, Rests};

use crate::cooling::{CoolTimes, rest_at, run_cold_on};
use crate::done_list::DoneList;
use crate::running::run_on;
use op_table::{Content, Op};
use qccd_base::{NoMemory, Res, TrapId};
use qccd_machine::Machine;
use std::alloc::Global;
use std::marker::Model;

/// That an operation was done, and when.
#[derive(Clone, Copy, Debug, PartialEq, Eq)]
pub struct Done {
    /// The operation's number.
    pub op: u32,
    /// When it started, in microseconds.
    pub start: u64,
    /// When it was finished, in microseconds.
    pub finish: u64,
}

/// A resource's content, when it is free, and the operations that were done with it as their first.
#[derive(Debug, Drop)]
pub struct Cell {
    pub content: Content,
    /// When the last operation that touched it was finished, in microseconds.
    pub free_at: u64,
    pub log: DoneList,
}

/// A cell taken out.
#[derive(Debug, Drop)]
pub struct Held {
    pub res: Res,
    pub cell: Cell,
}

/// A cell for each resource, in their order.
#[derive(Debug, Drop)]
pub struct Cells {
    cells: Vec<Cell>,
}

impl Model for Cells {
    ghost use Rattle.std.specs.Prelude.{List};
    ghost use Rattle.op_cells.specs.declared.cells.Cell.{Cell};

    ghost Value = { List Cell };

    ghost view = { λ a. a.cells.items };
}

impl Cells {
    /// Cells of these contents, one for each resource in their order, each free from its time on
    /// (microseconds) and with an empty log that has so much room; or that memory ran out.
    pub fn of(
        alloc: Global,
        _machine: &Machine,
        _bits: u16,
        states: Vec<(Content, u64)>,
        rooms: Vec<u32>,
    ) -> Result<Cells, NoMemory>
        requires states { length states.items ≡ count_of _machine.now _bits }
        requires rooms { length rooms.items ≡ count_of _machine.now _bits }
        ensures { IfOk result (λ cells. cells ≡ fresh_cells states.items rooms.items) }
    {
        let mut states = states;
        let mut list = Vec::with_capacity(alloc, states.len())?;
        while let Some((content, free_at)) = states.pop() {
            let log = DoneList::with_room(alloc, rooms[states.len()])?;
            list.push(Cell {
                content,
                free_at,
                log,
            })?;
        }
        list.reverse();
        Ok(Cells { cells: list })
    }

    /// The cells of the list, in its order.
    pub fn of_list(list: Vec<Cell>) -> Cells
        ensures { result ≡ list.items }
    {
        Cells { cells: list }
    }

    /// The cells, in their order.
    pub fn as_slice(&self) -> &[Cell]
        ensures { result.now ≡ self.now }
    {
        self.cells.as_slice()
    }

    /// The cell of the resource: those of traps stand first, then those of segments, of junctions and of
    /// bits, each by number.
    pub fn at(&self, r: Res) -> &Cell
        requires { place_of self.now r < length self.now }
        ensures { slice_get self.now (place_of self.now r) ≡ Some result.now }
    {
        let cells = self.cells.as_slice();
        let place = match r {
            Res::Trap(trap) => usize::from(trap.0),
            Res::Seg(seg) => traps_end(cells) + usize::from(seg.0),
            Res::Junc(junc) => segments_end(cells) + usize::from(junc.0),
            Res::Bit(bit) => junctions_end(cells) + usize::from(bit.0),
        };
        &cells[place]
    }

    /// The list of the cells, in its order.
    pub fn into_list(self) -> Vec<Cell>
        ensures { result.items ≡ self }
    {
        self.cells
    }
}

/// Does the operation, as number `k`, on the cells that it touches: on what they hold, on the clock of
/// each, and in the log of the first. All others stay. It takes no memory.
#[inline(always)]
pub fn run_one(machine: &Machine, k: u32, op: &Op, cells: &mut Cells)
    requires { MayRun machine.now op.now cells.old }
    ensures { (bits : ℕ) → Ran machine.now bits k op.now cells.old cells.new }
{
    run_on(machine, k, op, cells.cells.as_mut_slice());
}

/// Does the operation on what the cells hold that it touches, and leaves each of these cold: every heat
/// there is 0. All clocks and logs stay, and so do the other cells. It takes no memory.
#[inline(always)]
pub fn run_cold(machine: &Machine, op: &Op, cells: &mut Cells)
    requires { MayRunCold machine.now op.now cells.old }
    ensures { (bits : ℕ) → RanCold machine.now bits op.now cells.old cells.new }
{
    run_cold_on(machine, op, cells.cells.as_mut_slice());
}

/// Cools the trap as soon as it is free: its heat is 0, and it is free again 400 microseconds later. Its log
/// stays, and so do the other cells. It takes no memory.
pub fn cool_trap(cells: &mut Cells, trap: TrapId) -> CoolTimes
    requires within { trap.0 < length cells.old }
    requires clock { clock_or (slice_get cells.old trap.0) < 2 ^ 62 }
    ensures { (m : MachineData) (bits : ℕ) → trap.0 < length m.capacities → Rests m bits trap result cells.old cells.new }
{
    rest_at(cells.cells.as_mut_slice(), usize::from(trap.0))
}

// Where the traps end.
fn traps_end(cells: &[Cell]) -> usize
    ensures { result ≡ traps_end cells.now }
{
    cells
        .iter()
        .take_while(|cell| is_trap(&cell.content))
        .count()
}

// Where the segments end.
fn segments_end(cells: &[Cell]) -> usize
    ensures { result ≡ segments_end cells.now }
{
    cells
        .iter()
        .take_while(|cell| is_up_to_segment(&cell.content))
        .count()
}

// Where the junctions end.
fn junctions_end(cells: &[Cell]) -> usize
    ensures { result ≡ junctions_end cells.now }
{
    cells
        .iter()
        .take_while(|cell| is_up_to_junction(&cell.content))
        .count()
}

// Whether it is a trap's.
fn is_trap(content: &Content) -> bool
    ensures { result ≡ is_trap content.now }
{
    match content {
        Content::Trap { chain: _, heat: _ } => true,
        Content::Seg { rider: _ } => false,
        Content::Junc { carry: _ } => false,
        Content::Bit => false,
    }
}

// Whether it is a trap's or a segment's.
fn is_up_to_segment(content: &Content) -> bool
    ensures { result ≡ is_up_to_segment content.now }
{
    match content {
        Content::Trap { chain: _, heat: _ } => true,
        Content::Seg { rider: _ } => true,
        Content::Junc { carry: _ } => false,
        Content::Bit => false,
    }
}

// Whether it is a trap's, a segment's or a junction's.
fn is_up_to_junction(content: &Content) -> bool
    ensures { result ≡ is_up_to_junction content.now }
{
    match content {
        Content::Trap { chain: _, heat: _ } => true,
        Content::Seg { rider: _ } => true,
        Content::Junc { carry: _ } => true,
        Content::Bit => false,
    }
}
