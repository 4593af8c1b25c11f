//! An operation on cells that are held out of their places.

ghost use Rattle.std.specs.Prelude.{◌≡◌, ◌<◌, ◌+◌, ◌^◌, All, length, map, take};
ghost use Rattle.qccd_base.specs.Greatest.{greatest};
ghost use Rattle.op_table.specs.Act.{acted};
ghost use Rattle.op_table.specs.Clock.{duration};
ghost use Rattle.op_table.specs.Contents.{heat_held};
ghost use Rattle.op_table.specs.Touch.{touches};
ghost use Rattle.op_cells.specs.Acted.{acted_on, data_of, room_of};
ghost use Rattle.op_cells.specs.Settled.{IsLegalOn, contents_of, freed, noted_first, with_contents};

use crate::cells::{Done, Held};
use crate::changes::{change_one, change_two};
use crate::durations::time_of;
use op_table::Op;
use qccd_machine::Machine;

/// Does the operation, as number `k`, on the cells that it touches, held in their order: on what they
/// hold, on the clock of each, and in the log of the first. It takes no memory.
pub fn apply(machine: &Machine, k: u32, op: &Op, held: &mut [Held])
    requires names { map (λ h. h.res) held.old ≡ touches op.now }
    requires legal { IsLegalOn machine.now op.now (contents_of held.old) }
    requires clocks { All (λ h. h.cell.free_at < 2 ^ 62) held.old }
    requires heats { All (λ h. heat_held h.cell.content < 2 ^ 62) held.old }
    requires room { All (λ h. 0 < h.cell.log.spare) (take 1 held.old) }
    ensures cells { map (λ h. data_of h.cell) held.new ≡ acted_on machine.now k op.now (map (λ h. data_of h.cell) held.old) }
    ensures names { map (λ h. h.res) held.new ≡ map (λ h. h.res) held.old }
    ensures room { map (λ h. room_of h.cell) held.new ≡ map (λ h. room_of h.cell) held.old }
{
    // The operation touches a resource at least, as the contract of its kind tells.
    let _kind = op.kind();
    let start = start_of(held);
    let finish = start + time_of(machine, op);
    act(machine, op, held);
    settle(
        held,
        Done {
            op: k,
            start,
            finish,
        },
    );
}

// The greatest time at which one of the cells is free.
fn start_of(held: &[Held]) -> u64
    ensures { result ≡ greatest (map (λ h. h.cell.free_at) held.now) }
{
    let mut start = 0;
    for x in held {
        start = x.cell.free_at.max(start);
    }
    start
}

// What the cells hold after the operation. One that touches more than two resources changes nothing.
fn act(machine: &Machine, op: &Op, held: &mut [Held])
    requires names { map (λ h. h.res) held.old ≡ touches op.now }
    requires legal { IsLegalOn machine.now op.now (contents_of held.old) }
    requires heats { All (λ h. heat_held h.cell.content < 2 ^ 62) held.old }
    ensures { held.new ≡ with_contents (acted machine.now op.now (contents_of held.old)) held.old }
{
    if held.len() == 1 {
        change_one(machine, op, &mut held[0].cell.content);
    } else if held.len() == 2 {
        let (front, back) = held.split_at_mut(1);
        let first = &mut front[0].cell.content;
        let second = &mut back[0].cell.content;
        change_two(machine, op, first, second);
    }
}

// Each cell is free at the finish, and the first notes what was done.
fn settle(held: &mut [Held], done: Done)
    requires some { 0 < length held.old }
    requires room { All (λ h. 0 < h.cell.log.spare) (take 1 held.old) }
    ensures { held.new ≡ map (freed done.finish) (noted_first done held.old) }
{
    note_first(held, done);
    free_all(held, done.finish);
}

// The first cell notes what was done.
fn note_first(held: &mut [Held], done: Done)
    requires some { 0 < length held.old }
    requires room { All (λ h. 0 < h.cell.log.spare) (take 1 held.old) }
    ensures { held.new ≡ noted_first done held.old }
{
    held[0].cell.log.note(done);
}

// Each cell is free at that time.
fn free_all(held: &mut [Held], finish: u64)
    ensures { held.new ≡ map (freed finish) held.old }
{
    for x in held.iter_mut() {
        x.cell.free_at = finish;
    }
}
