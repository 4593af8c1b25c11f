//! How long an operation takes.

ghost use Rattle.std.specs.Prelude.{◌≡◌, ◌<◌, ◌^◌};
ghost use Rattle.time_heat.specs.Duration.{ions_inside};
ghost use Rattle.op_table.specs.Clock.{between_positions, duration, ions_between, item_work, work_of};
ghost use Rattle.op_cells.specs.Settled.{IsLegalSomewhere};

use op_table::{Op, OpKind};
use qccd_circuit::ItemKind;
use qccd_machine::Machine;
use time_heat::{Work, duration};

/// How long the operation takes, in microseconds.
#[inline(always)]
pub(crate) fn time_of(machine: &Machine, op: &Op) -> u64
    requires { IsLegalSomewhere machine.now op.now }
    ensures value { result ≡ duration machine.now op.now }
    ensures small { result < 2 ^ 48 }
{
    // The machine is valid, so that its times are within their bound.
    let _count = machine.traps();
    duration(machine.times(), work_of(machine, op))
}

// What the operation is to the clock.
fn work_of(machine: &Machine, op: &Op) -> Work
    requires { IsLegalSomewhere machine.now op.now }
    ensures value { result ≡ work_of machine.now op.now }
    ensures small { ions_inside result < 256 }
{
    match op.kind() {
        OpKind::Split {
            trap: _,
            end: _,
            seg: _,
        } => Work::Split,
        OpKind::Move { seg: _ } => Work::Move,
        OpKind::Enter { seg: _, junc } => Work::Cross(machine.degree(*junc)),
        OpKind::Leave { junc, seg: _ } => Work::Cross(machine.degree(*junc)),
        OpKind::Merge {
            seg: _,
            trap: _,
            end: _,
        } => Work::Merge,
        OpKind::Rot { trap: _, at: _ } => Work::Rot,
        OpKind::GSwap { trap: _, low, high } => Work::GSwap(ions_between(*low, *high)),
        OpKind::Item {
            number: _,
            trap: _,
            item,
            at,
        } => item_work(item.kind(), at.as_slice()),
        OpKind::Fence {
            number: _,
            item: _,
            traps: _,
        } => Work::Fence,
    }
}

// What an item on these positions is to the clock.
fn item_work(kind: ItemKind, at: &[u8]) -> Work
    ensures value { result ≡ item_work kind at.now }
    ensures small { ions_inside result < 256 }
{
    match kind {
        ItemKind::Gate1 => Work::Gate1,
        ItemKind::Gate2 => Work::Gate2(between_positions(at)),
        ItemKind::Measure => Work::Measure,
        ItemKind::Reset => Work::Reset,
        ItemKind::Barrier => Work::Fence,
    }
}

// How many ions stand between the first two positions.
fn between_positions(at: &[u8]) -> u8
    ensures value { result ≡ between_positions at.now }
    ensures small { result < 256 }
{
    match at {
        [first, second, ..] => ions_between(*first, *second),
        _ => 0,
    }
}

// How many ions stand between two positions.
fn ions_between(first: u8, second: u8) -> u8
    ensures value { result ≡ ions_between first second }
    ensures small { result < 256 }
{
    first.abs_diff(second).saturating_sub(1)
}
