//! An operation on the contents that it touches.

ghost use Rattle.std.specs.Prelude.{◌≡◌, ◌<◌, ◌^◌, ◌∷◌, [], length};
ghost use Rattle.op_table.specs.Act.{acted};
ghost use Rattle.op_table.specs.Contents.{heat_held};
ghost use Rattle.op_table.specs.Touch.{touches};
ghost use Rattle.op_cells.specs.Settled.{IsLegalOn};

use crate::effects::{advance, enter, exchange, leave, merge, rotate, split};
use crate::ends::joined_end;
use op_table::{Content, Op, OpKind};
use qccd_machine::{Machine, Place};

/// Does an operation that touches one resource.
#[inline(always)]
pub(crate) fn change_one(machine: &Machine, op: &Op, content: &mut Content)
    requires one { length (touches op.now) ≡ 1 }
    requires legal { IsLegalOn machine.now op.now (content.old ∷ []) }
    requires heat { heat_held content.old < 2 ^ 62 }
    ensures { content.new ∷ [] ≡ acted machine.now op.now (content.old ∷ []) }
{
    match op.kind() {
        OpKind::Move { seg: _ } => advance(content),
        OpKind::Rot { trap: _, at } => rotate(content, *at),
        OpKind::GSwap { trap: _, low, high } => exchange(content, *low, *high),
        OpKind::Split {
            trap: _,
            end: _,
            seg: _,
        } => {}
        OpKind::Enter { seg: _, junc: _ } => {}
        OpKind::Leave { junc: _, seg: _ } => {}
        OpKind::Merge {
            seg: _,
            trap: _,
            end: _,
        } => {}
        OpKind::Item {
            number: _,
            trap: _,
            item: _,
            at: _,
        } => {}
        OpKind::Fence {
            number: _,
            item: _,
            traps: _,
        } => {}
    }
}

/// Does an operation that touches two resources.
pub(crate) fn change_two(machine: &Machine, op: &Op, first: &mut Content, second: &mut Content)
    requires two { length (touches op.now) ≡ 2 }
    requires legal { IsLegalOn machine.now op.now (first.old ∷ second.old ∷ []) }
    requires first_heat { heat_held first.old < 2 ^ 62 }
    requires second_heat { heat_held second.old < 2 ^ 62 }
    ensures { first.new ∷ second.new ∷ [] ≡ acted machine.now op.now (first.old ∷ second.old ∷ []) }
{
    match op.kind() {
        OpKind::Split { trap, end, seg } => {
            let onto = joined_end(machine, *seg, Place::TrapEnd(*trap, *end));
            split(first, second, *end, onto);
        }
        OpKind::Enter { seg: _, junc: _ } => enter(first, second),
        OpKind::Leave { junc, seg } => {
            let onto = joined_end(machine, *seg, Place::Junction(*junc));
            leave(first, second, onto);
        }
        OpKind::Merge {
            seg: _,
            trap: _,
            end,
        } => {
            // The machine is valid, so that no trap takes more than 32 ions.
            let _traps = machine.traps();
            merge(first, second, *end);
        }
        OpKind::Move { seg: _ } => {}
        OpKind::Rot { trap: _, at: _ } => {}
        OpKind::GSwap {
            trap: _,
            low: _,
            high: _,
        } => {}
        OpKind::Item {
            number: _,
            trap: _,
            item: _,
            at: _,
        } => {}
        OpKind::Fence {
            number: _,
            item: _,
            traps: _,
        } => {}
    }
}
