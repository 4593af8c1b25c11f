//! What a board asks of a program: what an operation touches and when, and flags by a resource's number.

ghost use Rattle.std.specs.Prelude.{◌≡◌, ◌<◌, true, Some, length, slice_get};
ghost use Rattle.std.specs.List.{list_all};
ghost use Rattle.qccd_base.specs.Resource.{among, same_res};
ghost use Rattle.op_table.specs.Touch.{nth};
ghost use Rattle.claim_core.specs.Board.{flag_at, is_there, width};
ghost use Rattle.claim_core.specs.Event.{is_op, left_in_hand, touched};
ghost use Rattle.claim_core.specs.Coded.{Claims};

use op_cells::index_of;
use qccd_base::Res;
use qccd_program::Program;

// Whether the two are one resource.
fn is_same(q: Res, r: Res) -> bool
    ensures { result ≡ same_res q r }
{
    match (q, r) {
        (Res::Trap(a), Res::Trap(b)) => a.0 == b.0,
        (Res::Trap(_), Res::Seg(_)) => false,
        (Res::Trap(_), Res::Junc(_)) => false,
        (Res::Trap(_), Res::Bit(_)) => false,
        (Res::Seg(_), Res::Trap(_)) => false,
        (Res::Seg(a), Res::Seg(b)) => a.0 == b.0,
        (Res::Seg(_), Res::Junc(_)) => false,
        (Res::Seg(_), Res::Bit(_)) => false,
        (Res::Junc(_), Res::Trap(_)) => false,
        (Res::Junc(_), Res::Seg(_)) => false,
        (Res::Junc(a), Res::Junc(b)) => a.0 == b.0,
        (Res::Junc(_), Res::Bit(_)) => false,
        (Res::Bit(_), Res::Trap(_)) => false,
        (Res::Bit(_), Res::Seg(_)) => false,
        (Res::Bit(_), Res::Junc(_)) => false,
        (Res::Bit(a), Res::Bit(b)) => a.0 == b.0,
    }
}

/// Whether the resource stands in the list.
pub(crate) fn is_among(list: &[Res], r: Res) -> bool
    ensures { result ≡ among list.now r }
{
    for q in list {
        if is_same(*q, r) {
            return true;
        }
    }
    false
}

/// Whether the operation is the one in hand.
pub(crate) fn is_in_hand(hand: Option<u32>, op: u32) -> bool
    ensures { result ≡ is_op hand op }
{
    match hand {
        Some(k) => k == op,
        None => false,
    }
}

/// What an operation touches.
#[tactic(auto, using(crate::proofs::Coded::listed))]
pub(crate) fn touched_by(program: &Program, op: u32) -> &[Res]
    requires op { op < length program.now.ops }
    ensures { result.now ≡ touched program.now.ops op }
{
    program.ops()[op as usize].touches()
}

/// The turn at which an operation needs its i-th resource, which is r.
pub(crate) fn needed(program: &Program, op: u32, i: usize, r: Res) -> u32
    requires op { op < length program.now.ops }
    requires there { slice_get (touched program.now.ops op) i ≡ Some r }
    ensures { result ≡ nth program.now.ops op r }
{
    program.nth(op, i)
}

/// The flag of a resource.
#[tactic(auto, using(crate::proofs::Coded::coded))]
pub(crate) fn flag(flags: &[bool], program: &Program, r: Res) -> bool
    requires there { is_there program.now r ≡ true }
    requires wide { length flags.now ≡ width program.now }
    ensures { result ≡ flag_at program.now flags.now r }
{
    flags[index_of(program.machine(), r)]
}

// Whether the flags of all resources of the operation are set.
#[tactic(auto, using(crate::proofs::Coded::coded))]
fn all_set(flags: &[bool], program: &Program, op: u32) -> bool
    requires claims { Claims program.now }
    requires wide { length flags.now ≡ width program.now }
    requires op { op < length program.now.ops }
    ensures { result ≡ list_all (flag_at program.now flags.now) (touched program.now.ops op) }
{
    let touched = touched_by(program, op);
    for r in touched {
        if !flag(flags, program, *r) {
            return false;
        }
    }
    true
}

/// The operation, until it gave all.
pub(crate) fn left(gave: &[bool], program: &Program, op: u32) -> Option<u32>
    requires claims { Claims program.now }
    requires wide { length gave.now ≡ width program.now }
    requires op { op < length program.now.ops }
    ensures { result ≡ left_in_hand program.now op gave.now }
{
    if all_set(gave, program, op) {
        None
    } else {
        Some(op)
    }
}
