//! Looks at the words of an operation's resources.

ghost use Rattle.std.specs.Prelude.{◌≡◌, ◌≢◌, ◌+◌, ◌*◌, ◌<◌, ◌≤◌, ℕ, [], true, None, Some, length, IfSome, IfNone, slice_get};
ghost use Rattle.qccd_base.specs.declared.names.Res.{Res};
ghost use Rattle.qccd_base.specs.Resource.{among};
ghost use Rattle.op_cells.specs.Numbering.{index_of};
ghost use Rattle.op_table.specs.Touch.{nth};
ghost use Rattle.claim_core.specs.Board.{is_there};
ghost use Rattle.claim_core.specs.Event.{touched};
ghost use Rattle.claim_board.specs.Pass.{Answered, Looked, Sits, told, why_not};
ghost use Rattle.claim_board.specs.Plays.{after_look};
ghost use Rattle.claim_board.specs.View.{seen_also, seen_of, turn_in};

use crate::claimed::Claimed;
use crate::steps::look;
use crate::view::{Place, Top};
use op_cells::index_of;
use qccd_base::Res;
use qccd_program::Program;

/// Notes that a resource was seen at this turn.
pub(crate) fn note(seen: &mut Vec<u32>, i: usize, turn: u32)
    requires { i < length seen.old.items }
    ensures { seen.new.items ≡ seen_also seen.old.items i turn }
{
    seen[i] = seen[i].max(turn);
}

/// What an operation touches.
#[tactic(auto, using(claim_core::proofs::Coded::listed))]
pub(crate) fn touched_by(program: &Program, op: u32) -> &[Res]
    requires op { op < length program.now.ops }
    ensures { result.now ≡ touched program.now.ops op }
{
    program.ops()[op as usize].touches()
}

/// The number of a resource.
pub(crate) fn index_in(program: &Program, r: Res) -> usize
    ensures { result ≡ index_of program.now.machine r }
{
    index_of(program.machine(), r)
}

/// The turn at which an operation needs its i-th resource, which is r.
pub(crate) fn needed(program: &Program, op: u32, i: usize, r: Res) -> u32
    requires op { op < length program.now.ops }
    requires there { slice_get (touched program.now.ops op) i ≡ Some r }
    ensures value { result ≡ nth program.now.ops op r }
    ensures small { result ≤ 4194304 }
    ensures there { is_there program.now r ≡ true }
{
    let _ops = program.ops();
    program.nth(op, i)
}

/// Why a resource whose word was found is not free at the turn that is needed.
pub(crate) fn why_not(res: Res, found: u64, needed: u32) -> Claimed
    requires { turn_in found ≤ 4194304 }
    ensures { result ≡ why_not res found needed }
{
    let turn = (found / 32) as u32;
    if turn < needed {
        Claimed::NotNow { res, turn, needed }
    } else {
        let held = found % 32 > 0;
        Claimed::Gone { res, turn, held }
    }
}

/// Looks at a resource, and tells why it is not free at the turn that is needed.
pub(crate) fn look_at(
    top: &Top,
    program: &Program,
    place: &mut Place,
    seen: &mut Vec<u32>,
    r: Res,
    needed: u32,
) -> Option<Claimed>
    requires table { place.old.table_id ≡ top.now.table_id }
    requires sits { Sits program.now place.old.table_id.words place.old.me.0 seen.old.items }
    requires there { is_there program.now r ≡ true }
    requires small { needed ≤ 4194304 }
    ensures seat { (place.new.table_id ≡ place.old.table_id) × (place.new.id ≡ place.old.id) × (place.new.me.1 ≡ place.old.me.1) }
    ensures sits { Sits program.now place.new.table_id.words place.new.me.0 seen.new.items }
    ensures view { (x : ℕ) × (place.new.me.0 ≡ after_look (index_of program.now.machine r) x place.old.me.0) × (result ≡ told r x needed) }
{
    let i = index_in(program, r);
    let found = look(top, place, i);
    note(seen, i, (found / 32) as u32);
    if found == 32 * u64::from(needed) {
        None
    } else {
        Some(why_not(r, found, needed))
    }
}

/// Looks at each resource of an operation, until one is not free at the operation's turn.
pub(crate) fn look_at_all(
    top: &Top,
    program: &Program,
    place: &mut Place,
    seen: &mut Vec<u32>,
    k: u32,
) -> Option<Claimed>
    requires table { place.old.table_id ≡ top.now.table_id }
    requires sits { Sits program.now place.old.table_id.words place.old.me.0 seen.old.items }
    requires empty { place.old.me.0.op ≡ None }
    requires there { k < length program.now.ops }
    ensures seat { (place.new.table_id ≡ place.old.table_id) × (place.new.id ≡ place.old.id) × (place.new.me.1 ≡ place.old.me.1) }
    ensures sits { Sits program.now place.new.table_id.words place.new.me.0 seen.new.items }
    ensures looked { Looked place.old.me.0 place.new.me.0 (length (touched program.now.ops k)) }
    ensures told { IfSome result (λ a. Answered place.old.me.0 place.new.me.0 k [] a) }
    ensures free { IfNone result ((r : Res) → among (touched program.now.ops k) r ≡ true → nth program.now.ops k r ≤ seen_of place.new.me.0 r) }
{
    let touched = touched_by(program, k);
    for (i, r) in touched.iter().enumerate() {
        let turn = needed(program, k, i, *r);
        let why = look_at(top, program, place, seen, *r, turn);
        if why.is_some() {
            return why;
        }
    }
    None
}
