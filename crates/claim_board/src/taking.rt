//! Taking the resources of an operation, with their cells.

ghost use Rattle.std.specs.Prelude.{◌≡◌, ◌≢◌, ◌+◌, ◌*◌, ◌<◌, ◌≤◌, ◌++◌, ◌∷◌, ℕ, [], true, None, Some, length, vec_capacity, vec_len, IfSome, IfNone, slice_get};
ghost use Rattle.qccd_base.specs.declared.names.Res.{Res};
ghost use Rattle.qccd_base.specs.Resource.{among};
ghost use Rattle.op_cells.specs.declared.cells.Cell.{Cell};
ghost use Rattle.op_cells.specs.Numbering.{index_of};
ghost use Rattle.op_table.specs.Touch.{nth};
ghost use Rattle.atomic_table.specs.Table.{rest};
ghost use Rattle.claim_core.specs.Event.{touched};
ghost use Rattle.claim_board.specs.declared.view.View.{View};
ghost use Rattle.claim_board.specs.Pass.{Answered, HasTaken, Looked, Sits};
ghost use Rattle.claim_board.specs.Plays.{MayBegin, Takes, after_begin};
ghost use Rattle.claim_board.specs.View.{seen_of};

use crate::claimed::Claimed;
use crate::reading::{index_in, needed, note, touched_by, why_not};
use crate::steps::{begin, reach};
use crate::view::{Place, Top};
use op_cells::Held;
use qccd_base::Res;
use qccd_program::Program;

/// Begins an operation at its first resource, or tells why that is not free at the operation's turn.
pub(crate) fn begin_at(
    top: &Top,
    program: &Program,
    place: &mut Place,
    seen: &mut Vec<u32>,
    number: u32,
    k: u32,
    r: Res,
) -> Option<Claimed>
    requires table { place.old.table_id ≡ top.now.table_id }
    requires sits { Sits program.now place.old.table_id.words place.old.me.0 seen.old.items }
    requires number { (place.old.me.0.number ≡ number) × (number < 16) }
    requires may { MayBegin place.old.me.0 k r }
    requires first { slice_get (touched program.now.ops k) 0 ≡ Some r }
    ensures seat { (place.new.table_id ≡ place.old.table_id) × (place.new.id ≡ place.old.id) }
    ensures sits { Sits program.now place.new.table_id.words place.new.me.0 seen.new.items }
    ensures told { IfSome result (λ a. Looked place.old.me.0 place.new.me.0 1 × (place.new.me.1 ≡ place.old.me.1) × Answered place.old.me.0 place.new.me.0 k [] a) }
    ensures begun { IfNone result (Takes program.now r (nth program.now.ops k r) place.old.me (after_begin k r place.old.me.0) place.new.me) }
{
    let i = index_in(program, r);
    let turn = needed(program, k, 0, r);
    let free = 32 * u64::from(turn);
    let found = begin(top, place, i, free, free + u64::from(number) + 1);
    if found == free {
        note(seen, i, turn);
        None
    } else {
        note(seen, i, (found / 32) as u32);
        Some(why_not(r, found, turn))
    }
}

/// Takes the cell out of the slot that the place took last.
pub(crate) fn take_out(top: &Top, place: &mut Place, cells: &mut Vec<Held>, i: usize, r: Res)
    requires table { place.old.table_id ≡ top.now.table_id }
    requires taken { (c : Cell) × (place.old.me.1 ≡ (i, Some c) ∷ rest place.old.me.1) }
    requires room { vec_len cells.old < vec_capacity cells.old }
    ensures seat { (place.new.table_id ≡ place.old.table_id) × (place.new.id ≡ place.old.id) × (place.new.me ≡ (place.old.me.0, (i, None) ∷ rest place.old.me.1)) }
    ensures cells { (c : Cell) × (place.old.me.1 ≡ (i, Some c) ∷ rest place.old.me.1) × (cells.new.items ≡ cells.old.items ++ record { res = r; cell = c } ∷ []) }
    ensures room { vec_capacity cells.old ≤ vec_capacity cells.new }
{
    let Some(cell) = top.exchange(place, i, None) else {
        unreachable!()
    };
    let Ok(()) = cells.push(Held { res: r, cell }) else {
        unreachable!()
    };
}

/// Takes the j-th resource of the operation in hand, which is r.
pub(crate) fn reach_one(
    top: &Top,
    program: &Program,
    place: &mut Place,
    seen: &mut Vec<u32>,
    cells: &mut Vec<Held>,
    number: u32,
    k: u32,
    j: usize,
    r: Res,
)
    requires table { place.old.table_id ≡ top.now.table_id }
    requires sits { Sits program.now place.old.table_id.words place.old.me.0 seen.old.items }
    requires number { (place.old.me.0.number ≡ number) × (number < 16) }
    requires there { k < length program.now.ops }
    requires at { slice_get (touched program.now.ops k) j ≡ Some r }
    requires room { length (touched program.now.ops k) ≤ vec_capacity cells.old }
    requires taken { (v : View) × (v.program ≡ program.now) × HasTaken v place.old.me cells.old.items k j }
    ensures seat { (place.new.table_id ≡ place.old.table_id) × (place.new.id ≡ place.old.id) }
    ensures sits { Sits program.now place.new.table_id.words place.new.me.0 seen.new.items }
    ensures taken { (v : View) → v.program ≡ program.now → HasTaken v place.old.me cells.old.items k j → HasTaken v place.new.me cells.new.items k (j + 1) }
    ensures room { vec_capacity cells.old ≤ vec_capacity cells.new }
{
    let i = index_in(program, r);
    let turn = needed(program, k, j, r);
    let free = 32 * u64::from(turn);
    reach(top, place, i, free, free + u64::from(number) + 1);
    note(seen, i, turn);
    take_out(top, place, cells, i, r);
}

/// Begins an operation whose resources were all seen at its turn or past it, and takes the cells; or tells why
/// its first resource is not free at that turn.
pub(crate) fn take_all(
    top: &Top,
    program: &Program,
    place: &mut Place,
    seen: &mut Vec<u32>,
    cells: &mut Vec<Held>,
    number: u32,
    k: u32,
) -> Option<Claimed>
    requires table { place.old.table_id ≡ top.now.table_id }
    requires sits { Sits program.now place.old.table_id.words place.old.me.0 seen.old.items }
    requires number { (place.old.me.0.number ≡ number) × (number < 16) }
    requires empty { (place.old.me.0.op ≡ None) × (place.old.me.1 ≡ []) × (cells.old.items ≡ []) }
    requires there { k < length program.now.ops }
    requires room { length (touched program.now.ops k) ≤ vec_capacity cells.old }
    requires free { (r : Res) → among (touched program.now.ops k) r ≡ true → nth program.now.ops k r ≤ seen_of place.old.me.0 r }
    ensures seat { (place.new.table_id ≡ place.old.table_id) × (place.new.id ≡ place.old.id) }
    ensures sits { Sits program.now place.new.table_id.words place.new.me.0 seen.new.items }
    ensures room { vec_capacity cells.old ≤ vec_capacity cells.new }
    ensures told { IfSome result (λ a. Looked place.old.me.0 place.new.me.0 1 × (place.new.me.1 ≡ place.old.me.1) × (cells.new.items ≡ cells.old.items) × Answered place.old.me.0 place.new.me.0 k [] a) }
    ensures taken { IfNone result (HasTaken place.old.me.0 place.new.me cells.new.items k (length (touched program.now.ops k))) }
{
    let _ops = program.ops();
    let touched = touched_by(program, k);
    let first = touched[0];
    let why = begin_at(top, program, place, seen, number, k, first);
    if why.is_some() {
        return why;
    }
    take_out(top, place, cells, index_in(program, first), first);
    for j in 1..touched.len() {
        reach_one(top, program, place, seen, cells, number, k, j, touched[j]);
    }
    None
}
