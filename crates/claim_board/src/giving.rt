//! Giving the resources of an operation back, with their cells.

ghost use Rattle.std.specs.Prelude.{◌≡◌, ◌+◌, ◌<◌, ◌≤◌, ℕ, List, [], None, Some, length, take, vec_capacity, slice_get};
ghost use Rattle.op_cells.specs.declared.cells.Held.{Held};
ghost use Rattle.qccd_base.specs.declared.names.Res.{Res};
ghost use Rattle.qccd_program.specs.CellOfRun.{IsCell};
ghost use Rattle.claim_core.specs.Event.{touched};
ghost use Rattle.claim_board.specs.declared.view.View.{View};
ghost use Rattle.claim_board.specs.Pass.{AreCells, HasGiven, IsWhole, Sits, next_turn};

use crate::reading::{index_in, needed, note};
use crate::steps::give;
use crate::view::{Place, Top};
use op_cells::Held;
use qccd_program::Program;

/// Puts the cell of the n-th resource of the operation in hand home, and gives the resource back.
pub(crate) fn give_one(
    top: &Top,
    program: &Program,
    place: &mut Place,
    seen: &mut Vec<u32>,
    k: u32,
    n: usize,
    held: Held,
)
    requires table { place.old.table_id ≡ top.now.table_id }
    requires sits { Sits program.now place.old.table_id.words place.old.me.0 seen.old.items }
    requires there { (k < length program.now.ops) × (n < length (touched program.now.ops k)) }
    requires held { (slice_get (touched program.now.ops k) n ≡ Some held.res) × IsCell program.now held.res (next_turn program.now k held.res) held.cell }
    requires given { (v : View) × (cells : List Held) × (v.program ≡ program.now) × HasGiven v place.old.me cells k (n + 1) }
    ensures seat { (place.new.table_id ≡ place.old.table_id) × (place.new.id ≡ place.old.id) }
    ensures sits { Sits program.now place.new.table_id.words place.new.me.0 seen.new.items }
    ensures given { (v : View) (cells rest : List Held) → v.program ≡ program.now → HasGiven v place.old.me cells k (n + 1) → AreCells program.now (next_turn program.now k) (take n (touched program.now.ops k)) rest → HasGiven v place.new.me rest k n }
{
    let Held { res, cell } = held;
    let i = index_in(program, res);
    let next = needed(program, k, n, res) + 1;
    top.exchange(place, i, Some(cell));
    give(top, place, i, 32 * u64::from(next));
    note(seen, i, next);
}

/// Gives back all that the operation in hand touches.
pub(crate) fn give_all(
    top: &Top,
    program: &Program,
    place: &mut Place,
    seen: &mut Vec<u32>,
    cells: &mut Vec<Held>,
    k: u32,
)
    requires table { place.old.table_id ≡ top.now.table_id }
    requires sits { Sits program.now place.old.table_id.words place.old.me.0 seen.old.items }
    requires whole { (place.old.me.0.op ≡ Some k) × IsWhole place.old.me.0 place.old.me.1 k }
    requires cells { AreCells program.now (next_turn program.now k) (touched program.now.ops k) cells.old.items }
    ensures seat { (place.new.table_id ≡ place.old.table_id) × (place.new.id ≡ place.old.id) }
    ensures sits { Sits program.now place.new.table_id.words place.new.me.0 seen.new.items }
    ensures given { HasGiven place.old.me.0 place.new.me [] k 0 }
    ensures cells { cells.new.items ≡ [] }
    ensures room { vec_capacity cells.new ≡ vec_capacity cells.old }
{
    let _ops = program.ops();
    while let Some(held) = cells.pop() {
        give_one(top, program, place, seen, k, cells.len(), held);
    }
}
