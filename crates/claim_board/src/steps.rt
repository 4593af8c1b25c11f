//! The steps on a word, each with what it makes of a pass.

ghost use Rattle.std.specs.Prelude.{◌≡◌, ◌≢◌, ◌+◌, ◌*◌, ◌<◌, ◌≤◌, ◌∷◌, [], ℕ, true, Some, None, List};
ghost use Rattle.qccd_base.specs.declared.names.Res.{Res};
ghost use Rattle.op_cells.specs.declared.cells.Cell.{Cell};
ghost use Rattle.op_cells.specs.Numbering.{index_of};
ghost use Rattle.op_table.specs.Touch.{nth};
ghost use Rattle.atomic_table.specs.Table.{rest};
ghost use Rattle.qccd_program.specs.CellOfRun.{IsCell};
ghost use Rattle.claim_core.specs.Board.{is_there};
ghost use Rattle.claim_board.specs.Plays.{MayBegin, MayGive, MayReach, Takes, after_begin, after_give, after_look, after_reach, comes, joined, stays};
ghost use Rattle.claim_board.specs.View.{turn_in};

use crate::plays::{Begin, Cut, Give, Look, Merge, Reach};
use crate::view::{Place, Top};

/// Reads a word.
pub(crate) fn look(top: &Top, place: &mut Place, i: usize) -> u64
    requires table { (place.old.table_id ≡ top.now.table_id) × (i < top.now.table_id.words) }
    requires live { place.old.me.0.live ≡ true }
    requires res { (r : Res) × (is_there place.old.me.0.program r ≡ true) × (index_of place.old.me.0.program.machine r ≡ i) }
    ensures seat { (place.new.table_id ≡ place.old.table_id) × (place.new.id ≡ place.old.id) }
    ensures view { place.new.me ≡ (after_look i result place.old.me.0, place.old.me.1) }
    ensures turn { turn_in result ≤ 4194304 }
{
    top.load::<Look>(place, i)
}

/// Takes the first word of an operation, if it is free at its turn; else it was looked at.
pub(crate) fn begin(top: &Top, place: &mut Place, i: usize, free: u64, taken: u64) -> u64
    requires table { (place.old.table_id ≡ top.now.table_id) × (i < top.now.table_id.words) }
    requires asks { (k : ℕ) × (r : Res) × MayBegin place.old.me.0 k r × (index_of place.old.me.0.program.machine r ≡ i) × (free ≡ 32 * nth place.old.me.0.program.ops k r) × (taken ≡ free + (place.old.me.0.number + 1)) }
    ensures seat { (place.new.table_id ≡ place.old.table_id) × (place.new.id ≡ place.old.id) }
    ensures taken { result ≡ free → (k : ℕ) (r : Res) → MayBegin place.old.me.0 k r → index_of place.old.me.0.program.machine r ≡ i → free ≡ 32 * nth place.old.me.0.program.ops k r → Takes place.old.me.0.program r (nth place.old.me.0.program.ops k r) place.old.me (after_begin k r place.old.me.0) place.new.me }
    ensures looked { result ≢ free → (place.new.me ≡ (after_look i result place.old.me.0, place.old.me.1)) × (turn_in result ≤ 4194304) }
{
    top.compare_exchange::<Begin>(place, i, free, taken)
}

/// Takes a further word of the operation in hand, which is free at its turn.
pub(crate) fn reach(top: &Top, place: &mut Place, i: usize, free: u64, taken: u64)
    requires table { (place.old.table_id ≡ top.now.table_id) × (i < top.now.table_id.words) }
    requires asks { (k : ℕ) × (r : Res) × MayReach place.old.me.0 k r × (index_of place.old.me.0.program.machine r ≡ i) × (free ≡ 32 * nth place.old.me.0.program.ops k r) × (taken ≡ free + (place.old.me.0.number + 1)) }
    ensures seat { (place.new.table_id ≡ place.old.table_id) × (place.new.id ≡ place.old.id) }
    ensures taken { (k : ℕ) (r : Res) → MayReach place.old.me.0 k r → index_of place.old.me.0.program.machine r ≡ i → Takes place.old.me.0.program r (nth place.old.me.0.program.ops k r) place.old.me (after_reach k r place.old.me.0) place.new.me }
{
    top.compare_exchange::<Reach>(place, i, free, taken);
}

/// Gives a resource back, whose cell is the one that the place took last.
pub(crate) fn give(top: &Top, place: &mut Place, i: usize, next: u64)
    requires table { (place.old.table_id ≡ top.now.table_id) × (i < top.now.table_id.words) }
    requires asks { (k : ℕ) × (r : Res) × (c : Cell) × MayGive place.old.me.0 k r × (index_of place.old.me.0.program.machine r ≡ i) × (next ≡ 32 * (nth place.old.me.0.program.ops k r + 1)) × (place.old.me.1 ≡ (i, Some c) ∷ rest place.old.me.1) × IsCell place.old.me.0.program r (nth place.old.me.0.program.ops k r + 1) c }
    ensures seat { (place.new.table_id ≡ place.old.table_id) × (place.new.id ≡ place.old.id) }
    ensures given { (k : ℕ) (r : Res) → MayGive place.old.me.0 k r → index_of place.old.me.0.program.machine r ≡ i → place.new.me ≡ (after_give k r place.old.me.0, rest place.old.me.1) }
{
    top.store::<Give>(place, i, next);
}

/// Pass 0 makes the pass with the next number.
pub(crate) fn cut(top: &Top, place: &mut Place) -> Place
    requires table { (place.old.table_id ≡ top.now.table_id) × (0 < top.now.table_id.words) }
    requires live { place.old.me.0.live ≡ true }
    requires first { place.old.me.0.number ≡ 0 }
    requires more { place.old.me.0.made < place.old.me.0.workers }
    ensures seat { (place.new.table_id ≡ place.old.table_id) × (place.new.id ≡ place.old.id) × (place.new.me ≡ (stays place.old.me.0, place.old.me.1)) }
    ensures made { (result.table_id ≡ place.old.table_id) × (result.me ≡ (comes place.old.me.0, [])) }
{
    top.split_seat::<Cut>(place)
}

/// A pass takes in another, which has nothing in hand.
pub(crate) fn merge(top: &Top, place: &mut Place, other: Place)
    requires table { (place.old.table_id ≡ top.now.table_id) × (other.table_id ≡ top.now.table_id) × (0 < top.now.table_id.words) }
    requires live { (place.old.me.0.live ≡ true) × (other.me.0.live ≡ true) }
    requires empty { (other.me.0.op ≡ None) × (other.me.1 ≡ []) }
    ensures { (place.new.table_id ≡ place.old.table_id) × (place.new.id ≡ place.old.id) × (place.new.me ≡ (joined place.old.me.0 other.me.0, place.old.me.1)) }
{
    top.join_seat::<Merge>(place, other);
}
