//! Closing a deck.

ghost use Rattle.std.specs.Prelude.{◌≡◌, ◌⊎◌, ◌<◌, ◌≤◌, ℕ, true, List, [], All, length, map, None, Some, slice_get, sum_by, vec_capacity};
ghost use Rattle.std.specs.Slots.{slots_items, slots_len, IsFull};
ghost use Rattle.qccd_base.specs.declared.names.Res.{Res};
ghost use Rattle.op_cells.specs.declared.cells.Cell.{Cell};
ghost use Rattle.qccd_program.specs.AllCells.{AtTurns};
ghost use Rattle.claim_core.specs.Board.{is_there, width};
ghost use Rattle.claim_board.specs.declared.pass.Pass.{Pass};
ghost use Rattle.claim_board.specs.Close.{IsAtRest, turn_of};
ghost use Rattle.claim_board.specs.Deck.{AreAll, HasJoined, program_of, view_of};
ghost use Rattle.claim_board.specs.View.{seen_of, turn_in};

use crate::deck::Deck;
use crate::pass::Pass;
use crate::steps::merge;
use crate::view::{Place, Top};
use op_cells::{Cell, Cells};
use std::alloc::Global;

/// What is left of a deck: the cells, and the turn that each resource has come to, by its number.
#[derive(Debug, Drop)]
pub struct Closed {
    /// The cell of each resource, in their order.
    pub cells: Cells,
    /// How often each resource was given back, in their order.
    pub turns: Vec<u32>,
}

// One place that takes in those of all passes.
fn join_all(top: &Top, passes: Vec<Pass>) -> Place
    requires words { 0 < top.now.table_id.words }
    requires some { 0 < length passes.items }
    requires each { All (λ q. (q.place.table_id ≡ top.now.table_id) × ((view_of q).program ≡ top.now.key.program.value) × ((view_of q).op ≡ None)) passes.items }
    ensures table { result.table_id ≡ top.now.table_id }
    ensures joined { HasJoined top.now.key.program.value result.me.0 passes.items }
{
    let mut passes = passes;
    let Some(last) = passes.pop() else {
        unreachable!()
    };
    let Pass { mut place, .. } = last;
    while let Some(pass) = passes.pop() {
        let Pass { place: other, .. } = pass;
        merge(top, &mut place, other);
    }
    place
}

// Takes all cells and turns out of a table that no thread shares any more.
fn take_out_all(
    closed: atomic_table::Closed<Option<Cell>, Global>,
    cells: Vec<Cell>,
    turns: Vec<u32>,
) -> Closed
    requires full { IsFull closed.words × IsFull closed.slots }
    requires same { slots_len closed.words ≡ slots_len closed.slots }
    requires there { (cs : List Cell) × (slots_items closed.slots ≡ map Some cs) }
    requires small { All (λ x. turn_in x ≤ 4194304) (slots_items closed.words) }
    requires cells_room { (cells.items ≡ []) × (slots_len closed.slots ≤ vec_capacity cells) }
    requires turns_room { (turns.items ≡ []) × (slots_len closed.slots ≤ vec_capacity turns) }
    ensures cells { map Some result.cells ≡ slots_items closed.slots }
    ensures turns { result.turns.items ≡ map turn_in (slots_items closed.words) }
{
    let mut closed = closed;
    let mut cells = cells;
    let mut turns = turns;
    for i in 0..closed.slot_count() {
        let word = closed.word(i);
        let Some(cell) = closed.take(i) else {
            unreachable!()
        };
        let Ok(()) = cells.push(cell) else {
            unreachable!()
        };
        let Ok(()) = turns.push((word / 32) as u32) else {
            unreachable!()
        };
    }
    closed.free();
    Closed {
        cells: Cells::of_list(cells),
        turns,
    }
}

impl Deck {
    /// Takes the deck apart, once its passes are all here with nothing in hand. Each cell is that of the run at the
    /// turn that its resource has come to. By these turns each operation is finished or not begun. It takes no
    /// memory.
    pub fn close(self, passes: Vec<Pass>) -> Closed
        requires passes { AreAll self passes.items }
        ensures cells { AtTurns (program_of self) (turn_of (program_of self) result.turns.items) result.cells }
        ensures long { length result.turns.items ≡ width (program_of self) }
        ensures seen { (i : ℕ) (q : Pass) (r : Res) → slice_get passes.items i ≡ Some q → is_there (program_of self) r ≡ true → seen_of (view_of q) r ≤ turn_of (program_of self) result.turns.items r }
        ensures rest { IsAtRest (program_of self).ops (turn_of (program_of self) result.turns.items) (sum_by (λ q. (view_of q).begun) passes.items) }
    {
        let Deck {
            words,
            cells,
            turns,
        } = self;
        let place = join_all(&words.shared, passes);
        let closed = words.close_with(place);
        take_out_all(closed, cells, turns)
    }
}
