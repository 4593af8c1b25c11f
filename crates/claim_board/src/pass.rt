//! A worker's part of a deck.

ghost use Rattle.std.specs.Prelude.{◌≡◌, ◌+◌, ◌<◌, ◌≤◌, ℕ, [], true, None, Some, length, vec_capacity, vec_len};
ghost use Rattle.claim_core.specs.Board.{width};
ghost use Rattle.claim_core.specs.Event.{touched};
ghost use Rattle.claim_board.specs.Pass.{IsWhole};

use crate::view::Place;
use op_cells::Held;

/// Where the numbers of segments, junctions and bits begin.
#[derive(Clone, Copy, Debug)]
pub(crate) struct Bounds {
    pub(crate) segments: usize,
    pub(crate) junctions: usize,
    pub(crate) bits: usize,
}

/// One worker's part of a deck: its number, what it has in hand, and the turns that it has seen.
#[derive(Drop)]
pub struct Pass {
    pub(crate) place: Place,
    pub(crate) number: u32,
    pub(crate) op: Option<u32>,
    pub(crate) seen: Vec<u32>,
    pub(crate) cells: Vec<Held>,
    pub(crate) bounds: Bounds,
    pub ghost live: { place.me.0.live ≡ true },
    pub ghost words: { place.table_id.words ≡ width place.me.0.program },
    pub ghost few: { number < 16 },
    pub ghost number_is: { place.me.0.number ≡ number },
    pub ghost op_is: { place.me.0.op ≡ op },
    pub ghost seen_is: { place.me.0.seen ≡ seen.items },
    pub ghost long: { length seen.items ≡ width place.me.0.program },
    pub ghost empty: { op ≡ None → place.me.1 ≡ [] },
    pub ghost none: { op ≡ None → vec_len cells ≡ 0 },
    pub ghost whole: { (k : ℕ) → op ≡ Some k → IsWhole place.me.0 place.me.1 k },
    pub ghost room: { (k : ℕ) → length (touched place.me.0.program.ops k) ≤ vec_capacity cells },
    pub ghost segments: { bounds.segments ≡ length place.me.0.program.machine.capacities },
    pub ghost junctions: { bounds.junctions ≡ bounds.segments + length place.me.0.program.machine.segments },
    pub ghost bits: { bounds.bits ≡ bounds.junctions + place.me.0.program.machine.junctions },
}
