//! The deck: a program's resources, each with a word and a slot, shared by many threads.

ghost use Rattle.std.specs.Prelude.{◌≡◌, ◌<◌, ◌≤◌, [], vec_capacity};
ghost use Rattle.claim_core.specs.Board.{width};

use crate::view::Words;
use op_cells::Cell;

/// The resources of a program, which passes claim and hand back.
#[derive(Drop)]
pub struct Deck {
    pub(crate) words: Words,
    // Room for what `close` gives.
    pub(crate) cells: Vec<Cell>,
    pub(crate) turns: Vec<u32>,
    pub ghost wide: { words.shared.table_id.words ≡ width words.shared.key.program.value },
    pub ghost deep: { words.shared.table_id.slots ≡ width words.shared.key.program.value },
    pub ghost some_words: { 0 < words.shared.table_id.words },
    pub ghost some_worker: { 0 < words.shared.key.workers },
    pub ghost no_cells: { cells.items ≡ [] },
    pub ghost no_turns: { turns.items ≡ [] },
    pub ghost cells_room: { width words.shared.key.program.value ≤ vec_capacity cells },
    pub ghost turns_room: { width words.shared.key.program.value ≤ vec_capacity turns },
}
