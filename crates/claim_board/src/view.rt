//! What the words and the slots of a deck stand for, and what a pass knows of them.

use atomic_table::{Seat, Shared, Table, TableRule};
use op_cells::Cell;
use qccd_program::Program;
use std::alloc::Global;
use std::snapshot::Snapshot;

/// What a deck is dealt for: a program, and so many workers.
#[derive(Drop)]
pub struct Key {
    pub program: Snapshot<Program>,
    pub workers: u64,
}

/// What a pass knows. No value of it is made.
pub struct View {
    pub program: Program,
    pub workers: u64,
    /// Whether it was not joined into another pass.
    pub live: bool,
    pub number: u64,
    /// The operation in hand, and which resources it got and gave, by their numbers. A clause reads an array
    /// as a list, of any length.
    pub op: Option<u64>,
    pub got: [bool; 0],
    pub gave: [bool; 0],
    /// How many operations it began, those of passes that were joined into it included.
    pub begun: u64,
    /// In pass 0, how many numbers were given out so far, its own included.
    pub made: u64,
    /// The numbers of the passes that were joined into it.
    pub ended: [u64; 0],
    /// How many loads and failed exchanges it made.
    pub looks: u64,
    /// The number of a resource, its turn, and whether it was held, as the last load or failed exchange gave
    /// them.
    pub last: (u64, u64, bool),
    /// The greatest turn of each resource that it has read or made.
    pub seen: [u64; 0],
}

/// The rule that every step on a deck keeps.
pub struct DeckRule;

impl TableRule<Option<Cell>, View, Key> for DeckRule {
    ghost use Rattle.claim_board.specs.Rule.{Ruled, first_view};

    ghost holds = { Ruled };

    ghost first = { first_view };
}

/// The words and the slots.
pub type Words = Table<Option<Cell>, View, Key, DeckRule, Global>;

/// The same, as threads see them.
pub type Top = Shared<Option<Cell>, View, Key, DeckRule>;

/// A pass's place at them.
pub type Place = Seat<Option<Cell>, View>;
