//! The greatest mark on each operand.

ghost use Rattle.std.specs.Prelude.{◌≡◌, ◌≤◌, ◌∷◌, List, []};
ghost use Rattle.qccd_circuit.specs.Circuit.{IsWithin};
ghost use Rattle.qccd_circuit.specs.Marks.{Marked, AreMarks, mark_before};

use crate::items::Item;
use std::marker::Model;

// A row for each of 256 qubits and each of 256 bits.
const ROWS: usize = 512;

/// For each qubit and each bit the greatest mark of the items on it, and 0 where there is none.
#[derive(Debug, Drop)]
pub struct Marks {
    rows: [u32; ROWS],
}

impl Model for Marks {
    ghost use Rattle.std.specs.Prelude.{List, ℕ};

    ghost Value = { List ℕ };

    ghost view = { λ a. a.rows };
}

impl Marks {
    /// No item has a mark yet.
    pub fn none() -> Marks
        ensures { AreMarks [] result }
    {
        Marks { rows: [0; ROWS] }
    }

    /// The greatest mark of the items that share with this one, and 0 where none does.
    pub fn before(&self, item: &Item) -> u32
        requires within { IsWithin 256 256 item.now }
        ensures { (marked : List Marked) → AreMarks marked self.now → result ≡ mark_before marked item.now }
    {
        let mut greatest = 0;
        for k in 0..item.operand_count() {
            greatest = greatest.max(self.rows[item.operand(k)]);
        }
        greatest
    }

    /// Gives the item a mark that is not below those of the items that share with it.
    pub fn put(&mut self, item: &Item, mark: u32)
        requires within { IsWithin 256 256 item.now }
        ensures { (marked : List Marked) → AreMarks marked self.old → mark_before marked item.now ≤ mark
            → AreMarks (record { item = item.now; mark = mark } ∷ marked) self.new }
    {
        for k in 0..item.operand_count() {
            self.rows[item.operand(k)] = mark;
        }
    }
}
