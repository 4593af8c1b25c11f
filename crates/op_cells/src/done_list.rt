//! The log of a cell.

ghost use Rattle.std.specs.Prelude.{◌≡◌, ◌<◌, ◌+◌, ◌-◌, ◌≤◌, ◌++◌, ◌∷◌, [], IfOk};
ghost use Rattle.op_cells.specs.Log.{LogData};

use crate::cells::Done;
use qccd_base::NoMemory;
use std::alloc::Global;
use std::marker::Model;

/// What was done, in order, and how many entries may follow with no more memory.
#[derive(Debug, Drop)]
pub struct DoneList {
    done: Vec<Done>,
    room: usize,
}

impl Model for DoneList {
    ghost use Rattle.std.specs.Prelude.{◌+◌, ◌≤◌, vec_len, vec_capacity};
    ghost use Rattle.op_cells.specs.Log.{LogData};

    ghost Value = { LogData };

    ghost view = { λ a. record { entries = a.done.items; spare = a.room } };

    ghost invariant = { λ a. vec_len a.done + a.room ≤ vec_capacity a.done };
}

impl DoneList {
    /// An empty log with room for so many entries.
    pub fn with_room(alloc: Global, room: u32) -> Result<DoneList, NoMemory>
        ensures { IfOk result (λ log. log ≡ record { entries = []; spare = room }) }
    {
        let done = Vec::with_capacity(alloc, room as usize)?;
        Ok(DoneList {
            done,
            room: room as usize,
        })
    }

    /// The entries, in order.
    pub fn as_slice(&self) -> &[Done]
        ensures { result.now ≡ self.now.entries }
    {
        self.done.as_slice()
    }

    /// For how many entries more there is room.
    pub fn room(&self) -> usize
        ensures { result ≡ self.now.spare }
    {
        self.room
    }

    /// Puts an entry at the end. It takes no memory.
    pub fn note(&mut self, done: Done)
        requires { 0 < self.old.spare }
        ensures { self.new ≡ record { entries = self.old.entries ++ done ∷ []; spare = self.old.spare - 1 } }
    {
        let Ok(()) = self.done.push(done) else {
            unreachable!()
        };
        self.room -= 1;
    }
}
