//! The operations that a round claims.

ghost use Rattle.std.specs.Prelude.{◌≡◌, ◌<◌, ◌≤◌, true, [], length};
ghost use Rattle.claim_board.specs.Deck.{view_of};
ghost use Rattle.workers.specs.Sweep.{HasSeenPast};
ghost use Rattle.workers.specs.Window.{AreThere, Covers, Leaves};

use crate::kind::{WorkerKind, does};
use arrayvec::ArrayVec;
use claim_board::Pass;
use qccd_program::Program;

/// How many operations a round claims at most.
pub(crate) const MOST: usize = 64;

/// The least operations of a kind that were not past, ascending. Those of the kind below `next` that do not stand
/// here are past.
#[derive(Drop)]
pub(crate) struct Window {
    pub(crate) ops: ArrayVec<u32, MOST>,
    pub(crate) next: u32,
}

// Whether the pass has seen the operation past.
fn is_past(program: &Program, pass: &Pass, k: u32) -> bool
    requires together { (view_of pass.now).program ≡ program.now }
    requires there { k < length program.now.ops }
    ensures { result ≡ true → HasSeenPast program.now (view_of pass.now) k }
{
    let touched = program.ops()[k as usize].touches();
    for (i, r) in touched.iter().enumerate() {
        let turn = program.nth(k, i);
        if pass.seen(*r) > turn {
            return true;
        }
    }
    false
}

// Those of the operations that are not past, in their order.
fn without_past(ops: &[u32], program: &Program, pass: &Pass) -> ArrayVec<u32, MOST>
    requires together { (view_of pass.now).program ≡ program.now }
    requires few { length ops.now ≤ 64 }
    requires there { AreThere program.now ops.now }
    ensures { Leaves program.now (view_of pass.now) ops.now result.items }
{
    let mut left = ArrayVec::new();
    for k in ops {
        if !is_past(program, pass, *k) {
            left.push(*k);
        }
    }
    left
}

impl Window {
    /// No operations, before any was looked at.
    pub(crate) fn new() -> Window
        ensures ops { result.ops.items ≡ [] }
        ensures next { result.next ≡ 0 }
    {
        Window {
            ops: ArrayVec::new(),
            next: 0,
        }
    }

    /// Goes on behind the operations that were looked at, until there is no room or all were looked at.
    fn fill(&mut self, kind: WorkerKind, program: &Program, pass: &Pass)
        requires together { (view_of pass.now).program ≡ program.now }
        requires covers { Covers program.now kind (view_of pass.now) self.old.next self.old.ops.items }
        ensures covers { Covers program.now kind (view_of pass.now) self.new.next self.new.ops.items }
        ensures all { length self.new.ops.items ≡ 0 → self.new.next ≡ length program.now.ops }
    {
        let ops = program.ops();
        while self.ops.len() < MOST && (self.next as usize) < ops.len() {
            let k = self.next;
            if does(kind, &ops[k as usize]) && !is_past(program, pass, k) {
                self.ops.push(k);
            }
            self.next = k + 1;
        }
    }

    /// The operations for the next round: those of this window that are not past, and as many more as there is room
    /// for.
    pub(crate) fn renewed(&self, kind: WorkerKind, program: &Program, pass: &Pass) -> Window
        requires together { (view_of pass.now).program ≡ program.now }
        requires covers { Covers program.now kind (view_of pass.now) self.now.next self.now.ops.items }
        ensures covers { Covers program.now kind (view_of pass.now) result.next result.ops.items }
        ensures all { length result.ops.items ≡ 0 → result.next ≡ length program.now.ops }
    {
        let mut window = Window {
            ops: without_past(self.ops.as_slice(), program, pass),
            next: self.next,
        };
        window.fill(kind, program, pass);
        window
    }
}
