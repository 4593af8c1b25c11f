//! What is read of a pass.

ghost use Rattle.std.specs.Prelude.{◌≡◌, true, [], None};
ghost use Rattle.std.specs.Borrow.{sem};
ghost use Rattle.claim_core.specs.Board.{is_there};
ghost use Rattle.claim_board.specs.Deck.{IsEmpty, cells_of, view_of};
ghost use Rattle.claim_board.specs.Lent.{LendsCells};
ghost use Rattle.claim_board.specs.View.{seen_of};

use crate::pass::Pass;
use op_cells::Held;
use qccd_base::Res;

impl Pass {
    /// The operation in hand.
    pub fn hand(&self) -> Option<u32>
        ensures { result ≡ (view_of self.now).op }
    {
        self.op
    }

    /// The pass's number.
    pub fn number(&self) -> u32
        ensures { result ≡ (view_of self.now).number }
    {
        self.number
    }

    /// The greatest turn of the resource that the pass has read or made. It takes no memory.
    pub fn seen(&self, r: Res) -> u32
        requires there { is_there (view_of self.now).program r ≡ true }
        ensures { result ≡ seen_of (view_of self.now) r }
    {
        let i = match r {
            Res::Trap(trap) => usize::from(trap.0),
            Res::Seg(seg) => self.bounds.segments + usize::from(seg.0),
            Res::Junc(junc) => self.bounds.junctions + usize::from(junc.0),
            Res::Bit(bit) => self.bounds.bits + usize::from(bit.0),
        };
        self.seen[i]
    }

    /// The cells in hand, ascending; there are none where nothing is in hand.
    pub fn cells(&mut self) -> &mut [Held]
        ensures* lends { sem 𝓛 (LendsCells self.entry result) }
        ensures value { result.now ≡ cells_of self.old }
        ensures none { IsEmpty self.old → result.now ≡ [] }
    {
        self.cells.as_mut_slice()
    }
}
