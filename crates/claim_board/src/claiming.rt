//! Claims and hand-backs.

ghost use Rattle.std.specs.Prelude.{◌≡◌, ◌+◌, ◌<◌, ◌≤◌, ℕ, true, length, Some};
ghost use Rattle.qccd_base.specs.declared.names.Res.{Res};
ghost use Rattle.qccd_base.specs.Resource.{among};
ghost use Rattle.claim_core.specs.Event.{touched};
ghost use Rattle.claim_board.specs.Deck.{HoldsNext, IsEmpty, Together, cells_of, view_of};
ghost use Rattle.claim_board.specs.Pass.{Answered, Kept, next_turn};
ghost use Rattle.claim_board.specs.View.{seen_of};

use crate::claimed::Claimed;
use crate::deck::Deck;
use crate::giving::give_all;
use crate::pass::Pass;
use crate::reading::look_at_all;
use crate::taking::take_all;
use qccd_program::Program;

impl Deck {
    /// Claims an operation for a pass that has nothing in hand. It looks at each of the operation's resources and,
    /// where all are free at their turns, takes them in order with their cells. It never waits, tries nothing
    /// again and takes no memory.
    pub fn claim(&self, program: &Program, pass: &mut Pass, k: u32) -> Claimed
        requires together { Together self.now program.now pass.old }
        requires empty { IsEmpty pass.old }
        requires there { k < length program.now.ops }
        ensures answer { Answered (view_of pass.old) (view_of pass.new) k (cells_of pass.new) result }
        ensures kept { Kept (view_of pass.old) (view_of pass.new) (length (touched program.now.ops k) + 1) }
        ensures together { Together self.now program.now pass.new }
    {
        let top = &self.words.shared;
        let Pass {
            place,
            number,
            op,
            seen,
            cells,
            ..
        } = pass;
        if let Some(why) = look_at_all(top, program, place, seen, k) {
            return why;
        }
        if let Some(why) = take_all(top, program, place, seen, cells, *number, k) {
            return why;
        }
        *op = Some(k);
        Claimed::Got
    }

    /// Hands the operation in hand back: puts its cells home, raises the turns of its resources and empties the
    /// hand. It takes no memory.
    pub fn hand_back(&self, program: &Program, pass: &mut Pass)
        requires together { Together self.now program.now pass.old }
        requires holds { HoldsNext program.now pass.old }
        ensures empty { IsEmpty pass.new }
        ensures seen { (k : ℕ) (r : Res) → (view_of pass.old).op ≡ Some k → among (touched program.now.ops k) r ≡ true → next_turn program.now k r ≤ seen_of (view_of pass.new) r }
        ensures begun { (view_of pass.new).begun ≡ (view_of pass.old).begun }
        ensures kept { Kept (view_of pass.old) (view_of pass.new) 0 }
        ensures together { Together self.now program.now pass.new }
    {
        let top = &self.words.shared;
        let Pass {
            place,
            op,
            seen,
            cells,
            ..
        } = pass;
        if let Some(k) = *op {
            give_all(top, program, place, seen, cells, k);
        }
        *op = None;
    }
}
