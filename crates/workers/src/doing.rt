//! Doing one operation.

ghost use Rattle.std.specs.Prelude.{◌≡◌, ◌<◌, length};
ghost use Rattle.claim_board.specs.Close.{one_if};
ghost use Rattle.claim_board.specs.Deck.{IsEmpty, Together, view_of};
ghost use Rattle.workers.specs.Sweep.{HasWorked};

use claim_board::{Claimed, Deck, Pass};
use op_cells::apply;
use qccd_io::Post;
use qccd_program::Program;

/// Claims an operation. If the pass gets it, the post is told, the operation is done on its cells and handed back.
pub(crate) fn do_one<P: Post>(
    deck: &Deck,
    program: &Program,
    pass: &mut Pass,
    post: &P,
    k: u32,
) -> bool
    requires together { Together deck.now program.now pass.old }
    requires empty { IsEmpty pass.old }
    requires there { k < length program.now.ops }
    ensures together { Together deck.now program.now pass.new }
    ensures empty { IsEmpty pass.new }
    ensures worked { HasWorked (view_of pass.old) (view_of pass.new) (one_if result) 1 }
{
    if let Claimed::Got = deck.claim(program, pass, k) {
        post.at(pass.number(), k);
        let op = &program.ops()[k as usize];
        apply(program.machine(), k, op, pass.cells());
        deck.hand_back(program, pass);
        true
    } else {
        false
    }
}
