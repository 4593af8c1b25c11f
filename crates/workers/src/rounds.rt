//! Rounds of claims.

ghost use Rattle.std.specs.Prelude.{◌≡◌, ◌⊎◌, ◌≤◌, length};
ghost use Rattle.claim_board.specs.Deck.{IsEmpty, Together, view_of};
ghost use Rattle.workers.specs.Sweep.{HasSwept, HasWorked, most_claims};
ghost use Rattle.workers.specs.Window.{AreThere};

use crate::doing::do_one;
use crate::kind::WorkerKind;
use crate::window::Window;
use crate::worker::Swept;
use claim_board::{Deck, Pass};
use qccd_io::Post;
use qccd_program::Program;
use std::hint::spin_loop;

// The longest pause.
const LONGEST: u32 = 1024;

// Pauses after a round that did nothing, each time twice as long up to a limit, so that the worker does not read words
// that others are about to change. It waits for nobody.
fn pause_after(last: u32, done: u32) -> u32
    ensures { result ≤ 1024 }
{
    if done > 0 {
        return 0;
    }
    let pause = last.saturating_mul(2).clamp(1, LONGEST);
    for _ in 0..pause {
        spin_loop();
    }
    pause
}

// Claims these operations in turn, until so many claims were made.
fn claim_each<P: Post>(
    deck: &Deck,
    program: &Program,
    pass: &mut Pass,
    post: &P,
    ops: &[u32],
    most: u64,
) -> Swept
    requires together { Together deck.now program.now pass.old }
    requires empty { IsEmpty pass.old }
    requires there { AreThere program.now ops.now }
    requires limit { most ≤ most_claims program.now }
    ensures together { Together deck.now program.now pass.new }
    ensures empty { IsEmpty pass.new }
    ensures worked { HasWorked (view_of pass.old) (view_of pass.new) result.done result.claims }
    ensures done { result.done ≤ result.claims }
    ensures few { result.claims ≤ most }
    ensures all { (result.claims ≡ most) ⊎ (result.claims ≡ length ops.now) }
{
    let _ops = program.ops();
    let mut swept = Swept { done: 0, claims: 0 };
    for k in ops {
        if swept.claims == most {
            return swept;
        }
        swept.claims += 1;
        if do_one(deck, program, pass, post, *k) {
            swept.done += 1;
        }
    }
    swept
}

/// Makes rounds until each operation of the kind is past, or so many claims were made.
pub(crate) fn make_rounds<P: Post>(
    kind: WorkerKind,
    deck: &Deck,
    program: &Program,
    pass: &mut Pass,
    post: &P,
    most: u64,
) -> Swept
    requires together { Together deck.now program.now pass.old }
    requires empty { IsEmpty pass.old }
    requires limit { most ≤ most_claims program.now }
    ensures swept { HasSwept program.now kind most (view_of pass.old) (view_of pass.new) result.done result.claims }
    ensures together { Together deck.now program.now pass.new }
{
    let _ops = program.ops();
    let mut swept = Swept { done: 0, claims: 0 };
    let mut window = Window::new();
    let mut pause = 0;
    while swept.claims < most {
        window = window.renewed(kind, program, pass);
        let ops = window.ops.as_slice();
        if ops.is_empty() {
            break;
        }
        let round = claim_each(deck, program, pass, post, ops, most - swept.claims);
        swept.done += round.done;
        swept.claims += round.claims;
        pause = pause_after(pause, round.done);
    }
    swept
}
