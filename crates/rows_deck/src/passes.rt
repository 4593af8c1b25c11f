//! Passes that claim operations, do them and hand them back.

ghost use Rattle.std.specs.Prelude.{◌≡◌, ◌<◌, IfOk, length};
ghost use Rattle.claim_board.specs.Deck.{view_of};
ghost use Rattle.rows_deck.specs.Ready.{AreReady, IsReady};

use claim_board::{Claimed, Closed, Deck, Pass};
use op_cells::apply;
use qccd_base::NoMemory;
use qccd_program::Program;
use std::alloc::Global;
use std::thread::{Threads, for_each_mut};

// The most workers of a deck.
const MOST_WORKERS: u64 = 16;

/// Claims an operation and, where it is got, does it and hands it back.
pub fn try_one(deck: &Deck, program: &Program, pass: &mut Pass, k: u32) -> Claimed
    requires ready { IsReady deck.now program.now pass.old }
    requires there { k < length program.now.ops }
    ensures ready { IsReady deck.now program.now pass.new }
    ensures number { (view_of pass.new).number ≡ (view_of pass.old).number }
{
    let answer = deck.claim(program, pass, k);
    if let Claimed::Got = answer {
        let op = &program.ops()[k as usize];
        apply(program.machine(), k, op, pass.cells());
        deck.hand_back(program, pass);
    }
    answer
}

// Claims the operations of a part, in order: those whose number leaves this rest.
fn sweep_part(deck: &Deck, program: &Program, pass: &mut Pass, part: u32, parts: u32)
    requires ready { IsReady deck.now program.now pass.old }
    requires parts { 0 < parts }
    ensures ready { IsReady deck.now program.now pass.new }
    ensures number { (view_of pass.new).number ≡ (view_of pass.old).number }
{
    for k in 0..program.ops().len() as u32 {
        if k % parts == part {
            try_one(deck, program, pass, k);
        }
    }
}

// The same, so many times, for the part of the pass's number.
fn sweep(deck: &Deck, program: &Program, pass: &mut Pass, parts: u32, rounds: u32)
    requires ready { IsReady deck.now program.now pass.old }
    requires parts { 0 < parts }
    ensures ready { IsReady deck.now program.now pass.new }
    ensures number { (view_of pass.new).number ≡ (view_of pass.old).number }
{
    let part = pass.number() % parts;
    for round in 0..rounds {
        sweep_part(deck, program, pass, part, parts);
    }
}

/// The deck of a program, and a pass for each of so many workers, 1 to 16 of them.
pub fn dealt(alloc: Global, program: &Program, workers: u64) -> Result<(Deck, Vec<Pass>), NoMemory>
    ensures { IfOk result (λ r. AreReady r.0 program.now r.1.items) }
{
    Deck::deal(alloc, program, workers.clamp(1, MOST_WORKERS) as u8)
}

/// All passes claim operations in so many threads. Each goes over those of a part so many times: over all
/// of them, where there is one part, or else over those of its own.
pub fn sweep_all<R: Threads + Sync>(
    rt: &R,
    deck: &Deck,
    program: &Program,
    passes: &mut [Pass],
    threads: usize,
    parts: u32,
    rounds: u32,
)
    requires ready { AreReady deck.now program.now passes.old }
    requires threads { 0 < threads }
    requires parts { 0 < parts }
    ensures { AreReady deck.now program.now passes.new }
{
    for_each_mut(
        rt,
        passes,
        threads,
        &|_: usize, pass: &mut Pass|
            requires { IsReady deck.now program.now pass.old × (0 < parts) }
            ensures { IsReady deck.entry.now program.entry.now pass.new × ((view_of pass.new).number ≡ (view_of pass.old).number) }
        { sweep(deck, program, pass, parts, rounds) },
    );
}

/// What is left of the deck, with all its passes.
pub fn closed(deck: Deck, program: &Program, passes: Vec<Pass>) -> Closed
    requires { AreReady deck program.now passes.items }
{
    deck.close(passes)
}
