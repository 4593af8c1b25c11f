//! A deck and its two workers.

ghost use Rattle.std.specs.Prelude.{◌≡◌, ℕ, IfOk};
ghost use Rattle.rows_workers.specs.Pair.{AreReady, IsReady};

use claim_board::{Closed, Deck};
use qccd_base::NoMemory;
use qccd_io::Post;
use qccd_program::Program;
use std::alloc::Global;
use workers::{Swept, Worker, WorkerKind};

/// The deck of a program, and two workers of these kinds.
pub fn dealt(
    alloc: Global,
    program: &Program,
    first: WorkerKind,
    second: WorkerKind,
) -> Result<(Deck, Worker, Worker), NoMemory>
    ensures { IfOk result (λ r. AreReady r.0 program.now r.1 r.2) }
{
    let (deck, passes) = Deck::deal(alloc, program, 2)?;
    let mut passes = passes;
    let one = passes.remove(1);
    let zero = passes.remove(0);
    Ok((deck, Worker::of(first, zero), Worker::of(second, one)))
}

/// A sweep of a worker, of so many claims at most where that is asked.
pub fn swept<P: Post>(
    deck: &Deck,
    program: &Program,
    worker: &mut Worker,
    post: &P,
    most: Option<u64>,
) -> Swept
    requires { (number : ℕ) × IsReady deck.now program.now number worker.old }
    ensures { (number : ℕ) → IsReady deck.now program.now number worker.old → IsReady deck.now program.now number worker.new }
{
    match most {
        Some(most) => worker.sweep_some(deck, program, post, most),
        None => worker.sweep(deck, program, post),
    }
}

/// What is left of the deck, with both workers' passes.
pub fn closed(
    alloc: Global,
    deck: Deck,
    program: &Program,
    first: Worker,
    second: Worker,
) -> Result<Closed, NoMemory>
    requires { AreReady deck program.now first second }
{
    let passes = vec![in alloc; first.pass(), second.pass()]?;
    Ok(deck.close(passes))
}
