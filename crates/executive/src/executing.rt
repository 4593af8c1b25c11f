//! Running a program with several workers.

ghost use Rattle.std.specs.Prelude.{◌<◌, ◌≤◌, IfOk};
ghost use Rattle.qccd_program.specs.AllCells.{AtEnd};

use crate::finishing::finish;
use crate::team::{passes_of, sweep_all, team_of};
use claim_board::Deck;
use op_cells::Cells;
use qccd_base::NoMemory;
use qccd_io::Post;
use qccd_program::Program;
use std::alloc::Global;
use std::thread::Threads;

/// The cells at the end of the program's run, for 1 to 16 workers. Each sweeps once, in a thread of its own, and the
/// caller does what they leave, without telling the post. All memory is taken before any operation is done, so a run that
/// is out of memory did none.
pub fn execute<R: Threads + Sync, P: Post>(
    rt: &R,
    alloc: Global,
    program: &Program,
    workers: u8,
    post: &P,
) -> Result<Cells, NoMemory>
    requires workers { (0 < workers) × (workers ≤ 16) }
    ensures { IfOk result (λ cells. AtEnd program.now cells) }
{
    let (deck, passes) = Deck::deal(alloc, program, workers)?;
    let mut team = Vec::with_capacity(alloc, usize::from(workers))?;
    let mut back = Vec::with_capacity(alloc, usize::from(workers))?;
    team_of(program, &deck, passes, &mut team);
    let threads = usize::from(workers);
    sweep_all(rt, program, &deck, team.as_mut_slice(), threads, post);
    passes_of(program, &deck, team, &mut back);
    let closed = deck.close(back);
    Ok(finish(program, closed))
}
