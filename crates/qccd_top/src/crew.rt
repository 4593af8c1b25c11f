//! What programs are run with.

ghost use Rattle.std.specs.Prelude.{IfOk};
ghost use Rattle.qccd_program.specs.AllCells.{AtEnd};
ghost use Rattle.qccd_words.specs.Words.{AreWorkers};

use op_cells::Cells;
use qccd_base::NoMemory;
use qccd_io::Post;
use qccd_program::Program;
use std::alloc::Global;
use std::thread::Threads;

/// What programs are run with, however many workers run them.
#[derive(Drop)]
pub struct Crew<'c, R: Threads + Sync, P: Post> {
    /// Starts the workers' threads.
    pub rt: &'c R,
    pub alloc: Global,
    /// Is told each operation by the worker that does it.
    pub post: &'c P,
}

impl<'c, R: Threads + Sync, P: Post> Crew<'c, R, P> {
    /// The cells at the end of the program's run by this many workers. Out of memory, it did no operation.
    pub fn execute(&self, program: &Program, workers: u8) -> Result<Cells, NoMemory>
        requires workers { AreWorkers workers }
        ensures end { IfOk result (λ cells. AtEnd program.now cells) }
    {
        executive::execute(self.rt, self.alloc, program, workers, self.post)
    }
}
