//! What a worker can be asked to do.

ghost use Rattle.std.specs.Prelude.{◌≡◌, min};
ghost use Rattle.claim_board.specs.Deck.{IsEmpty, Together, view_of};
ghost use Rattle.workers.specs.Sweep.{HasSwept, most_claims};
ghost use Rattle.workers.specs.Worker.{kind_of, pass_of};

use crate::kind::WorkerKind;
use crate::rounds::make_rounds;
use crate::worker::{Swept, Worker};
use claim_board::{Deck, Pass};
use qccd_io::Post;
use qccd_program::Program;

// A sweep makes at most 64 claims for each operation and for 16 more.
fn most_claims(program: &Program) -> u64
    ensures { result ≡ most_claims program.now }
{
    64 * (program.ops().len() as u64 + 16)
}

impl Worker {
    /// A worker of this kind, with a pass that has nothing in hand.
    pub fn of(kind: WorkerKind, pass: Pass) -> Worker
        requires { IsEmpty pass }
        ensures kind { kind_of result ≡ kind }
        ensures pass { pass_of result ≡ pass }
    {
        Worker { kind, pass }
    }

    /// The worker's pass.
    pub fn pass(self) -> Pass
        ensures value { result ≡ pass_of self }
        ensures empty { IsEmpty result }
    {
        self.pass
    }

    /// Claims operations of the worker's kind. Each that it gets is told to the post, done and handed back.
    ///
    /// An operation is past if the pass has seen a resource of it at a greater turn. The sweep makes rounds: each
    /// claims, in their order, the least 64 operations of the kind that are not past at its start, or all of them if
    /// they are fewer. It ends if all operations of the kind are past, or after 64 claims for each operation of the
    /// program and for 16 more. It waits for nobody, pauses a moment after a round that did nothing, and takes no memory.
    pub fn sweep<P: Post>(&mut self, deck: &Deck, program: &Program, post: &P) -> Swept
        requires together { Together deck.now program.now (pass_of self.old) }
        ensures swept { HasSwept program.now (kind_of self.old) (most_claims program.now) (view_of (pass_of self.old)) (view_of (pass_of self.new)) result.done result.claims }
        ensures kind { kind_of self.new ≡ kind_of self.old }
        ensures together { Together deck.now program.now (pass_of self.new) }
    {
        let Worker { kind, pass } = self;
        make_rounds(*kind, deck, program, pass, post, most_claims(program))
    }

    /// A sweep that also ends after so many claims.
    pub fn sweep_some<P: Post>(
        &mut self,
        deck: &Deck,
        program: &Program,
        post: &P,
        most: u64,
    ) -> Swept
        requires together { Together deck.now program.now (pass_of self.old) }
        ensures swept { HasSwept program.now (kind_of self.old) (min most (most_claims program.now)) (view_of (pass_of self.old)) (view_of (pass_of self.new)) result.done result.claims }
        ensures kind { kind_of self.new ≡ kind_of self.old }
        ensures together { Together deck.now program.now (pass_of self.new) }
    {
        let Worker { kind, pass } = self;
        let most = most.min(most_claims(program));
        make_rounds(*kind, deck, program, pass, post, most)
    }
}
