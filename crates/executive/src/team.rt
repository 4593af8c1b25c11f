//! The workers of a deck.

ghost use Rattle.std.specs.Prelude.{◌≡◌, ◌<◌, ◌≤◌, ℕ, [], length, slice_index_or, vec_capacity};
ghost use Rattle.claim_board.specs.Deck.{AreAll, AreDealt, Together, program_of, workers_of};
ghost use Rattle.workers.specs.declared.worker.Worker.{Worker};
ghost use Rattle.workers.specs.Worker.{pass_of};
ghost use Rattle.executive.specs.Kind.{HaveKinds, kind_for};
ghost use Rattle.executive.specs.Team.{IsTeam, SweepsOnce};

use claim_board::{Deck, Pass};
use qccd_io::Post;
use qccd_program::Program;
use std::thread::{Threads, for_each_mut};
use workers::{Worker, WorkerKind};

// Which operations the worker with that number does.
fn kind_for(number: u32, workers: usize) -> WorkerKind
    ensures { result ≡ kind_for number workers }
{
    if workers == 1 {
        WorkerKind::Any
    } else if number % 2 == 0 {
        WorkerKind::Transport
    } else {
        WorkerKind::Gate
    }
}

/// Makes workers of all passes of a deck, as they were dealt.
pub(crate) fn team_of(program: &Program, deck: &Deck, passes: Vec<Pass>, team: &mut Vec<Worker>)
    requires deck { program_of deck.now ≡ program.now }
    requires passes { (length passes.items ≡ workers_of deck.now) × AreDealt deck.now program.now 0 passes.items }
    requires room { (team.old.items ≡ []) × (length passes.items ≤ vec_capacity team.old) }
    ensures team { IsTeam deck.now program.now team.new.items }
    ensures kinds { HaveKinds (length passes.items) team.new.items }
{
    let mut passes = passes;
    let workers = passes.len();
    while !passes.is_empty() {
        let pass = passes.remove(0);
        let kind = kind_for(pass.number(), workers);
        let Ok(()) = team.push(Worker::of(kind, pass)) else {
            unreachable!()
        };
    }
}

/// The passes of all workers of a deck.
pub(crate) fn passes_of(program: &Program, deck: &Deck, team: Vec<Worker>, back: &mut Vec<Pass>)
    requires team { IsTeam deck.now program.now team.items }
    requires room { (back.old.items ≡ []) × (length team.items ≤ vec_capacity back.old) }
    ensures { AreAll deck.now back.new.items }
{
    let mut team = team;
    while !team.is_empty() {
        let worker = team.remove(0);
        let Ok(()) = back.push(worker.pass()) else {
            unreachable!()
        };
    }
}

// One worker sweeps.
fn sweep_one<P: Post>(deck: &Deck, program: &Program, worker: &mut Worker, post: &P)
    requires together { Together deck.now program.now (pass_of worker.old) }
    ensures together { Together deck.now program.now (pass_of worker.new) }
    ensures swept { SweepsOnce program.now worker.old worker.new }
{
    let _swept = worker.sweep(deck, program, post);
}

/// Each worker sweeps once, in a thread of its own.
pub(crate) fn sweep_all<R: Threads + Sync, P: Post>(
    rt: &R,
    program: &Program,
    deck: &Deck,
    team: &mut [Worker],
    threads: usize,
    post: &P,
)
    requires team { IsTeam deck.now program.now team.old }
    requires threads { 0 < threads }
    ensures team { IsTeam deck.now program.now team.new }
    ensures swept { (k : ℕ) (d : Worker) → k < length team.old → SweepsOnce program.now (slice_index_or team.old k d) (slice_index_or team.new k d) }
{
    for_each_mut(
        rt,
        team,
        threads,
        &|_: usize, worker: &mut Worker|
            requires { Together deck.now program.now (pass_of worker.old) }
            ensures { Together deck.entry.now program.entry.now (pass_of worker.new) × SweepsOnce program.entry.now worker.old worker.new }
        { sweep_one(deck, program, worker, post) },
    );
}
