//! What the rows ask, and their answers.

ghost use Rattle.rows_deck.specs.Ready.{IsReady};

use crate::circuits::{generated, in_four_traps, two_gates};
use crate::passes::{closed, dealt, sweep_all, try_one};
use claim_board::{Deck, Pass};
use op_cells::Cells;
use qccd_base::{NoMemory, read_number};
use qccd_program::{Program, run_in_order};
use std::alloc::Global;
use std::thread::Threads;

/// How often each worker goes over all operations.
const ROUNDS: u32 = 8;

// The number of a word, 0 where it is none.
fn number(word: Option<&str>) -> u64 {
    word.and_then(|word| read_number(word.as_bytes()))
        .unwrap_or(0)
}

// What the pass is answered that claims these operations.
fn told(
    alloc: Global,
    deck: &Deck,
    program: &Program,
    pass: &mut Pass,
    wanted: &str,
) -> Result<String, NoMemory>
    requires { IsReady deck.now program.now pass.old }
{
    let mut answers = String::new(alloc);
    for word in wanted.split(' ') {
        let k = number(Some(word));
        if k < program.ops().len() as u64 {
            let answer = try_one(deck, program, pass, k as u32);
            answers.push_str(format!(in alloc; "\n  {k} {answer:?}")?.as_str())?;
        }
    }
    Ok(answers)
}

// What one pass is answered that claims these operations.
fn claims(alloc: Global, program: &Program, wanted: &str) -> Result<String, NoMemory> {
    let (deck, mut passes) = dealt(alloc, program, 1)?;
    match passes.as_mut_slice().first_mut() {
        Some(pass) => told(alloc, &deck, program, pass, wanted),
        None => Ok(String::new(alloc)),
    }
}

// The cells after so many workers, each in a thread, claimed all operations. Those that were left are done in one
// thread.
fn with_threads<R: Threads + Sync>(
    rt: &R,
    alloc: Global,
    program: &Program,
    workers: u64,
) -> Result<Cells, NoMemory> {
    let (deck, mut passes) = dealt(alloc, program, workers)?;
    sweep_all(rt, &deck, program, passes.as_mut_slice(), 16, 1, ROUNDS);
    sweep_all(rt, &deck, program, passes.as_mut_slice(), 1, 1, 1);
    Ok(closed(deck, program, passes).cells)
}

// How often the cells are those of one thread that does all operations in order: what each resource holds, its
// clock and its log.
fn threads<R: Threads + Sync>(
    rt: &R,
    alloc: Global,
    program: &Program,
    workers: u64,
    times: u64,
) -> Result<String, NoMemory> {
    let mut plain = program.first_cells(alloc)?;
    run_in_order(program, &mut plain);
    let plain = format!(in alloc; "{plain:?}")?;
    let mut same = 0u64;
    for _ in 0..times {
        let cells = with_threads(rt, alloc, program, workers)?;
        same = same.saturating_add(u64::from(format!(in alloc; "{cells:?}")? == plain));
    }
    Ok(format!(in alloc; " {same} times the same")?)
}

// How many operations are done by so many workers, each in a thread and on traps of its own, on so many decks.
fn parts<R: Threads + Sync>(
    rt: &R,
    alloc: Global,
    program: &Program,
    workers: u64,
    sweeps: u64,
    decks: u64,
) -> Result<String, NoMemory> {
    let parts = workers.clamp(1, 4) as u32;
    let sweeps = sweeps.min(100) as u32;
    let mut done = 0u64;
    for _ in 0..decks {
        let (deck, mut passes) = dealt(alloc, program, parts.into())?;
        sweep_all(rt, &deck, program, passes.as_mut_slice(), 16, parts, sweeps);
        for turn in closed(deck, program, passes).turns {
            done = done.saturating_add(turn.into());
        }
    }
    Ok(format!(in alloc; " {done} done")?)
}

// How many operations are done by one thread in order, so many times on new cells, or none, where they are only
// made.
fn in_order(alloc: Global, program: &Program, runs: bool, times: u64) -> Result<String, NoMemory> {
    let mut done = 0u64;
    for _ in 0..times {
        let mut cells = program.first_cells(alloc)?;
        if runs {
            run_in_order(program, &mut cells);
            done = done.saturating_add(program.ops().len() as u64);
        }
    }
    Ok(format!(in alloc; " {done} done")?)
}

/// The answer to a row.
pub fn answer<R: Threads + Sync>(rt: &R, alloc: Global, row: &str) -> Result<String, NoMemory> {
    let (verb, rest) = row.split_once(' ').unwrap_or((row, ""));
    let mut words = rest.split(' ');
    let first = number(words.next());
    let second = number(words.next());
    let third = number(words.next());
    let fourth = number(words.next());
    let fifth = number(words.next());
    let program = match verb {
        "claims" => two_gates(alloc)?,
        "threads" => generated(alloc, first, second, third)?,
        "parts" => in_four_traps(alloc, first)?,
        "order" => in_four_traps(alloc, first)?,
        _ => None,
    };
    let Some(program) = program else {
        return Ok(String::from_str(alloc, " no program")?);
    };
    match verb {
        "claims" => claims(alloc, &program, rest),
        "threads" => threads(rt, alloc, &program, fourth, fifth),
        "parts" => parts(rt, alloc, &program, second, third, fourth),
        _ => in_order(alloc, &program, second > 0, third),
    }
}
