//! What the rows ask, and their answers.

ghost use Rattle.rows_workers.specs.Pair.{AreReady};

use crate::circuits::named;
use crate::pair::{closed, dealt, swept};
use crate::told::Told;
use claim_board::Deck;
use op_cells::Cells;
use qccd_base::{NoMemory, read_number};
use qccd_program::{Program, run_in_order};
use std::alloc::Global;
use workers::{Swept, Worker, WorkerKind};

// The kind of this name.
fn kind(word: &str) -> WorkerKind {
    match word {
        "Transport" => WorkerKind::Transport,
        "Gate" => WorkerKind::Gate,
        _ => WorkerKind::Any,
    }
}

// The sweep that a word asks for.
fn one_sweep(
    deck: &Deck,
    program: &Program,
    first: &mut Worker,
    second: &mut Worker,
    post: &Told,
    word: &str,
) -> Swept
    requires { AreReady deck.now program.now first.old second.old }
    ensures { AreReady deck.now program.now first.new second.new }
{
    let (number, most) = word.split_once(':').unwrap_or((word, ""));
    let most = read_number(most.as_bytes());
    if number == "0" {
        swept(deck, program, first, post, most)
    } else {
        swept(deck, program, second, post, most)
    }
}

// What the sweeps got, one after another.
fn sweeps(
    alloc: Global,
    deck: &Deck,
    program: &Program,
    first: &mut Worker,
    second: &mut Worker,
    post: &Told,
    asked: &str,
) -> Result<String, NoMemory>
    requires { AreReady deck.now program.now first.old second.old }
    ensures { AreReady deck.now program.now first.new second.new }
{
    let mut answers = String::new(alloc);
    for word in asked.split(' ') {
        let told = one_sweep(deck, program, first, second, post, word);
        answers.push_str(format!(in alloc; " {} of {},", told.done, told.claims)?.as_str())?;
    }
    Ok(answers)
}

// The greatest clock.
fn clock(cells: &Cells) -> u64 {
    let mut most = 0;
    for cell in cells.as_slice() {
        most = most.max(cell.free_at);
    }
    most
}

// Whether the cells are those of one thread that does all operations in order.
fn compared(alloc: Global, program: &Program, cells: &Cells) -> Result<&'static str, NoMemory> {
    let mut plain = program.first_cells(alloc)?;
    run_in_order(program, &mut plain);
    let same = format!(in alloc; "{plain:?}")? == format!(in alloc; "{cells:?}")?;
    Ok(if same { "the same" } else { "others" })
}

// What two workers of these kinds get of a program.
fn worked(
    alloc: Global,
    program: &Program,
    kinds: (WorkerKind, WorkerKind),
    asked: &str,
) -> Result<String, NoMemory> {
    let (deck, first, second) = dealt(alloc, program, kinds.0, kinds.1)?;
    let mut first = first;
    let mut second = second;
    let post = Told::new();
    let answers = sweeps(alloc, &deck, program, &mut first, &mut second, &post, asked)?;
    let (by_first, by_second, sum) = post.counts();
    let cells = closed(alloc, deck, program, first, second)?.cells;
    let same = compared(alloc, program, &cells)?;
    let clock = clock(&cells);
    Ok(format!(in alloc;
        "{answers} told {by_first} and {by_second}, sum {sum}, clock {clock}, {same}"
    )?)
}

/// The answer to a row.
pub fn answer(alloc: Global, row: &str) -> Result<String, NoMemory> {
    let (name, rest) = row.split_once(' ').unwrap_or((row, ""));
    let (first, rest) = rest.split_once(' ').unwrap_or((rest, ""));
    let (second, asked) = rest.split_once(' ').unwrap_or((rest, ""));
    match named(alloc, name)? {
        Some(program) => worked(alloc, &program, (kind(first), kind(second)), asked),
        None => Ok(String::from_str(alloc, " no program")?),
    }
}
