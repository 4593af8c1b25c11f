//! Claims on decks, as the lines of standard input ask. Each line is printed, with its answer behind it.
//!
//! - `claims K K ..`: what one pass is answered that claims these operations of a program of three, does each that
//!   it gets and hands it back. The first is in a trap, the second in this and in another, the third in the other.
//! - `threads NUMBER QUBITS ITEMS WORKERS DECKS`: the circuit that is made from the number is compiled for a line of
//!   six traps. So many workers, each in a thread of its own, claim all operations of it, on one new deck after
//!   another. It tells how often the cells are those of one thread that does the operations in order.
//! - `parts GATES WORKERS SWEEPS DECKS`: so many gates in each of four traps. Each of 1, 2 or 4 workers, in a thread
//!   of its own, goes so many times over the operations in traps that no other has, on one new deck after another.
//!   It tells how many operations were done in all.
//! - `order GATES RUNS TIMES`: one thread does the same operations in order, with no deck, so many times on new
//!   cells. Where RUNS is 0 it only makes the cells.
//!
//! The last two are for the measure of speed in `bench/`.
#![tactic(auto)]

mod circuits;
mod passes;
mod rows;

use crate::rows::answer;
use qccd_base::NoMemory;
use std::io::{Read, Write};
use std::process::ExitCode;

fn main(rt: HostRuntime) -> ExitCode {
    let mut text = String::new(rt.alloc());
    if rt.stdin().read_to_string(&mut text).is_err() {
        return ExitCode::from(2);
    }
    for row in text.as_str().lines() {
        let Ok(told) = answer(&rt, rt.alloc(), row) else {
            return ExitCode::from(12);
        };
        if println!(rt; "{row}:{told}").is_err() {
            return ExitCode::from(4);
        }
    }
    ExitCode::from(0)
}
