//! Sweeps of two workers in turn, as the lines of standard input ask. Each line is printed, with its answer behind it.
//!
//! A line is `PROGRAM KIND KIND SWEEP ..`, with the kinds of the workers 0 and 1. A sweep is the number of a worker, or
//! that and `:MOST` for a sweep of so many claims at most. The programs:
//!
//! - `fence`: a gate in a trap, a barrier over this trap and the next, a gate in the next.
//! - `hop`: eleven gates in six traps that two rows of three make, a hop through another trap, and a gate there. These
//!   are 11, 17 and 1 operations.
//! - `four`: forty gates in each of four traps, in turn.
//!
//! The answer tells for each sweep how many operations of how many claims were got, then how often the post was told
//! of an operation by each worker, the sum of the numbers that it was told, the greatest clock on the closed deck, and
//! whether its cells are those of one thread that does all operations in order.
#![tactic(auto)]

mod circuits;
mod pair;
mod rows;
mod told;

use crate::rows::answer;
use std::io::{Read, Write};
use std::process::ExitCode;

fn main(rt: HostRuntime) -> ExitCode {
    let mut text = String::new(rt.alloc());
    if rt.stdin().read_to_string(&mut text).is_err() {
        return ExitCode::from(2);
    }
    for row in text.as_str().lines() {
        let Ok(told) = answer(rt.alloc(), row) else {
            return ExitCode::from(12);
        };
        if println!(rt; "{row}:{told}").is_err() {
            return ExitCode::from(4);
        }
    }
    ExitCode::from(0)
}
