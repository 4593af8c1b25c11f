//! Runs of whole programs by several workers, as the lines of standard input ask. A line that begins with a word of
//! these and a colon is printed with its answer below it, and each other line as it stands:
//!
//! - `same: WORDS`: the command is done by one worker, and then 100 times by each of 2, 3, 4, 8 and 16. The answer has
//!   the status, the last line of what one worker wrote, and in how many of the 500 times others wrote the same.
//! - `told: WORDS`: the command is done once. The answer tells how often the post was told of an operation, how many
//!   operations below 16,384 it was told of just once, and how often worker 0 told it.
//! - `twice: WORDS`: the command is done 20 times. The answer tells how many of the operations below 16,384 the post was
//!   told of more than once.
//! - `held: WORDS`: the command is done by a post that holds operation 0 until operation 1 is told as well, and operation
//!   1 until 0 is, each for a billion looks at most. The answer has the status, the last line, whether
//!   both were told, and whether each met the other.
//!
//! Behind the words may stand a bar and the statements of the circuit `a`.
#![tactic(auto)]

mod commands;
mod posts;
mod rows;

use crate::rows::answer;
use std::io::{Read, Write};
use std::process::ExitCode;

fn main(rt: HostRuntime) -> ExitCode {
    let mut text = String::new(rt.alloc());
    if rt.stdin().read_to_string(&mut text).is_err() {
        return ExitCode::from(2);
    }
    for row in text.as_str().lines() {
        let Ok(told) = answer(&rt, row) else {
            return ExitCode::from(12);
        };
        if println!(rt; "{row}{told}").is_err() {
            return ExitCode::from(4);
        }
    }
    ExitCode::from(0)
}
