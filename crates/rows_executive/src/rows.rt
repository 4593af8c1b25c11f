//! What the rows ask, and their answers.

use crate::commands::{Wrote, done};
use crate::posts::{Held, Marks};
use qccd_base::NoMemory;
use qccd_io::NoPost;
use std::thread::Threads;

/// How often each number of workers does a command.
const TIMES: u32 = 100;

/// The numbers of workers whose runs are set beside that of one.
const TEAMS: [u8; 5] = [2, 3, 4, 8, 16];

// The last line of what a command wrote, with no line feed.
fn last_line(wrote: &Wrote) -> &str {
    let text = std::str::from_utf8(wrote.text.as_slice()).unwrap_or("");
    text.lines().last().unwrap_or("")
}

// Whether all write what one writes.
fn same_row<R: AllocGlobal + Threads + Sync>(rt: &R, row: &str) -> Result<String, NoMemory> {
    let one = done(rt, row, Some(1), &NoPost)?;
    let mut same: u32 = 0;
    for workers in TEAMS {
        for _ in 0..TIMES {
            let others = done(rt, row, Some(workers), &NoPost)?;
            if others.status == one.status && others.text.as_slice() == one.text.as_slice() {
                same = same.wrapping_add(1);
            }
        }
    }
    let status = one.status.0;
    let last = last_line(&one);
    Ok(format!(in rt.alloc(); "\nstatus {status}, {last}, {same} the same")?)
}

// What the post is told.
fn told_row<R: AllocGlobal + Threads + Sync>(rt: &R, row: &str) -> Result<String, NoMemory> {
    let marks = Marks::of(rt.alloc())?;
    let status = done(rt, row, None, &marks)?.status.0;
    let told = marks.told();
    let once = marks.once();
    let first = marks.by_first();
    Ok(format!(in rt.alloc();
        "\nstatus {status}, told {told}, just once {once}, by worker 0 {first}"
    )?)
}

// Of how many operations the post is told more than once.
fn twice_row<R: AllocGlobal + Threads + Sync>(rt: &R, row: &str) -> Result<String, NoMemory> {
    let mut twice: usize = 0;
    for _ in 0..20 {
        let marks = Marks::of(rt.alloc())?;
        let _done = done(rt, row, None, &marks)?;
        twice = twice.wrapping_add(marks.twice());
    }
    Ok(format!(in rt.alloc(); "\ntwice {twice}")?)
}

// Whether operations 0 and 1 are in hand at once.
fn held_row<R: AllocGlobal + Threads + Sync>(rt: &R, row: &str) -> Result<String, NoMemory> {
    let held = Held::new();
    let wrote = done(rt, row, None, &held)?;
    let status = wrote.status.0;
    let last = last_line(&wrote);
    let told = if held.told() { "both told" } else { "not told" };
    let met = if held.missed() {
        "one missed"
    } else {
        "both met"
    };
    Ok(format!(in rt.alloc(); "\nstatus {status}, {last}, {told}, {met}")?)
}

/// What stands behind a row.
pub fn answer<R: AllocGlobal + Threads + Sync>(rt: &R, row: &str) -> Result<String, NoMemory> {
    match row.split_once(": ") {
        Some(("same", row)) => same_row(rt, row),
        Some(("told", row)) => told_row(rt, row),
        Some(("twice", row)) => twice_row(rt, row),
        Some(("held", row)) => held_row(rt, row),
        _ => Ok(String::new(rt.alloc())),
    }
}
