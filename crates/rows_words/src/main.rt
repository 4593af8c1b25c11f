//! Tells what the words of each row of standard input ask for, or `none` where they have no reading. The words
//! stand behind a `$`, each behind one blank, so that a word may be empty and there may be none. A row with no
//! `$` stands as it is.
#![tactic(auto)]

use qccd_words::request;
use std::alloc::{AllocError, Global};
use std::io::{self, Read};

/// The words behind the `$`.
fn words_of(alloc: Global, row: &str) -> Result<Vec<String>, AllocError> {
    let mut words = Vec::new(alloc);
    for word in row.split(' ').skip(1) {
        words.push(String::from_str(alloc, word)?)?;
    }
    Ok(words)
}

/// Prints the row and what its words ask for.
fn show_row(rt: &impl Print, alloc: Global, row: &str) -> io::Result<()> {
    if !row.starts_with("$") {
        return println!(rt; "{row}");
    }
    let words = words_of(alloc, row)?;
    match request(words.as_slice()) {
        Some(asked) => println!(rt; "{row} = {asked:?}"),
        None => println!(rt; "{row} = none"),
    }
}

fn main(rt: HostRuntime) -> io::Result<()> {
    let mut rows = String::new(rt.alloc());
    rt.stdin().read_to_string(&mut rows)?;
    for row in rows.lines() {
        show_row(&rt, rt.alloc(), row)?;
    }
    Ok(())
}
