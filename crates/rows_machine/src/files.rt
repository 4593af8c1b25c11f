//! Machines' files as rows have them, on one line: `~` stands for a line feed, and `^` for a byte that no text has.
//! A file of many pieces has two bars: a number stands before the first, the piece that stands so many times
//! between them, and what follows it behind the second.

use crate::parts::number;
use std::alloc::{AllocError, Global};
use std::io;

/// The file of this text.
pub fn read_file(alloc: Global, text: &str) -> io::Result<Vec<u8>> {
    let (times, rest) = text.split_once("|").unwrap_or(("0", text));
    let (piece, rest) = rest.split_once("|").unwrap_or(("", rest));
    let mut file = Vec::new(alloc);
    for _ in 0..number(times)? {
        add_text(&mut file, piece)?;
    }
    add_text(&mut file, rest)?;
    Ok(file)
}

/// Puts what the text stands for at the end of the file.
fn add_text(file: &mut Vec<u8>, text: &str) -> Result<(), AllocError> {
    for byte in text.as_bytes() {
        file.push(match *byte {
            b'~' => b'\n',
            b'^' => 0xFF,
            other => other,
        })?;
    }
    Ok(())
}
