//! The text that a row stands for.

use crate::fault::Fault;
use qccd_base::{NoMemory, number_text, read_number};
use std::alloc::Global;

/// Puts the text at the end, with a line feed for each `~`.
fn put(text: &str, all: &mut Vec<u8>) -> Result<(), NoMemory> {
    for byte in text.as_bytes() {
        all.push(if *byte == b'~' { b'\n' } else { *byte })?;
    }
    Ok(())
}

/// Puts the text at the end, with the number for each `#`.
fn put_numbered(text: &str, number: u64, all: &mut Vec<u8>) -> Result<(), NoMemory> {
    for (i, part) in text.split('#').enumerate() {
        if i > 0 {
            all.extend_from_slice(number_text(number).as_bytes())?;
        }
        put(part, all)?;
    }
    Ok(())
}

/// Puts what stands in braces at the end, as often as they say.
fn put_braced(braced: &str, all: &mut Vec<u8>) -> Result<(), Fault> {
    let (times, text) = braced.split_once(":").ok_or(Fault::Row)?;
    for number in 0..read_number(times.as_bytes()).ok_or(Fault::Row)? {
        put_numbered(text, number, all)?;
    }
    Ok(())
}

/// Puts a row's text at the end.
fn put_row(row: &str, all: &mut Vec<u8>) -> Result<(), Fault> {
    for part in row.split('{') {
        match part.split_once("}") {
            None => put(part, all)?,
            Some((braced, rest)) => {
                put_braced(braced, all)?;
                put(rest, all)?;
            }
        }
    }
    Ok(())
}

/// The row's text between these two, with what its signs stand for.
pub fn text_of(alloc: Global, before: &str, row: &str, behind: &str) -> Result<Vec<u8>, Fault> {
    let mut text = Vec::new(alloc);
    put(before, &mut text)?;
    put_row(row, &mut text)?;
    put(behind, &mut text)?;
    Ok(text)
}
